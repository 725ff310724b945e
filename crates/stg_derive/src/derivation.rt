//! The derivation of a part: one attempt after the other, each with one more signal known.

ghost use Rattle.std.specs.Prelude.{◌≡◌, ◌<◌, ◌≢◌, ◌++◌, ◌∷◌, [], ◌≤◌, false, length, All, AllPairs, IfOk, OnOk};
ghost use Rattle.stg_net.specs.declared.limits.TheConstants.Limits.{SPEC, PART};
ghost use Rattle.stg_net.specs.Graph.{IsDummy};
ghost use Rattle.stg_net.specs.Net.{NetLists, IsNet, IsWithin};
ghost use Rattle.stg_net.specs.Initial.{initial, graph_of};
ghost use Rattle.stg_net.specs.Names.{IsWellNamed};
ghost use Rattle.stg_laws.specs.Closed.{IsClosed};
ghost use Rattle.stg_laws.specs.Conflict.{HasNoAutoConflict};
ghost use Rattle.stg_contract.specs.Calm.{IsCalm};
ghost use Rattle.stg_laws.specs.Deterministic.{HasNoDummy};
ghost use Rattle.stg_laws.specs.Faithful.{IsFaithful};
ghost use Rattle.stg_laws.specs.Groups.{names_at};
ghost use Rattle.stg_laws.specs.Stgs.{stg_of};
ghost use Rattle.stg_net.specs.Component.{is_one_of as lists_one_of};
ghost use Rattle.stg_derive.specs.declared.part.Restore.{Restore};
ghost use Rattle.stg_derive.specs.Loggable.{IsLoggable};
ghost use Rattle.stg_derive.specs.Steps.{IsAtRest};
ghost use Rattle.stg_derive.specs.Undoing.{IsExactlyWorn};
ghost use Rattle.stg_derive.specs.inner.UnderWay.{IsAttemptSoFar, AreUndoneBy};
ghost use Rattle.stg_derive.specs.Derivations.{IsLeastDummy, IsRecord, IsDerivedPart, AreGivenBack, with_restored, hidden_signals};

use crate::attempt::{Attempt, begin, go_on};
use crate::choice::first_dummy;
use crate::undoing::give_back;
use crate::{Part, Restore};
use std::alloc::Global;
use stg_contract::test_calm;
use stg_edit::Editor;
use stg_net::{Net, NoMemory, Seq, Spec};
use stg_partition::Group;

/// The record of the least dummy.
fn record_of(net: &Net, editor: &Editor, t: u32) -> Restore
    requires there { t < length net.now.trans }
    requires least { IsLeastDummy editor.now.now t }
    requires calm { IsCalm editor.now.now }
    ensures { IsRecord net.now editor.now.now result }
{
    Restore {
        signal: net.trans()[t as usize].signal,
        trans: t,
        verdict: test_calm(editor, t),
    }
}

/// The part, once an attempt has left no dummy.
fn finish(
    alloc: Global,
    net: &Net,
    group: &Group,
    restored: Seq<Restore>,
    attempt: Attempt,
) -> Result<Part, NoMemory>
    requires is_net { IsNet net.now }
    requires within { IsWithin SPEC net.now }
    requires named { IsWellNamed net.now }
    requires in_range { All (λ s. s < length net.now.signals) group.now.known }
    requires closed { IsClosed (graph_of net.now) (names_at net.now group.now.own)
        (names_at net.now group.now.known) }
    requires known { attempt.known ≡ with_restored net.now group.now.known restored }
    requires given_back { AreGivenBack net.now group.now.known restored }
    requires under_way { IsAttemptSoFar net.now attempt }
    requires rests { IsAtRest attempt.editor.now }
    requires no_dummy { HasNoDummy attempt.editor.now }
    requires undone { AreUndoneBy net.now group.now.known restored attempt.editor.undone }
    ensures part { IfOk result (λ part. IsDerivedPart net.now group.now part) }
    ensures net { IfOk result (λ part. IsNet part.net) }
    ensures within { IfOk result (λ part. IsWithin PART part.net) }
    ensures named { IfOk result (λ part. IsWellNamed part.net) }
    ensures faithful { IfOk result (λ part. IsFaithful (graph_of net.now) (stg_of part.net)) }
    ensures differ { IfOk result
        (λ part. AllPairs (λ (r s : Restore). r.signal ≢ s.signal) part.restored) }
    ensures hidden { IfOk result (λ part.
        All (λ (r : Restore). lists_one_of group.now.known r.signal ≡ false) part.restored) }
    ensures attempts { IfOk result (λ part.
        length part.restored ≤ length (hidden_signals net.now group.now.known)) }
    ensures loggable { IfOk result (λ part. IsLoggable net.now part) }
    ensures worn { IfOk result (λ part. IsExactlyWorn net.now group.now part) }
{
    let Attempt {
        known,
        editor,
        steps,
        ..
    } = attempt;
    let own = Seq::from_slice(alloc, group.own.as_slice())?;
    let made = editor.net(&own)?;
    let _signals = made.signals();
    Ok(Part {
        net: made,
        own,
        known,
        restored,
        steps: Seq::from_vec(steps),
        wear: editor.close(),
    })
}

/// Derives the part of a group in a specification without structural auto-conflicts. The group must
/// know the signals of all arcs at the places from which its own transitions take.
///
/// Plain steps are made from the initial component on. Where dummies are left when there is none,
/// the signal of the least one is given back (backtracking, W. Vogler and R. Wollowski,
/// *Decomposition in Asynchronous Circuit Design*), and the next attempt begins with the steps that
/// stay: the others alone are undone. So there is at most one attempt more than there are hidden
/// signals, and the part's wear has the steps of the last attempt and the undone ones of the others.
pub fn derive(alloc: Global, spec: &Spec, group: &Group) -> Result<Part, NoMemory>
    requires within { IsWithin SPEC spec.now.net }
    requires in_range { All (λ s. s < length spec.now.net.signals) group.now.known }
    requires closed { IsClosed (graph_of spec.now.net) (names_at spec.now.net group.now.own)
        (names_at spec.now.net group.now.known) }
    requires no_conflict { HasNoAutoConflict (graph_of spec.now.net) }
    ensures part { IfOk result (λ part. IsDerivedPart spec.now.net group.now part) }
    ensures net { IfOk result (λ part. IsNet part.net) }
    ensures within { IfOk result (λ part. IsWithin PART part.net) }
    ensures named { IfOk result (λ part. IsWellNamed part.net) }
    ensures faithful { IfOk result (λ part. IsFaithful (graph_of spec.now.net) (stg_of part.net)) }
    ensures differ { IfOk result
        (λ part. AllPairs (λ (r s : Restore). r.signal ≢ s.signal) part.restored) }
    ensures hidden { IfOk result (λ part.
        All (λ (r : Restore). lists_one_of group.now.known r.signal ≡ false) part.restored) }
    ensures attempts { IfOk result (λ part.
        length part.restored ≤ length (hidden_signals spec.now.net group.now.known)) }
    ensures loggable { IfOk result (λ part. IsLoggable spec.now.net part) }
    ensures worn { IfOk result (λ part. IsExactlyWorn spec.now.net group.now part) }
{
    let net = spec.net();
    let mut attempt = begin(alloc, net, &group.known)?;
    let mut restored = Seq::new(alloc);
    loop {
        go_on(alloc, net, &mut attempt)?;
        match first_dummy(&attempt.editor) {
            None => return finish(alloc, net, group, restored, attempt),
            Some(t) => {
                let record = record_of(net, &attempt.editor, t);
                give_back(alloc, net, &mut attempt, record.signal)?;
                restored.push(record)?;
            }
        }
    }
}
