//! One attempt: plain steps until there is none.

ghost use Rattle.std.specs.Prelude.{◌≡◌, ◌<◌, ◌≤◌, ◌+◌, ◌++◌, ◌∷◌, [], length, All, IfOk, OnOk};
ghost use Rattle.stg_net.specs.declared.limits.TheConstants.Limits.{PART};
ghost use Rattle.stg_net.specs.Net.{IsNet, IsWithin};
ghost use Rattle.stg_net.specs.Initial.{graph_of};
ghost use Rattle.stg_laws.specs.Conflict.{HasNoAutoConflict};
ghost use Rattle.stg_derive.specs.Steps.{IsPlainStep, IsAtRest, stepped};
ghost use Rattle.stg_derive.specs.inner.UnderWay.{IsAttemptSoFar};
ghost use Rattle.stg_derive.specs.inner.Watching.{IsWatching};

use crate::Step;
use crate::choice::next_step;
use crate::notes::{no_notes, note_step};
use crate::watches::{Watches, edit, watch_all};
use std::alloc::Global;
use stg_edit::Editor;
use stg_net::{Net, NoMemory, Nums, Seq};

/// An attempt under way.
#[derive(Drop)]
pub struct Attempt {
    /// The signals that are known in it.
    pub known: Nums,
    pub editor: Editor,
    /// The steps so far, one for each edit that stands.
    pub steps: Vec<Step>,
    /// For each signal of the net, the number of the first step that doesn't stay where the signal
    /// is given back; none where all stay.
    pub first_undone: Vec<Option<u32>>,
    pub watches: Watches,
}

/// Makes a plain step, and notes for which signals it doesn't stay.
fn make_step(alloc: Global, net: &Net, attempt: &mut Attempt, step: Step) -> Result<(), NoMemory>
    requires within { IsWithin PART net.now }
    requires is_net { IsNet net.now }
    requires no_conflict { HasNoAutoConflict (graph_of net.now) }
    requires under_way { IsAttemptSoFar net.now attempt.old }
    requires watching { IsWatching attempt.old.editor.now attempt.old.watches }
    requires plain { IsPlainStep attempt.old.editor.now step }
    ensures under_way { OnOk result (IsAttemptSoFar net.now attempt.new) }
    ensures watching { OnOk result (IsWatching attempt.new.editor.now attempt.new.watches) }
    ensures now { OnOk result
        (attempt.new.editor.now ≡ stepped attempt.old.editor.now step) }
    ensures undone { attempt.new.editor.undone ≡ attempt.old.editor.undone }
    ensures known { attempt.new.known ≡ attempt.old.known }
{
    let first = attempt.editor.next_place();
    let i = attempt.steps.len() as u32;
    edit(alloc, &mut attempt.editor, &mut attempt.watches, step)?;
    note_step(
        net,
        &attempt.editor,
        first,
        step,
        i,
        &mut attempt.first_undone,
    );
    attempt.steps.push(step)?;
    Ok(())
}

/// Begins an attempt with the initial component.
pub fn begin(alloc: Global, net: &Net, known: &Nums) -> Result<Attempt, NoMemory>
    requires within { IsWithin PART net.now }
    requires is_net { IsNet net.now }
    requires no_conflict { HasNoAutoConflict (graph_of net.now) }
    requires in_range { All (λ s. s < length net.now.signals) known.now }
    ensures under_way { IfOk result (IsAttemptSoFar net.now) }
    ensures watching { IfOk result (λ a. IsWatching a.editor.now a.watches) }
    ensures undone { IfOk result (λ a. a.editor.undone ≡ 0) }
    ensures known { IfOk result (λ a. a.known ≡ known.now) }
{
    let editor = Editor::of(alloc, net, known)?;
    let watches = watch_all(alloc, &editor)?;
    Ok(Attempt {
        known: Seq::from_slice(alloc, known.as_slice())?,
        editor,
        steps: Vec::new(alloc),
        first_undone: no_notes(alloc, net.signals().len())?,
        watches,
    })
}

/// Makes plain steps until there is none.
pub fn go_on(alloc: Global, net: &Net, attempt: &mut Attempt) -> Result<(), NoMemory>
    requires within { IsWithin PART net.now }
    requires is_net { IsNet net.now }
    requires no_conflict { HasNoAutoConflict (graph_of net.now) }
    requires under_way { IsAttemptSoFar net.now attempt.old }
    requires watching { IsWatching attempt.old.editor.now attempt.old.watches }
    ensures under_way { OnOk result (IsAttemptSoFar net.now attempt.new) }
    ensures watching { OnOk result (IsWatching attempt.new.editor.now attempt.new.watches) }
    ensures rests { OnOk result (IsAtRest attempt.new.editor.now) }
    ensures undone { attempt.new.editor.undone ≡ attempt.old.editor.undone }
    ensures known { attempt.new.known ≡ attempt.old.known }
{
    loop {
        match next_step(&attempt.editor, &mut attempt.watches)? {
            None => return Ok(()),
            Some(step) => make_step(alloc, net, attempt, step)?,
        }
    }
}
