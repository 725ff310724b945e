//! The choice of the next step.

ghost use Rattle.std.specs.Prelude.{◌≡◌, ◌<◌, ◌≤◌, ◌+◌, None, length, IfOk, IfSome, OnOk, IsTrue};
ghost use Rattle.stg_net.specs.Graph.{IsDummy};
ghost use Rattle.stg_laws.specs.Deterministic.{HasNoDummy};
ghost use Rattle.stg_contract.specs.Calm.{IsCalm};
ghost use Rattle.stg_contract.specs.Candidates.{IsCandidate, IsCheapest};
ghost use Rattle.stg_contract.specs.Verdicts.{IsVerdict};
ghost use Rattle.stg_derive.specs.Steps.{verdict_of, IsNextContraction, HasNoRedundantPlace, HasNoRedundantDummy, IsPlainStep, IsAtRest};
ghost use Rattle.stg_derive.specs.Derivations.{IsLeastDummy};
ghost use Rattle.stg_derive.specs.inner.Choices.{IsDummyAt};
ghost use Rattle.stg_derive.specs.inner.Watching.{IsWatching};

use crate::watches::Watches;
use crate::{Secure, Step};
use stg_contract::{Verdict, new_places, test_contractible};
use stg_edit::Editor;
use stg_net::NoMemory;

/// Whether there is a live dummy of that number.
fn is_dummy(editor: &Editor, t: u32) -> bool
    ensures { IsDummyAt editor.now.now t result }
{
    editor.is_trans(t) && editor.is_dummy(t)
}

/// The type by which the contraction of a candidate is secure.
fn secure_of(editor: &Editor, t: u32) -> Secure
    requires candidate { IsCandidate editor.now.now t }
    ensures { IsVerdict editor.now.now t (verdict_of result) }
{
    match test_contractible(editor, t) {
        Verdict::Type1 => Secure::Type1,
        _ => Secure::Type2,
    }
}

/// The contraction of the cheapest candidate, where nothing is redundant.
fn contraction_of(editor: &Editor, t: u32) -> Step
    requires cheapest { IsCheapest editor.now.now t }
    requires first { editor.now.now.first_places ≤ 4064 }
    requires no_redundant_place { HasNoRedundantPlace editor.now.now }
    requires no_redundant_dummy { HasNoRedundantDummy editor.now.now }
    ensures { IsPlainStep editor.now.now result }
{
    Step::Contract {
        trans: t,
        secure: secure_of(editor, t),
        places: new_places(editor, t),
    }
}

/// The contraction that comes next, where nothing is redundant.
fn next_contraction(editor: &Editor, watches: &mut Watches) -> Option<Step>
    requires first { editor.now.now.first_places ≤ 4064 }
    requires calm { IsCalm editor.now.now }
    requires watching { IsWatching editor.now.now watches.old }
    requires no_redundant_place { HasNoRedundantPlace editor.now.now }
    requires no_redundant_dummy { HasNoRedundantDummy editor.now.now }
    ensures some { IfSome result (IsPlainStep editor.now.now) }
    ensures none { result ≡ None → IsAtRest editor.now.now }
    ensures watching { IsWatching editor.now.now watches.new }
{
    match watches.dummies.cheapest_calm(editor) {
        None => None,
        Some(t) => Some(contraction_of(editor, t)),
    }
}

/// The plain step of the draft, where there is one. It is sought among what is watched alone.
pub fn next_step(editor: &Editor, watches: &mut Watches) -> Result<Option<Step>, NoMemory>
    requires first { editor.now.now.first_places ≤ 4064 }
    requires calm { IsCalm editor.now.now }
    requires watching { IsWatching editor.now.now watches.old }
    ensures some { IfOk result (λ step. IfSome step (IsPlainStep editor.now.now)) }
    ensures none { IfOk result (λ step. step ≡ None → IsAtRest editor.now.now) }
    ensures watching { OnOk result (IsWatching editor.now.now watches.new) }
{
    match watches.places.next_levelled(editor, &watches.levels)? {
        Some(found) => return Ok(Some(Step::DropPlace(found))),
        None => {}
    }
    match watches.redundant.next(editor) {
        Some(found) => Ok(Some(Step::DropDummy(found))),
        None => Ok(next_contraction(editor, watches)),
    }
}

/// The dummy of least number, where there is one.
pub fn first_dummy(editor: &Editor) -> Option<u32>
    ensures some { IfSome result (λ t. IsLeastDummy editor.now.now t) }
    ensures none { result ≡ None → HasNoDummy editor.now.now }
{
    for t in 0..editor.all_trans() {
        if is_dummy(editor, t) {
            return Some(t);
        }
    }
    None
}
