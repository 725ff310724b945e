//! The verdict on a dummy.

ghost use Rattle.std.specs.Prelude.{◌≡◌, ◌<◌, ◌-◌, ◌^◌, false, IsTrue, min};
ghost use Rattle.stg_net.specs.Graph.{IsDummy, IsTrans};
ghost use Rattle.stg_net.specs.Contraction.{contracted};
ghost use Rattle.stg_laws.specs.Secure.{IsPureOrdinary};
ghost use Rattle.stg_contract.specs.Verdicts as verdicts;
ghost use Rattle.stg_contract.specs.Calm.{IsCalm};
ghost use Rattle.stg_contract.specs.inner.Judging.{IsFarEnough, IsReason};

use crate::arcs::has_many_arcs;
use crate::clash::find_clash;
use crate::large::{is_large_left, is_large_round};
use crate::pure::{has_loop, is_ordinary};
use crate::reach::Reach;
use crate::secure::{is_type1, is_type2};
use crate::verdict::Verdict;
use crate::walks::count_all;
use stg_edit::Editor;

/// How many places are live once a pure transition is contracted.
fn count_places(editor: &Editor, t: u32) -> u64
    requires live { IsTrans editor.now.now t }
    requires pure { IsPureOrdinary editor.now.now t }
    ensures { result ≡ min (verdicts.count_places (contracted editor.now.now t)) (2 ^ 64 - 1) }
{
    let before = count_all(editor.takes(t));
    let after = count_all(editor.gives(t));
    let kept = editor.places() as u64 - before - after;
    kept.saturating_add(before.saturating_mul(after))
}

/// How many places may be live.
fn most_places(editor: &Editor) -> u64
    ensures value { result ≡ verdicts.most_places editor.now.now }
    ensures few { result < 2 ^ 34 }
{
    2 * editor.first_places() as u64 + 64
}

/// Whether a number is past the limits once a pure and ordinary transition is contracted.
fn is_large(editor: &Editor, t: u32, reach: Reach) -> bool
    requires live { IsTrans editor.now.now t }
    requires pure { IsPureOrdinary editor.now.now t }
    requires reach { IsFarEnough reach editor.now.now }
    ensures large { IsTrue result → ¬ verdicts.IsWithinLimits (contracted editor.now.now t) }
    ensures within { result ≡ false → verdicts.IsWithinLimits (contracted editor.now.now t) }
{
    if is_large_round(editor, t) {
        return true;
    }
    if is_large_left(editor, t, reach) {
        return true;
    }
    has_many_arcs(editor, t, reach)
}

/// The first reason against a contraction that is secure.
fn find_reason(editor: &Editor, t: u32, reach: Reach) -> Option<Verdict>
    requires dummy { IsDummy editor.now.now t }
    requires contraction { verdicts.HasSecureContraction editor.now.now t }
    requires reach { IsFarEnough reach editor.now.now }
    ensures { IsReason editor.now.now t result }
{
    match find_clash(editor, t, reach) {
        Some((u, v)) => return Some(Verdict::Clash(u, v)),
        None => {}
    }
    let places = count_places(editor, t);
    if places > most_places(editor) {
        return Some(Verdict::Places(places.min(u32::MAX as u64) as u32));
    }
    if is_large(editor, t, reach) {
        return Some(Verdict::Large);
    }
    None
}

/// The verdict on a dummy.
pub fn judge(editor: &Editor, t: u32, reach: Reach) -> Verdict
    requires dummy { IsDummy editor.now.now t }
    requires reach { IsFarEnough reach editor.now.now }
    ensures { verdicts.IsVerdict editor.now.now t result }
{
    if has_loop(editor, t) {
        return Verdict::Loop;
    }
    if !is_ordinary(editor, t) {
        return Verdict::Weight;
    }
    let type1 = is_type1(editor, t);
    if !type1 && !is_type2(editor, t) {
        return Verdict::Insecure;
    }
    match find_reason(editor, t, reach) {
        Some(reason) => reason,
        None => {
            if type1 {
                Verdict::Type1
            } else {
                Verdict::Type2
            }
        }
    }
}

/// Tells the verdict on a dummy of any draft. It looks at all places and at each pair of
/// transitions that take from one of them.
pub fn test(editor: &Editor, t: u32) -> Verdict
    requires { IsDummy editor.now.now t }
    ensures { verdicts.IsVerdict editor.now.now t result }
{
    judge(editor, t, Reach::Far)
}

/// Tells the same verdict on a dummy of a calm draft, in which no two known transitions of one
/// label take from one place and no number is past the limits of a component. It looks at the
/// places round the dummy and at their transitions alone, and counts places and arcs.
pub fn test_calm(editor: &Editor, t: u32) -> Verdict
    requires dummy { IsDummy editor.now.now t }
    requires calm { IsCalm editor.now.now }
    ensures { verdicts.IsVerdict editor.now.now t result }
{
    judge(editor, t, Reach::Near)
}

/// Tells the verdict on a dummy that can be contracted. It looks at the places alone from which the
/// dummy takes.
pub fn test_contractible(editor: &Editor, t: u32) -> Verdict
    requires live { IsTrans editor.now.now t }
    requires contractible { verdicts.IsContractible editor.now.now t }
    ensures { verdicts.IsVerdict editor.now.now t result }
{
    if is_type1(editor, t) {
        Verdict::Type1
    } else {
        Verdict::Type2
    }
}
