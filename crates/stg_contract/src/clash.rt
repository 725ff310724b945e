//! The search for two transitions of one label that would take from one place.

ghost use Rattle.std.specs.Prelude.{◌≡◌, length};
ghost use Rattle.stg_net.specs.Graph.{IsPlace, IsTrans, IsDummy};
ghost use Rattle.stg_net.specs.Contraction.{contracted};
ghost use Rattle.stg_contract.specs.inner.Weights.{ArePlaces, AreTrans};
ghost use Rattle.stg_contract.specs.inner.Searches as searches;
ghost use Rattle.stg_contract.specs.inner.Judging.{IsFarEnough};

use crate::left::is_left;
use crate::reach::Reach;
use crate::rivals::{lower_of, ordered_rivals};
use stg_edit::{Editor, Walk};

/// The least of these two and u with each of the others.
fn least_with(
    editor: &Editor,
    u: u32,
    first: Option<(u32, u32)>,
    others: Walk<'_>,
) -> Option<(u32, u32)>
    requires u { IsTrans editor.now.now u }
    requires others { AreTrans editor.now.now others }
    ensures { result ≡ searches.least_with editor.now.now u first others.entry }
{
    let mut least = first;
    for (v, _) in others {
        least = lower_of(ordered_rivals(editor, u, v), least);
    }
    least
}

/// The least of these two and each taker of p with each taker of q.
fn least_between(editor: &Editor, p: u32, q: u32, first: Option<(u32, u32)>) -> Option<(u32, u32)>
    requires p { IsPlace editor.now.now p }
    requires q { IsPlace editor.now.now q }
    ensures { result ≡ searches.least_between editor.now.now q first p }
{
    let mut least = first;
    for (u, _) in editor.takers(p) {
        least = least_with(editor, u, least, editor.takers(q));
    }
    least
}

/// The least of these two and each taker of p with each taker of these places.
fn least_after(
    editor: &Editor,
    p: u32,
    first: Option<(u32, u32)>,
    places: Walk<'_>,
) -> Option<(u32, u32)>
    requires p { IsPlace editor.now.now p }
    requires places { ArePlaces editor.now.now places }
    ensures { result ≡ searches.least_after editor.now.now p first places.entry }
{
    let mut least = first;
    for (q, _) in places {
        least = least_between(editor, p, q, least);
    }
    least
}

/// The least two of which one takes from a place before t and the other from a place after it.
fn least_round(editor: &Editor, t: u32) -> Option<(u32, u32)>
    requires { IsTrans editor.now.now t }
    ensures { result ≡ searches.least_round editor.now.now t }
{
    let mut least = None;
    for (p, _) in editor.takes(t) {
        least = least_after(editor, p, least, editor.gives(t));
    }
    least
}

/// The least of these two and the takers of one place that is left.
fn least_at_left(editor: &Editor, t: u32, first: Option<(u32, u32)>) -> Option<(u32, u32)>
    requires { IsTrans editor.now.now t }
    ensures { result ≡ searches.least_at_left editor.now.now t first }
{
    let mut least = first;
    for p in 0..editor.next_place() {
        if is_left(editor, t, p) {
            least = least_between(editor, p, p, least);
        }
    }
    least
}

/// The least two that clash once a dummy is contracted.
pub fn find_clash(editor: &Editor, t: u32, reach: Reach) -> Option<(u32, u32)>
    requires dummy { IsDummy editor.now.now t }
    requires reach { IsFarEnough reach editor.now.now }
    ensures { searches.IsLeastClashOf (contracted editor.now.now t) result }
{
    let least = least_round(editor, t);
    match reach {
        Reach::Near => least,
        Reach::Far => least_at_left(editor, t, least),
    }
}
