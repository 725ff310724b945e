//! Whether a weight or the tokens of a place are past the limit once a transition is contracted.

ghost use Rattle.std.specs.Prelude.{◌≡◌, ◌↔◌, ◌+◌, IsTrue, nat_lt};
ghost use Rattle.stg_net.specs.Graph.{IsPlace, IsTrans};
ghost use Rattle.stg_edit.specs.Drafts.{IsDraft};
ghost use Rattle.stg_contract.specs.inner.Weights.{ArePlaces, trans_round};
ghost use Rattle.stg_contract.specs.inner.Sums as sums;
ghost use Rattle.stg_contract.specs.inner.Judging.{IsFarEnough};

use crate::left::is_left;
use crate::reach::Reach;
use crate::walks::{has_past, trans_at, weight_of};
use stg_edit::{Editor, Walk};
use stg_net::Limits;

/// Whether a weight and that at the place are together past the limit.
fn is_heavy(editor: &Editor, take: bool, t: u32, q: u32, u: u32, weight: u32) -> bool
    requires { IsPlace editor.now.now q }
    ensures { result ≡ sums.is_heavy t (trans_round take editor.now.now q) (u, weight) }
{
    let other = weight_of(trans_at(editor, take, q), u);
    u != t && weight as u64 + other as u64 > Limits::PART.weight as u64
}

/// Whether a weight at p and that at q are together past the limit.
fn is_heavy_at(editor: &Editor, take: bool, t: u32, p: u32, q: u32) -> bool
    requires p { IsPlace editor.now.now p }
    requires q { IsPlace editor.now.now q }
    ensures { result ≡ sums.is_heavy_at take editor.now.now t p q }
{
    for (u, weight) in trans_at(editor, take, p) {
        if is_heavy(editor, take, t, q, u, weight) {
            return true;
        }
    }
    false
}

/// Whether the tokens of two live places are together past the limit.
fn has_many_tokens(editor: &Editor, p: u32, q: u32) -> bool
    requires p { IsPlace editor.now.now p }
    requires q { IsPlace editor.now.now q }
    ensures { result ≡ sums.has_many_tokens editor.now.now p q }
{
    editor.tokens(p) as u64 + editor.tokens(q) as u64 > Limits::PART.weight as u64
}

/// Whether tokens or weights of two live places are together past the limit.
fn is_large_pair(editor: &Editor, t: u32, p: u32, q: u32) -> bool
    requires p { IsPlace editor.now.now p }
    requires q { IsPlace editor.now.now q }
    ensures { result ≡ sums.is_large_pair editor.now.now t p q }
{
    has_many_tokens(editor, p, q)
        || is_heavy_at(editor, true, t, p, q)
        || is_heavy_at(editor, false, t, p, q)
}

/// Whether that is so of p with one of these places.
fn is_large_after(editor: &Editor, t: u32, p: u32, places: Walk<'_>) -> bool
    requires p { IsPlace editor.now.now p }
    requires places { ArePlaces editor.now.now places }
    ensures { result ≡ sums.is_large_after editor.now.now t p places.entry }
{
    for (q, _) in places {
        if is_large_pair(editor, t, p, q) {
            return true;
        }
    }
    false
}

/// Whether that is so of a place before t with one after it.
pub fn is_large_round(editor: &Editor, t: u32) -> bool
    requires { IsTrans editor.now.now t }
    ensures value { result ≡ sums.is_large_round editor.now.now t }
    ensures draft { IsDraft editor.now }
{
    for (p, _) in editor.takes(t) {
        if is_large_after(editor, t, p, editor.gives(t)) {
            return true;
        }
    }
    false
}

/// Whether the tokens of a live place or a weight at it are past the limit.
fn is_large_at(editor: &Editor, p: u32) -> bool
    requires { IsPlace editor.now.now p }
    ensures { result ≡ sums.is_large_at editor.now.now p }
{
    editor.tokens(p) > Limits::PART.weight
        || has_past(trans_at(editor, true, p))
        || has_past(trans_at(editor, false, p))
}

/// Whether that is so of a place that is left, by a look at each place.
fn has_large_place(editor: &Editor, t: u32) -> bool
    requires { IsTrans editor.now.now t }
    ensures { IsTrue result ↔ sums.HasLargePlace editor.now.now t }
{
    for p in 0..editor.next_place() {
        if is_left(editor, t, p) && is_large_at(editor, p) {
            return true;
        }
    }
    false
}

/// Whether that is so of a place that is left.
pub fn is_large_left(editor: &Editor, t: u32, reach: Reach) -> bool
    requires live { IsTrans editor.now.now t }
    requires reach { IsFarEnough reach editor.now.now }
    ensures { IsTrue result ↔ sums.HasLargePlace editor.now.now t }
{
    match reach {
        Reach::Near => false,
        Reach::Far => has_large_place(editor, t),
    }
}
