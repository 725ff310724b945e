//! How many arcs there are once a transition is contracted.

ghost use Rattle.std.specs.Prelude.{◌≡◌, ◌<◌, ◌≤◌, ◌+◌, ◌-◌, ◌^◌, min, length, nat_lt};
ghost use Rattle.stg_net.specs.declared.limits.TheConstants.Limits.{PART};
ghost use Rattle.stg_net.specs.Graph.{IsPlace, IsTrans};
ghost use Rattle.stg_net.specs.Contraction.{contracted};
ghost use Rattle.stg_laws.specs.Secure.{IsPureOrdinary};
ghost use Rattle.stg_edit.specs.Counted.{count_arcs_at, count_arcs};
ghost use Rattle.stg_edit.specs.Replacing as replacing;
ghost use Rattle.stg_contract.specs.inner.Weights.{ArePlaces, trans_round};
ghost use Rattle.stg_contract.specs.inner.Counts as counts;
ghost use Rattle.stg_contract.specs.inner.Judging.{IsFarEnough};

use crate::left::is_kept;
use crate::reach::Reach;
use crate::walks::{trans_at, weight_of};
use stg_edit::{Editor, Walk};
use stg_net::Limits;

/// How many numbers but t the walk gives.
fn count_others(walk: Walk<'_>, t: u32) -> u64
    requires { length walk < 2 ^ 32 }
    ensures { result ≡ counts.count_others t walk.entry }
{
    let mut count = 0;
    for (u, _) in walk {
        if u != t {
            count += 1;
        }
    }
    count
}

/// Whether the transition isn't t and has no arc at the place.
fn is_apart(editor: &Editor, take: bool, t: u32, q: u32, u: u32) -> bool
    requires { IsPlace editor.now.now q }
    ensures { result ≡ counts.is_apart t (trans_round take editor.now.now q) (u, 0) }
{
    u != t && weight_of(trans_at(editor, take, q), u) == 0
}

/// How many of the numbers but t that the walk gives have no arc at the place.
fn count_apart(editor: &Editor, take: bool, t: u32, q: u32, walk: Walk<'_>) -> u64
    requires q { IsPlace editor.now.now q }
    requires bounded { length walk < 2 ^ 32 }
    ensures { result ≡ counts.count_apart t (trans_round take editor.now.now q) walk.entry }
{
    let mut count = 0;
    for (u, _) in walk {
        if is_apart(editor, take, t, q, u) {
            count += 1;
        }
    }
    count
}

/// How many transitions but t have an arc of one direction at p or at q.
fn count_either(editor: &Editor, take: bool, t: u32, p: u32, q: u32) -> u64
    requires p { IsPlace editor.now.now p }
    requires q { IsPlace editor.now.now q }
    ensures value { result ≡ counts.count_either take editor.now.now t p q }
    ensures few { result < 2 ^ 32 }
{
    let first = count_apart(editor, take, t, q, trans_at(editor, take, p));
    let second = count_others(trans_at(editor, take, q), t);
    first + second
}

/// How many arcs the pair of two live places has once t is contracted.
fn arcs_of_pair(editor: &Editor, t: u32, p: u32, q: u32) -> u64
    requires p { IsPlace editor.now.now p }
    requires q { IsPlace editor.now.now q }
    ensures { result ≡ replacing.arcs_of_pair editor.now.now t (p, q) }
{
    count_either(editor, true, t, p, q) + count_either(editor, false, t, p, q)
}

/// How many arcs the pairs of p with each of these places have.
fn arcs_with_each(editor: &Editor, t: u32, p: u32, places: Walk<'_>) -> u64
    requires p { IsPlace editor.now.now p }
    requires places { ArePlaces editor.now.now places }
    ensures { result ≡ min (counts.arcs_with_each editor.now.now t p places.entry) (2 ^ 64 - 1) }
{
    let mut count = 0u64;
    for (q, _) in places {
        count = count.saturating_add(arcs_of_pair(editor, t, p, q));
    }
    count
}

/// How many arcs the pairs round t have.
pub fn arcs_round(editor: &Editor, t: u32) -> u64
    requires { IsTrans editor.now.now t }
    ensures { result ≡ min (counts.arcs_round editor.now.now t) (2 ^ 64 - 1) }
{
    let mut count = 0u64;
    for (p, _) in editor.takes(t) {
        count = count.saturating_add(arcs_with_each(editor, t, p, editor.gives(t)));
    }
    count
}

/// The number of arcs at a live place.
fn arcs_at(editor: &Editor, p: u32) -> u64
    requires { IsPlace editor.now.now p }
    ensures { result ≡ count_arcs_at editor.now.now p }
{
    editor.takers(p).count() as u64 + editor.givers(p).count() as u64
}

/// How many arcs there are at these places.
fn arcs_at_each(editor: &Editor, places: Walk<'_>) -> u64
    requires { ArePlaces editor.now.now places }
    ensures { result ≡ min (counts.arcs_at_each editor.now.now places.entry) (2 ^ 64 - 1) }
{
    let mut count = 0u64;
    for (p, _) in places {
        count = count.saturating_add(arcs_at(editor, p));
    }
    count
}

/// How many arcs there are at the places that are kept, from the count of all, where these are few.
fn arcs_but_round(editor: &Editor, t: u32) -> u64
    requires live { IsTrans editor.now.now t }
    requires pure { IsPureOrdinary editor.now.now t }
    requires bounded { count_arcs editor.now.now ≤ PART.arcs }
    ensures { result ≡ counts.arcs_kept editor.now.now t }
{
    let before = arcs_at_each(editor, editor.takes(t));
    let after = arcs_at_each(editor, editor.gives(t));
    editor.arcs() as u64 - before - after
}

/// How many arcs there are at the places that are kept, by a look at each place.
fn arcs_at_kept(editor: &Editor, t: u32) -> u64
    requires { IsTrans editor.now.now t }
    ensures { result ≡ min (counts.arcs_kept editor.now.now t) (2 ^ 64 - 1) }
{
    let mut count = 0u64;
    for p in 0..editor.next_place() {
        if is_kept(editor, t, p) {
            count = arcs_at(editor, p).saturating_add(count);
        }
    }
    count
}

/// How many arcs there are at the places that are kept.
fn arcs_kept(editor: &Editor, t: u32, reach: Reach) -> u64
    requires live { IsTrans editor.now.now t }
    requires pure { IsPureOrdinary editor.now.now t }
    requires reach { IsFarEnough reach editor.now.now }
    ensures { result ≡ min (counts.arcs_kept editor.now.now t) (2 ^ 64 - 1) }
{
    match reach {
        Reach::Near => arcs_but_round(editor, t),
        Reach::Far => arcs_at_kept(editor, t),
    }
}

/// Whether there are more arcs than a component has once a pure transition is contracted.
pub fn has_many_arcs(editor: &Editor, t: u32, reach: Reach) -> bool
    requires live { IsTrans editor.now.now t }
    requires pure { IsPureOrdinary editor.now.now t }
    requires reach { IsFarEnough reach editor.now.now }
    ensures { result ≡ nat_lt PART.arcs (count_arcs (contracted editor.now.now t)) }
{
    let kept = arcs_kept(editor, t, reach);
    kept.saturating_add(arcs_round(editor, t)) > Limits::PART.arcs as u64
}
