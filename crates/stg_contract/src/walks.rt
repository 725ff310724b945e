//! What walks tell of weights.

ghost use Rattle.std.specs.Prelude.{◌≡◌, ◌<◌, ◌^◌, length};
ghost use Rattle.stg_net.specs.Graph.{IsPlace};
ghost use Rattle.stg_edit.specs.Drafts.{IsDraft};
ghost use Rattle.stg_contract.specs.inner.Weights.{weight_in, trans_round};
ghost use Rattle.stg_contract.specs.inner.Tests as tests;
ghost use Rattle.stg_contract.specs.inner.Sums as sums;

use stg_edit::{Editor, Walk};
use stg_net::Limits;

/// The weight that the walk gives for this number, and 0 where it gives none.
pub fn weight_of(walk: Walk<'_>, number: u32) -> u32
    ensures { result ≡ weight_in number walk.entry }
{
    for (other, weight) in walk {
        if other == number {
            return weight;
        }
    }
    0
}

/// Whether the walk gives no other number than this one.
pub fn is_only(walk: Walk<'_>, number: u32) -> bool
    ensures { result ≡ tests.is_only number walk.entry }
{
    for (other, _) in walk {
        if other != number {
            return false;
        }
    }
    true
}

/// Whether each weight of the walk is 1.
pub fn are_ones(walk: Walk<'_>) -> bool
    ensures { result ≡ tests.are_ones walk.entry }
{
    for (_, weight) in walk {
        if weight != 1 {
            return false;
        }
    }
    true
}

/// Whether a weight of the walk is past the limit of a component.
pub fn has_past(walk: Walk<'_>) -> bool
    ensures { result ≡ sums.has_past walk.entry }
{
    for (_, weight) in walk {
        if weight > Limits::PART.weight {
            return true;
        }
    }
    false
}

/// Whether the walk gives nothing.
pub fn is_nothing(mut walk: Walk<'_>) -> bool
    ensures { result ≡ tests.is_nothing walk.entry }
{
    walk.next().is_none()
}

/// How many numbers the walk gives.
pub fn count_all(walk: Walk<'_>) -> u64
    requires { length walk < 2 ^ 32 }
    ensures { result ≡ length walk.entry }
{
    walk.count() as u64
}

/// The transitions that take from a live place, or those that give to it.
pub fn trans_at<'a>(editor: &'a Editor, take: bool, p: u32) -> Walk<'a>
    requires { IsPlace editor.now.now p }
    ensures value { result ≡ trans_round take editor.now.now p }
    ensures draft { IsDraft editor.now }
    ensures short { length result < 2 ^ 32 }
{
    if take {
        editor.takers(p)
    } else {
        editor.givers(p)
    }
}
