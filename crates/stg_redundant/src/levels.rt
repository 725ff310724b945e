//! Levels of transitions, which bound how far a chain can lead.

ghost use Rattle.std.specs.Prelude.{◌≡◌, ◌≢◌, ◌≤◌, ◌<◌, ◌+◌, ◌*◌, length, All, IfOk, IfSome, true, slice_index};
ghost use Rattle.stg_redundant.specs.Levelled.{IsLevelled, GrowsAcross};
ghost use Rattle.stg_redundant.specs.inner.DeadLinks as dead;

use crate::chains::Link;
use crate::ranks::set_ranks;
use std::alloc::Global;
use std::marker::Model;
use stg_edit::{Editor, Walk};
use stg_net::NoMemory;

/// A level for each transition. From a transition that gives to a place to one that takes from it
/// the level grows, less a fall for each token of the place. Levels of a draft stay levels where
/// places or transitions are deleted, and where dummies are securely contracted.
#[derive(Drop)]
pub struct Levels {
    numbers: Vec<u32>,
    rise: u64,
    fall: u64,
}

impl Model for Levels {
    ghost use Rattle.stg_redundant.specs.Levelled.{Levelling};

    ghost Value = { Levelling };

    ghost view = { λ v. record { numbers = v.numbers.items; rise = v.rise; fall = v.fall } };
}

impl Levels {
    /// The levels of the draft, which rise by 1 where no places without tokens form a circle. Takes
    /// time for all its arcs.
    pub fn of(alloc: Global, editor: &Editor) -> Result<Levels, NoMemory>
        ensures { IfOk result (IsLevelled editor.now.now) }
    {
        let mut numbers = vec![in alloc; 0u32; editor.all_trans() as usize]?;
        let rise = if set_ranks(alloc, editor, &mut numbers)? {
            1
        } else {
            0
        };
        match fall_of(editor, &numbers, rise) {
            Some(fall) => Ok(Levels {
                numbers,
                rise,
                fall,
            }),
            None => {
                numbers.fill(0);
                Ok(Levels {
                    numbers,
                    rise: 0,
                    fall: 0,
                })
            }
        }
    }
}

/// A number that no level of these transitions, and `rise` more, is past.
fn most_of(numbers: &[u32], rise: u64, trans: Walk<'_>) -> u64
    requires in_range { All (λ x. x.0 < length numbers.now) trans }
    requires rise { rise ≤ 1 }
    ensures { dead.AreBelow numbers.now rise result trans.entry }
{
    let mut most = 0u64;
    for (t, _) in trans {
        most = most.max(numbers[t as usize] as u64 + rise);
    }
    most
}

/// A number that is past no level of these transitions.
fn least_of(numbers: &[u32], trans: Walk<'_>) -> u64
    requires in_range { All (λ x. x.0 < length numbers.now) trans }
    ensures { dead.AreAbove numbers.now result trans.entry }
{
    let mut least = u64::MAX;
    for (t, _) in trans {
        least = least.min(numbers[t as usize] as u64);
    }
    least
}

/// The least fall that is at least so much and enough for a place, where there is one.
fn fall_at(editor: &Editor, numbers: &[u32], rise: u64, p: u32, fall: u64) -> Option<u64>
    requires long { length numbers.now ≡ length editor.now.now.trans }
    requires rise { rise ≤ 1 }
    ensures more { IfSome result (λ new. fall ≤ new) }
    ensures grows { IfSome result (λ new. GrowsAcross editor.now.now
        (record { numbers = numbers.now; rise = rise; fall = new }) p) }
{
    if !editor.is_place(p) {
        return Some(fall);
    }
    let most = most_of(numbers, rise, editor.givers(p));
    let lack = most.saturating_sub(least_of(numbers, editor.takers(p)));
    if lack > 0 && editor.tokens(p) == 0 {
        return None;
    }
    Some(fall.max(lack))
}

/// The fall that is enough for all places, where there is one.
fn fall_of(editor: &Editor, numbers: &[u32], rise: u64) -> Option<u64>
    requires long { length numbers.now ≡ length editor.now.now.trans }
    requires rise { rise ≤ 1 }
    ensures { IfSome result (λ fall. IsLevelled editor.now.now
        (record { numbers = numbers.now; rise = rise; fall = fall })) }
{
    let mut fall = 0;
    for p in 0..editor.next_place() {
        fall = fall_at(editor, numbers, rise, p, fall)?;
    }
    Some(fall)
}

/// Whether the levels tell that nothing leads on to a transition from the end of a link at whose
/// begin there is so much room.
pub fn is_dead(levels: &Levels, link: Link, to: u32, room: u64) -> bool
    requires taker { link.taker < length levels.now.numbers }
    requires to { to < length levels.now.numbers }
    ensures { result ≡ true → dead.IsDead levels.now link to room }
{
    let left = room.saturating_sub(link.tokens as u64);
    if left == 0 {
        return true;
    }
    if link.taker == to {
        return false;
    }
    let most = levels
        .fall
        .saturating_mul(left - 1)
        .saturating_add(levels.numbers[to as usize] as u64);
    most < (levels.numbers[link.taker as usize] as u64).saturating_add(levels.rise)
}
