//! Walks round a place or a transition.

ghost use Rattle.std.specs.Prelude.{◌≡◌, ◌<◌, ◌≢◌};
ghost use Rattle.std.specs.Iterator.{YieldsFirst, item_count};
ghost use Rattle.stg_arena.specs.Ends.{other};
ghost use Rattle.stg_arena.specs.ArenaView.{none, count_of, removed_at, end_of, cell_at};
ghost use Rattle.stg_arena.specs.Incidence.{weight_along};
ghost use Rattle.stg_arena.specs.RingWalk.{IsLive, IsPassing, cell_weight};
ghost use Rattle.stg_arena.specs.WalkItems.{weighted};

use crate::arena::Arena;
use crate::cell::NONE;
use crate::end::{End, Way};
use std::marker::Model;

/// The other ends and the weights of cells, in ascending order of the other ends. Contracts see it
/// as the list of what it has still to give.
#[derive(Drop)]
pub struct Walk<'a> {
    arena: &'a Arena,
    end: End,
    way: Way,
    node: u32,
    at: u32,
}

impl<'a> Model for Walk<'a> {
    ghost use Rattle.std.specs.Prelude.{List, ℕ, ◌<◌};

    ghost Value = { List (ℕ × ℕ) };

    ghost use Rattle.stg_arena.specs.RingWalk.{items_left, IsWalking};
    ghost use Rattle.stg_arena.specs.ArenaView.{none};

    ghost view = { λ w. items_left w.arena.now w.end w.node w.way w.at };

    ghost invariant = { λ w. IsWalking w.arena.now w.end w.node w.at × (w.node < none) };
}

impl<'a> Walk<'a> {
    /// The walk round a live place, or a live transition, along the weights out of places or those
    /// into them.
    pub fn of(arena: &'a Arena, end: End, way: Way, node: u32) -> Self
        requires in_range { node < count_of arena.now end }
        requires live { removed_at arena.now end node ≡ none }
        ensures { result ≡ weighted (count_of arena.now (other end))
            (weight_along arena.now end way node) }
    {
        let at = arena.first(end, node);
        Walk {
            arena,
            end,
            way,
            node,
            at,
        }
    }
}

impl<'a> Iterator for Walk<'a> {
    type Item = (u32, u32);

    ghost next_gives = { YieldsFirst (λ s. s) };

    ghost remaining = { item_count (λ s. s) };

    fn next(&mut self) -> Option<(u32, u32)> {
        let at = seek(self.arena, self.end, self.way, self.at);
        let far = self.arena.far(self.end, at);
        if far == NONE {
            self.at = at;
            return None;
        }
        let weight = self.arena.weight(self.way, at);
        self.at = self.arena.next(self.end, at);
        Some((far, weight))
    }
}

/// The first cell with a weight of this kind, from the cell `from` on, or the head of the ring.
fn seek(arena: &Arena, end: End, way: Way, from: u32) -> u32
    requires live { IsLive arena.now end from }
    requires key { end_of end (cell_at arena.now.cells from) < none }
    ensures passed { IsPassing arena.now end (end_of end (cell_at arena.now.cells from)) way from
        result (end_of (other end) (cell_at arena.now.cells result)) }
    ensures some { end_of (other end) (cell_at arena.now.cells result) ≢ none
        → 0 < cell_weight way (cell_at arena.now.cells result) }
{
    let mut at = from;
    let mut far = arena.far(end, at);
    while far != NONE {
        if arena.weight(way, at) > 0 {
            return at;
        }
        at = arena.next(end, at);
        far = arena.far(end, at);
    }
    at
}
