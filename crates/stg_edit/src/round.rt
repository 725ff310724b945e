//! The places round a transition are removed.

ghost use Rattle.std.specs.Prelude.{◌≡◌, ◌<◌, ◌≤◌, ◌+◌, ◌↔◌, length, IsTrue};
ghost use Rattle.stg_arena.specs.declared.end.End.TheVariants.{Place, Trans};
ghost use Rattle.stg_arena.specs.ArenaView.{IsArena, none, cell_at, removed_at};
ghost use Rattle.stg_edit.specs.inner.RemovedPlaces.{weights_at, IsRemovedAtCell, ArePlacesRemoved};

use stg_arena::{Arena, End, Way};

/// Whether the cell has no weight in either direction.
pub fn is_weightless(arena: &Arena, x: u32) -> bool
    requires { x < length arena.now.cells }
    ensures { IsTrue result ↔ (weights_at arena.now x ≡ 0) }
{
    arena.weight(Way::Take, x) == 0 && arena.weight(Way::Give, x) == 0
}

/// Removes the place at the cell, where the cell has a weight.
fn remove_at(arena: &mut Arena, x: u32)
    requires in_range { x < length arena.old.cells }
    requires inside { (cell_at arena.old.cells x).place < length arena.old.places }
    requires live { removed_at arena.old Place (cell_at arena.old.cells x).place ≡ none }
    requires room { length arena.old.removals < arena.old.rooms.removals }
    requires arena { IsArena arena.old }
    ensures removed { IsRemovedAtCell x arena.old arena.new }
    ensures arena { IsArena arena.new }
{
    if is_weightless(arena, x) {
        return;
    }
    arena.remove(End::Place, arena.far(End::Trans, x));
}

/// Removes the places that t takes from or gives to.
pub fn remove_round(arena: &mut Arena, t: u32)
    requires in_range { t < length arena.old.trans }
    requires live { removed_at arena.old Trans t ≡ none }
    requires room { arena.old.rooms.places + length arena.old.trans ≤ arena.old.rooms.removals }
    requires arena { IsArena arena.old }
    ensures { ArePlacesRemoved t none arena.old arena.new }
{
    let mut x = arena.first(End::Trans, t);
    while x != t {
        let next = arena.next(End::Trans, x);
        remove_at(arena, x);
        x = next;
    }
}
