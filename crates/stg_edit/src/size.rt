//! How many live places and arcs there are.

ghost use Rattle.std.specs.Prelude.{◌≡◌, ◌<◌, ◌≤◌, ◌+◌, ◌^◌, length};
ghost use Rattle.stg_net.specs.declared.limits.TheConstants.Limits.{PART};
ghost use Rattle.stg_arena.specs.declared.end.End.TheVariants.{Trans};
ghost use Rattle.stg_arena.specs.ArenaView.{count_of, none, removed_at};
ghost use Rattle.stg_edit.specs.inner.Sizes as sizes;

use crate::round::is_weightless;
use stg_arena::{Arena, End, NONE, Way};

/// So many live places and arcs.
#[derive(Clone, Copy, Debug)]
pub struct Size {
    pub places: u32,
    pub arcs: u64,
}

impl Size {
    const NONE: Size = Size { places: 0, arcs: 0 };

    /// Both together.
    pub fn plus(self, more: Size) -> Size
        requires places { self.places + more.places < 2 ^ 32 }
        requires arcs { self.arcs + more.arcs < 2 ^ 64 }
        ensures { result ≡ sizes.plus self more }
    {
        Size {
            places: self.places + more.places,
            arcs: self.arcs + more.arcs,
        }
    }

    /// What is left without these.
    pub fn minus(self, less: Size) -> Size
        requires places { less.places ≤ self.places }
        requires arcs { less.arcs ≤ self.arcs }
        ensures { result ≡ sizes.minus self less }
    {
        Size {
            places: self.places - less.places,
            arcs: self.arcs - less.arcs,
        }
    }
}

/// The number of arcs that a cell stands for.
fn cell_arcs(arena: &Arena, x: u32) -> u64
    requires { x < length arena.now.cells }
    ensures { result ≡ sizes.cell_arcs arena.now x }
{
    arena.weight(Way::Take, x).min(1) as u64 + arena.weight(Way::Give, x).min(1) as u64
}

/// The number of arcs at a live place, or at a live transition.
fn arcs_of_node(arena: &Arena, end: End, node: u32) -> u64
    requires in_range { node < count_of arena.now end }
    requires live { removed_at arena.now end node ≡ none }
    ensures { result ≡ sizes.arcs_of_node arena.now end node }
{
    let mut at = arena.first(end, node);
    let mut far = arena.far(end, at);
    let mut arcs = 0;
    while far != NONE {
        arcs += cell_arcs(arena, at);
        at = arena.next(end, at);
        far = arena.far(end, at);
    }
    arcs
}

/// What is removed with a live place, or with a live transition: its arcs, and the place itself.
pub fn size_at(arena: &Arena, end: End, node: u32) -> Size
    requires in_range { node < count_of arena.now end }
    requires live { removed_at arena.now end node ≡ none }
    ensures { result ≡ sizes.size_at arena.now end node }
{
    let arcs = arcs_of_node(arena, end, node);
    match end {
        End::Place => Size { places: 1, arcs },
        End::Trans => Size { places: 0, arcs },
    }
}

/// The places from that number on, all of which are live, with their arcs.
pub fn size_from(arena: &Arena, first: u32) -> Size
    requires bounded { length arena.now.trans ≤ PART.trans }
    requires in_range { first ≤ length arena.now.places }
    requires live { sizes.AreLive arena.now first }
    ensures { result ≡ sizes.size_from arena.now first }
{
    let mut size = Size::NONE;
    for p in first..arena.count_places() {
        size = size.plus(size_at(arena, End::Place, p));
    }
    size
}

/// The places from which a live transition takes or to which it gives, with their arcs.
pub fn size_round(arena: &Arena, t: u32) -> Size
    requires bounded { length arena.now.trans ≤ PART.trans }
    requires in_range { t < length arena.now.trans }
    requires live { removed_at arena.now Trans t ≡ none }
    ensures { result ≡ sizes.size_round arena.now t }
{
    let mut size = Size::NONE;
    let mut x = arena.first(End::Trans, t);
    while x != t {
        if !is_weightless(arena, x) {
            size = size.plus(size_at(arena, End::Place, arena.far(End::Trans, x)));
        }
        x = arena.next(End::Trans, x);
    }
    size
}
