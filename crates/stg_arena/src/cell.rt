//! What the lists of an arena hold.

use crate::end::End;

/// The number of no place and no transition, and the moment that never comes.
pub const NONE: u32 = u32::MAX;

/// A cell: the weights between a place and a transition. The head of a ring has `NONE` as its
/// other end.
#[derive(Clone, Copy)]
pub struct Cell {
    /// The number of the place.
    pub place: u32,
    /// The number of the transition.
    pub trans: u32,
    /// The weight out of the place.
    pub take: u32,
    /// The weight into the place.
    pub give: u32,
}

/// A place of the arena.
#[derive(Clone, Copy)]
pub struct Spot {
    /// The cell that is the head of its ring.
    pub head: u32,
    /// How many tokens it has at first.
    pub tokens: u32,
    /// The moment of its removal, or `NONE`.
    pub removed_at: u32,
}

/// The removal of a place or a transition.
#[derive(Clone, Copy)]
pub struct Removal {
    /// Whether it was a place or a transition.
    pub end: End,
    /// The number of what was removed.
    pub node: u32,
    /// How many cells there were then.
    pub cells: u32,
}

/// How many removals, cells and places the lists can hold without memory.
#[derive(Clone, Copy)]
pub struct Rooms {
    /// How many places and transitions may be removed.
    pub removals: u32,
    /// How many cells there may be, heads among them.
    pub cells: u32,
    /// How many places there may be, live or not.
    pub places: u32,
}
