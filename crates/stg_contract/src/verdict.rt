//! Verdicts on dummies, and the cost of a contraction.

/// What a test says of a dummy: the first reason against its contraction, or the type by which the
/// contraction is secure.
#[derive(Clone, Copy, Debug, PartialEq, Eq)]
pub enum Verdict {
    /// It may be contracted: it alone takes from the places before it.
    Type1,
    /// It may be contracted: it alone gives to the places after it, and one of these is empty.
    Type2,
    /// It takes from a place to which it gives.
    Loop,
    /// One of its arcs has a weight other than 1.
    Weight,
    /// It is of neither type.
    Insecure,
    /// After the contraction two known transitions of one label would take from one place: the
    /// least two, the lesser first.
    Clash(u32, u32),
    /// After the contraction so many places would be live, which are more than
    /// `2 * first_places + 64`. The number stands still at 4,294,967,295.
    Places(u32),
    /// After the contraction a weight or the tokens of a place would pass 1,000,000, or the arcs
    /// 100,000.
    Large,
}

/// What a contraction makes. Both numbers stand still at 4,294,967,295.
#[derive(Clone, Copy, Debug, PartialEq, Eq)]
pub struct Cost {
    /// The new places.
    pub places: u32,
    /// Their arcs.
    pub arcs: u32,
}
