//! Arcs between places and transitions.

/// An arc of a net. It goes from the transition into the place where `into` is true, and from the
/// place to the transition otherwise.
///
/// The derived order is by place, then by transition, then those out of the place first.
#[derive(Clone, Copy, Debug, PartialEq, Eq, PartialOrd, Ord)]
pub struct NetArc {
    /// The number of the place.
    pub place: u32,
    /// The number of the transition.
    pub trans: u32,
    /// Whether the arc goes into the place.
    pub into: bool,
    /// How many tokens it moves; at least 1 in a net.
    pub weight: u32,
}
