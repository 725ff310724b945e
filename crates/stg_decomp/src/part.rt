//! The answer to a specification.

use stg_derive::Part;
use stg_net::Seq;

/// The parts of a decomposition, in the order of their groups.
#[derive(Debug, Drop)]
pub struct Answer {
    /// One part for each group, at most 250.
    pub parts: Seq<Part>,
}
