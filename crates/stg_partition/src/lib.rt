//! Groups of signals, one for each component of a decomposition.
#![tactic(auto)]

mod error;
mod flags;
mod group;
mod join;
mod known;
mod laws;
mod numbering;
mod partition;
mod plain;
mod reading;
mod splits;
#[cfg(test)]
mod tests;

pub use error::GroupError;
pub use group::Group;
pub use laws::law_partition;
pub use partition::read_groups;
pub use plain::plain_groups;
