//! The contraction of dummies: the verdict on each, what a contraction costs, and the contraction.
#![tactic(auto)]

mod arcs;
mod cheapest;
mod clash;
mod contraction;
mod judge;
mod large;
mod laws;
mod left;
mod outlook;
mod pure;
mod queue;
mod reach;
mod rivals;
#[cfg(test)]
mod rows;
mod secure;
#[cfg(test)]
mod tests;
mod verdict;
mod walks;
mod watch;
#[cfg(test)]
mod worked;

pub use contraction::{contract, cost, new_places};
pub use judge::{test, test_calm, test_contractible};
pub use laws::{law_calm, law_one_verdict};
pub use verdict::{Cost, Verdict};
pub use watch::DummyWatch;
