//! The token game: which transitions of a net can fire, and what that does to a marking.
#![tactic(auto)]

mod game;
#[cfg(test)]
mod tests;

pub use game::{enabled, fire, start};
