//! The plain derivation of a group's part: dummies are contracted, and redundant places and dummies
//! are deleted, until no dummy is left.
#![tactic(auto)]

mod attempt;
mod choice;
mod derivation;
mod laws;
mod notes;
mod part;
#[cfg(test)]
mod rows;
mod step;
#[cfg(test)]
mod tests;
mod undoing;
mod watches;
#[cfg(test)]
mod worked;

pub use derivation::derive;
pub use laws::law_one_derivation;
pub use part::{Part, Restore};
pub use step::{Secure, Step};
