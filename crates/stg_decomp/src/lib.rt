//! The decomposition of a specification into parts, and the texts of these.
#![tactic(auto)]

mod error;
mod part;
mod parts;
mod settle;
#[cfg(test)]
mod tests;
mod text;

pub use error::DecompError;
pub use part::Answer;
pub use parts::decompose;
pub use text::part_text;
