//! The lines of a text, their words, and the numbers of words.
#![tactic(auto)]

mod line;
mod measures;
mod numbers;
mod start;
#[cfg(test)]
mod tests;
mod words;

pub use line::{LexError, Line, Lines};
pub use numbers::number;
pub use start::lines;
pub use words::Word;
