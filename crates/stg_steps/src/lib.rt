//! The step log of a part, written and read.
#![tactic(auto)]

mod laws;
mod lines;
mod log;
mod read;
#[cfg(test)]
mod rows;
#[cfg(test)]
mod tests;
mod words;
#[cfg(test)]
mod worked;
mod write;

pub use laws::law_one_log;
pub use log::{Log, StepError};
pub use read::read_steps;
pub use write::write_steps;
