//! Reads specification texts.
#![tactic(auto)]

mod entries;
mod faults;
mod finish;
mod kinds;
mod laws;
mod line_error;
mod marking;
mod marking_check;
mod names;
mod nodes;
mod place_tokens;
mod read;
mod reader;
mod rule;
mod signals;
mod targets;
#[cfg(test)]
mod tests;
mod text_arcs;
mod text_graph;

pub use laws::law_accepted;
pub use read::{read_part, read_spec, read_with};
pub use rule::{ReadError, Rule};
