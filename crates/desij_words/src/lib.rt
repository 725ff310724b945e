//! The words of a run: their form, and what they ask for.
#![tactic(auto)]

mod words;

pub use words::{
    Command, Serving, USAGE, decompose_matches, measure_matches, read_command, read_serving,
    serving_matches,
};
