//! The text of a component.
#![tactic(auto)]

mod again;
mod arcs;
mod component;
mod graph;
mod header;
mod marking;
mod number;
mod place;
#[cfg(test)]
mod tests;

pub use again::read_again;
pub use component::write_net;
