//! Nets and graphs: places with tokens, transitions that carry signal edges, and weighted arcs.
#![tactic(auto)]

mod arc;
mod builder;
mod limits;
mod net;
mod no_memory;
mod order;
mod place;
mod seq;
mod signal;
mod spec;
#[cfg(test)]
mod tests;
mod trans;

pub use arc::NetArc;
pub use builder::{BuildError, NetBuilder};
pub use limits::{Limits, law_limits};
pub use net::{Net, is_one_of};
pub use no_memory::NoMemory;
pub use order::{ordered, renumber};
pub use place::place_text;
pub use seq::{Nums, Seq, Text, numbers_below};
pub use signal::{Kind, Signal};
pub use spec::{PlaceName, Spec};
pub use trans::{Edge, TransName, trans_text};
