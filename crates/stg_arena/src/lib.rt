//! Cells between places and transitions, linked in rings: what is removed can come back.
#![tactic(auto)]

mod arena;
mod cell;
mod empty;
mod end;
mod links;
mod walk;

pub use arena::Arena;
pub use cell::{Cell, NONE, Removal, Rooms, Spot};
pub use end::{End, Way};
pub use walk::Walk;
