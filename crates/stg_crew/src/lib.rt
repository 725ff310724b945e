//! Workers that draw groups by one counter, each group by exactly one of them, and derive their
//! parts.
#![tactic(auto)]

mod claims;
mod crew;
mod gate;
mod kind;
mod laws;
mod rule;
mod slots;
mod table;
#[cfg(test)]
mod tests;
mod view;
mod worker;

pub use claims::{ClaimStart, Draws, claims_for, close_claims, draw, join_claims, split_claims};
pub use crew::{Worked, work};
pub use gate::{Gate, OpenGate};
pub use kind::SeatKind;
pub use laws::law_claims;
pub use table::{ClaimSeat, Claims};
pub use view::SeatView;
pub use worker::{Drawn, draw_all};
