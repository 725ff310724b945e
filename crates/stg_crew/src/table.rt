//! A table of claims and its seats.

ghost use Rattle.std.specs.Prelude.{◌≡◌, []};

use crate::rule::Claiming;
use crate::view::SeatView;
use atomic_table::{Seat, Table};
use std::alloc::Global;

/// A table of claims: the number of draws and the number of groups, which the workers share. The
/// rule of the claims holds between any two steps.
#[derive(Drop)]
pub struct Claims {
    pub(crate) table: Table<(), SeatView, (), Claiming, Global>,
    ghost sized: { (table.shared.table_id.words ≡ 2) × (table.shared.table_id.slots ≡ 0) },
}

/// A seat of a table of claims. Contracts see it as its view.
#[derive(Drop)]
pub struct ClaimSeat {
    pub(crate) seat: Seat<(), SeatView>,
    ghost empty: { seat.me.1 ≡ [] },
}
