//! The rule of a table of claims and its steps, for proofs alone.

ghost use Rattle.std.specs.Prelude.{◌≡◌, ◌<◌, ◌^◌, All};
ghost use Rattle.stg_crew.specs.Claims.{IsClaims, collecting, worker, spent, drawn, with_groups, split_from, joined_to};

use crate::view::SeatView;
use atomic_table::{Join, Play, Split, TableRule};

/// The rule of the claims.
pub struct Claiming;

impl TableRule<(), SeatView, ()> for Claiming {
    ghost holds = { λ _. IsClaims };

    ghost first = { λ _. collecting 0 };
}

/// A draw: the number of draws rises by 1, and the number before stands last in the seat's list.
pub struct Draw;

impl Play<(), SeatView> for Draw {
    ghost then = { λ step before found after.
        (after.0 ≡ drawn found before.0) × (after.1 ≡ before.1) × (found < 2 ^ 32)
        × All (λ x. x < found) before.0.list };
}

/// The number of groups is set.
pub struct SetGroups;

impl Play<(), SeatView> for SetGroups {
    ghost then = { λ step before found after.
        (after.0 ≡ with_groups step.first before.0) × (after.1 ≡ before.1) };
}

/// A worker's seat is split off the collecting one.
pub struct SplitOff;

impl Split<SeatView> for SplitOff {
    ghost left = { split_from };

    ghost right = { λ v. worker v.groups };
}

/// A worker's seat is taken into the collecting one.
pub struct TakeIn;

impl Join<SeatView> for TakeIn {
    ghost both = { joined_to };

    ghost spent = { spent };
}
