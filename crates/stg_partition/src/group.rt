//! Groups.

use std::marker::Model;
use stg_net::Nums;

/// A group of signals, by their numbers.
#[derive(Debug, Drop)]
pub struct Group {
    /// The signals that its component drives, in ascending order.
    pub own: Nums,
    /// The signals that it knows, in ascending order.
    pub known: Nums,
}

impl Model for Group {
    ghost use Rattle.stg_laws.specs.PlainGroups.{Group as Signals};

    ghost Value = { Signals };

    ghost view = { λ g. record { own = g.own; known = g.known } };
}
