//! Steps of a derivation.

use stg_redundant::{DummyFound, PlaceFound};

/// The two types by which a contraction is secure.
#[derive(Clone, Copy, Debug, PartialEq, Eq)]
pub enum Secure {
    /// No other transition takes from a place from which the dummy takes.
    Type1,
    /// The dummy isn't of type 1. No other transition gives to a place to which it gives, and one
    /// of these places is empty at first.
    Type2,
}

/// One step, with the numbers of places and transitions of the draft in which it is made.
#[derive(Clone, Copy, Debug, PartialEq, Eq)]
pub enum Step {
    /// A dummy is contracted.
    Contract {
        /// The dummy.
        trans: u32,
        /// By which type the contraction is secure.
        secure: Secure,
        /// How many places it makes.
        places: u32,
    },
    /// A redundant place is deleted.
    DropPlace(PlaceFound),
    /// A redundant dummy is deleted.
    DropDummy(DummyFound),
}
