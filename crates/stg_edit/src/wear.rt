//! What is left of an editor that is closed.

ghost use Rattle.std.specs.Prelude.{◌≡◌};

use std::marker::Model;

/// How many edits stand at the end, and how many were undone. An editor's `close` alone makes one.
#[derive(Debug, Drop)]
pub struct Wear {
    edits: u64,
    undone: u64,
}

impl Model for Wear {
    ghost use Rattle.stg_edit.specs.Worn.{Worn};

    ghost Value = { Worn };

    ghost view = { λ w. record { edits = w.edits; undone = w.undone } };
}

impl Wear {
    pub(crate) fn of(edits: u64, undone: u64) -> Self
        ensures { result ≡ record { edits = edits; undone = undone } }
    {
        Wear { edits, undone }
    }

    /// How many edits weren't undone.
    pub fn edits(&self) -> u64
        ensures { result ≡ self.now.edits }
    {
        self.edits
    }

    /// How many edits were undone; the number stands still at the last one of 64 bits.
    pub fn undone(&self) -> u64
        ensures { result ≡ self.now.undone }
    {
        self.undone
    }
}
