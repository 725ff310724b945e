//! The two ends of a cell, and the two ways between them.

ghost use Rattle.std.specs.Prelude.{◌≡◌};
ghost use Rattle.stg_arena.specs.Ends.{other};

/// An end of a cell.
#[derive(Clone, Copy)]
pub enum End {
    /// The place.
    Place,
    /// The transition.
    Trans,
}

/// A way along a cell: the transition takes from the place, or gives to it.
#[derive(Clone, Copy)]
pub enum Way {
    /// Out of the place.
    Take,
    /// Into the place.
    Give,
}

impl End {
    /// The end that isn't this one.
    pub fn other(self) -> End
        ensures { result ≡ other self }
    {
        match self {
            End::Place => End::Trans,
            End::Trans => End::Place,
        }
    }
}
