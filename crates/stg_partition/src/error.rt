//! Why a text is no partition.

ghost use Rattle.std.specs.Prelude.{◌≡◌};
ghost use Rattle.stg_partition.specs.declared.error.GroupError.TheVariants.{NoMemory};

use stg_net::NoMemory as Want;

/// Why a text names no partition of a specification's outputs and internal signals.
#[derive(Clone, Copy, Debug, PartialEq, Eq)]
pub enum GroupError {
    /// The first bad line has a byte before its comment that may not stand; line 0 where the text
    /// has more than 1,048,576 bytes.
    BadLine { line: u32 },
    /// The first bad line has a word that is no output's or internal signal's name.
    UnknownOutput { line: u32 },
    /// The first bad line has a name that stood before, on this line or an earlier one.
    OutputTwice { line: u32 },
    /// The least output or internal signal that stands in no group.
    OutputMissing { signal: u32 },
    /// The least two signals, the lesser first, of different groups whose transitions take from one
    /// place, and the least such place.
    SplitConflict { x: u32, y: u32, place: u32 },
    /// Memory has run out.
    NoMemory,
}

impl GroupError {
    ghost use Rattle.stg_partition.specs.ErrorNumbers.{group_error_number};

    /// The number of the error, from 1 to 6.
    pub fn number(self) -> u8
        ensures { result ≡ group_error_number self }
    {
        match self {
            GroupError::BadLine { line: _ } => 1,
            GroupError::UnknownOutput { line: _ } => 2,
            GroupError::OutputTwice { line: _ } => 3,
            GroupError::OutputMissing { signal: _ } => 4,
            GroupError::SplitConflict {
                x: _,
                y: _,
                place: _,
            } => 5,
            GroupError::NoMemory => 6,
        }
    }
}

impl From<Want> for GroupError {
    ghost from_gives = { λ _ e. e ≡ NoMemory };

    fn from(_: Want) -> Self {
        GroupError::NoMemory
    }
}
