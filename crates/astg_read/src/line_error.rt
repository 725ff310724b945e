//! Why a line isn't taken.

use crate::Rule;
use stg_net::NoMemory as Want;

/// Why a line isn't taken.
#[derive(Clone, Copy, Debug, PartialEq, Eq)]
pub enum LineError {
    Broken(Rule),
    NoMemory,
}

impl From<Want> for LineError {
    ghost use Rattle.std.specs.Prelude.{◌≡◌};
    ghost use Rattle.astg_read.specs.declared.line_error.LineError.TheVariants.{NoMemory};

    ghost from_gives = { λ _ e. e ≡ NoMemory };

    fn from(_: Want) -> Self {
        LineError::NoMemory
    }
}
