//! How a connection ends.

ghost use Rattle.std.specs.Prelude.{◌≡◌};

use io_shelf::Failed;
use stg_net::NoMemory;

/// Why a request wasn't read.
#[derive(Clone, Copy, Debug, PartialEq, Eq)]
pub enum ReadError {
    /// A call of the link failed.
    Failed,
    /// Memory ran out.
    NoMemory,
}

impl From<Failed> for ReadError {
    ghost use Rattle.desk_http.specs.declared.served.ReadError.TheVariants as read_error;

    ghost from_gives = { λ _ e. e ≡ read_error.Failed };

    fn from(_: Failed) -> Self {
        ReadError::Failed
    }
}

impl From<NoMemory> for ReadError {
    ghost use Rattle.desk_http.specs.declared.served.ReadError.TheVariants as read_error;

    ghost from_gives = { λ _ e. e ≡ read_error.NoMemory };

    fn from(_: NoMemory) -> Self {
        ReadError::NoMemory
    }
}

/// How a connection was served.
#[derive(Clone, Copy, Debug, PartialEq, Eq)]
pub enum Served {
    /// A reply of this status was written whole.
    Replied(u16),
    /// A call of the link failed.
    LinkFault,
}
