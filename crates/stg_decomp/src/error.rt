//! Why a specification has no parts.

ghost use Rattle.std.specs.Prelude.{◌≡◌};

use stg_conflict::Clash;
use stg_net::NoMemory;
use stg_partition::GroupError;

/// Why a specification isn't decomposed: it has a structural auto-conflict, the text of the
/// partition is refused, or memory ran out.
#[derive(Clone, Copy, Debug, PartialEq, Eq)]
pub enum DecompError {
    /// The least structural auto-conflict.
    Clash(Clash),
    /// Why the text names no partition, which is never `GroupError::NoMemory`.
    Groups(GroupError),
    /// Memory has run out.
    NoMemory,
}

impl From<NoMemory> for DecompError {
    ghost use Rattle.stg_decomp.specs.declared.error.DecompError.TheVariants as decomp_error;

    ghost from_gives = { λ _ e. e ≡ decomp_error.NoMemory };

    fn from(_: NoMemory) -> Self {
        DecompError::NoMemory
    }
}
