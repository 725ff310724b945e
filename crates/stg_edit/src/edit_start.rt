//! Where an edit began.

ghost use Rattle.std.specs.Prelude.{◌≡◌};
ghost use Rattle.stg_edit.specs.inner.DraftAt.{present_start};

use stg_arena::Arena;

/// Where an edit began: how many removals, places and cells there were.
#[derive(Clone, Copy, Debug)]
pub struct EditStart {
    /// How many places and transitions had been removed.
    pub moment: u32,
    /// How many places there were, live or not.
    pub places: u32,
    /// How many cells there were.
    pub cells: u32,
}

/// Where an edit begins that begins now.
pub fn edit_start(arena: &Arena) -> EditStart
    ensures { result ≡ present_start arena.now }
{
    EditStart {
        moment: arena.moment(),
        places: arena.count_places(),
        cells: arena.count_cells(),
    }
}
