//! A shelf in memory.

ghost use Rattle.std.specs.Prelude.{◌≡◌, ◌↔◌, OnOk, IsErrOf};
ghost use Rattle.io_shelf.specs.Outside.{HasPutCause, with_file};
ghost use Rattle.io_shelf.specs.Calls.{FailsNext, after_call, after_fault};
ghost use Rattle.io_shelf.specs.Entries.{put_entry};
ghost use Rattle.io_shelf.specs.Memory.{fresh_shelf, seen_shelf};

use crate::calls::Calls;
use crate::entries::put_in;
use crate::outside::{PutError, Shelf};
use std::alloc::Global;
use std::marker::Model;
use stg_net::{Nums, Seq, Text};

/// Files in memory.
#[derive(Debug, Drop)]
pub struct MemShelf {
    alloc: Global,
    files: Vec<(Text, Text)>,
    calls: Calls,
}

impl Model for MemShelf {
    ghost use Rattle.io_shelf.specs.Memory.{ShelfState};

    ghost Value = { ShelfState };

    ghost view = { λ s. record { files = s.files.items; calls = s.calls } };
}

impl MemShelf {
    /// The calls whose numbers are in `fails` fail.
    pub fn new(alloc: Global, fails: Nums) -> Self
        ensures { result ≡ fresh_shelf fails }
    {
        MemShelf {
            alloc,
            files: Vec::new(alloc),
            calls: Calls::new(fails),
        }
    }

    /// The files, in the order in which their names came.
    pub fn files(&self) -> &[(Text, Text)]
        ensures { result.now ≡ self.now.files }
    {
        self.files.as_slice()
    }
}

impl Shelf for MemShelf {
    ghost seen = { seen_shelf };

    #[tactic(auto, using(crate::proofs::EntryLemmas::put_is_insert))]
    fn put(&mut self, name: &str, bytes: &[u8]) -> Result<(), PutError>
        ensures ok { OnOk result (self.new ≡ record self.old {
          files = put_entry name.now bytes.now self.old.files;
          calls = after_call self.old.calls;
        }) }
        ensures files { OnOk result ((seen_shelf self.new).files
            ≡ with_file (seen_shelf self.old).files name.now bytes.now) }
        ensures failed { IsErrOf result PutError.Failed ↔ FailsNext self.old.calls }
        ensures fault { IsErrOf result PutError.Failed → self.new ≡ record self.old {
          calls = after_fault self.old.calls;
        } }
        ensures no_memory { IsErrOf result PutError.NoMemory → self.new ≡ record self.old {
          calls = after_call self.old.calls;
        } }
        ensures cause { HasPutCause self.old.calls.faults self.new.calls.faults result }
    {
        if self.calls.begin().is_err() {
            return Err(PutError::Failed);
        }
        let copy = Seq::from_slice(self.alloc, bytes)?;
        put_in(self.alloc, &mut self.files, name.as_bytes(), copy)?;
        Ok(())
    }
}
