//! Doors in memory.

ghost use Rattle.std.specs.Prelude.{◌≡◌, ◌++◌, ◌∷◌, ◌↔◌, [], drop, map, true, false, IfOk, OnOk, OnErr, IsErr, is_ok};
ghost use Rattle.io_shelf.specs.Outside.{HasCause};
ghost use Rattle.io_shelf.specs.Calls.{FailsNext, after_call, after_fault};
ghost use Rattle.io_shelf.specs.Doors.{first_link, listened_at, with_finished, without_first};
ghost use Rattle.io_shelf.specs.Memory.{fresh_doors, seen_doors, seen_link};

use crate::calls::Calls;
use crate::doors::Doors;
use crate::memory_link::MemLink;
use crate::outside::Failed;
use std::alloc::Global;
use std::marker::Model;
use stg_net::{NoMemory, Nums, Text};

/// Links in memory that come at an address. At any other address none comes.
#[derive(Debug, Drop)]
pub struct MemDoors {
    alloc: Global,
    addr: Text,
    coming: Vec<MemLink>,
    finished: Vec<MemLink>,
    asked: bool,
    listening: bool,
    calls: Calls,
}

impl Model for MemDoors {
    ghost use Rattle.io_shelf.specs.Memory.{DoorsState};

    ghost Value = { DoorsState };

    ghost view = { λ d. record {
      addr = d.addr;
      coming = d.coming.items;
      finished = d.finished.items;
      asked = d.asked;
      listening = d.listening;
      calls = d.calls;
    } };
}

impl MemDoors {
    /// The calls of `listen` and `next` whose numbers are in `fails` fail.
    pub fn new(alloc: Global, addr: Text, links: Vec<MemLink>, fails: Nums) -> Self
        ensures { result ≡ fresh_doors addr links.items fails }
    {
        MemDoors {
            alloc,
            addr,
            coming: links,
            finished: Vec::new(alloc),
            asked: false,
            listening: false,
            calls: Calls::new(fails),
        }
    }

    /// The links to come.
    pub fn coming(&self) -> &[MemLink]
        ensures { result.now ≡ self.now.coming }
    {
        self.coming.as_slice()
    }

    /// The finished links.
    pub fn finished(&self) -> &[MemLink]
        ensures { result.now ≡ self.now.finished }
    {
        self.finished.as_slice()
    }
}

impl Doors for MemDoors {
    type L = MemLink;

    ghost seen = { seen_doors };

    fn listen(&mut self, addr: &str) -> Result<(), Failed>
        requires { self.old.asked ≡ false }
        ensures ok { OnOk result
            ((seen_doors self.new).links ≡ listened_at addr.now (seen_doors self.old).links) }
        ensures failed { IsErr result ↔ FailsNext self.old.calls }
        ensures err { OnErr result (self.new ≡ record self.old {
          asked = true;
          listening = false;
          calls = after_fault self.old.calls;
        }) }
        ensures asked { self.new.asked ≡ true }
        ensures listening { self.new.listening ≡ is_ok result }
        ensures cause { HasCause self.old.calls.faults self.new.calls.faults result }
    {
        self.asked = true;
        self.listening = false;
        self.calls.begin()?;
        if addr.as_bytes() != self.addr.as_slice() {
            self.coming.clear();
        }
        self.listening = true;
        Ok(())
    }

    fn next(&mut self) -> Result<MemLink, Failed>
        requires { self.old.listening ≡ true }
        ensures value { IfOk result (λ l.
            seen_link l ≡ first_link (map seen_link self.old.coming)) }
        ensures ok { OnOk result (self.new ≡ record self.old {
          coming = drop 1 self.old.coming;
          calls = after_call self.old.calls;
        }) }
        ensures failed { IsErr result ↔ FailsNext self.old.calls }
        ensures err { OnErr result (self.new ≡ record self.old {
          calls = after_fault self.old.calls;
        }) }
        ensures cause { HasCause self.old.calls.faults self.new.calls.faults result }
    {
        self.calls.begin()?;
        if self.coming.is_empty() {
            return Ok(MemLink::without_bytes(self.alloc));
        }
        Ok(self.coming.remove(0))
    }

    fn finish(&mut self, link: MemLink) -> Result<(), NoMemory>
        ensures ok { OnOk result (self.new ≡ record self.old {
          finished = self.old.finished ++ link ∷ [];
        }) }
        ensures err { OnErr result (self.new ≡ self.old) }
    {
        match self.finished.push(link) {
            Ok(()) => Ok(()),
            Err(_) => Err(NoMemory),
        }
    }
}
