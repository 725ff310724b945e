//! A link in memory.

ghost use Rattle.std.specs.Prelude.{◌≡◌, ◌-◌, ◌<◌, ◌≤◌, ◌++◌, ◌⊎◌, ◌↔◌, length, take, drop, min, true, IfOk, OnErr, IsErr, []};
ghost use Rattle.io_shelf.specs.Outside.{HasCause};
ghost use Rattle.io_shelf.specs.Calls.{FailsNext, after_call, after_fault};
ghost use Rattle.io_shelf.specs.Doors.{broken_after};
ghost use Rattle.io_shelf.specs.Memory.{fresh_link, seen_link};

use crate::calls::Calls;
use crate::copying::copy_front;
use crate::doors::Link;
use crate::outside::Failed;
use std::alloc::Global;
use std::marker::Model;
use stg_net::{NoMemory, Nums, Seq, Text};

/// A peer's bytes in memory, and room for so many that are written to it. One read gives at most
/// `piece` bytes.
#[derive(Debug, Drop)]
pub struct MemLink {
    input: Text,
    from: usize,
    written: Vec<u8>,
    piece: u32,
    room: u32,
    broken: bool,
    calls: Calls,
}

impl Model for MemLink {
    ghost use Rattle.std.specs.Prelude.{◌≤◌, drop, length, vec_capacity};
    ghost use Rattle.io_shelf.specs.Memory.{LinkState};

    ghost Value = { LinkState };

    ghost view = { λ l. record {
      left = drop l.from l.input;
      written = l.written.items;
      piece = l.piece;
      room = l.room;
      broken = l.broken;
      calls = l.calls;
    } };

    ghost invariant = { λ l.
        (l.from ≤ length l.input)
        × (1 ≤ l.piece)
        × (length l.written.items ≤ l.room)
        × (l.room ≤ vec_capacity l.written) };
}

impl MemLink {
    /// A peer that sends these bytes. The calls whose numbers are in `fails` fail.
    pub fn new(
        alloc: Global,
        input: Text,
        piece: u32,
        room: u32,
        fails: Nums,
    ) -> Result<Self, NoMemory>
        requires { 1 ≤ piece }
        ensures { IfOk result (λ l. l ≡ fresh_link input piece room fails) }
    {
        Ok(MemLink {
            input,
            from: 0,
            written: Vec::with_capacity(alloc, room as usize)?,
            piece,
            room,
            broken: false,
            calls: Calls::new(fails),
        })
    }

    /// A peer that sends nothing, without room.
    pub(crate) fn without_bytes(alloc: Global) -> Self
        ensures { result ≡ fresh_link [] 1 0 [] }
    {
        MemLink {
            input: Seq::new(alloc),
            from: 0,
            written: Vec::new(alloc),
            piece: 1,
            room: 0,
            broken: false,
            calls: Calls::new(Seq::new(alloc)),
        }
    }

    /// The bytes written.
    pub fn written(&self) -> &[u8]
        ensures { result.now ≡ self.now.written }
    {
        self.written.as_slice()
    }
}

impl Link for MemLink {
    ghost seen = { seen_link };

    fn read(&mut self, buf: &mut [u8]) -> Result<usize, Failed>
        requires { 0 < length buf.old }
        ensures count { IfOk result (λ n.
            n ≡ min (min (length self.old.left) (length buf.old)) self.old.piece) }
        ensures ok { IfOk result (λ n. self.new ≡ record self.old {
          left = drop n self.old.left;
          calls = after_call self.old.calls;
        }) }
        ensures bytes { IfOk result (λ n. self.old.left ≡ take n buf.new ++ self.new.left) }
        ensures within { IfOk result (λ n. n ≤ length buf.new) }
        ensures end { IfOk result (λ n. n ≡ 0 → self.new.left ≡ []) }
        ensures failed { IsErr result ↔ FailsNext self.old.calls }
        ensures err { OnErr result (self.new ≡ record self.old {
          broken = true;
          calls = after_fault self.old.calls;
        }) }
        ensures broken { self.new.broken ≡ broken_after result self.old.broken }
        ensures cause { HasCause self.old.calls.faults self.new.calls.faults result }
        ensures kept { self.new.written ≡ self.old.written }
    {
        if self.calls.begin().is_err() {
            self.broken = true;
            return Err(Failed);
        }
        let left = &self.input.as_slice()[self.from..];
        let count = copy_front(left, buf, self.piece as usize);
        self.from += count;
        Ok(count)
    }

    fn write(&mut self, bytes: &[u8]) -> Result<usize, Failed>
        requires { 0 < length bytes.now }
        ensures count { IfOk result (λ n.
            n ≡ min (self.old.room - length self.old.written) (length bytes.now)) }
        ensures ok { IfOk result (λ n. self.new ≡ record self.old {
          written = self.old.written ++ take n bytes.now;
          calls = after_call self.old.calls;
        }) }
        ensures within { IfOk result (λ n. (0 < n) × (n ≤ length bytes.now)) }
        ensures failed { IsErr result
            ↔ (FailsNext self.old.calls ⊎ (length self.old.written ≡ self.old.room)) }
        ensures err { OnErr result (self.new ≡ record self.old {
          calls = after_fault self.old.calls;
        }) }
        ensures cause { HasCause self.old.calls.faults self.new.calls.faults result }
    {
        self.calls.begin()?;
        let room = self.room as usize - self.written.len();
        if room == 0 {
            self.calls.fault();
            return Err(Failed);
        }
        let count = room.min(bytes.len());
        self.written.extend_from_slice(&bytes[..count]).unwrap();
        Ok(count)
    }
}
