//! A sink in memory.

ghost use Rattle.std.specs.Prelude.{◌≡◌, ◌-◌, ◌<◌, ◌≤◌, ◌++◌, ◌⊎◌, ◌↔◌, length, take, min, IfOk, OnErr, IsErr};
ghost use Rattle.io_shelf.specs.Outside.{HasCause};
ghost use Rattle.io_shelf.specs.Calls.{FailsNext, after_call, after_fault};
ghost use Rattle.io_shelf.specs.Memory.{fresh_sink, seen_sink};

use crate::calls::Calls;
use crate::outside::{Failed, Sink};
use std::alloc::Global;
use std::marker::Model;
use stg_net::{NoMemory, Nums};

/// Bytes in memory, with room for so many.
#[derive(Debug, Drop)]
pub struct MemSink {
    bytes: Vec<u8>,
    room: u32,
    calls: Calls,
}

impl Model for MemSink {
    ghost use Rattle.std.specs.Prelude.{◌≤◌, length, vec_capacity};
    ghost use Rattle.io_shelf.specs.Memory.{SinkState};

    ghost Value = { SinkState };

    ghost view = { λ s. record { bytes = s.bytes.items; room = s.room; calls = s.calls } };

    ghost invariant = { λ s. (length s.bytes.items ≤ s.room) × (s.room ≤ vec_capacity s.bytes) };
}

impl MemSink {
    /// The calls whose numbers are in `fails` fail.
    pub fn new(alloc: Global, room: u32, fails: Nums) -> Result<Self, NoMemory>
        ensures { IfOk result (λ s. s ≡ fresh_sink room fails) }
    {
        Ok(MemSink {
            bytes: Vec::with_capacity(alloc, room as usize)?,
            room,
            calls: Calls::new(fails),
        })
    }

    /// The bytes written.
    pub fn bytes(&self) -> &[u8]
        ensures { result.now ≡ self.now.bytes }
    {
        self.bytes.as_slice()
    }
}

impl Sink for MemSink {
    ghost seen = { seen_sink };

    fn write(&mut self, bytes: &[u8]) -> Result<usize, Failed>
        requires { 0 < length bytes.now }
        ensures count { IfOk result (λ n.
            n ≡ min (self.old.room - length self.old.bytes) (length bytes.now)) }
        ensures ok { IfOk result (λ n. self.new ≡ record self.old {
          bytes = self.old.bytes ++ take n bytes.now;
          calls = after_call self.old.calls;
        }) }
        ensures within { IfOk result (λ n. (0 < n) × (n ≤ length bytes.now)) }
        ensures failed { IsErr result
            ↔ (FailsNext self.old.calls ⊎ (length self.old.bytes ≡ self.old.room)) }
        ensures err { OnErr result (self.new ≡ record self.old {
          calls = after_fault self.old.calls;
        }) }
        ensures cause { HasCause self.old.calls.faults self.new.calls.faults result }
    {
        self.calls.begin()?;
        let room = self.room as usize - self.bytes.len();
        if room == 0 {
            self.calls.fault();
            return Err(Failed);
        }
        let count = room.min(bytes.len());
        self.bytes.extend_from_slice(&bytes[..count]).unwrap();
        Ok(count)
    }
}
