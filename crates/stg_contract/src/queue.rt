//! Entries of dummies, the one with the fewest places first.

ghost use Rattle.std.specs.Prelude.{◌≡◌, ◌<◌, ◌≤◌, ◌+◌, ◌++◌, ◌∷◌, [], All, IfSome, OnOk, OnErr, None};
ghost use Rattle.std.specs.List.Sorted.{IsPermutation};
ghost use Rattle.stg_contract.specs.inner.Queues.{ComesFirst};

use std::alloc::Global;
use std::cmp::Reverse;
use std::collections::BinaryHeap;
use std::marker::Model;
use stg_net::NoMemory;

/// Entries, each a number of places and a dummy. The one with the fewest places comes first, the
/// least dummy among equals. Some can be put aside until all are put back.
#[derive(Drop)]
pub struct Queue {
    waiting: BinaryHeap<Reverse<(u64, u32)>>,
    aside: BinaryHeap<Reverse<(u64, u32)>>,
}

impl Model for Queue {
    ghost use Rattle.std.specs.Prelude.{◌≤◌, ◌+◌, ◌-◌, min};
    ghost use Rattle.std.specs.BinaryHeap.{heap_items, heap_len, heap_capacity, IsHeap};
    ghost use Rattle.stg_contract.specs.inner.Queues.{Queued, cmp_stored, stored_entries};

    ghost Value = { Queued };

    ghost view = { λ q. record {
      waiting = stored_entries (heap_items q.waiting);
      aside = stored_entries (heap_items q.aside);
      room = min (heap_capacity q.waiting) (heap_capacity q.aside)
          - (heap_len q.waiting + heap_len q.aside);
    } };

    ghost invariant = { λ q. IsHeap cmp_stored (heap_items q.waiting)
        × (heap_len q.waiting + heap_len q.aside ≤ heap_capacity q.waiting)
        × (heap_len q.waiting + heap_len q.aside ≤ heap_capacity q.aside) };
}

impl Queue {
    /// A queue without entries.
    pub fn new(alloc: Global) -> Self
        ensures waiting { result.waiting ≡ [] }
        ensures aside { result.aside ≡ [] }
    {
        Queue {
            waiting: BinaryHeap::new(alloc),
            aside: BinaryHeap::new(alloc),
        }
    }

    /// Makes room for one more entry.
    pub fn reserve(&mut self) -> Result<(), NoMemory>
        ensures room { OnOk result (0 < self.new.room) }
        ensures waiting { self.new.waiting ≡ self.old.waiting }
        ensures aside { self.new.aside ≡ self.old.aside }
    {
        let others = self.aside.len();
        self.waiting.reserve(others + 1)?;
        self.aside.reserve(self.waiting.len() + 1)?;
        Ok(())
    }

    /// Adds an entry, for which there is room.
    pub fn push(&mut self, places: u64, t: u32)
        requires { 0 < self.old.room }
        ensures waiting { IsPermutation ((places, t) ∷ self.old.waiting) self.new.waiting }
        ensures aside { self.new.aside ≡ self.old.aside }
        ensures room { self.old.room ≤ self.new.room + 1 }
    {
        self.waiting.push(Reverse((places, t))).unwrap();
    }

    /// Takes out the first entry that waits.
    pub fn pop(&mut self) -> Option<(u64, u32)>
        ensures waiting { IfSome result
            (λ x. IsPermutation self.old.waiting (x ∷ self.new.waiting)) }
        ensures first { IfSome result (λ x. All (ComesFirst x) self.new.waiting) }
        ensures room { IfSome result (λ x. self.old.room < self.new.room) }
        ensures aside { self.new.aside ≡ self.old.aside }
        ensures none { result ≡ None → (self.old.waiting ≡ []) × (self.new ≡ self.old) }
    {
        match self.waiting.pop() {
            None => return None,
            Some(Reverse(entry)) => return Some(entry),
        }
    }

    /// Adds an entry to those that are put aside. There is room for it.
    pub fn put_aside(&mut self, places: u64, t: u32)
        requires { 0 < self.old.room }
        ensures aside { IsPermutation ((places, t) ∷ self.old.aside) self.new.aside }
        ensures waiting { self.new.waiting ≡ self.old.waiting }
        ensures room { self.old.room ≤ self.new.room + 1 }
    {
        self.aside.push(Reverse((places, t))).unwrap();
    }

    /// Puts back all entries that are put aside.
    pub fn put_back(&mut self)
        ensures waiting { IsPermutation (self.old.waiting ++ self.old.aside) self.new.waiting }
        ensures aside { self.new.aside ≡ [] }
        ensures room { self.old.room ≤ self.new.room }
    {
        self.waiting.append(&mut self.aside).unwrap();
    }
}
