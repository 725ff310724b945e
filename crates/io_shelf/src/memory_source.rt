//! A source in memory.

ghost use Rattle.std.specs.Prelude.{◌≡◌, ◌≢◌, ◌+◌, ◌<◌, ◌≤◌, ◌↔◌, ◌++◌, length, take, drop, min, [], true, false, AllPairs, IfOk, OnOk, OnErr, IsErr, is_some};
ghost use Rattle.io_shelf.specs.Outside.{HasCause, IsMissing, named};
ghost use Rattle.io_shelf.specs.Calls.{FailsNext, after_call, after_fault};
ghost use Rattle.io_shelf.specs.Entries.{NamedBytes, bytes_at, bytes_of};
ghost use Rattle.io_shelf.specs.Memory.{fresh_source, seen_source};

use crate::calls::Calls;
use crate::copying::copy_front;
use crate::entries::place_of;
use crate::outside::{Failed, Source};
use std::marker::Model;
use stg_net::{Nums, Seq, Text};

/// Texts in memory, each by its name. One read gives at most `piece` bytes.
#[derive(Debug, Drop)]
pub struct MemSource {
    texts: Seq<(Text, Text)>,
    chosen: usize,
    from: usize,
    piece: u32,
    selects: u64,
    calls: Calls,
}

impl Model for MemSource {
    ghost use Rattle.std.specs.Prelude.{◌≤◌, drop, length};
    ghost use Rattle.io_shelf.specs.Entries.{bytes_at};
    ghost use Rattle.io_shelf.specs.Memory.{SourceState};

    ghost Value = { SourceState };

    ghost view = { λ s. record {
      texts = s.texts;
      left = drop s.from (bytes_at s.texts s.chosen);
      piece = s.piece;
      selects = s.selects;
      calls = s.calls;
    } };

    ghost invariant = { λ s. (s.from ≤ length (bytes_at s.texts s.chosen)) × (1 ≤ s.piece) };
}

impl MemSource {
    /// The calls whose numbers are in `fails` fail.
    pub fn new(texts: Seq<(Text, Text)>, piece: u32, fails: Nums) -> Self
        requires names { AllPairs (λ (a b : NamedBytes). a.0 ≢ b.0) texts }
        requires piece { 1 ≤ piece }
        ensures { result ≡ fresh_source texts piece fails }
    {
        let chosen = texts.len();
        MemSource {
            texts,
            chosen,
            from: 0,
            piece,
            selects: 0,
            calls: Calls::new(fails),
        }
    }
}

impl Source for MemSource {
    ghost seen = { seen_source };

    #[tactic(auto, using(crate::proofs::EntryLemmas::named_is))]
    fn select(&mut self, name: &str) -> Result<bool, Failed>
        requires { self.old.selects < 8 }
        ensures ok { OnOk result (self.new ≡ record self.old {
          left = self.new.left;
          selects = self.old.selects + 1;
          calls = after_call self.old.calls;
        }) }
        ensures value { IfOk result (λ b. b ≡ is_some (bytes_of name.now self.old.texts)) }
        ensures found { result ≡ Ok true
            → Some self.new.left ≡ named (seen_source self.old).texts name.now }
        ensures missing { result ≡ Ok false → IsMissing name.now (seen_source self.old) }
        ensures same_left { result ≡ Ok false → self.new.left ≡ self.old.left }
        ensures failed { IsErr result ↔ FailsNext self.old.calls }
        ensures err { OnErr result (self.new ≡ record self.old {
          selects = self.old.selects + 1;
          calls = after_fault self.old.calls;
        }) }
        ensures cause { HasCause self.old.calls.faults self.new.calls.faults result }
    {
        self.selects += 1;
        self.calls.begin()?;
        match place_of(self.texts.as_slice(), name.as_bytes()) {
            Some(at) => {
                self.chosen = at;
                self.from = 0;
                Ok(true)
            }
            None => Ok(false),
        }
    }

    fn read(&mut self, buf: &mut [u8]) -> Result<usize, Failed>
        requires { 0 < length buf.old }
        ensures count { IfOk result (λ n.
            n ≡ min (min (length self.old.left) (length buf.old)) self.old.piece) }
        ensures ok { IfOk result (λ n. self.new ≡ record self.old {
          left = drop n self.old.left;
          calls = after_call self.old.calls;
        }) }
        ensures bytes { IfOk result (λ n. self.old.left ≡ take n buf.new ++ self.new.left) }
        ensures within { IfOk result (λ n. n ≤ length buf.new) }
        ensures end { IfOk result (λ n. n ≡ 0 → self.new.left ≡ []) }
        ensures failed { IsErr result ↔ FailsNext self.old.calls }
        ensures err { OnErr result (self.new ≡ record self.old {
          calls = after_fault self.old.calls;
        }) }
        ensures cause { HasCause self.old.calls.faults self.new.calls.faults result }
    {
        self.calls.begin()?;
        let left = &text_at(self.texts.as_slice(), self.chosen)[self.from..];
        let count = copy_front(left, buf, self.piece as usize);
        self.from += count;
        Ok(count)
    }
}

// The bytes of the entry at a place, none past the end.
fn text_at(texts: &[(Text, Text)], at: usize) -> &[u8]
    ensures { result.now ≡ bytes_at texts.now at }
{
    match texts.get(at) {
        Some(entry) => entry.1.as_slice(),
        None => &[],
    }
}
