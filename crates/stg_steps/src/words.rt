//! The words of a log's lines.

ghost use Rattle.std.specs.Prelude.{◌≡◌, ◌==◌, ◌≤◌, ◌<◌, ◌+◌, ◌^◌, [], ◌∷◌, ◌++◌, true, length, map, take, drop, IfOk, IfSome, OnOk, None};
ghost use Rattle.std.specs.List.{position_or_len};
ghost use Rattle.stg_net.specs.Names.{IsWellNamed};
ghost use Rattle.stg_steps.specs.inner.Reading as reading;
ghost use Rattle.stg_steps.specs.inner.Taking.{lent_words};

use astg_lex::number;
use indexmap::IndexMap;
use std::alloc::Global;
use std::marker::Model;
use stg_net::{Net, NoMemory, Seq, Text, trans_text};

/// How many bytes stand before the first of that kind.
pub(crate) fn piece_length(bytes: &[u8], stop: u8) -> usize
    ensures value { result ≡ position_or_len (λ b. b == stop) bytes.now }
    ensures most { result ≤ length bytes.now }
{
    bytes.iter().take_while(|b| **b != stop).count()
}

/// The first bytes.
pub(crate) fn before(bytes: &[u8], count: usize) -> &[u8]
    requires { count ≤ length bytes.now }
    ensures { result.now ≡ take count bytes.now }
{
    &bytes[..count]
}

/// What stands after a byte.
pub(crate) fn after(bytes: &[u8], count: usize) -> &[u8]
    requires { count < length bytes.now }
    ensures { result.now ≡ drop (count + 1) bytes.now }
{
    &bytes[count + 1..]
}

/// The words of a line, between which one space stands.
pub(crate) fn split_words<'a>(alloc: Global, line: &'a [u8]) -> Result<Seq<&'a [u8]>, NoMemory>
    ensures { IfOk result (λ words. lent_words words ≡ reading.pieces 32 line.now) }
{
    let mut words = Seq::new(alloc);
    let mut rest = line;
    loop {
        let count = piece_length(rest, b' ');
        words.push(before(rest, count))?;
        if count < rest.len() {
            rest = after(rest, count);
        } else {
            return Ok(words);
        }
    }
}

fn has_leading_zero(word: &[u8]) -> bool
    ensures { result ≡ reading.has_leading_zero word.now }
{
    match word {
        [first, _, ..] => *first == b'0',
        _ => false,
    }
}

/// The number of a word.
pub(crate) fn number_in(word: &[u8]) -> Option<u32>
    ensures { result ≡ reading.number_in word.now }
{
    if has_leading_zero(word) {
        None
    } else {
        number(word)
    }
}

/// The words of a net's transitions, found by their bytes. Contracts see them as a list.
#[derive(Drop)]
pub(crate) struct TransWords {
    words: IndexMap<Vec<u8>, ()>,
}

impl Model for TransWords {
    ghost use Rattle.std.specs.Prelude.{List, ℕ, map};
    ghost use Rattle.stg_steps.specs.inner.TransKeys.{entry_word};

    ghost Value = { List (List ℕ) };

    ghost view = { λ s. map entry_word s.words.entries };
}

impl TransWords {
    /// No words.
    fn new(alloc: Global) -> Self
        ensures { result ≡ [] }
    {
        TransWords {
            words: IndexMap::new(alloc),
        }
    }

    /// Adds a word last that isn't there.
    fn push(&mut self, word: Text) -> Result<(), NoMemory>
        requires { reading.place_in self.old word ≡ None }
        ensures { OnOk result (self.new ≡ self.old ++ word ∷ []) }
    {
        self.words.insert(word.into_vec(), ())?;
        Ok(())
    }

    /// The transition of a word.
    pub(crate) fn find(&self, word: &[u8]) -> Option<u32>
        requires { length self.now < 2 ^ 32 }
        ensures value { result ≡ reading.place_in self.now word.now }
        ensures within { IfSome result (λ t. t < length self.now) }
    {
        match self.words.get_index_of(word) {
            Some(at) => Some(at as u32),
            None => None,
        }
    }
}

/// The words of the transitions, in their order.
pub(crate) fn trans_words(alloc: Global, net: &Net) -> Result<TransWords, NoMemory>
    requires { IsWellNamed net.now }
    ensures { IfOk result (λ words. words ≡ reading.trans_words net.now) }
{
    let mut words = TransWords::new(alloc);
    for t in 0..net.trans().len() as u32 {
        words.push(trans_text(alloc, net, t)?)?;
    }
    Ok(words)
}
