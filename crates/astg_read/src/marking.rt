//! The words of a marking, as far as they have been read.

ghost use Rattle.std.specs.Prelude.{◌≡◌, ◌++◌, ◌∷◌, ◌≤◌, ◌<◌, ◌^◌, [], drop, length, IfOk, OnOk};
ghost use Rattle.std.specs.List.{list_any};
ghost use Rattle.astg_read.specs.inner.NoDummies.{without_dummies};
ghost use Rattle.astg_read.specs.Markings as markings;
ghost use Rattle.astg_read.specs.inner.Fronts.{close_length};
ghost use Rattle.astg_read.specs.inner.PlaceTokens as listed;
ghost use Rattle.astg_read.specs.inner.MarkingCheck.{IsSettled};
ghost use Rattle.astg_read.specs.inner.Views.{slices_view, place_tokens_views, texts};

use crate::entries::entries_of;
use crate::marking_check::MarkingCheck;
use crate::place_tokens::{PlaceTokens, place_tokens_of};
use crate::signals::Signals;
use crate::text_graph::TextGraph;
use astg_lex::Word;
use std::alloc::Global;
use std::marker::Model;
use stg_net::{NoMemory, Seq};

fn is_opening(word: &[u8]) -> bool
    ensures { result ≡ markings.is_opening word.now }
{
    word == b"{".as_slice()
}

fn is_closing(word: &[u8]) -> bool
    ensures { result ≡ markings.is_closing word.now }
{
    word == b"}".as_slice()
}

/// How many words stand before the first `}`.
fn close_length(words: &[&[u8]]) -> usize
    ensures value { result ≡ close_length (slices_view words.now) }
    ensures most { result ≤ length words.now }
{
    words.iter().take_while(|word| !is_closing(**word)).count()
}

/// The same, where none of the first words is one.
fn close_length_after(first: usize, words: &[&[u8]]) -> usize
    requires least { first ≤ close_length (slices_view words.now) }
    requires within { first ≤ length words.now }
    ensures value { result ≡ close_length (slices_view words.now) }
    ensures most { result ≤ length words.now }
{
    first + close_length(&words[first..])
}

/// Whether the words after `.marking` are wrong, as far as they go.
fn is_bad_marking<'a>(
    most: u32,
    signals: &Signals<'_>,
    graph: &TextGraph<'_>,
    settled: &mut MarkingCheck<'a>,
    words: &[&'a [u8]],
) -> Result<bool, NoMemory>
    requires bounded { length signals.now < 2 ^ 32 }
    requires settled { IsSettled most (without_dummies signals.now) graph.now.places settled.old
        (markings.before_close (drop 1 (slices_view words.now))) }
    ensures bad { IfOk result
        (λ is_bad. is_bad
        ≡ markings.is_bad_marking most (without_dummies signals.now) graph.now.places
        (slices_view words.now)) }
    ensures settled { OnOk result
        (IsSettled most (without_dummies signals.now) graph.now.places settled.new
        (markings.before_close (drop 1 (slices_view words.now)))) }
{
    if words.is_empty() {
        return Ok(false);
    }
    if !is_opening(words[0]) {
        return Ok(true);
    }
    let rest = &words[1..];
    let count = close_length_after(settled.words, rest);
    if rest.len() - count > 1 {
        return Ok(true);
    }
    let is_closed = count < rest.len();
    let is_bad = settled.has_bad_entry(most, signals, graph, is_closed, &rest[..count])?;
    Ok(is_bad)
}

/// The words before the first `}`.
fn before_close<'w, 'a>(words: &'w [&'a [u8]]) -> &'w [&'a [u8]]
    ensures { slices_view result.now ≡ markings.before_close (slices_view words.now) }
{
    &words[..close_length(words)]
}

/// The words between `{` and `}`.
fn entry_words<'w, 'a>(words: &'w [&'a [u8]]) -> &'w [&'a [u8]]
    ensures { slices_view result.now ≡ markings.before_close (drop 1 (slices_view words.now)) }
{
    match words {
        [] => words,
        [_, rest @ ..] => before_close(rest),
    }
}

/// The words after `.marking`. Contracts see them as a row.
#[derive(Drop)]
pub struct Marking<'a> {
    words: Seq<&'a [u8]>,
    closed: bool,
}

impl<'a> Model for Marking<'a> {
    ghost use Rattle.std.specs.Prelude.{◌≡◌};
    ghost use Rattle.std.specs.List.{list_any};
    ghost use Rattle.astg_read.specs.Markings.{is_closing};
    ghost use Rattle.astg_read.specs.Rows.{Row};
    ghost use Rattle.astg_read.specs.inner.Views.{slices_view};

    ghost Value = { Row };

    ghost view = { λ m. slices_view m.words };

    ghost invariant = { λ m. m.closed ≡ list_any is_closing (slices_view m.words) };
}

impl<'a> Marking<'a> {
    /// No words.
    pub fn new(alloc: Global) -> Self
        ensures { result ≡ [] }
    {
        Marking {
            words: Seq::new(alloc),
            closed: false,
        }
    }

    /// Whether a `}` is among the words.
    pub fn is_closed(&self) -> bool
        ensures { result ≡ list_any markings.is_closing self.now }
    {
        self.closed
    }

    fn push(&mut self, word: &'a [u8]) -> Result<(), NoMemory>
        ensures { OnOk result (self.new ≡ self.old ++ word.now ∷ []) }
    {
        self.words.push(word)?;
        if is_closing(word) {
            self.closed = true;
        }
        Ok(())
    }

    /// Adds the words of a line.
    pub fn extend(&mut self, words: &[Word<'a>]) -> Result<(), NoMemory>
        ensures { OnOk result (self.new ≡ self.old ++ texts words.now) }
    {
        for word in words {
            self.push(word.text)?;
        }
        Ok(())
    }

    /// Whether the words are wrong, as far as they go. Settled entries aren't looked at again.
    pub fn is_bad(
        &self,
        most: u32,
        signals: &Signals<'_>,
        graph: &TextGraph<'_>,
        settled: &mut MarkingCheck<'a>,
    ) -> Result<bool, NoMemory>
        requires bounded { length signals.now < 2 ^ 32 }
        requires settled { IsSettled most (without_dummies signals.now) graph.now.places settled.old
            (markings.before_close (drop 1 self.now)) }
        ensures bad { IfOk result
            (λ is_bad. is_bad
            ≡ markings.is_bad_marking most (without_dummies signals.now) graph.now.places
            self.now) }
        ensures settled { OnOk result
            (IsSettled most (without_dummies signals.now) graph.now.places settled.new
            (markings.before_close (drop 1 self.now))) }
    {
        is_bad_marking(most, signals, graph, settled, self.words.as_slice())
    }

    /// The places that the entries name, with their tokens, in order.
    pub fn place_tokens(
        &self,
        alloc: Global,
        signals: &Signals<'_>,
    ) -> Result<Seq<PlaceTokens<'a>>, NoMemory>
        requires { length signals.now < 2 ^ 32 }
        ensures { IfOk result
            (λ place_tokens. place_tokens_views place_tokens
            ≡ listed.place_tokens_of (without_dummies signals.now) (markings.entries_of self.now)) }
    {
        let entries = entries_of(alloc, entry_words(self.words.as_slice()))?;
        let place_tokens = place_tokens_of(alloc, signals, entries.as_slice())?;
        Ok(place_tokens)
    }
}
