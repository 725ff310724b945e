//! The entries of a marking that later words don't change.

ghost use Rattle.std.specs.Prelude.{◌≡◌, ◌<◌, ◌^◌, ◌||◌, not, [], zero, length, map, true, false, IfOk, OnOk};
ghost use Rattle.astg_read.specs.inner.NoDummies.{without_dummies};
ghost use Rattle.astg_read.specs.Markings.{entries_after};
ghost use Rattle.astg_read.specs.Markings as markings;
ghost use Rattle.astg_read.specs.inner.MarkingCheck.{IsSettled};
ghost use Rattle.astg_read.specs.inner.Views.{entry_view, place_view, slices_view};

use crate::entries::{
    Entry, front, is_whole, is_whole_place, named_place, starts_entry, tokens_of,
};
use crate::signals::Signals;
use crate::text_graph::{TextGraph, TextPlace};
use indexmap::IndexSet;
use std::alloc::Global;
use stg_net::NoMemory;

/// How many words the settled entries have, and the places that they name.
#[derive(Drop)]
pub struct MarkingCheck<'a> {
    pub words: usize,
    pub named: IndexSet<TextPlace<'a>>,
}

/// Whether words name no place of the graph, or one that was named before.
fn is_bad_place<'a>(
    signals: &Signals<'_>,
    graph: &TextGraph<'_>,
    named: &IndexSet<TextPlace<'a>>,
    words: &[&'a [u8]],
) -> bool
    requires { length signals.now < 2 ^ 32 }
    ensures { result
        ≡ (not (markings.names_one (without_dummies signals.now) graph.now.places
        (slices_view words.now))
        || markings.names_one (without_dummies signals.now) (map place_view named.now.keys)
        (slices_view words.now)) }
{
    match named_place(signals, words) {
        Some(place) => !graph.has_place(&place) || named.contains(&place),
        None => true,
    }
}

/// Whether an entry is wrong, after others that named these places.
fn is_bad_entry<'a>(
    most: u32,
    signals: &Signals<'_>,
    graph: &TextGraph<'_>,
    is_closed: bool,
    named: &IndexSet<TextPlace<'a>>,
    entry: &Entry<'_, 'a>,
) -> bool
    requires { length signals.now < 2 ^ 32 }
    ensures { result
        ≡ markings.is_bad_entry most (without_dummies signals.now) graph.now.places is_closed
        (map place_view named.now.keys) (entry_view entry.now) }
{
    !starts_entry(entry)
        || (is_closed && !is_whole(entry))
        || (is_whole_place(entry.place) && is_bad_place(signals, graph, named, entry.place))
        || tokens_of(entry.tokens) > most
}

/// Notes the place that words name.
fn add_named<'a>(
    signals: &Signals<'_>,
    named: &mut IndexSet<TextPlace<'a>>,
    words: &[&'a [u8]],
) -> Result<(), NoMemory>
    requires { length signals.now < 2 ^ 32 }
    ensures { OnOk result
        (map place_view named.new.keys
        ≡ markings.with_named (without_dummies signals.now) (map place_view named.old.keys)
        (slices_view words.now)) }
{
    if let Some(place) = named_place(signals, words) {
        named.insert(place)?;
    }
    Ok(())
}

impl<'a> MarkingCheck<'a> {
    /// No entry.
    pub fn new(alloc: Global) -> Self
        ensures words { result.words ≡ 0 }
        ensures named { result.named.keys ≡ [] }
    {
        MarkingCheck {
            words: 0,
            named: IndexSet::new(alloc),
        }
    }

    /// Whether one of the entries is wrong. Those that more words can't change are settled.
    pub fn has_bad_entry(
        &mut self,
        most: u32,
        signals: &Signals<'_>,
        graph: &TextGraph<'_>,
        is_closed: bool,
        words: &[&'a [u8]],
    ) -> Result<bool, NoMemory>
        requires bounded { length signals.now < 2 ^ 32 }
        requires settled { IsSettled most (without_dummies signals.now) graph.now.places self.old
            (slices_view words.now) }
        ensures bad { IfOk result
            (λ is_bad. is_bad
            ≡ markings.has_bad_entry most (without_dummies signals.now) graph.now.places is_closed
            [] (entries_after zero (slices_view words.now))) }
        ensures settled { OnOk result
            (IsSettled most (without_dummies signals.now) graph.now.places self.new
            (slices_view words.now)) }
    {
        while self.words < words.len() {
            let rest = &words[self.words..];
            let entry = front(rest);
            if is_bad_entry(most, signals, graph, is_closed, &self.named, &entry) {
                return Ok(true);
            }
            let len = entry.place.len() + entry.tokens.len();
            if len == rest.len() {
                return Ok(false);
            }
            add_named(signals, &mut self.named, entry.place)?;
            self.words += len;
        }
        Ok(false)
    }
}
