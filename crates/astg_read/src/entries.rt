//! The entries of a marking.

ghost use Rattle.std.specs.Prelude.{◌≡◌, ◌≤◌, ◌<◌, ◌^◌, ◌+◌, [], zero, length, option_map, IfOk};
ghost use Rattle.astg_read.specs.inner.NoDummies.{without_dummies};
ghost use Rattle.astg_read.specs.Markings.{entries_after};
ghost use Rattle.astg_read.specs.Markings as markings;
ghost use Rattle.astg_read.specs.inner.Fronts.{front_entry};
ghost use Rattle.astg_read.specs.inner.Views.{entry_view, entry_views, place_view, slices_view};

use crate::names::is_name;
use crate::nodes::{is_trans_word, trans_of_word};
use crate::signals::Signals;
use crate::text_graph::TextPlace;
use astg_lex::number;
use std::alloc::Global;
use stg_net::{NoMemory, Seq, TransName};

/// The words of an entry's place, and those of its tokens. As many as there are.
#[derive(Clone, Copy)]
pub struct Entry<'w, 'a> {
    pub place: &'w [&'a [u8]],
    pub tokens: &'w [&'a [u8]],
}

fn opens_place(word: &[u8]) -> bool
    ensures { result ≡ markings.opens_place word.now }
{
    word == b"<".as_slice()
}

fn closes_place(word: &[u8]) -> bool
    ensures { result ≡ markings.closes_place word.now }
{
    word == b">".as_slice()
}

fn is_comma(word: &[u8]) -> bool
    ensures { result ≡ markings.is_comma word.now }
{
    word == b",".as_slice()
}

fn is_equals(word: &[u8]) -> bool
    ensures { result ≡ markings.is_equals word.now }
{
    word == b"=".as_slice()
}

/// The words of the place in front.
fn place_words<'w, 'a>(words: &'w [&'a [u8]]) -> &'w [&'a [u8]]
    requires { 0 < length words.now }
    ensures place { slices_view result.now ≡ (front_entry (slices_view words.now)).place }
    ensures least { 1 ≤ length result.now }
    ensures most { length result.now ≤ length words.now }
{
    if !opens_place(words[0]) {
        &words[..1]
    } else if words.len() <= 5 {
        words
    } else {
        &words[..5]
    }
}

/// Up to two words, where the first is `=`.
fn token_words<'w, 'a>(words: &'w [&'a [u8]]) -> &'w [&'a [u8]]
    ensures tokens { slices_view result.now ≡ markings.token_words (slices_view words.now) }
    ensures most { length result.now ≤ length words.now }
{
    match words {
        [first, _, ..] if is_equals(first) => &words[..2],
        [first, ..] if is_equals(first) => words,
        _ => &words[..0],
    }
}

/// The entry in front.
pub fn front<'w, 'a>(words: &'w [&'a [u8]]) -> Entry<'w, 'a>
    requires { 0 < length words.now }
    ensures entry { entry_view result ≡ front_entry (slices_view words.now) }
    ensures least { 1 ≤ length result.place.now }
    ensures most { length result.place.now + length result.tokens.now ≤ length words.now }
{
    let place = place_words(words);
    let tokens = token_words(&words[place.len()..]);
    Entry { place, tokens }
}

/// The entries of these words.
pub fn entries_of<'w, 'a>(
    alloc: Global,
    words: &'w [&'a [u8]],
) -> Result<Seq<Entry<'w, 'a>>, NoMemory>
    ensures { IfOk result
        (λ entries. entry_views entries ≡ entries_after zero (slices_view words.now)) }
{
    let mut entries = Seq::new(alloc);
    let mut rest = words;
    while !rest.is_empty() {
        let entry = front(rest);
        entries.push(entry)?;
        rest = &rest[entry.place.len() + entry.tokens.len()..];
    }
    Ok(entries)
}

fn starts_name(words: &[&[u8]]) -> bool
    ensures { result ≡ markings.starts_name (slices_view words.now) }
{
    match words {
        [] => true,
        [name, rest @ ..] => is_name(name) && rest.is_empty(),
    }
}

fn starts_close(words: &[&[u8]]) -> bool
    ensures { result ≡ markings.starts_close (slices_view words.now) }
{
    match words {
        [] => true,
        [close, rest @ ..] => closes_place(close) && rest.is_empty(),
    }
}

fn starts_target(words: &[&[u8]]) -> bool
    ensures { result ≡ markings.starts_target (without_dummies []) (slices_view words.now) }
{
    match words {
        [] => true,
        [target, rest @ ..] => is_trans_word(target) && starts_close(rest),
    }
}

fn starts_comma(words: &[&[u8]]) -> bool
    ensures { result ≡ markings.starts_comma (without_dummies []) (slices_view words.now) }
{
    match words {
        [] => true,
        [comma, rest @ ..] => is_comma(comma) && starts_target(rest),
    }
}

fn starts_source(words: &[&[u8]]) -> bool
    ensures { result ≡ markings.starts_source (without_dummies []) (slices_view words.now) }
{
    match words {
        [] => true,
        [source, rest @ ..] => is_trans_word(source) && starts_comma(rest),
    }
}

fn starts_between(words: &[&[u8]]) -> bool
    ensures { result ≡ markings.starts_between (without_dummies []) (slices_view words.now) }
{
    match words {
        [] => true,
        [open, rest @ ..] => opens_place(open) && starts_source(rest),
    }
}

fn starts_number(words: &[&[u8]]) -> bool
    ensures { result ≡ markings.starts_number (slices_view words.now) }
{
    match words {
        [] => true,
        [word, rest @ ..] => number(word).is_some() && rest.is_empty(),
    }
}

fn starts_tokens(words: &[&[u8]]) -> bool
    ensures { result ≡ markings.starts_tokens (slices_view words.now) }
{
    match words {
        [] => true,
        [equals, rest @ ..] => is_equals(equals) && starts_number(rest),
    }
}

/// Whether the words of an entry, as far as they go, begin one.
pub fn starts_entry(entry: &Entry<'_, '_>) -> bool
    ensures { result ≡ markings.starts_entry (without_dummies []) (entry_view entry.now) }
{
    (starts_name(entry.place) || starts_between(entry.place)) && starts_tokens(entry.tokens)
}

/// Whether no word of a place is missing.
pub fn is_whole_place(words: &[&[u8]]) -> bool
    ensures { result ≡ markings.is_whole_place (slices_view words.now) }
{
    match words {
        [name] => !opens_place(name),
        _ => words.len() == 5,
    }
}

/// Whether no word of an entry is missing.
pub fn is_whole(entry: &Entry<'_, '_>) -> bool
    ensures { result ≡ markings.is_whole (entry_view entry.now) }
{
    is_whole_place(entry.place) && entry.tokens.len() != 1
}

/// The place of that name; the word `<` is none.
fn named_by(name: &[u8]) -> Option<TextPlace<'_>>
    ensures { option_map place_view result ≡ markings.named_by name.now }
{
    if opens_place(name) {
        None
    } else {
        Some(TextPlace::Named(name))
    }
}

/// The place between two transitions, where both are there.
fn between_both<'a>(from: Option<TransName>, to: Option<TransName>) -> Option<TextPlace<'a>>
    ensures { option_map place_view result ≡ markings.between_both from to }
{
    match (from, to) {
        (Some(from), Some(to)) => Some(TextPlace::Between(from, to)),
        _ => None,
    }
}

/// The place that the words of a whole place name.
pub fn named_place<'a>(signals: &Signals<'_>, words: &[&'a [u8]]) -> Option<TextPlace<'a>>
    requires { length signals.now < 2 ^ 32 }
    ensures { option_map place_view result
        ≡ markings.named_place (without_dummies signals.now) (slices_view words.now) }
{
    if words.len() == 1 {
        named_by(words[0])
    } else if words.len() == 5 {
        between_both(
            trans_of_word(signals, words[1]),
            trans_of_word(signals, words[3]),
        )
    } else {
        None
    }
}

/// The number after `=`, and 1 where there is none.
pub fn tokens_of(words: &[&[u8]]) -> u32
    ensures { result ≡ markings.tokens_of (slices_view words.now) }
{
    match words {
        [_, tokens] => number(tokens).unwrap_or(1),
        _ => 1,
    }
}
