//! What the words of a run that serves ask for.

ghost use Rattle.std.specs.Prelude.{◌≡◌, IfOk, IsSome, OnErr, Some, map};
ghost use Rattle.std.specs.Option.{option_map};
ghost use Rattle.std.specs.String.{string_bytes};
ghost use Rattle.clap.specs.Words.{found_of};
ghost use Rattle.desij_words.specs.Serving.{FindsServing, Serving as Asked, serving_of, serving_told};
ghost use Rattle.desij_words.specs.inner.Served.{are_served, are_serving, are_values as are_values_of};
ghost use Rattle.desij_words.specs.inner.Served.{is_joined as is_joined_word};
ghost use Rattle.desij_words.specs.inner.Served.{is_option as is_option_word};

use crate::words::matches::serving_matches;
use crate::words::no_memory;
use crate::words::word::{MOST_CONNECTIONS, is_file, number, value_after};
use clap::ArgMatches;
use std::alloc::Global;
use stg_net::NoMemory;

/// What a run is asked to serve.
#[derive(Clone, Copy, Debug, PartialEq, Eq)]
pub struct Serving<'a> {
    /// The address at which peers come.
    pub addr: &'a str,
    /// How many connections are served, 1 to 1,000,000.
    pub count: u32,
    /// The name of the database's file, where it is given.
    pub database: Option<&'a str>,
}

/// What the words ask for; `None` where they aren't of the form. Words that aren't take no memory.
pub fn read_serving<'a>(alloc: Global, words: &'a [String]) -> Result<Option<Serving<'a>>, NoMemory>
    ensures value { IfOk result (λ s. option_map serving_told s ≡ serving_of words.entry.now) }
    ensures no_memory { OnErr result (IsSome (serving_of words.entry.now)) }
{
    if !is_serving(words) {
        return Ok(None);
    }
    match serving_matches(alloc, words) {
        Ok(matches) => Ok(serving_found(&matches)),
        Err(error) => Err(no_memory(error)),
    }
}

fn serving_found<'a>(matches: &ArgMatches<'a>) -> Option<Serving<'a>>
    ensures { (s : Asked) → FindsServing (found_of matches.now) s
        → option_map serving_told result ≡ Some s }
{
    Some(Serving {
        addr: matches.get_str("addr")?,
        count: number(matches.get_str("count")?, MOST_CONNECTIONS)?,
        database: matches.get_str("database"),
    })
}

fn are_values(addr: &str, count: &str) -> bool
    ensures { result ≡ are_values_of addr.now count.now }
{
    is_file(addr) && number(count, MOST_CONNECTIONS).is_some()
}

// Whether the word is the option with its value.
fn is_joined(word: &str) -> bool
    ensures { result ≡ is_joined_word word.now }
{
    match value_after(word, "--database=") {
        Some(file) => is_file(file),
        None => false,
    }
}

// Whether the word is the option, and the next one its value.
fn is_option(word: &str, file: &str) -> bool
    ensures { result ≡ is_option_word word.now file.now }
{
    word == "--database" && is_file(file)
}

// Whether the words after the first are of the form.
fn is_of_form(words: &[String]) -> bool
    ensures { result ≡ are_served (map (λ w. string_bytes w) words.now) }
{
    match words {
        [a, b] => are_values(a.as_str(), b.as_str()),
        [a, b, c] => {
            let (a, b, c) = (a.as_str(), b.as_str(), c.as_str());
            (is_joined(a) && are_values(b, c))
                || (is_joined(b) && are_values(a, c))
                || (is_joined(c) && are_values(a, b))
        }
        [a, b, c, d] => {
            let (a, b, c, d) = (a.as_str(), b.as_str(), c.as_str(), d.as_str());
            (is_option(a, b) && are_values(c, d))
                || (is_option(b, c) && are_values(a, d))
                || (is_option(c, d) && are_values(a, b))
        }
        _ => false,
    }
}

// Whether the words are of the form.
fn is_serving(words: &[String]) -> bool
    ensures { result ≡ are_serving (map (λ w. string_bytes w) words.now) }
{
    let [first, rest @ ..] = words else {
        return false;
    };
    first.as_str() == "serve" && is_of_form(rest)
}
