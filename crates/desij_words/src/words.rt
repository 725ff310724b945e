//! What the words of a run ask for, and the usage that tells their form.

mod form;
mod matches;
mod serving;
#[cfg(test)]
mod tests;
mod word;

ghost use Rattle.std.specs.Prelude.{◌≡◌, IfOk, IfSome, IsSome, OnErr, Some, codes};
ghost use Rattle.std.specs.Option.{option_map, option_to_list};
ghost use Rattle.clap.specs.Words.{first_value, found_of, kind_of};
ghost use Rattle.desij_words.specs.Words.{Command as Asked, command_of, workers_from};
ghost use Rattle.desij_words.specs.Commands.{IsInBounds, command_told};
ghost use Rattle.desij_words.specs.Matches.{HasValues, IsDecompose, IsMeasure};

use clap::error::ErrorKind;
use clap::{ArgMatches, Error};
use form::{Action, action_of};
pub use matches::{decompose_matches, measure_matches, serving_matches};
pub use serving::{Serving, read_serving};
use std::alloc::Global;
use stg_net::NoMemory;
use word::{MOST_OUTPUTS, MOST_WORKERS, number};

/// What is printed where the words aren't of the form.
pub const USAGE: &[u8] = b"\
usage: desij decompose SPEC [--workers N] [--partition FILE] [--steps]
       desij measure N [--workers N]
       desij serve ADDR COUNT [--database FILE]
";

/// What a run is asked to do.
#[derive(Clone, Copy, Debug, PartialEq, Eq)]
pub enum Command<'a> {
    /// To decompose a specification.
    Decompose {
        /// The name of the specification's file.
        spec: &'a str,
        /// How many workers share the groups, 1 to 64.
        workers: u32,
        /// The name of the partition's file, where it is given.
        partition: Option<&'a str>,
        /// Whether the steps are logged.
        steps: bool,
    },
    /// To decompose the pipeline of `count` outputs.
    Measure {
        /// How many outputs the pipeline has, 1 to 248.
        count: u32,
        /// How many workers share the groups, 1 to 64.
        workers: u32,
    },
}

/// What the words ask for; `None` where they aren't of the form. Words that aren't take no memory.
pub fn read_command<'a>(alloc: Global, words: &'a [String]) -> Result<Option<Command<'a>>, NoMemory>
    ensures value { IfOk result (λ command.
        option_map command_told command ≡ command_of words.entry.now) }
    ensures within { IfOk result (λ command. IfSome command (λ c. IsInBounds (command_told c))) }
    ensures no_memory { OnErr result (IsSome (command_of words.entry.now)) }
{
    match action_of(words) {
        Some(Action::Decompose) => match decompose_matches(alloc, words) {
            Ok(matches) => Ok(decompose_command(&matches)),
            Err(error) => Err(no_memory(error)),
        },
        Some(Action::Measure) => match measure_matches(alloc, words) {
            Ok(matches) => Ok(measure_command(&matches)),
            Err(error) => Err(no_memory(error)),
        },
        None => Ok(None),
    }
}

fn workers(matches: &ArgMatches) -> Option<u32>
    ensures { result ≡ workers_from
        (option_to_list (first_value (found_of matches.now) (codes "workers"))) }
{
    match matches.get_str("workers") {
        Some(word) => number(word, MOST_WORKERS),
        None => Some(1),
    }
}

fn decompose_command<'a>(matches: &ArgMatches<'a>) -> Option<Command<'a>>
    ensures { (command : Asked) → IsDecompose command → HasValues (found_of matches.now) command
        → option_map command_told result ≡ Some command }
{
    Some(Command::Decompose {
        spec: matches.get_str("spec")?,
        workers: workers(matches)?,
        partition: matches.get_str("partition"),
        steps: matches.get_flag("steps"),
    })
}

fn measure_command<'a>(matches: &ArgMatches<'a>) -> Option<Command<'a>>
    ensures { (command : Asked) → IsMeasure command → HasValues (found_of matches.now) command
        → option_map command_told result ≡ Some command }
{
    Some(Command::Measure {
        count: number(matches.get_str("count")?, MOST_OUTPUTS)?,
        workers: workers(matches)?,
    })
}

// Words of the form fail for want of memory alone.
fn no_memory(error: Error) -> NoMemory
    requires { kind_of error ≡ ErrorKind.OutOfMemory }
{
    match error.kind() {
        ErrorKind::OutOfMemory => NoMemory,
        _ => unreachable!(),
    }
}
