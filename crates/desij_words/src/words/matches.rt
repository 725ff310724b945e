//! The values of words of the form, read by `clap`.

ghost use Rattle.std.specs.Prelude.{◌≡◌, IfErr, IfOk, IsSome, IsSomeAnd};
ghost use Rattle.clap.specs.Words.{found_of, kind_of};
ghost use Rattle.desij_words.specs.Words.{command_of};
ghost use Rattle.desij_words.specs.Matches.{HasValues, IsDecompose, IsMeasure};
ghost use Rattle.desij_words.specs.Serving.{FindsServing, serving_of};

use clap::error::ErrorKind;
use clap::{Arg, ArgAction, ArgMatches, Command, Error};
use std::alloc::Global;

/// Reads words of the form of `decompose`. Want of memory is the one error.
pub fn decompose_matches<'a>(alloc: Global, words: &'a [String]) -> Result<ArgMatches<'a>, Error>
    requires { IsSomeAnd (command_of words.now) IsDecompose }
    ensures values { IfOk result (λ m.
        IsSomeAnd (command_of words.entry.now) (HasValues (found_of m))) }
    ensures no_memory { IfErr result (λ e. kind_of e ≡ ErrorKind.OutOfMemory) }
{
    let spec = Arg::new(alloc, "spec");
    let workers = Arg::new(alloc, "workers").long("workers");
    let partition = Arg::new(alloc, "partition").long("partition");
    let steps = Arg::new(alloc, "steps")
        .long("steps")
        .action(ArgAction::SetTrue);
    let command = Command::new(alloc, "decompose")
        .arg(spec)?
        .arg(workers)?
        .arg(partition)?
        .arg(steps)?;
    command.try_get_matches_from(words)
}

/// Reads words of the form of `measure`. Want of memory is the one error.
pub fn measure_matches<'a>(alloc: Global, words: &'a [String]) -> Result<ArgMatches<'a>, Error>
    requires { IsSomeAnd (command_of words.now) IsMeasure }
    ensures values { IfOk result (λ m.
        IsSomeAnd (command_of words.entry.now) (HasValues (found_of m))) }
    ensures no_memory { IfErr result (λ e. kind_of e ≡ ErrorKind.OutOfMemory) }
{
    let count = Arg::new(alloc, "count");
    let workers = Arg::new(alloc, "workers").long("workers");
    let command = Command::new(alloc, "measure").arg(count)?.arg(workers)?;
    command.try_get_matches_from(words)
}

/// Reads words of the form of `serve`. Want of memory is the one error.
pub fn serving_matches<'a>(alloc: Global, words: &'a [String]) -> Result<ArgMatches<'a>, Error>
    requires { IsSome (serving_of words.now) }
    ensures values { IfOk result (λ m.
        IsSomeAnd (serving_of words.entry.now) (FindsServing (found_of m))) }
    ensures no_memory { IfErr result (λ e. kind_of e ≡ ErrorKind.OutOfMemory) }
{
    let addr = Arg::new(alloc, "addr");
    let count = Arg::new(alloc, "count");
    let database = Arg::new(alloc, "database").long("database");
    let command = Command::new(alloc, "serve")
        .arg(addr)?
        .arg(count)?
        .arg(database)?;
    command.try_get_matches_from(words)
}
