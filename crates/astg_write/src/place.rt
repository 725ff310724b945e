//! The names of places: a prefix with which no signal begins, and a number from 1.

ghost use Rattle.std.specs.Prelude.{◌≡◌, ◌+◌, ◌<◌, ◌^◌, ◌++◌, length, IfOk, OnOk};
ghost use Rattle.std.specs.List.{list_any};
ghost use Rattle.astg_write.specs.PlaceNames.{prefix_text, begins_with, is_free, place_prefix, numbered_name};

use crate::number::push_number;
use std::alloc::Global;
use stg_net::{NoMemory, Seq, Signal, Text};

fn make_prefix(alloc: Global, number: u32) -> Result<Text, NoMemory>
    ensures { IfOk result (λ text. text ≡ prefix_text number) }
{
    let mut text = Seq::from_slice(alloc, b"p")?;
    if number != 0 {
        push_number(&mut text, number)?;
        text.push(b'_')?;
    }
    Ok(text)
}

fn begins_with(prefix: &[u8], signal: &Signal) -> bool
    ensures { result ≡ begins_with prefix.now signal.now }
{
    signal.name.as_slice().starts_with(prefix)
}

fn is_in_use(signals: &[Signal], prefix: &[u8]) -> bool
    ensures { result ≡ list_any (begins_with prefix.now) signals.now }
{
    signals.iter().any(|s| begins_with(prefix, s))
}

fn is_free(signals: &[Signal], prefix: &[u8]) -> bool
    ensures { result ≡ is_free signals.now prefix.now }
{
    !is_in_use(signals, prefix)
}

/// Finds the first prefix with which no signal begins.
pub(crate) fn find_prefix(alloc: Global, signals: &[Signal]) -> Result<Text, NoMemory>
    requires { length signals.now + 2 < 2 ^ 32 }
    ensures { IfOk result (λ text. text ≡ place_prefix signals.now) }
{
    let count = signals.len() as u32 + 2;
    for number in 0..count {
        let prefix = make_prefix(alloc, number)?;
        if is_free(signals, prefix.as_slice()) {
            return Ok(prefix);
        }
    }
    // Never reached: a signal begins with at most one numbered prefix, so one of these is free.
    make_prefix(alloc, count)
}

pub(crate) fn push_place(text: &mut Text, prefix: &[u8], place: u32) -> Result<(), NoMemory>
    requires { place + 1 < 2 ^ 32 }
    ensures { OnOk result (text.new ≡ text.old ++ numbered_name prefix.now place) }
{
    text.extend_from_slice(prefix)?;
    push_number(text, place + 1)
}
