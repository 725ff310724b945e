//! What a run prints, and how it is written to a sink.

ghost use Rattle.std.specs.Prelude.{◌≡◌, ◌+◌, ◌<◌, ◌++◌, ◌≤◌, length, IfOk, OnOk, OnErr};
ghost use Rattle.std.specs.String.{string_bytes};
ghost use Rattle.io_shelf.specs.Outside.{HasCause};
ghost use Rattle.desij.specs.Printing.{IsPrefixPrinted, all_places, all_restored, all_trans, clash_line, count_text, group_line, group_refusal, measure_line, signal_word, net_sizes, part_line, printed, refusal, signal_counts};
ghost use Rattle.stg_partition.specs.declared.error.GroupError.TheVariants as group_error;
ghost use Rattle.desij.specs.inner.Ends.{EndsUsage};
ghost use Rattle.desij.specs.inner.Shown.{IsShown};
ghost use Rattle.desij.specs.Run.{Prints};

use crate::status::Status;
use astg_read::Rule;
use desij_words::USAGE;
use io_shelf::{Failed, Sink};
use itoa::Buffer;
use std::alloc::{AllocError, Global};
use stg_conflict::Clash;
use stg_decomp::Answer;
use stg_derive::Part;
use stg_net::{Net, NoMemory, Seq, Spec, Text, place_text, trans_text};
use stg_partition::GroupError;

/// A line for each part, and their number.
pub fn printed_text(alloc: Global, answer: &Answer) -> Result<Text, NoMemory>
    ensures { IfOk result (λ text. text ≡ printed answer.now.parts) }
{
    let mut text = Seq::new(alloc);
    for (k, part) in answer.parts.as_slice().iter().enumerate() {
        push_line(&mut text, k + 1, part)?;
    }
    push_count(&mut text, b"done ", answer.parts.len())?;
    text.push(b'\n')?;
    Ok(text)
}

#[tactic(auto, unfolding(crate::specs::Printing::part_line))]
fn push_line(text: &mut Text, number: usize, part: &Part) -> Result<(), NoMemory>
    ensures { OnOk result (text.new ≡ text.old ++ part_line number part.now) }
{
    push_count(text, b"part ", number)?;
    push_signals(text, part)?;
    push_sizes(text, &part.net)?;
    push_count(text, b" restored ", part.restored.len())?;
    text.push(b'\n')?;
    Ok(())
}

#[tactic(auto, unfolding(crate::specs::Printing::signal_counts))]
fn push_signals(text: &mut Text, part: &Part) -> Result<(), NoMemory>
    ensures { OnOk result (text.new ≡ text.old ++ signal_counts part.now) }
{
    let own = part.own.len();
    push_count(text, b" own ", own)?;
    push_count(text, b" inputs ", part.known.len().saturating_sub(own))
}

#[tactic(auto, unfolding(crate::specs::Printing::net_sizes))]
fn push_sizes(text: &mut Text, net: &Net) -> Result<(), NoMemory>
    ensures { OnOk result (text.new ≡ text.old ++ net_sizes net.now) }
{
    push_count(text, b" transitions ", net.trans().len())?;
    push_count(text, b" places ", net.tokens().len())
}

#[tactic(auto, unfolding(crate::specs::Printing::count_text))]
fn push_count(text: &mut Text, word: &[u8], count: usize) -> Result<(), NoMemory>
    ensures { OnOk result (text.new ≡ text.old ++ count_text word.now count) }
{
    text.extend_from_slice(word)?;
    text.extend_from_slice(Buffer::new().format(count).as_bytes())
}

#[tactic(auto, unfolding(crate::specs::Printing::count_text))]
fn format_refusal(alloc: Global, rule: Rule, line: u32) -> Result<String, AllocError>
    ensures { IfOk result (λ text. string_bytes text ≡ refusal rule line) }
{
    format!(in alloc; "refused {rule} line {line}\n")
}

/// The line that tells the rule that a text breaks, and where.
pub fn refusal_text(alloc: Global, rule: Rule, line: u32) -> Result<Text, NoMemory>
    ensures { IfOk result (λ text. text ≡ refusal rule line) }
{
    Seq::from_slice(alloc, format_refusal(alloc, rule, line)?.as_bytes())
}

/// The line that tells a structural auto-conflict: both transitions and the place.
pub fn clash_text(alloc: Global, spec: &Spec, clash: Clash) -> Result<Text, NoMemory>
    requires first { clash.t1 < length spec.now.net.trans }
    requires second { clash.t2 < length spec.now.net.trans }
    requires place { clash.place < length spec.now.net.tokens }
    ensures { IfOk result (λ text. text ≡ clash_line spec.now clash) }
{
    let mut text = Seq::from_slice(alloc, b"refused Clash ")?;
    text.extend_from_slice(trans_text(alloc, spec.net(), clash.t1)?.as_slice())?;
    text.push(b' ')?;
    text.extend_from_slice(trans_text(alloc, spec.net(), clash.t2)?.as_slice())?;
    text.push(b' ')?;
    text.extend_from_slice(place_text(alloc, spec, clash.place)?.as_slice())?;
    text.push(b'\n')?;
    Ok(text)
}

// The line that tells a rule that a line of a partition breaks.
fn rule_text(alloc: Global, rule: &[u8], line: u32) -> Result<Text, NoMemory>
    ensures { IfOk result (λ text. text ≡ group_line rule.now line) }
{
    let mut text = Seq::from_slice(alloc, b"refused partition ")?;
    text.extend_from_slice(rule)?;
    push_count(&mut text, b" line ", line as usize)?;
    text.push(b'\n')?;
    Ok(text)
}

fn push_name(text: &mut Text, spec: &Spec, s: u32) -> Result<(), NoMemory>
    requires { s < length spec.now.net.signals }
    ensures { OnOk result (text.new ≡ text.old ++ signal_word spec.now s) }
{
    text.extend_from_slice(spec.net().signals()[s as usize].name.as_slice())
}

fn missing_text(alloc: Global, spec: &Spec, s: u32) -> Result<Text, NoMemory>
    requires { s < length spec.now.net.signals }
    ensures { IfOk result (λ text. text ≡ group_refusal spec.now (group_error.OutputMissing s)) }
{
    let mut text = Seq::from_slice(alloc, b"refused partition OutputMissing ")?;
    push_name(&mut text, spec, s)?;
    text.push(b'\n')?;
    Ok(text)
}

fn split_text(alloc: Global, spec: &Spec, x: u32, y: u32, place: u32) -> Result<Text, NoMemory>
    requires first { x < length spec.now.net.signals }
    requires second { y < length spec.now.net.signals }
    requires place { place < length spec.now.net.tokens }
    ensures { IfOk result
        (λ text. text ≡ group_refusal spec.now (group_error.SplitConflict x y place)) }
{
    let mut text = Seq::from_slice(alloc, b"refused partition SplitConflict ")?;
    push_name(&mut text, spec, x)?;
    text.push(b' ')?;
    push_name(&mut text, spec, y)?;
    text.push(b' ')?;
    text.extend_from_slice(place_text(alloc, spec, place)?.as_slice())?;
    text.push(b'\n')?;
    Ok(text)
}

/// The line that tells why a partition is refused.
pub fn groups_text(alloc: Global, spec: &Spec, error: GroupError) -> Result<Text, NoMemory>
    requires { IsShown spec.now.net error }
    ensures { IfOk result (λ text. text ≡ group_refusal spec.now error) }
{
    match error {
        GroupError::BadLine { line } => rule_text(alloc, b"BadLine", line),
        GroupError::UnknownOutput { line } => rule_text(alloc, b"UnknownOutput", line),
        GroupError::OutputTwice { line } => rule_text(alloc, b"OutputTwice", line),
        GroupError::OutputMissing { signal } => missing_text(alloc, spec, signal),
        GroupError::SplitConflict { x, y, place } => split_text(alloc, spec, x, y, place),
        GroupError::NoMemory => Err(NoMemory),
    }
}

// How many transitions, places and restored signals some parts have together.
#[derive(Clone, Copy)]
struct Sums {
    trans: u128,
    places: u128,
    restored: u128,
}

fn sum_up(parts: &[Part]) -> Sums
    requires { length parts.now ≤ 250 }
    ensures trans { result.trans ≡ all_trans parts.now }
    ensures places { result.places ≡ all_places parts.now }
    ensures restored { result.restored ≡ all_restored parts.now }
{
    let mut sums = Sums {
        trans: 0,
        places: 0,
        restored: 0,
    };
    for part in parts {
        sums.trans += part.net.trans().len() as u128;
        sums.places += part.net.tokens().len() as u128;
        sums.restored += part.restored.len() as u128;
    }
    sums
}

#[tactic(auto, unfolding(crate::specs::Printing::count_text))]
fn push_sum(text: &mut Text, word: &[u8], sum: u128) -> Result<(), NoMemory>
    ensures { OnOk result (text.new ≡ text.old ++ count_text word.now sum) }
{
    text.extend_from_slice(word)?;
    text.extend_from_slice(Buffer::new().format(sum).as_bytes())
}

/// The line that sums up the parts of a pipeline of so many outputs.
#[tactic(auto, unfolding(crate::specs::Printing::measure_line))]
pub fn measure_text(alloc: Global, count: u32, answer: &Answer) -> Result<Text, NoMemory>
    requires { length answer.now.parts ≤ 250 }
    ensures { IfOk result (λ text. text ≡ measure_line count answer.now.parts) }
{
    let sums = sum_up(answer.parts.as_slice());
    let mut text = Seq::new(alloc);
    push_count(&mut text, b"measure ", count as usize)?;
    push_count(&mut text, b" parts ", answer.parts.len())?;
    push_sum(&mut text, b" transitions ", sums.trans)?;
    push_sum(&mut text, b" places ", sums.places)?;
    push_sum(&mut text, b" restored ", sums.restored)?;
    text.push(b'\n')?;
    Ok(text)
}

/// Writes all of these bytes.
pub fn write_all<K: Sink>(sink: &mut K, bytes: &[u8]) -> Result<(), Failed>
    ensures ok { OnOk result (Prints bytes.now (K.seen sink.old) (K.seen sink.new)) }
    ensures err { OnErr result
        (IsPrefixPrinted bytes.now (K.seen sink.old).written (K.seen sink.new).written) }
    ensures cause { HasCause (K.seen sink.old).faults (K.seen sink.new).faults result }
{
    let mut at = 0;
    while at < bytes.len() {
        at += sink.write(&bytes[at..])?;
    }
    Ok(())
}

/// Prints the usage.
pub fn tell_usage<K: Sink>(sink: &mut K) -> Status
    ensures { EndsUsage result (K.seen sink.old) (K.seen sink.new) }
{
    match write_all(sink, USAGE) {
        Ok(()) => Status::BadWords,
        Err(_) => Status::PrintFault,
    }
}
