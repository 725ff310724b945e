//! The signals of an editor's net, and which of them are known.

ghost use Rattle.std.specs.Prelude.{◌≡◌, ◌==◌, ◌<◌, ◌≤◌, ◌^◌, ℕ, false, All, IfOk, length, map, slice_index_or, vec_capacity};
ghost use Rattle.std.specs.List.{list_any};
ghost use Rattle.stg_net.specs.Ordered.{numbers_where};
ghost use Rattle.stg_edit.specs.Compacted.{net_signal};

use std::alloc::Global;
use stg_net::{Kind, NoMemory, Seq, Signal, is_one_of};

/// A copy of these signals.
pub fn copy_signals(alloc: Global, signals: &[Signal]) -> Result<Seq<Signal>, NoMemory>
    ensures { IfOk result (λ list. list ≡ signals.now) }
{
    let mut list = Seq::new(alloc);
    for signal in signals {
        list.push(signal.copy_as(alloc, signal.kind)?)?;
    }
    Ok(list)
}

/// For each signal, whether it is one of the known ones.
pub fn known_flags(alloc: Global, signals: usize, known: &[u32]) -> Result<Vec<bool>, NoMemory>
    requires { All (λ s. s < signals) known.now }
    ensures flags { IfOk result
        (λ v. (s : ℕ) → slice_index_or v.items s false ≡ list_any (λ k. k == s) known.now) }
    ensures len { IfOk result (λ v. length v.items ≡ signals) }
{
    let mut flags = vec![in alloc; false; signals]?;
    for signal in known {
        flags[*signal as usize] = true;
    }
    Ok(flags)
}

/// A copy of these numbers of signals, with room for all signals.
pub fn known_numbers(alloc: Global, signals: usize, known: &[u32]) -> Result<Vec<u32>, NoMemory>
    ensures items { IfOk result (λ v. v.items ≡ known.now) }
    ensures room { IfOk result (λ v. signals ≤ vec_capacity v) }
{
    let mut numbers = Vec::with_capacity(alloc, signals)?;
    numbers.extend_from_slice(known)?;
    Ok(numbers)
}

/// Lists the numbers of the signals that are flagged, in place of those in the list.
pub fn list_flagged(numbers: &mut Vec<u32>, flags: &[bool])
    requires few { length flags.now < 2 ^ 32 }
    requires room { length flags.now ≤ vec_capacity numbers.old }
    ensures items { numbers.new.items
        ≡ numbers_where (λ s. slice_index_or flags.now s false) (length flags.now) }
    ensures room { vec_capacity numbers.new ≡ vec_capacity numbers.old }
{
    numbers.clear();
    for s in 0..flags.len() as u32 {
        if flags[s as usize] {
            numbers.push_reserved(s);
        }
    }
}

/// The signal of that number, which keeps its kind where it is an own one.
fn net_signal(alloc: Global, signals: &[Signal], own: &[u32], s: u32) -> Result<Signal, NoMemory>
    requires { s < length signals.now }
    ensures { IfOk result (λ x. x ≡ net_signal signals.now own.now s) }
{
    let signal = &signals[s as usize];
    let kind = if is_one_of(own, s as usize) {
        signal.kind
    } else {
        Kind::Input
    };
    signal.copy_as(alloc, kind)
}

/// The signals of these numbers, where the own ones alone keep their kinds.
pub fn net_signals(
    alloc: Global,
    signals: &[Signal],
    own: &[u32],
    kept: &[u32],
) -> Result<Seq<Signal>, NoMemory>
    requires { All (λ s. s < length signals.now) kept.now }
    ensures { IfOk result (λ list. list ≡ map (net_signal signals.now own.now) kept.now) }
{
    let mut list = Seq::new(alloc);
    for s in kept {
        list.push(net_signal(alloc, signals, own, *s)?)?;
    }
    Ok(list)
}
