//! Nets in the order in which they are written.

ghost use Rattle.std.specs.Prelude.{◌≡◌, ◌==◌, ℕ, ◌+◌, ◌<◌, ◌≤◌, ◌^◌, ◌++◌, length, map, All, AllPairs, slice_index, IfOk, OnOk};
ghost use Rattle.stg_net.specs.declared.limits.Limits.{Limits};
ghost use Rattle.stg_net.specs.declared.arc.NetArc.{NetArc};
ghost use Rattle.stg_net.specs.Net.{IsBefore, IsWithin, signal_at, is_kind};
ghost use Rattle.stg_net.specs.Names.{IsWellNamed};
ghost use Rattle.stg_net.specs.Ordered.{listed_below, signals_of_kind, signal_order, first_giver, place_order, new_number, with_signal_number, with_place_number, arcs_at, arcs_moved};
ghost use Rattle.stg_net.specs.inner.LeastGivers.{givers_after};
ghost use Rattle.stg_net.specs.Ordered as lists;

use crate::{Kind, Net, NetArc, NoMemory, Nums, Seq, Signal, TransName, numbers_below};
use std::alloc::Global;

/// Makes the same net with its signals and places in the order in which they are written.
///
/// Inputs come first, then outputs, then internal signals. A place comes by the first transition
/// that gives to it, and last where there is none.
pub fn ordered(alloc: Global, net: &Net) -> Result<Net, NoMemory>
    ensures value { IfOk result (λ n. n ≡ lists.ordered net.now) }
    ensures within { IfOk result (λ n. (l : Limits) → IsWithin l net.now → IsWithin l n) }
    ensures named { IfOk result (λ n. IsWellNamed net.now → IsWellNamed n) }
{
    let signals = order_signals(alloc, net.signals())?;
    let places = order_places(alloc, net)?;
    Ok(Net::of(
        pick_signals(alloc, net.signals(), signals.as_slice())?,
        renumber_trans(alloc, net.trans(), signals.as_slice())?,
        pick_tokens(alloc, net.tokens(), places.as_slice())?,
        move_arcs(alloc, net.arcs(), places.as_slice())?,
    ))
}

fn has_kind(signal: &Signal, kind: Kind) -> bool
    ensures { result ≡ is_kind kind signal.now.kind }
{
    signal.kind == kind
}

fn push_signals(order: &mut Nums, signals: &[Signal], kind: Kind) -> Result<(), NoMemory>
    requires { length signals.now < 2 ^ 32 }
    ensures { OnOk result (order.new ≡ order.old ++ signals_of_kind signals.now kind) }
{
    for s in 0..signals.len() as u32 {
        if has_kind(&signals[s as usize], kind) {
            order.push(s)?;
        }
    }
    Ok(())
}

fn order_signals(alloc: Global, signals: &[Signal]) -> Result<Nums, NoMemory>
    requires { length signals.now < 2 ^ 32 }
    ensures { IfOk result (λ order. order ≡ signal_order signals.now) }
{
    let mut order = Seq::new(alloc);
    push_signals(&mut order, signals, Kind::Input)?;
    push_signals(&mut order, signals, Kind::Output)?;
    push_signals(&mut order, signals, Kind::Internal)?;
    Ok(order)
}

fn pick_signals(alloc: Global, signals: &[Signal], order: &[u32]) -> Result<Seq<Signal>, NoMemory>
    requires { All (λ s. s < length signals.now) order.now }
    ensures { IfOk result (λ list. list ≡ map (signal_at signals.now) order.now) }
{
    let mut list = Seq::new(alloc);
    for s in order {
        let signal = &signals[*s as usize];
        list.push(signal.copy_as(alloc, signal.kind)?)?;
    }
    Ok(list)
}

/// Finds where the number stands in the order; at its end where it doesn't.
pub fn renumber(order: &[u32], old: u32) -> usize
    ensures value { result ≡ new_number order.now old }
    ensures within { result ≤ length order.now }
{
    order.iter().take_while(|k| **k != old).count()
}

fn renumber_trans(
    alloc: Global,
    trans: &[TransName],
    order: &[u32],
) -> Result<Seq<TransName>, NoMemory>
    requires { length order.now < 2 ^ 32 }
    ensures { IfOk result (λ list. list ≡ map (with_signal_number order.now) trans.now) }
{
    let mut list = Seq::new(alloc);
    for name in trans {
        let signal = renumber(order, name.signal) as u32;
        list.push(TransName { signal, ..*name })?;
    }
    Ok(list)
}

fn lower(keys: &mut Nums, arc: NetArc)
    requires { arc.place < length keys.old }
    ensures { keys.new ≡ givers_after arc keys.old }
{
    let place = arc.place as usize;
    if arc.into && arc.trans < keys.as_slice()[place] {
        keys.set(place, arc.trans);
    }
}

fn find_givers(alloc: Global, net: &Net) -> Result<Nums, NoMemory>
    ensures len { IfOk result (λ keys. length keys ≡ length net.now.tokens) }
    ensures least { IfOk result
        (λ keys. (p : ℕ) → p < length keys → slice_index keys p ≡ first_giver net.now p) }
{
    let none = net.trans().len() as u32;
    let mut keys = Seq::from_vec(vec![in alloc; none; net.tokens().len()]?);
    for arc in net.arcs() {
        lower(&mut keys, *arc);
    }
    Ok(keys)
}

// A sort asks for the keys of places alone, and each place has one.
fn key_of(keys: &[u32], p: u32) -> u32
    ensures { result ≡ slice_index keys.now p }
{
    match keys.get(p as usize) {
        Some(key) => *key,
        None => 0,
    }
}

fn order_places(alloc: Global, net: &Net) -> Result<Nums, NoMemory>
    ensures { IfOk result (λ order. order ≡ place_order net.now) }
{
    let keys = find_givers(alloc, net)?;
    let mut order = numbers_below(alloc, net.tokens().len() as u32)?.into_vec();
    order.sort_by_key(|p| key_of(keys.as_slice(), *p))?;
    Ok(Seq::from_vec(order))
}

fn pick_tokens(alloc: Global, tokens: &[u32], order: &[u32]) -> Result<Nums, NoMemory>
    requires { All (λ p. p < length tokens.now) order.now }
    ensures { IfOk result (λ list. list ≡ map (slice_index tokens.now) order.now) }
{
    let mut list = Seq::new(alloc);
    for p in order {
        list.push(tokens[*p as usize])?;
    }
    Ok(list)
}

// The arcs of a place stand together.
fn arcs_of(arcs: &[NetArc], place: u32) -> &[NetArc]
    requires { AllPairs IsBefore arcs.now }
    ensures { result.now ≡ arcs_at arcs.now place }
{
    let start = arcs.partition_point(|arc| arc.place < place);
    let rest = &arcs[start..];
    &rest[..rest.partition_point(|arc| arc.place <= place)]
}

fn push_arcs(list: &mut Seq<NetArc>, arcs: &[NetArc], place: u32) -> Result<(), NoMemory>
    ensures { OnOk result (list.new ≡ list.old ++ map (with_place_number place) arcs.now) }
{
    for arc in arcs {
        list.push(NetArc { place, ..*arc })?;
    }
    Ok(())
}

fn move_arcs(alloc: Global, arcs: &[NetArc], order: &[u32]) -> Result<Seq<NetArc>, NoMemory>
    requires bounded { length order.now < 2 ^ 32 }
    requires ordered { AllPairs IsBefore arcs.now }
    ensures { IfOk result
        (λ list. list ≡ listed_below (arcs_moved arcs.now order.now) (length order.now)) }
{
    let mut list = Seq::new(alloc);
    for q in 0..order.len() as u32 {
        push_arcs(&mut list, arcs_of(arcs, order[q as usize]), q)?;
    }
    Ok(list)
}
