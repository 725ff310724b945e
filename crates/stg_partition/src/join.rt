//! Signals in conflict get one leader, the least of them.

ghost use Rattle.std.specs.Prelude.{◌≡◌, ◌<◌, length, All, IfOk, IfSome};
ghost use Rattle.stg_laws.specs.Stgs.{is_driven};
ghost use Rattle.stg_laws.specs.Groups.{signal_of, is_driven_at};
ghost use Rattle.stg_partition.specs.inner.Joining.{own_taker, relabelled_leader, merged_leader, with_taker, leader_after, AreChanged, IsJoining};

use std::alloc::Global;
use stg_net::{Kind, Net, NetArc, NoMemory, numbers_below};

/// The leader of each signal, and the taker of each place.
#[derive(Debug, Drop)]
pub(crate) struct LeadersAndTakers {
    pub leaders: Vec<u32>,
    pub takers: Vec<Option<u32>>,
}

pub(crate) fn no_takers(alloc: Global, places: usize) -> Result<Vec<Option<u32>>, NoMemory>
    ensures long { IfOk result (λ takers. length takers.items ≡ places) }
    ensures none { IfOk result (λ takers. All (λ taker. taker ≡ None) takers.items) }
{
    let mut takers = Vec::new(alloc);
    for _place in 0..places {
        takers.push(None)?;
    }
    Ok(takers)
}

pub(crate) fn is_driven(kind: Kind) -> bool
    ensures { result ≡ is_driven kind }
{
    kind != Kind::Input
}

/// Whether the signal of that number is an output or an internal one.
pub(crate) fn is_driven_at(net: &Net, signal: u32) -> bool
    requires { signal < length net.now.signals }
    ensures { result ≡ is_driven_at net.now.signals signal }
{
    is_driven(net.signals()[signal as usize].kind)
}

/// The signal of an arc's transition.
pub(crate) fn signal_of(net: &Net, arc: NetArc) -> u32
    requires { arc.trans < length net.now.trans }
    ensures value { result ≡ signal_of net.now arc }
    ensures within { result < length net.now.signals }
{
    net.trans()[arc.trans as usize].signal
}

pub(crate) fn own_taker(net: &Net, arc: NetArc) -> Option<u32>
    requires { arc.trans < length net.now.trans }
    ensures value { result ≡ own_taker net.now arc }
    ensures within { IfSome result (λ s. s < length net.now.signals) }
{
    let signal = signal_of(net, arc);
    if !arc.into && is_driven_at(net, signal) {
        Some(signal)
    } else {
        None
    }
}

fn relabel(leaders: &mut [u32], from: u32, to: u32)
    ensures { AreChanged (relabelled_leader from to) leaders.old leaders.new }
{
    for leader in leaders.iter_mut() {
        if *leader == from {
            *leader = to;
        }
    }
}

fn join(leaders: &mut [u32], x: u32, y: u32)
    requires x { x < length leaders.old }
    requires y { y < length leaders.old }
    ensures { AreChanged (merged_leader leaders.old x y) leaders.old leaders.new }
{
    let one = leaders[x as usize];
    let other = leaders[y as usize];
    if one != other {
        relabel(leaders, one.max(other), one.min(other));
    }
}

fn join_arc(net: &Net, leaders: &mut [u32], takers: &mut [Option<u32>], arc: NetArc)
    requires place { arc.place < length takers.old }
    requires trans { arc.trans < length net.now.trans }
    requires signals { length leaders.old ≡ length net.now.signals }
    requires takers { All (λ taker. IfSome taker (λ s. s < length leaders.old)) takers.old }
    ensures takers { takers.new ≡ with_taker (own_taker net.now arc) arc.place takers.old }
    ensures leaders { AreChanged (leader_after net.now arc takers.old leaders.old) leaders.old
        leaders.new }
{
    let place = arc.place as usize;
    if let Some(signal) = own_taker(net, arc) {
        match takers[place] {
            None => takers[place] = Some(signal),
            Some(other) => join(leaders, other, signal),
        }
    }
}

fn join_all(net: &Net, leaders: &mut [u32], takers: &mut [Option<u32>])
    requires { IsJoining net.now 0 leaders.old takers.old }
    ensures { IsJoining net.now (length net.now.arcs) leaders.new takers.new }
{
    for arc in net.arcs() {
        join_arc(net, leaders, takers, *arc);
    }
}

/// Finds the leader of each signal, and for each place a signal that takes from it, if there is one
/// that is an output or internal.
pub(crate) fn join_signals(alloc: Global, net: &Net) -> Result<LeadersAndTakers, NoMemory>
    ensures { IfOk result
        (λ j. IsJoining net.now (length net.now.arcs) j.leaders.items j.takers.items) }
{
    let mut leaders = numbers_below(alloc, net.signals().len() as u32)?.into_vec();
    let mut takers = no_takers(alloc, net.tokens().len())?;
    join_all(net, leaders.as_mut_slice(), takers.as_mut_slice());
    Ok(LeadersAndTakers { leaders, takers })
}
