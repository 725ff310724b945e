//! Which signals arcs bring to each group, at the places from which its own signals take.

ghost use Rattle.std.specs.Prelude.{◌≡◌, ◌+◌, ◌*◌, ◌<◌, ◌≤◌, false, length, All, IfOk, IfSome};
ghost use Rattle.stg_partition.specs.inner.Joining.{brings, is_brought, AreFlaggedWith, AreFlags, IsJoining};

use crate::join::{LeadersAndTakers, signal_of};
use std::alloc::Global;
use stg_net::{Net, NetArc, NoMemory};

/// Where the flag of a leader and a signal stands; each leader has a flag for each signal.
pub(crate) fn flag_index(size: usize, leader: u32, signal: u32) -> usize
    requires bounded { size ≤ 250 }
    requires leader { leader < size }
    requires signal { signal < size }
    ensures at { result ≡ leader * size + signal }
    ensures within { result < size * size }
{
    leader as usize * size + signal as usize
}

fn flag_arc(net: &Net, leaders: &[u32], takers: &[Option<u32>], flags: &mut [bool], arc: NetArc)
    requires place { arc.place < length takers.now }
    requires trans { arc.trans < length net.now.trans }
    requires signals { length leaders.now ≡ length net.now.signals }
    requires bounded { length leaders.now ≤ 250 }
    requires takers { All (λ taker. IfSome taker (λ s. s < length leaders.now)) takers.now }
    requires leaders { All (λ leader. leader < length leaders.now) leaders.now }
    requires flags { length flags.old ≡ length leaders.now * length leaders.now }
    ensures { AreFlaggedWith (length leaders.now)
        (λ l s. brings net.now leaders.now takers.now l s arc) flags.old flags.new }
{
    if let Some(taker) = takers[arc.place as usize] {
        let leader = leaders[taker as usize];
        let at = flag_index(leaders.len(), leader, signal_of(net, arc));
        flags[at] = true;
    }
}

fn flag_arcs(net: &Net, leaders: &[u32], takers: &[Option<u32>], flags: &mut [bool])
    requires signals { length leaders.now ≡ length net.now.signals }
    requires places { length takers.now ≡ length net.now.tokens }
    requires bounded { length leaders.now ≤ 250 }
    requires takers { All (λ taker. IfSome taker (λ s. s < length leaders.now)) takers.now }
    requires leaders { All (λ leader. leader < length leaders.now) leaders.now }
    requires flags { length flags.old ≡ length leaders.now * length leaders.now }
    ensures { AreFlaggedWith (length leaders.now) (is_brought net.now leaders.now takers.now)
        flags.old flags.new }
{
    for arc in net.arcs() {
        flag_arc(net, leaders, takers, flags, *arc);
    }
}

/// Sets for each leader the flags of the signals that arcs bring to its group.
pub(crate) fn flag_all(
    alloc: Global,
    net: &Net,
    found: &LeadersAndTakers,
) -> Result<Vec<bool>, NoMemory>
    requires found { IsJoining net.now (length net.now.arcs) found.now.leaders.items
        found.now.takers.items }
    requires bounded { length net.now.signals ≤ 250 }
    ensures long { IfOk result
        (λ flags. length flags.items
        ≡ length found.now.leaders.items * length found.now.leaders.items) }
    ensures value { IfOk result
        (λ flags. AreFlags net.now found.now.leaders.items found.now.takers.items flags.items) }
{
    let leaders = found.leaders.as_slice();
    let size = leaders.len();
    let mut flags = vec![in alloc; false; size * size]?;
    flag_arcs(net, leaders, found.takers.as_slice(), flags.as_mut_slice());
    Ok(flags)
}
