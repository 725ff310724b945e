//! The arcs of a place, and those of a transition.

ghost use Rattle.std.specs.Prelude.{◌≡◌, ◌+◌, ◌-◌, ◌<◌, ◌≤◌, ◌^◌, List, ℕ, length, take, drop, All, AllPairs, IfOk};
ghost use Rattle.std.specs.List.Sorted.{IsNonDecreasingBy, IsPartitionPoint};
ghost use Rattle.stg_net.specs.declared.arc.NetArc.{NetArc};
ghost use Rattle.stg_net.specs.Net.{IsBefore};
ghost use Rattle.astg_write.specs.ComponentText.{given_text, is_only_given, takers_of};

use std::alloc::Global;
use stg_net::{Net, NetArc, NoMemory};

// The arcs from one number on and before another.
fn arcs_between(arcs: &[NetArc], from: usize, to: usize) -> &[NetArc]
    requires order { from ≤ to }
    requires ends { to ≤ length arcs.now }
    ensures { result.now ≡ take (to - from) (drop from arcs.now) }
{
    &arcs[from..to]
}

// How many arcs are at places below that one.
fn arcs_below(arcs: &[NetArc], place: u32) -> usize
    requires { AllPairs IsBefore arcs.now }
    ensures bound { result ≤ length arcs.now }
    ensures point { IsPartitionPoint
        (λ (a : NetArc). a.place < place) (λ (a : NetArc). place ≤ a.place) arcs.now result }
{
    arcs.partition_point(|a| a.place < place)
}

/// The arcs of a place, which stand together.
pub(crate) fn arcs_of_place(net: &Net, place: u32) -> &[NetArc]
    requires { place + 1 < 2 ^ 32 }
    ensures takers { takers_of net.now place result.now ≡ takers_of net.now place net.now.arcs }
    ensures given { is_only_given result.now place ≡ is_only_given net.now.arcs place }
    ensures there { All (λ (a : NetArc). a.trans < length net.now.trans) result.now }
{
    let arcs = net.arcs();
    let from = arcs_below(arcs, place);
    let to = arcs_below(arcs, place + 1);
    arcs_between(arcs, from, to)
}

/// The arcs of a net by their transitions; those of one transition keep their order.
pub(crate) fn arcs_by_trans(alloc: Global, net: &Net) -> Result<Vec<NetArc>, NoMemory>
    ensures rise { IfOk result (λ arcs. IsNonDecreasingBy (λ (a : NetArc). a.trans) arcs.items) }
    ensures given { IfOk result
        (λ arcs. (prefix : List ℕ) (t : ℕ)
        → given_text prefix t arcs.items ≡ given_text prefix t net.now.arcs) }
    ensures there { IfOk result
        (λ arcs. All (λ (a : NetArc). a.place < length net.now.tokens) arcs.items) }
{
    let mut arcs = Vec::from_slice(alloc, net.arcs())?;
    arcs.sort_by_key(|a| a.trans)?;
    Ok(arcs)
}

// How many of these arcs are those of transitions below that one.
fn arcs_before(arcs: &[NetArc], trans: u32) -> usize
    requires { IsNonDecreasingBy (λ (a : NetArc). a.trans) arcs.now }
    ensures bound { result ≤ length arcs.now }
    ensures point { IsPartitionPoint
        (λ (a : NetArc). a.trans < trans) (λ (a : NetArc). trans ≤ a.trans) arcs.now result }
{
    arcs.partition_point(|a| a.trans < trans)
}

/// The arcs of a transition, of arcs that stand by their transitions.
pub(crate) fn arcs_of_trans(arcs: &[NetArc], trans: u32) -> &[NetArc]
    requires rise { IsNonDecreasingBy (λ (a : NetArc). a.trans) arcs.now }
    requires number { trans + 1 < 2 ^ 32 }
    ensures given { (prefix : List ℕ)
        → given_text prefix trans result.now ≡ given_text prefix trans arcs.now }
    ensures there { (places : ℕ) → All (λ (a : NetArc). a.place < places) arcs.now
        → All (λ (a : NetArc). a.place < places) result.now }
{
    let from = arcs_before(arcs, trans);
    let to = arcs_before(arcs, trans + 1);
    arcs_between(arcs, from, to)
}
