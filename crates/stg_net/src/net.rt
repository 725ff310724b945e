//! Nets.

ghost use Rattle.std.specs.Prelude.{◌≡◌, map, IfOk};
ghost use Rattle.std.specs.List.{enumerate_from};
ghost use Rattle.stg_net.specs.declared.limits.Limits.{Limits};
ghost use Rattle.stg_net.specs.Net.{IsNet, IsWithin};
ghost use Rattle.stg_net.specs.Names.{IsWellNamed};
ghost use Rattle.stg_net.specs.Component.{is_one_of, shared_kind, component_kind, component_signal};
ghost use Rattle.stg_net.specs.Component as lists;

use crate::{Kind, NetArc, NoMemory, Nums, Seq, Signal, TransName};
use std::alloc::Global;
use std::marker::Model;

/// A net. Contracts see it as its four lists.
#[derive(Debug, Drop)]
pub struct Net {
    signals: Seq<Signal>,
    trans: Seq<TransName>,
    tokens: Nums,
    arcs: Seq<NetArc>,
}

impl Model for Net {
    ghost use Rattle.stg_net.specs.Net.{NetLists, IsNet};

    ghost Value = { NetLists };

    ghost view = { λ n. record
        { signals = n.signals; trans = n.trans; tokens = n.tokens; arcs = n.arcs } };

    ghost invariant = { λ n. IsNet (record
        { signals = n.signals; trans = n.trans; tokens = n.tokens; arcs = n.arcs }) };
}

impl Net {
    /// Makes a net of its four lists.
    pub fn of(signals: Seq<Signal>, trans: Seq<TransName>, tokens: Nums, arcs: Seq<NetArc>) -> Self
        requires { IsNet
            (record { signals = signals; trans = trans; tokens = tokens; arcs = arcs }) }
        ensures { result
            ≡ record { signals = signals; trans = trans; tokens = tokens; arcs = arcs } }
    {
        Net {
            signals,
            trans,
            tokens,
            arcs,
        }
    }

    /// The signals, in the order of their numbers.
    pub fn signals(&self) -> &[Signal]
        ensures signals { result.now ≡ self.now.signals }
        ensures net { IsNet self.now }
    {
        self.signals.as_slice()
    }

    /// The names of the transitions, in the order of their numbers.
    pub fn trans(&self) -> &[TransName]
        ensures trans { result.now ≡ self.now.trans }
        ensures net { IsNet self.now }
    {
        self.trans.as_slice()
    }

    /// The tokens of the places, in the order of their numbers.
    pub fn tokens(&self) -> &[u32]
        ensures tokens { result.now ≡ self.now.tokens }
        ensures net { IsNet self.now }
    {
        self.tokens.as_slice()
    }

    /// The arcs, by place, then by transition, then those out of the place first.
    pub fn arcs(&self) -> &[NetArc]
        ensures arcs { result.now ≡ self.now.arcs }
        ensures net { IsNet self.now }
    {
        self.arcs.as_slice()
    }

    /// Makes the net of a component: the signals of `own` keep their kinds, an internal one that is
    /// in `shared` too is an output, and every other signal is an input.
    pub fn component(&self, alloc: Global, own: &[u32], shared: &[u32]) -> Result<Net, NoMemory>
        ensures value { IfOk result (λ n. n ≡ lists.component own.now shared.now self.now) }
        ensures within { IfOk result (λ n. (l : Limits) → IsWithin l self.now → IsWithin l n) }
        ensures named { IfOk result (λ n. IsWellNamed self.now → IsWellNamed n) }
    {
        Ok(Net::of(
            component_signals(alloc, own, shared, self.signals())?,
            Seq::from_slice(alloc, self.trans())?,
            Seq::from_slice(alloc, self.tokens())?,
            Seq::from_slice(alloc, self.arcs())?,
        ))
    }
}

/// Whether the number is one of these.
pub fn is_one_of(numbers: &[u32], s: usize) -> bool
    ensures { result ≡ is_one_of numbers.now s }
{
    numbers.iter().any(|k| *k as usize == s)
}

// What a kind becomes that other components know.
fn share(kind: Kind) -> Kind
    ensures { result ≡ shared_kind kind }
{
    match kind {
        Kind::Input => Kind::Input,
        Kind::Output | Kind::Internal => Kind::Output,
    }
}

fn component_kind(own: &[u32], shared: &[u32], s: usize, kind: Kind) -> Kind
    ensures { result ≡ component_kind own.now shared.now s kind }
{
    if !is_one_of(own, s) {
        Kind::Input
    } else if is_one_of(shared, s) {
        share(kind)
    } else {
        kind
    }
}

fn component_signals(
    alloc: Global,
    own: &[u32],
    shared: &[u32],
    signals: &[Signal],
) -> Result<Seq<Signal>, NoMemory>
    ensures { IfOk result
        (λ n. n ≡ map (component_signal own.now shared.now) (enumerate_from 0 signals.now)) }
{
    let mut list = Seq::new(alloc);
    for (s, signal) in signals.iter().enumerate() {
        list.push(signal.copy_as(alloc, component_kind(own, shared, s, signal.kind))?)?;
    }
    Ok(list)
}
