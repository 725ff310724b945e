//! Nets under construction.

ghost use Rattle.std.specs.Prelude.{◌≡◌, ◌≢◌, ◌<◌, ◌≤◌, ◌↔◌, length, All, None, IfOk, OnOk, OnErr, IsErrOf, Err};
ghost use Rattle.std.specs.List.Sorted.{IsPermutation};
ghost use Rattle.stg_net.specs.declared.arc.NetArc.{NetArc};
ghost use Rattle.stg_net.specs.declared.trans.TransName.{TransName};
ghost use Rattle.stg_net.specs.Net.{IsNet, IsWithin, number_of};
ghost use Rattle.stg_net.specs.ErrorNumbers.{error_number};
ghost use Rattle.stg_net.specs.declared.builder.BuildError.TheVariants.{NoMemory};
ghost use Rattle.stg_net.specs.Building.{HasEnds, OnlyErr, with_signal, with_trans, with_place, with_arc, with_tokens, empty_building};

use crate::{Kind, Limits, Net, NetArc, NoMemory, Seq, Signal, TransName};
use indexmap::IndexMap;
use std::alloc::{AllocError, AllocFailed, Global};
use std::marker::Model;

/// Why something wasn't added to a net.
#[derive(Clone, Copy, Debug, PartialEq, Eq)]
pub enum BuildError {
    /// As many signals are there as the limit says.
    TooManySignals = 1,
    /// As many transitions are there as the limit says.
    TooManyTransitions = 2,
    /// As many places are there as the limit says.
    TooManyPlaces = 3,
    /// As many arcs are there as the limit says.
    TooManyArcs = 4,
    /// Memory has run out.
    NoMemory = 5,
}

impl BuildError {
    /// The number of the error, from 1 to 5.
    pub fn number(self) -> u8
        ensures { result ≡ error_number self }
    {
        self as u8
    }
}

impl From<AllocError> for BuildError {
    ghost from_gives = { λ _ e. e ≡ NoMemory };

    fn from(_: AllocError) -> Self {
        BuildError::NoMemory
    }
}

impl<T: Drop> From<AllocFailed<T>> for BuildError {
    ghost from_gives = { λ _ e. e ≡ NoMemory };

    fn from(_: AllocFailed<T>) -> Self {
        BuildError::NoMemory
    }
}

/// A net under construction. Contracts see it as its limits and its lists so far, with the arcs in
/// the order in which they came.
#[derive(Drop)]
pub struct NetBuilder {
    alloc: Global,
    limits: Limits,
    signals: IndexMap<Vec<u8>, Kind>,
    trans: Vec<TransName>,
    tokens: Vec<u32>,
    arcs: Vec<NetArc>,
}

impl Model for NetBuilder {
    ghost use Rattle.stg_net.specs.Building.{Building};

    ghost Value = { Building };

    ghost use Rattle.stg_net.specs.Builder.{building_of, IsBuilder};

    ghost view = { building_of };

    ghost invariant = { IsBuilder };
}

impl NetBuilder {
    /// Begins a net without anything. Memory is taken only by what is added.
    pub fn new(alloc: Global, limits: Limits) -> Self
        ensures { result ≡ empty_building limits }
    {
        NetBuilder {
            alloc,
            limits,
            signals: IndexMap::new(alloc),
            trans: Vec::new(alloc),
            tokens: Vec::new(alloc),
            arcs: Vec::new(alloc),
        }
    }

    /// Gives the number of the signal of that name; `None` exactly where no signal has it.
    pub fn find_signal(&self, name: &[u8]) -> Option<u32>
        ensures { result ≡ number_of name.now self.now.lists.signals }
    {
        match self.signals.get_index_of(name) {
            Some(at) => Some(at as u32),
            None => None,
        }
    }

    /// Adds a signal last and gives its number. An error is `TooManySignals` where the limit is
    /// met, and `NoMemory` otherwise.
    pub fn add_signal(&mut self, name: &[u8], kind: Kind) -> Result<u32, BuildError>
        requires { number_of name.now self.old.lists.signals ≡ None }
        ensures number { IfOk result (λ k. k ≡ length self.old.lists.signals) }
        ensures ok { OnOk result
            (self.new ≡ with_signal self.old (record { name = name.now; kind = kind })) }
        ensures room { OnOk result (length self.old.lists.signals < self.old.limits.signals) }
        ensures full { IsErrOf result BuildError.TooManySignals
            ↔ (length self.old.lists.signals ≡ self.old.limits.signals) }
        ensures only { OnlyErr BuildError.TooManySignals result }
        ensures err { OnErr result (self.new ≡ self.old) }
    {
        let number = self.signals.len();
        if number == self.limits.signals as usize {
            return Err(BuildError::TooManySignals);
        }
        let name = Vec::from_slice(self.alloc, name)?;
        self.signals.insert(name, kind)?;
        Ok(number as u32)
    }

    /// Adds a transition last and gives its number. An error is `TooManyTransitions` where the
    /// limit is met, and `NoMemory` otherwise.
    pub fn add_trans(&mut self, name: TransName) -> Result<u32, BuildError>
        requires signal { name.signal < length self.old.lists.signals }
        requires fresh { All (λ (t : TransName). t ≢ name) self.old.lists.trans }
        ensures number { IfOk result (λ k. k ≡ length self.old.lists.trans) }
        ensures ok { OnOk result (self.new ≡ with_trans self.old name) }
        ensures room { OnOk result (length self.old.lists.trans < self.old.limits.trans) }
        ensures full { IsErrOf result BuildError.TooManyTransitions
            ↔ (length self.old.lists.trans ≡ self.old.limits.trans) }
        ensures only { OnlyErr BuildError.TooManyTransitions result }
        ensures err { OnErr result (self.new ≡ self.old) }
    {
        let number = self.trans.len();
        if number == self.limits.trans as usize {
            return Err(BuildError::TooManyTransitions);
        }
        self.trans.push(name)?;
        Ok(number as u32)
    }

    /// Adds a place last, with its tokens, and gives its number. No arc has that number yet. An
    /// error is `TooManyPlaces` where the limit is met, and `NoMemory` otherwise.
    pub fn add_place(&mut self, tokens: u32) -> Result<u32, BuildError>
        requires { tokens ≤ self.old.limits.weight }
        ensures number { IfOk result (λ k. k ≡ length self.old.lists.tokens) }
        ensures ok { OnOk result (self.new ≡ with_place self.old tokens) }
        ensures room { OnOk result (length self.old.lists.tokens < self.old.limits.places) }
        ensures unused { OnOk result
            (All (λ (a : NetArc). a.place < length self.old.lists.tokens) self.old.lists.arcs) }
        ensures full { IsErrOf result BuildError.TooManyPlaces
            ↔ (length self.old.lists.tokens ≡ self.old.limits.places) }
        ensures only { OnlyErr BuildError.TooManyPlaces result }
        ensures err { OnErr result (self.new ≡ self.old) }
    {
        let number = self.tokens.len();
        if number == self.limits.places as usize {
            return Err(BuildError::TooManyPlaces);
        }
        self.tokens.push(tokens)?;
        Ok(number as u32)
    }

    /// Adds an arc between a place and a transition that are there. An error is `TooManyArcs` where
    /// the limit is met, and `NoMemory` otherwise.
    pub fn add_arc(&mut self, arc: NetArc) -> Result<(), BuildError>
        requires place { arc.place < length self.old.lists.tokens }
        requires trans { arc.trans < length self.old.lists.trans }
        requires least { 1 ≤ arc.weight }
        requires most { arc.weight ≤ self.old.limits.weight }
        requires fresh { All (λ (a : NetArc). HasEnds arc a → ⊥) self.old.lists.arcs }
        ensures ok { OnOk result (self.new ≡ with_arc self.old arc) }
        ensures room { OnOk result (length self.old.lists.arcs < self.old.limits.arcs) }
        ensures full { IsErrOf result BuildError.TooManyArcs
            ↔ (length self.old.lists.arcs ≡ self.old.limits.arcs) }
        ensures only { OnlyErr BuildError.TooManyArcs result }
        ensures err { OnErr result (self.new ≡ self.old) }
    {
        if self.arcs.len() == self.limits.arcs as usize {
            return Err(BuildError::TooManyArcs);
        }
        self.arcs.push(arc)?;
        Ok(())
    }

    /// Sets the tokens of a place.
    pub fn set_tokens(&mut self, place: u32, tokens: u32)
        requires there { place < length self.old.lists.tokens }
        requires most { tokens ≤ self.old.limits.weight }
        ensures { self.new ≡ with_tokens self.old place tokens }
    {
        self.tokens[place as usize] = tokens;
    }

    /// Makes the net, with its arcs in order. Where memory runs out the builder is gone.
    pub fn finish(self) -> Result<Net, NoMemory>
        ensures signals { IfOk result (λ n. n.signals ≡ self.lists.signals) }
        ensures trans { IfOk result (λ n. n.trans ≡ self.lists.trans) }
        ensures tokens { IfOk result (λ n. n.tokens ≡ self.lists.tokens) }
        ensures arcs { IfOk result (λ n. IsPermutation self.lists.arcs n.arcs) }
        ensures net { IfOk result (λ n. IsNet n) }
        ensures within { IfOk result (λ n. IsWithin self.limits n) }
    {
        let NetBuilder {
            alloc,
            limits: _,
            signals: names,
            trans,
            tokens,
            mut arcs,
        } = self;
        let mut signals = Vec::new(alloc);
        for (name, kind) in names {
            signals.push(Signal {
                name: Seq::from_vec(name),
                kind,
            })?;
        }
        arcs.sort()?;
        Ok(Net::of(
            Seq::from_vec(signals),
            Seq::from_vec(trans),
            Seq::from_vec(tokens),
            Seq::from_vec(arcs),
        ))
    }
}
