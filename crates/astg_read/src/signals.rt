//! The declared signals, found by name.

ghost use Rattle.std.specs.Prelude.{◌≡◌, ◌++◌, ◌+◌, ◌<◌, ◌≤◌, ◌^◌, [], not, false, length, IfOk, OnOk, IfSome, IsTrue, Some};
ghost use Rattle.std.specs.List.{list_all, list_any};
ghost use Rattle.stg_net.specs.declared.builder.BuildError.TheVariants.{NoMemory as want};
ghost use Rattle.stg_net.specs.Names as forms;
ghost use Rattle.stg_net.specs.Net.{number_of};
ghost use Rattle.astg_read.specs.inner.Construction.{with_all_signals};
ghost use Rattle.astg_read.specs.Header.{same_name, signals_of};
ghost use Rattle.astg_read.specs.Lists.{with_new, has_repeat};
ghost use Rattle.astg_read.specs.inner.Views.{texts};

use crate::names::is_name;
use astg_lex::Word;
use indexmap::IndexMap;
use std::alloc::Global;
use std::marker::Model;
use stg_net::{BuildError, Kind, NetBuilder, NoMemory};

/// The signals in order of declaration. Contracts see them as a list.
#[derive(Drop)]
pub struct Signals<'a> {
    kinds: IndexMap<&'a [u8], Kind>,
}

impl<'a> Model for Signals<'a> {
    ghost use Rattle.std.specs.Prelude.{List, map};
    ghost use Rattle.stg_net.specs.declared.signal.Signal.{Signal};
    ghost use Rattle.astg_read.specs.inner.Views.{signal_view};

    ghost Value = { List Signal };

    ghost view = { λ s. map signal_view s.kinds.entries };
}

impl<'a> Signals<'a> {
    /// No signals.
    pub fn new(alloc: Global) -> Self
        ensures { result ≡ [] }
    {
        Signals {
            kinds: IndexMap::new(alloc),
        }
    }

    /// How many signals there are.
    pub fn len(&self) -> usize
        ensures { result ≡ length self.now }
    {
        self.kinds.len()
    }

    /// The number of the signal of that name.
    pub fn find(&self, name: &[u8]) -> Option<u32>
        requires { length self.now < 2 ^ 32 }
        ensures value { result ≡ number_of name.now self.now }
        ensures within { IfSome result (λ n. n < length self.now) }
    {
        match self.kinds.get_index_of(name) {
            Some(at) => Some(at as u32),
            None => None,
        }
    }

    /// Adds a signal last, and tells whether its name is new.
    pub fn add(&mut self, name: &'a [u8], kind: Kind) -> Result<bool, NoMemory>
        ensures fresh { IfOk result
            (λ is_new. is_new
            ≡ not (list_any (same_name (record { name = name.now; kind = kind })) self.old)) }
        ensures ok { OnOk result
            (self.new ≡ with_new same_name self.old (record { name = name.now; kind = kind })) }
    {
        match self.kinds.get_index_of(name) {
            Some(_) => Ok(false),
            None => {
                self.kinds.insert(name, kind)?;
                Ok(true)
            }
        }
    }

    /// Adds the signals to a net without any, where their names differ.
    pub fn add_to(self, builder: &mut NetBuilder) -> Result<(), NoMemory>
        requires differ { has_repeat same_name [] self ≡ false }
        requires none { builder.old.lists.signals ≡ [] }
        requires room { length builder.old.lists.signals + length self
            ≤ builder.old.limits.signals }
        ensures { OnOk result (builder.new ≡ with_all_signals builder.old self.entry) }
    {
        let Signals { kinds } = self;
        for (name, kind) in kinds {
            match builder.add_signal(name, kind) {
                Ok(_) => {}
                Err(error) => return Err(only_memory(error)),
            }
        }
        Ok(())
    }
}

/// Whether each word has the form of a name.
pub fn are_names(words: &[Word<'_>]) -> bool
    ensures { result ≡ list_all forms.is_name (texts words.now) }
{
    words.iter().all(|word| is_name(word.text))
}

/// Adds signals until a name stands again, and tells whether all are new.
pub fn add_names<'a>(
    signals: &mut Signals<'a>,
    kind: Kind,
    names: &[Word<'a>],
) -> Result<bool, NoMemory>
    ensures fresh { IfOk result
        (λ all_new. all_new
        ≡ not (has_repeat same_name signals.old (signals_of kind (texts names.now)))) }
    ensures ok { IfOk result
        (λ all_new. IsTrue all_new
        → signals.new ≡ signals.old ++ signals_of kind (texts names.now)) }
{
    for name in names {
        if !signals.add(name.text, kind)? {
            return Ok(false);
        }
    }
    Ok(true)
}

/// What is left of an error where the net has room: memory ran out.
pub fn only_memory(error: BuildError) -> NoMemory
    requires { error ≡ want }
{
    match error {
        BuildError::NoMemory => NoMemory,
        _ => unreachable!(),
    }
}
