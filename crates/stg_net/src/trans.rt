//! Transitions: their full names and how these are written.

ghost use Rattle.std.specs.Prelude.{◌≡◌, ◌<◌, ◌++◌, length, IfOk, OnOk};
ghost use Rattle.stg_net.specs.Words.{sign_of, trans_word, index_text};

use crate::{Net, NoMemory, Seq, Text};
use itoa::Buffer;
use std::alloc::Global;

/// How a signal changes.
#[derive(Clone, Copy, Debug, PartialEq, Eq, Hash)]
pub enum Edge {
    /// From 0 to 1.
    Rise,
    /// From 1 to 0.
    Fall,
    /// From either to the other.
    Toggle,
}

/// The full name of a transition.
///
/// Two transitions have the same label where signal and edge are equal.
#[derive(Clone, Copy, Debug, PartialEq, Eq, Hash)]
pub struct TransName {
    /// The number of a signal of its net.
    pub signal: u32,
    /// What it does to the signal.
    pub edge: Edge,
    /// Tells transitions of one label apart; 0 is written as none.
    pub index: u32,
}

fn sign(edge: Edge) -> u8
    ensures { result ≡ sign_of edge }
{
    match edge {
        Edge::Rise => b'+',
        Edge::Fall => b'-',
        Edge::Toggle => b'~',
    }
}

fn push_index(text: &mut Text, index: u32) -> Result<(), NoMemory>
    ensures { OnOk result (text.new ≡ text.old ++ index_text index) }
{
    if index != 0 {
        text.push(b'/')?;
        text.extend_from_slice(Buffer::new().format(index).as_bytes())?;
    }
    Ok(())
}

/// Writes the transition of that number, as `a+`, `b-/2` or `c~`.
pub fn trans_text(alloc: Global, net: &Net, t: u32) -> Result<Text, NoMemory>
    requires { t < length net.now.trans }
    ensures value { IfOk result (λ text. text ≡ trans_word net.now.signals net.now.trans t) }
{
    let name = net.trans()[t as usize];
    let signal = &net.signals()[name.signal as usize];
    let mut text = Seq::from_slice(alloc, signal.name.as_slice())?;
    text.push(sign(name.edge))?;
    push_index(&mut text, name.index)?;
    Ok(text)
}
