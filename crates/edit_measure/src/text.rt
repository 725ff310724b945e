//! Texts of components as large as the limits allow.

ghost use Rattle.std.specs.Prelude.{◌<◌};

use itoa::Buffer;
use std::alloc::Global;
use stg_net::{NoMemory, Seq, Text};

const SIGNALS: u32 = 250;

const TRANS: u32 = 1_000;

const PLACES: u32 = 4_064;

const EDGES: [&[u8]; 4] = [b"+", b"-", b"+/1", b"-/1"];

/// How the arcs lie.
#[derive(Clone, Copy)]
pub enum Shape {
    /// From each place 12 or 13 transitions take, and from 11 to 14 give to it.
    ManyTakers,
    /// From each place one transition takes, and none takes from a place to which it gives.
    OneTaker,
}

/// The text of a component of 250 signals, 1,000 transitions, 4,064 places and 100,000 arcs.
pub fn largest(alloc: Global, shape: Shape) -> Result<Text, NoMemory> {
    let mut text = Seq::from_slice(alloc, b".inputs")?;
    for s in 0..SIGNALS {
        push_word(&mut text, b" s", s)?;
    }
    text.extend_from_slice(b"\n.graph\n")?;
    for t in 0..TRANS {
        push_given(&mut text, shape, t)?;
    }
    for p in 0..PLACES {
        push_takers(&mut text, shape, p)?;
    }
    text.extend_from_slice(b".marking { p0 }\n.end\n")?;
    Ok(text)
}

/// The line of a transition and the places to which it gives.
fn push_given(text: &mut Text, shape: Shape, t: u32) -> Result<(), NoMemory>
    requires { t < 1000 }
{
    push_label(text, t)?;
    match shape {
        Shape::ManyTakers => push_places(text, t)?,
        Shape::OneTaker => push_more_places(text, t)?,
    }
    text.push(b'\n')
}

/// The 50 places to which a transition gives.
fn push_places(text: &mut Text, t: u32) -> Result<(), NoMemory>
    requires { t < 1000 }
{
    for k in 0..50 {
        push_word(text, b" p", (t * 5 + k * 81) % PLACES)?;
    }
    Ok(())
}

/// The 95 or 96 places to which a transition gives, where each place has one taker. The first is
/// the one behind those from which the transition takes.
fn push_more_places(text: &mut Text, t: u32) -> Result<(), NoMemory>
    requires { t < 1000 }
{
    let count = if t < 936 { 96 } else { 95 };
    for k in 0..count {
        push_word(text, b" p", (t * 4 + 4 + k * 41) % PLACES)?;
    }
    Ok(())
}

/// The line of a place and the transitions that take from it.
fn push_takers(text: &mut Text, shape: Shape, p: u32) -> Result<(), NoMemory>
    requires { p < 4064 }
{
    push_word(text, b" p", p)?;
    match shape {
        Shape::ManyTakers => push_trans(text, p)?,
        Shape::OneTaker => push_label(text, p / 4 % TRANS)?,
    }
    text.push(b'\n')
}

/// The 12 or 13 transitions that take from a place.
fn push_trans(text: &mut Text, p: u32) -> Result<(), NoMemory>
    requires { p < 4064 }
{
    let count = if p < 1232 { 13 } else { 12 };
    for k in 0..count {
        push_label(text, (p * 7 + k * 79) % TRANS)?;
    }
    Ok(())
}

/// A transition: each signal has four.
fn push_label(text: &mut Text, t: u32) -> Result<(), NoMemory> {
    push_word(text, b" s", t / 4)?;
    text.extend_from_slice(EDGES[t as usize % 4])
}

/// A word that ends with a number.
fn push_word(text: &mut Text, word: &[u8], number: u32) -> Result<(), NoMemory> {
    text.extend_from_slice(word)?;
    text.extend_from_slice(Buffer::new().format(number).as_bytes())
}
