//! Pipelines of any length, as specification texts.

ghost use Rattle.std.specs.Prelude.{◌≡◌, ◌+◌, ◌<◌, ◌≤◌, ◌^◌, ◌++◌, IfOk, OnOk};
ghost use Rattle.stg_net.specs.Ordered.{listed_below};
ghost use Rattle.io_shelf.specs.Pipeline.{arc_line, edge_word, token_word, head_lines, name_word, output_word, pipeline_text, handshake_lines, tail_lines};

use itoa::Buffer;
use std::alloc::Global;
use stg_net::{NoMemory, Seq, Text};

/// The edges of a handshake: a signal rises or falls.
const RISE: u8 = b'+';

const FALL: u8 = b'-';

#[tactic(auto, unfolding(crate::specs::Pipeline::name_word))]
fn push_name(text: &mut Text, i: u32) -> Result<(), NoMemory>
    ensures { OnOk result (text.new ≡ text.old ++ name_word i) }
{
    text.push(b'c')?;
    text.extend_from_slice(Buffer::new().format(i).as_bytes())
}

#[tactic(auto, unfolding(crate::specs::Pipeline::edge_word))]
fn push_edge(text: &mut Text, i: u32, edge: u8) -> Result<(), NoMemory>
    ensures { OnOk result (text.new ≡ text.old ++ edge_word i edge) }
{
    push_name(text, i)?;
    text.push(edge)
}

#[tactic(auto, unfolding(crate::specs::Pipeline::arc_line))]
fn push_arc(text: &mut Text, i: u32, from: u8, j: u32, to: u8) -> Result<(), NoMemory>
    ensures { OnOk result (text.new ≡ text.old ++ arc_line i from j to) }
{
    push_edge(text, i, from)?;
    text.push(b' ')?;
    push_edge(text, j, to)?;
    text.push(b'\n')
}

// The handshake of one signal with the next.
#[tactic(auto, unfolding(crate::specs::Pipeline::handshake_lines))]
fn push_handshake(text: &mut Text, i: u32) -> Result<(), NoMemory>
    requires { i + 1 < 2 ^ 32 }
    ensures { OnOk result (text.new ≡ text.old ++ handshake_lines i) }
{
    push_arc(text, i, RISE, i + 1, RISE)?;
    push_arc(text, i + 1, RISE, i, FALL)?;
    push_arc(text, i, FALL, i + 1, FALL)?;
    push_arc(text, i + 1, FALL, i, RISE)
}

#[tactic(auto, unfolding(crate::specs::Pipeline::output_word))]
fn push_output(text: &mut Text, i: u32) -> Result<(), NoMemory>
    requires { i + 1 < 2 ^ 32 }
    ensures { OnOk result (text.new ≡ text.old ++ output_word i) }
{
    text.push(b' ')?;
    push_name(text, i + 1)
}

// The token of the handshake of the signals i and i + 1.
#[tactic(auto, unfolding(crate::specs::Pipeline::token_word))]
fn push_entry(text: &mut Text, i: u32) -> Result<(), NoMemory>
    requires { i + 1 < 2 ^ 32 }
    ensures { OnOk result (text.new ≡ text.old ++ token_word i) }
{
    text.extend_from_slice(b" <")?;
    push_edge(text, i + 1, FALL)?;
    text.push(b',')?;
    push_edge(text, i, RISE)?;
    text.push(b'>')
}

fn push_outputs(text: &mut Text, n: u32) -> Result<(), NoMemory>
    requires { n + 1 < 2 ^ 32 }
    ensures { OnOk result (text.new ≡ text.old ++ listed_below output_word n) }
{
    for i in 0..n {
        push_output(text, i)?;
    }
    Ok(())
}

fn push_handshakes(text: &mut Text, count: u32) -> Result<(), NoMemory>
    requires { count + 1 < 2 ^ 32 }
    ensures { OnOk result (text.new ≡ text.old ++ listed_below handshake_lines count) }
{
    for i in 0..count {
        push_handshake(text, i)?;
    }
    Ok(())
}

fn push_entries(text: &mut Text, count: u32) -> Result<(), NoMemory>
    requires { count + 1 < 2 ^ 32 }
    ensures { OnOk result (text.new ≡ text.old ++ listed_below token_word count) }
{
    for i in 0..count {
        push_entry(text, i)?;
    }
    Ok(())
}

#[tactic(auto, unfolding(crate::specs::Pipeline::head_lines))]
fn push_head(text: &mut Text, n: u32) -> Result<(), NoMemory>
    requires { n + 1 < 2 ^ 32 }
    ensures { OnOk result (text.new ≡ text.old ++ head_lines n) }
{
    text.extend_from_slice(b".model pipeline\n.inputs c0 ")?;
    push_name(text, n + 1)?;
    text.extend_from_slice(b"\n.outputs")?;
    push_outputs(text, n)?;
    text.extend_from_slice(b"\n.graph\n")
}

#[tactic(auto, unfolding(crate::specs::Pipeline::tail_lines))]
fn push_tail(text: &mut Text, n: u32) -> Result<(), NoMemory>
    requires { n + 2 < 2 ^ 32 }
    ensures { OnOk result (text.new ≡ text.old ++ tail_lines n) }
{
    text.extend_from_slice(b".marking {")?;
    push_entries(text, n + 1)?;
    text.extend_from_slice(b" }\n.end\n")
}

/// The text of a pipeline of n outputs, `c1` to `cn`, between the inputs `c0` and `c(n+1)`: each
/// signal has a handshake of four phases with the next. `n` is from 1 to 248, so that the text is
/// within the limits of specifications.
pub fn pipeline(alloc: Global, n: u32) -> Result<Text, NoMemory>
    requires { (1 ≤ n) × (n ≤ 248) }
    ensures { IfOk result (λ text. text ≡ pipeline_text n) }
{
    let mut text = Seq::new(alloc);
    push_head(&mut text, n)?;
    push_handshakes(&mut text, n + 1)?;
    push_tail(&mut text, n)?;
    Ok(text)
}
