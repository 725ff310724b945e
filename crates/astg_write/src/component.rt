//! The text of a component.

ghost use Rattle.std.specs.Prelude.{◌≡◌, ◌<◌, ◌^◌, ◌++◌, length, IfOk, OnOk};
ghost use Rattle.astg_write.specs.ComponentText.{net_lines, component_text};
ghost use Rattle.astg_write.specs.Writable.{IsWritable};
ghost use Rattle.astg_write.specs.ReadsBack.{ReadsBack};
ghost use Rattle.stg_net.specs.Net.{NetLists};
ghost use Rattle.stg_net.specs.Ordered.{ordered};

use crate::graph::push_graph;
use crate::header::{make_model_line, push_header};
use crate::marking::push_marking;
use crate::place::find_prefix;
use std::alloc::Global;
use stg_net::{Net, NoMemory, Text};

fn push_lines(alloc: Global, text: &mut Text, prefix: &[u8], net: &Net) -> Result<(), NoMemory>
    requires places { length net.now.tokens < 2 ^ 32 }
    requires trans { length net.now.trans < 2 ^ 32 }
    ensures { OnOk result (text.new ≡ text.old ++ net_lines prefix.now net.now) }
{
    push_header(text, net.signals())?;
    push_graph(alloc, text, prefix, net)?;
    push_marking(text, prefix, net.tokens())?;
    text.extend_from_slice(b".end\n")
}

/// Writes the net as the component of that number. Where the net is
/// in order, `read_part` gives it back.
///
/// The names are asked to have their form so that the text can be read again.
pub fn write_net(alloc: Global, net: &Net, part: u32) -> Result<Text, NoMemory>
    requires { IsWritable net.now }
    ensures value { IfOk result (λ text. text ≡ component_text net.now part) }
    ensures reads_back { IfOk result
        (λ text. (whole : NetLists) → net.now ≡ ordered whole → ReadsBack net.now text) }
{
    let prefix = find_prefix(alloc, net.signals())?;
    let mut text = make_model_line(alloc, part)?;
    push_lines(alloc, &mut text, prefix.as_slice(), net)?;
    Ok(text)
}
