//! The texts of parts.

ghost use Rattle.std.specs.Prelude.{◌≡◌, ◌+◌, ◌<◌, ◌≤◌, length, IfOk};
ghost use Rattle.stg_net.specs.declared.limits.TheConstants.Limits.{PART};
ghost use Rattle.stg_net.specs.Net.{NetLists};
ghost use Rattle.stg_net.specs.Ordered.{ordered};
ghost use Rattle.astg_write.specs.Writable.{IsWritable};
ghost use Rattle.stg_crew.specs.Parts.{part_at};
ghost use Rattle.astg_write.specs.ComponentText.{component_text};
ghost use Rattle.astg_write.specs.ReadsBack.{ReadsBack};

use crate::Answer;
use astg_write::write_net;
use std::alloc::Global;
use stg_net::{Net, NoMemory, Text};

/// The net of the part of that number.
fn net_at(answer: &Answer, k: u32) -> &Net
    requires { k < length answer.now.parts }
    ensures { result.now ≡ (part_at answer.now.parts k).net }
{
    &answer.parts.as_slice()[k as usize].net
}

/// Writes the net of the part of that number, counted from 0, as the component of the next number.
/// Where the net is in order, `read_part` gives it back.
pub fn part_text(alloc: Global, answer: &Answer, k: u32) -> Result<Text, NoMemory>
    requires there { k < length answer.now.parts }
    requires few { k < PART.signals }
    requires writable { IsWritable (part_at answer.now.parts k).net }
    ensures value { IfOk result
        (λ text. text ≡ component_text (part_at answer.now.parts k).net (k + 1)) }
    ensures reads_back { IfOk result (λ text. (whole : NetLists)
        → (part_at answer.now.parts k).net ≡ ordered whole
        → ReadsBack (part_at answer.now.parts k).net text) }
{
    write_net(alloc, net_at(answer, k), k + 1)
}
