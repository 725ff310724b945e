//! The line of the marking.

ghost use Rattle.std.specs.Prelude.{◌≡◌, ◌+◌, ◌<◌, ◌^◌, ◌++◌, length, OnOk};
ghost use Rattle.stg_net.specs.Ordered.{listed_below};
ghost use Rattle.astg_write.specs.ComponentText.{tokens_group, entry, marking_line};

use crate::number::push_number;
use crate::place::push_place;
use stg_net::{NoMemory, Text};

fn push_tokens(text: &mut Text, tokens: u32) -> Result<(), NoMemory>
    ensures { OnOk result (text.new ≡ text.old ++ tokens_group tokens) }
{
    if tokens > 1 {
        text.push(b'=')?;
        push_number(text, tokens)?;
    }
    Ok(())
}

fn push_entry(text: &mut Text, prefix: &[u8], tokens: &[u32], place: u32) -> Result<(), NoMemory>
    requires in_range { place < length tokens.now }
    requires within { length tokens.now < 2 ^ 32 }
    ensures { OnOk result (text.new ≡ text.old ++ entry prefix.now tokens.now place) }
{
    let count = tokens[place as usize];
    if count != 0 {
        text.push(b' ')?;
        push_place(text, prefix, place)?;
        push_tokens(text, count)?;
    }
    Ok(())
}

fn push_entries(text: &mut Text, prefix: &[u8], tokens: &[u32]) -> Result<(), NoMemory>
    requires { length tokens.now < 2 ^ 32 }
    ensures { OnOk result
        (text.new ≡ text.old ++ listed_below (entry prefix.now tokens.now) (length tokens.now)) }
{
    for place in 0..tokens.len() as u32 {
        push_entry(text, prefix, tokens, place)?;
    }
    Ok(())
}

pub(crate) fn push_marking(text: &mut Text, prefix: &[u8], tokens: &[u32]) -> Result<(), NoMemory>
    requires { length tokens.now < 2 ^ 32 }
    ensures { OnOk result (text.new ≡ text.old ++ marking_line prefix.now tokens.now) }
{
    text.extend_from_slice(b".marking {")?;
    push_entries(text, prefix, tokens)?;
    text.extend_from_slice(b" }\n")
}
