//! The first lines: the model's name, and the signals of each kind.

ghost use Rattle.std.specs.Prelude.{◌≡◌, ◌++◌, IfOk, OnOk};
ghost use Rattle.std.specs.List.{list_any};
ghost use Rattle.astg_write.specs.ComponentText.{of_kind, spaced_names, names_line, model_line, header};

use crate::number::push_number;
use std::alloc::Global;
use stg_net::{Kind, NoMemory, Seq, Signal, Text};

/// Begins a text with its first line.
pub(crate) fn make_model_line(alloc: Global, part: u32) -> Result<Text, NoMemory>
    ensures { IfOk result (λ text. text ≡ model_line part) }
{
    let mut text = Seq::from_slice(alloc, b".model part")?;
    push_number(&mut text, part)?;
    text.push(b'\n')?;
    Ok(text)
}

fn is_of_kind(kind: Kind, signal: &Signal) -> bool
    ensures { result ≡ of_kind kind signal.now }
{
    signal.kind == kind
}

fn any_of_kind(kind: Kind, signals: &[Signal]) -> bool
    ensures { result ≡ list_any (of_kind kind) signals.now }
{
    signals.iter().any(|s| is_of_kind(kind, s))
}

fn push_names(text: &mut Text, kind: Kind, signals: &[Signal]) -> Result<(), NoMemory>
    ensures { OnOk result (text.new ≡ text.old ++ spaced_names kind signals.now) }
{
    for signal in signals {
        if is_of_kind(kind, signal) {
            text.push(b' ')?;
            text.extend_from_slice(signal.name.as_slice())?;
        }
    }
    Ok(())
}

fn push_names_line(
    text: &mut Text,
    directive: &[u8],
    kind: Kind,
    signals: &[Signal],
) -> Result<(), NoMemory>
    ensures { OnOk result (text.new ≡ text.old ++ names_line directive.now kind signals.now) }
{
    if any_of_kind(kind, signals) {
        text.extend_from_slice(directive)?;
        push_names(text, kind, signals)?;
        text.push(b'\n')?;
    }
    Ok(())
}

pub(crate) fn push_header(text: &mut Text, signals: &[Signal]) -> Result<(), NoMemory>
    ensures { OnOk result (text.new ≡ text.old ++ header signals.now) }
{
    push_names_line(text, b".inputs", Kind::Input, signals)?;
    push_names_line(text, b".outputs", Kind::Output, signals)?;
    push_names_line(text, b".internal", Kind::Internal, signals)
}
