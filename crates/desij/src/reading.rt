//! A text of a source, selected and read.

ghost use Rattle.std.specs.Prelude.{◌≡◌, ◌+◌, ◌<◌, ◌≤◌, length, IfOk, IsErrOf};
ghost use Rattle.std.specs.Io.KnownBytes.{IsAtEnd, prepend_known};
ghost use Rattle.io_shelf.specs.Outside.{Rose};
ghost use Rattle.desij.specs.inner.Ends.{HasTextCause};
ghost use Rattle.desij.specs.Reading.{ReadsUpTo};

use io_shelf::{Failed, Source};
use std::alloc::Global;
use stg_net::{Limits, NoMemory, Seq, Text};

/// One byte more than a text may have.
pub const MOST: usize = Limits::SPEC.bytes as usize + 1;

const PIECE: usize = 4096;

/// Why a text wasn't read.
#[derive(Clone, Copy, Debug, PartialEq, Eq)]
pub enum TextError {
    /// A call of the source failed.
    Failed,
    /// The source has no text of that name.
    Missing,
    /// Memory ran out.
    NoMemory,
}

impl From<Failed> for TextError {
    ghost use Rattle.desij.specs.declared.reading.TextError.TheVariants as text_error;

    ghost from_gives = { λ _ e. e ≡ text_error.Failed };

    fn from(_: Failed) -> Self {
        TextError::Failed
    }
}

impl From<NoMemory> for TextError {
    ghost use Rattle.desij.specs.declared.reading.TextError.TheVariants as text_error;

    ghost from_gives = { λ _ e. e ≡ text_error.NoMemory };

    fn from(_: NoMemory) -> Self {
        TextError::NoMemory
    }
}

/// Selects a text and reads it, up to its end or to `MOST` bytes.
pub fn read_text<S: Source>(alloc: Global, source: &mut S, name: &str) -> Result<Text, TextError>
    requires { (S.seen source.old).selects < 8 }
    ensures text { IfOk result (λ text.
        ReadsUpTo MOST name.now text (S.seen source.old) (S.seen source.new)) }
    ensures selects { (S.seen source.new).selects ≡ (S.seen source.old).selects + 1 }
    ensures cause { HasTextCause name.now result (S.seen source.old) (S.seen source.new) }
    ensures kept { (S.seen source.new).texts ≡ (S.seen source.old).texts }
{
    if !source.select(name)? {
        return Err(TextError::Missing);
    }
    read_rest(alloc, source)
}

// Reads what is left of the selected text, up to its end or to `MOST` bytes.
fn read_rest<S: Source>(alloc: Global, source: &mut S) -> Result<Text, TextError>
    ensures told { IfOk result (λ text.
        (S.seen source.old).left ≡ prepend_known text (S.seen source.new).left) }
    ensures at_most { IfOk result (λ text. length text ≤ MOST) }
    ensures whole { IfOk result (λ text. length text < MOST → IsAtEnd (S.seen source.new).left) }
    ensures failed { IsErrOf result TextError.Failed
        → Rose (S.seen source.old).faults (S.seen source.new).faults }
    ensures not_missing { IsErrOf result TextError.Missing → ⊥ }
    ensures later { (S.seen source.old).faults ≤ (S.seen source.new).faults }
    ensures selects { (S.seen source.new).selects ≡ (S.seen source.old).selects }
    ensures kept { (S.seen source.new).texts ≡ (S.seen source.old).texts }
{
    let mut text: Text = Seq::new(alloc);
    let mut piece = [0u8; PIECE];
    while text.len() < MOST {
        let room = PIECE.min(MOST - text.len());
        let count = source.read(&mut piece[..room])?;
        if count == 0 {
            return Ok(text);
        }
        text.extend_from_slice(&piece[..count])?;
    }
    Ok(text)
}
