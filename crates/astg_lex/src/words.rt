//! The words of a line.

ghost use Rattle.std.specs.Prelude.{◌≡◌, ◌+◌, ◌++◌, ◌≤◌, ◌<◌, ◌^◌, length, drop, IfOk, OnOk, OnErr};
ghost use Rattle.astg_lex.specs.Words.{words_at};
ghost use Rattle.astg_lex.specs.Lexing.{word_views};

use crate::measures::{is_blank, word_length};
use stg_net::{NoMemory, Seq};

/// A word of a text, with the numbers of its first byte and of the byte after its last.
#[derive(Clone, Copy, Debug)]
pub struct Word<'a> {
    pub text: &'a [u8],
    pub start: u32,
    pub end: u32,
}

/// Adds the word in front, where there is one, and gives how many bytes were read.
fn push_first<'a>(words: &mut Seq<Word<'a>>, code: &'a [u8], at: u32) -> Result<usize, NoMemory>
    requires some { 0 < length code.now }
    requires bounded { at + length code.now < 2 ^ 32 }
    ensures least { IfOk result (λ n. 1 ≤ n) }
    ensures most { IfOk result (λ n. n ≤ length code.now) }
    ensures ok { IfOk result
        (λ n. word_views words.new ++ words_at (at + n) (drop n code.now)
        ≡ word_views words.old ++ words_at at code.now) }
    ensures err { OnErr result (words.new ≡ words.old) }
{
    if is_blank(code[0]) {
        return Ok(1);
    }
    let count = word_length(code);
    words.push(Word {
        text: &code[..count],
        start: at,
        end: at + count as u32,
    })?;
    Ok(count)
}

/// Adds the words of a line's code, which begins at this place in the text.
pub fn push_words<'a>(words: &mut Seq<Word<'a>>, code: &'a [u8], start: u32) -> Result<(), NoMemory>
    requires { start + length code.now < 2 ^ 32 }
    ensures { OnOk result (word_views words.new ≡ word_views words.old ++ words_at start code.now) }
{
    let mut rest = code;
    let mut at = start;
    while !rest.is_empty() {
        let count = push_first(words, rest, at)?;
        rest = &rest[count..];
        at += count as u32;
    }
    Ok(())
}
