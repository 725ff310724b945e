//! The lines of a text, one after the other.

ghost use Rattle.std.specs.Prelude.{◌≡◌, ◌≢◌, ◌↔◌, ◌+◌, ◌≤◌, ◌<◌, length, [], true, Ok, None, IfOk, IfSome, OnErr, IfErr, IsErrOf, ◌⊎◌};
ghost use Rattle.astg_lex.specs.Lexing.{Advances, lines_left, this_line, start_of};
ghost use Rattle.astg_lex.specs.Lines.{has_bad_byte};
ghost use Rattle.astg_lex.specs.declared.line.LexError.TheVariants.{NoMemory, BadByte};

use crate::Word;
use crate::measures::{after_line, all_may_stand, code_of, line_length};
use crate::words::push_words;
use std::alloc::Global;
use std::marker::Model;
use stg_net::{NoMemory as Want, Seq};

/// A line's number, counted from 1, and its words, which stand before its comment.
#[derive(Debug, Drop)]
pub struct Line<'a> {
    pub number: u32,
    pub words: Seq<Word<'a>>,
}

/// Why a line isn't given.
#[derive(Clone, Copy, Debug, PartialEq, Eq)]
pub enum LexError {
    /// The next line, of this number, has a byte before its comment that may not stand.
    BadByte { line: u32 },
    NoMemory,
}

impl From<Want> for LexError {
    ghost from_gives = { λ _ e. e ≡ NoMemory };

    fn from(_: Want) -> Self {
        LexError::NoMemory
    }
}

/// The lines of a text that are still to come.
#[derive(Drop)]
pub struct Lines<'a> {
    alloc: Global,
    text: &'a [u8],
    at: usize,
    number: u32,
}

impl<'a> Model for Lines<'a> {
    ghost use Rattle.astg_lex.specs.Lexing.{Lexing, IsLexing};

    ghost Value = { Lexing };

    ghost view = { λ l. record { text = l.text.now; at = l.at; number = l.number } };

    ghost invariant = { λ l. IsLexing
        (record { text = l.text.now; at = l.at; number = l.number }) };
}

impl<'a> Lines<'a> {
    pub(crate) fn of(alloc: Global, text: &'a [u8]) -> Self
        requires { length text.now ≤ 16777216 }
        ensures { result ≡ start_of text.now }
    {
        Lines {
            alloc,
            text,
            at: 0,
            number: 0,
        }
    }

    /// The next line, also where it has no words. A line with a byte that may not stand is told
    /// again by each further call.
    pub fn next_line(&mut self) -> Result<Option<Line<'a>>, LexError>
        ensures none { (result ≡ Ok None) ↔ (lines_left self.old ≡ []) }
        ensures line { IfOk result
            (λ l. IfSome l (λ line. Advances self.old self.new line.number line.words)) }
        ensures end { IfOk result (λ l. l ≡ None → self.new ≡ self.old) }
        ensures bad_byte { IsErrOf result (BadByte (self.old.number + 1))
            ↔ ((lines_left self.old ≢ []) × (has_bad_byte (this_line self.old) ≡ true)) }
        ensures only { IfErr result (λ e. (e ≡ BadByte (self.old.number + 1)) ⊎ (e ≡ NoMemory)) }
        ensures err { OnErr result (self.new ≡ self.old) }
    {
        let rest = &self.text[self.at..];
        if rest.is_empty() {
            return Ok(None);
        }
        let count = line_length(rest);
        let line = &rest[..count];
        let code = code_of(line);
        if !all_may_stand(code) {
            return Err(LexError::BadByte {
                line: self.number + 1,
            });
        }
        let mut words = Seq::new(self.alloc);
        push_words(&mut words, code, self.at as u32)?;
        self.number += 1;
        self.at = after_line(self.text, self.at, count);
        Ok(Some(Line {
            number: self.number,
            words,
        }))
    }
}
