//! Reads a log, line by line.

ghost use Rattle.std.specs.Prelude.{◌≡◌, ◌<◌, ◌^◌, ℕ, length, Ok, IfOk, IfErr, codes};
ghost use Rattle.std.specs.Str.{bytes_eq};
ghost use Rattle.astg_lex.specs.Lines.{line_ends};
ghost use Rattle.stg_steps.specs.declared.log.Log.{Log as LogLists};
ghost use Rattle.stg_steps.specs.Logs.{IsLogOf, IsBadLine, IsFaultOf, IsRead, IsLineTold};
ghost use Rattle.stg_steps.specs.inner.Reading as reading;
ghost use Rattle.stg_steps.specs.inner.Taking.{lent_words, TakesLine, IsErrorOf};

use crate::lines::{restore_in, step_in};
use crate::words::{TransWords, after, before, piece_length, split_words, trans_words};
use crate::{Log, StepError};
use std::alloc::Global;
use stg_derive::{Restore, Step};
use stg_net::{Net, NoMemory, Seq, Spec};

/// Takes a record, where there is one and no step was taken yet.
fn take_restore(log: &mut Log, found: Option<Restore>) -> Result<bool, NoMemory>
    ensures { IfOk result (λ taken. TakesLine taken (reading.with_restore log.old found) log.new) }
{
    match found {
        None => Ok(false),
        Some(restore) => {
            if !log.steps.is_empty() {
                return Ok(false);
            }
            log.restored.push(restore)?;
            Ok(true)
        }
    }
}

fn take_step(log: &mut Log, found: Option<Step>) -> Result<bool, NoMemory>
    ensures { IfOk result (λ taken. TakesLine taken (reading.with_step log.old found) log.new) }
{
    match found {
        None => Ok(false),
        Some(step) => {
            log.steps.push(step)?;
            Ok(true)
        }
    }
}

/// Takes a line of these words, and tells whether it is of the form.
fn take_row(net: &Net, words: &TransWords, log: &mut Log, row: &[&[u8]]) -> Result<bool, NoMemory>
    requires long { length words.now ≡ length net.now.trans }
    requires few { length words.now < 2 ^ 32 }
    ensures { IfOk result
        (λ taken. TakesLine taken (reading.with_row net.now words.now log.old (lent_words row.now))
        log.new) }
{
    match row {
        [] => Ok(false),
        [w, rest @ ..] => {
            if *w == b"restore".as_slice() {
                take_restore(log, restore_in(net, words, rest))
            } else {
                take_step(log, step_in(words, row))
            }
        }
    }
}

fn take_line(
    alloc: Global,
    net: &Net,
    words: &TransWords,
    log: &mut Log,
    line: &[u8],
) -> Result<bool, NoMemory>
    requires words { words.now ≡ reading.trans_words net.now }
    requires few { length net.now.trans < 2 ^ 32 }
    ensures { IfOk result
        (λ taken. TakesLine taken
        (reading.with_row net.now (reading.trans_words net.now) log.old
        (reading.pieces 32 line.now)) log.new) }
{
    let row = split_words(alloc, line)?;
    take_row(net, words, log, row.as_slice())
}

fn is_end(line: &[u8]) -> bool
    ensures { result ≡ bytes_eq line.now (codes "end") }
{
    line == b"end".as_slice()
}

/// Reads the lines of a text, the first of which that isn't of the form is told.
fn read_lines(alloc: Global, net: &Net, words: &TransWords, text: &[u8]) -> Result<Log, StepError>
    requires words { words.now ≡ reading.trans_words net.now }
    requires few { length net.now.trans < 2 ^ 32 }
    requires short { line_ends text.now < 4294967295 }
    ensures ok { IfOk result (λ log. reading.log_in net.now text.now ≡ Ok log) }
    ensures bad_line { IfErr result (λ e. IsErrorOf e (reading.log_in net.now text.now)) }
{
    let mut log = Log {
        restored: Seq::new(alloc),
        steps: Seq::new(alloc),
    };
    let mut rest = text;
    let mut number = 1;
    loop {
        let count = piece_length(rest, b'\n');
        if rest.len() <= count {
            return Err(StepError::BadLine { line: number });
        }
        let line = before(rest, count);
        let next = after(rest, count);
        if is_end(line) {
            if next.is_empty() {
                return Ok(log);
            }
            return Err(StepError::BadLine { line: number + 1 });
        }
        let taken = take_line(alloc, net, words, &mut log, line)?;
        if !taken {
            return Err(StepError::BadLine { line: number });
        }
        rest = next;
        number += 1;
    }
}

/// Reads a log as `write_steps` writes it. Where the text is none, the error has the number, from 1
/// on, of the first line that isn't of the form; where all lines are, but `end` is missing or isn't
/// ended by LF, it is that after the last LF. Whether the steps can be done isn't asked.
pub fn read_steps(alloc: Global, spec: &Spec, text: &[u8]) -> Result<Log, StepError>
    requires { line_ends text.now < 4294967295 }
    ensures ok { IfOk result (λ log. IsLogOf spec.now.net text.now log) }
    ensures bad_line { IfErr result (λ e. IsFaultOf spec.now.net text.now e) }

    // The log of a text is read, and its bad line told, where there is memory.
    ensures read { (log : LogLists) → IsLogOf spec.now.net text.now log → IsRead log result }
    ensures refused { (line : ℕ) → IsBadLine spec.now.net text.now line
        → IsLineTold line result }
{
    let net = spec.net();
    let words = trans_words(alloc, net)?;
    read_lines(alloc, net, &words, text)
}
