//! Reads a text line by line.

ghost use Rattle.std.specs.Prelude.{◌≡◌, ◌≤◌, ◌<◌, ◌^◌, length, false, IfErr, IfOk, OnOk};
ghost use Rattle.astg_lex.specs.Lines as all_lines;
ghost use Rattle.stg_net.specs.Names.{IsWellNamed};
ghost use Rattle.stg_net.specs.Net.{IsWithin};
ghost use Rattle.stg_net.specs.declared.limits.TheConstants.Limits.{PART, SPEC};
ghost use Rattle.astg_read.specs.ReadLimits.{AreLimits};
ghost use Rattle.astg_read.specs.Reading.{meaning_of, reading};
ghost use Rattle.astg_read.specs.Reading as readings;
ghost use Rattle.astg_read.specs.Standing.{IsUnreadBy, StandsFor, StandsForNet};
ghost use Rattle.astg_read.specs.inner.LineResult.{Gives, IsFaultless, said_of, nothing};

use crate::finish::finish;
use crate::line_error::LineError;
use crate::reader::Reader;
use crate::{ReadError, Rule};
use astg_lex::LexError;
use std::alloc::Global;
use stg_net::{Limits, Net, Spec};

fn line_ends(text: &[u8]) -> u32
    requires { length text.now ≤ 16777216 }
    ensures value { result ≡ all_lines.line_ends text.now }
    ensures most { result ≤ length text.now }
{
    text.iter().filter(|b| **b == b'\n').count() as u32
}

fn missing(reader: &Reader<'_>) -> Rule
    ensures { result ≡ readings.missing (said_of reader.now).has_graph }
{
    if reader.has_graph {
        Rule::NoEnd
    } else {
        Rule::NoGraph
    }
}

/// Takes the lines of a text up to `.end`.
pub fn read_lines<'a>(
    alloc: Global,
    reader: &mut Reader<'a>,
    limits: &Limits,
    text: &'a [u8],
) -> Result<(), ReadError>
    requires start { said_of reader.old ≡ nothing }
    requires short { length text.now ≤ 16777216 }
    requires within { length text.now ≤ limits.now.bytes }
    requires small { limits.now.signals < 2 ^ 32 }
    ensures gives { Gives (meaning_of (said_of reader.new)) result
        (reading false limits.now text.now) }
    ensures faultless { OnOk result (IsFaultless limits.now (said_of reader.new)) }
{
    let mut lines = astg_lex::lines(alloc, text);
    loop {
        match lines.next_line() {
            Ok(Some(line)) => {
                let ends = reader.ends_text(line.words.as_slice());
                match reader.take_line(limits, line.words.as_slice()) {
                    Ok(()) => {
                        if ends {
                            return Ok(());
                        }
                    }
                    Err(LineError::Broken(rule)) => {
                        return Err(ReadError::Refused {
                            rule,
                            line: line.number,
                        });
                    }
                    Err(LineError::NoMemory) => return Err(ReadError::NoMemory),
                }
            }
            Ok(None) => {
                return Err(ReadError::Refused {
                    rule: missing(reader),
                    line: line_ends(text) + 1,
                });
            }
            Err(LexError::BadByte { line }) => {
                return Err(ReadError::Refused {
                    rule: Rule::BadByte,
                    line,
                });
            }
            Err(LexError::NoMemory) => return Err(ReadError::NoMemory),
        }
    }
}

/// Reads a text within limits, each at most that of a component; a weight of 1 is within them. It
/// is refused exactly where it breaks a rule.
pub fn read_with(alloc: Global, text: &[u8], limits: &Limits) -> Result<Spec, ReadError>
    requires { AreLimits limits.now }
    ensures value { IfOk result (λ s. StandsFor limits.now text.now s) }
    ensures refused { IfErr result (λ e. IsUnreadBy limits.now text.now e) }
    ensures within { IfOk result (λ s. IsWithin limits.now s.net) }
{
    if text.len() > limits.bytes as usize {
        return Err(ReadError::Refused {
            rule: Rule::TooLong,
            line: 0,
        });
    }
    let mut reader = Reader::new(alloc);
    match read_lines(alloc, &mut reader, limits, text) {
        Ok(()) => {}
        Err(error) => return Err(error),
    }
    let spec = finish(alloc, limits, reader)?;
    Ok(spec)
}

/// Reads a specification text within `Limits::SPEC`. It is refused exactly where it breaks a rule.
pub fn read_spec(alloc: Global, text: &[u8]) -> Result<Spec, ReadError>
    ensures value { IfOk result (λ s. StandsFor SPEC text.now s) }
    ensures refused { IfErr result (λ e. IsUnreadBy SPEC text.now e) }
    ensures within { IfOk result (λ s. IsWithin SPEC s.net) }
{
    read_with(alloc, text, &Limits::SPEC)
}

/// Reads a component text within `Limits::PART`, and gives its net. It is refused exactly where it
/// breaks a rule.
pub fn read_part(alloc: Global, text: &[u8]) -> Result<Net, ReadError>
    ensures value { IfOk result (λ n. StandsForNet PART text.now n) }
    ensures refused { IfErr result (λ e. IsUnreadBy PART text.now e) }
    ensures within { IfOk result (λ n. IsWithin PART n) }
    ensures named { IfOk result (λ n. IsWellNamed n) }
{
    match read_with(alloc, text, &Limits::PART) {
        Ok(spec) => Ok(spec.into_net()),
        Err(error) => Err(error),
    }
}
