//! The rows of a partition text: the words of its lines.

ghost use Rattle.std.specs.Prelude.{◌≡◌, ◌≤◌, ◌⊎◌, ◌++◌, length, List, [], Ok, Err, IfOk, IfErr, OnOk};
ghost use Rattle.std.specs.List.{list_all, list_any};
ghost use Rattle.std.specs.Str.{bytes_eq};
ghost use Rattle.astg_lex.specs.Lines.{lines_of};
ghost use Rattle.astg_lex.specs.declared.words.Word.{Word};
ghost use Rattle.stg_net.specs.Graph as graphs;
ghost use Rattle.stg_net.specs.Names.{IsWellNamed};
ghost use Rattle.stg_partition.specs.PartitionText as lists;
ghost use Rattle.stg_partition.specs.inner.WordTexts.{texts_of, all_texts};

use crate::GroupError;
use crate::join::is_driven;
use astg_lex::{LexError, Word};
use std::alloc::Global;
use stg_net::{Net, NoMemory, Seq, Signal};

const MOST_BYTES: usize = 1_048_576;

fn is_output_named(word: &[u8], signal: &Signal) -> bool
    ensures { result ≡ lists.is_output_named word.now signal.now }
{
    is_driven(signal.kind) && signal.name.as_slice() == word
}

fn names_output(signals: &[Signal], word: &[u8]) -> bool
    ensures { result ≡ lists.names_output signals.now word.now }
{
    signals.iter().any(|s| is_output_named(word, s))
}

fn all_name_outputs(signals: &[Signal], words: &[Word<'_>]) -> bool
    ensures { result
        ≡ list_all (λ (w : Word). lists.names_output signals.now w.text.now) words.now }
{
    words.iter().all(|w| names_output(signals, w.text))
}

fn are_outputs(signals: &[Signal], words: &[Word<'_>]) -> bool
    ensures { result ≡ list_all (lists.names_output signals.now) (texts_of words.now) }
{
    all_name_outputs(signals, words)
}

fn has_text(words: &[Word<'_>], word: &[u8]) -> bool
    ensures { result ≡ list_any (λ (w : Word). bytes_eq w.text.now word.now) words.now }
{
    words.iter().any(|w| w.text == word)
}

/// Whether the word is one of these.
pub(crate) fn is_among(words: &[Word<'_>], word: &[u8]) -> bool
    ensures { result ≡ graphs.is_among (texts_of words.now) word.now }
{
    has_text(words, word)
}

fn has_row_with(rows: &[Seq<Word<'_>>], word: &[u8]) -> bool
    ensures { result
        ≡ list_any (λ (row : List Word). graphs.is_among (texts_of row) word.now) rows.now }
{
    rows.iter().any(|row| is_among(row.as_slice(), word))
}

fn is_in_rows(rows: &[Seq<Word<'_>>], word: &[u8]) -> bool
    ensures { result ≡ graphs.is_among (lists.words_of_rows (all_texts rows.now)) word.now }
{
    has_row_with(rows, word)
}

fn stood_before(rows: &[Seq<Word<'_>>], words: &[Word<'_>], word: &[u8]) -> bool
    ensures { result
        ≡ graphs.is_among (lists.words_of_rows (all_texts rows.now) ++ texts_of words.now)
        word.now }
{
    is_in_rows(rows, word) || is_among(words, word)
}

fn stands_again(rows: &[Seq<Word<'_>>], words: &[Word<'_>]) -> bool
    ensures { result
        ≡ lists.stands_again (lists.words_of_rows (all_texts rows.now)) (texts_of words.now) }
{
    for (i, word) in words.iter().enumerate() {
        if stood_before(rows, &words[..i], word.text) {
            return true;
        }
    }
    false
}

/// Tests the words of a line whose bytes may all stand.
fn test_row(
    net: &Net,
    number: u32,
    rows: &[Seq<Word<'_>>],
    words: &[Word<'_>],
) -> Result<(), GroupError>
    ensures { result
        ≡ lists.row_tested net.now.signals number (all_texts rows.now) (texts_of words.now) }
{
    if !are_outputs(net.signals(), words) {
        return Err(GroupError::UnknownOutput { line: number });
    }
    if stands_again(rows, words) {
        return Err(GroupError::OutputTwice { line: number });
    }
    Ok(())
}

fn push_row<'a>(rows: &mut Seq<Seq<Word<'a>>>, words: Seq<Word<'a>>) -> Result<(), NoMemory>
    ensures { OnOk result
        (all_texts rows.new ≡ lists.with_group_row (all_texts rows.old) (texts_of words.entry)) }
{
    if !words.is_empty() {
        rows.push(words)?;
    }
    Ok(())
}

fn read_lines<'a>(
    alloc: Global,
    net: &Net,
    text: &'a [u8],
) -> Result<Seq<Seq<Word<'a>>>, GroupError>
    requires named { IsWellNamed net.now }
    requires short { length text.now ≤ 1048576 }
    ensures value { IfOk result
        (λ rows. lists.rows_after net.now.signals 1 [] (lines_of text.now) ≡ Ok (all_texts rows)) }
    ensures refused { IfErr result
        (λ e. (e ≡ GroupError.NoMemory)
        ⊎ (lists.rows_after net.now.signals 1 [] (lines_of text.now) ≡ Err e)) }
{
    let mut rows = Seq::new(alloc);
    let mut lines = astg_lex::lines(alloc, text);
    loop {
        match lines.next_line() {
            Ok(Some(line)) => {
                match test_row(net, line.number, rows.as_slice(), line.words.as_slice()) {
                    Ok(()) => {}
                    Err(error) => return Err(error),
                }
                push_row(&mut rows, line.words)?;
            }
            Ok(None) => return Ok(rows),
            Err(LexError::BadByte { line }) => return Err(GroupError::BadLine { line }),
            Err(LexError::NoMemory) => return Err(GroupError::NoMemory),
        }
    }
}

/// Reads the rows of a partition text.
pub(crate) fn read_rows<'a>(
    alloc: Global,
    net: &Net,
    text: &'a [u8],
) -> Result<Seq<Seq<Word<'a>>>, GroupError>
    requires named { IsWellNamed net.now }
    ensures value { IfOk result
        (λ rows. lists.rows_of net.now.signals text.now ≡ Ok (all_texts rows)) }
    ensures refused { IfErr result
        (λ e. (e ≡ GroupError.NoMemory) ⊎ (lists.rows_of net.now.signals text.now ≡ Err e)) }
{
    if text.len() > MOST_BYTES {
        return Err(GroupError::BadLine { line: 0 });
    }
    read_lines(alloc, net, text)
}
