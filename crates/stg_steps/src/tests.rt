//! The logs of worked parts, and texts that are no logs.

use crate::StepError;
use crate::rows::{CLASH, ROWS, Row};
use crate::worked::{read_short, spec_of, write_log};
use std::alloc::Global;
use std::process::Abort;
use std::test::Fail;

/// The log of the part of the plain group of that number is this text, and as many records and
/// steps are read from it.
fn assert_log(
    rt: &impl Abort,
    alloc: Global,
    row: &Row,
    group: usize,
    log: &[u8],
) -> Result<(), Fail> {
    let made = write_log(alloc, row.text, group)?;
    assert_eq!(rt; made.log.as_slice(), log, "group {group} of {}", row.name);
    assert!(rt; log.len() < 1000);
    let read = read_short(alloc, &made.spec, log)?;
    assert_eq!(rt; read.restored.len(), made.part.restored.len());
    assert_eq!(rt; read.steps.len(), made.part.steps.len());
    Ok(())
}

#[test]
fn writes_and_reads_the_logs_of_worked_parts(rt: HostRuntime) -> Result<(), Fail> {
    for row in ROWS {
        for (group, log) in row.logs.iter().enumerate() {
            assert_log(&rt, rt.alloc(), row, group, *log)?;
        }
    }
    Ok(())
}

/// Texts with a line that isn't of the form, and its number. The specification has the signals a, h
/// and x, and the transitions a+, h+, a+/1 and x+.
const BAD_LINES: &[(&[u8], u32)] = &[
    // The words of a line.
    (b"contract zz+ type1 places 1\nend\n", 1),
    (b"contract h+ type3 places 1\nend\n", 1),
    (b"contract h+ type1 new 1\nend\n", 1),
    (b"contract h+ type1 places\nend\n", 1),
    (b"contract h+ type1 places 1 1\nend\n", 1),
    (b"contract h type1 places 1\nend\n", 1),
    (b"drop h+\nend\n", 1),
    (b"drop arc 1 loop\nend\n", 1),
    (b"drop place h+ loop\nend\n", 1),
    (b"drop place 1\nend\n", 1),
    (b"drop place 1 same\nend\n", 1),
    (b"drop place 1 same h+\nend\n", 1),
    (b"drop place 1 shortcut 2\nend\n", 1),
    (b"drop dummy 1 loop\nend\n", 1),
    (b"drop dummy h+ shortcut\nend\n", 1),
    (b"drop dummy h+ same 1\nend\n", 1),
    (b"restore h h+\nend\n", 1),
    (b"restore h h+ clash a+\nend\n", 1),
    (b"restore h h+ places h+\nend\n", 1),
    (b"restore h h+ large 1\nend\n", 1),
    (b"undo h+\nend\n", 1),
    // Names of the specification, and a transition of the signal.
    (b"restore zz h+ loop\nend\n", 1),
    (b"restore h a+ loop\nend\n", 1),
    (b"restore h h+ clash a+ a+/2\nend\n", 1),
    (b"drop dummy a+/0 loop\nend\n", 1),
    (b"drop dummy a+/01 loop\nend\n", 1),
    // A verdict for which a dummy is contracted.
    (b"restore h h+ type1\nend\n", 1),
    (b"restore h h+ type2\nend\n", 1),
    // One space between words.
    (b"drop place 1  loop\nend\n", 1),
    (b"drop place 1\tloop\nend\n", 1),
    (b" drop place 1 loop\nend\n", 1),
    (b"drop place 1 loop \nend\n", 1),
    // Numbers.
    (b"drop place 1 loop\ndrop place 01 loop\nend\n", 2),
    (b"drop place 1000000000 loop\nend\n", 1),
    (b"drop place -1 loop\nend\n", 1),
    (b"drop place +1 loop\nend\n", 1),
    (b"drop place 00 loop\nend\n", 1),
    (b"drop place 0x1 loop\nend\n", 1),
    // Records before steps.
    (b"drop place 1 loop\nrestore h h+ loop\nend\n", 2),
    // Lines, each ended by LF.
    (b"\nend\n", 1),
    (b"drop place 1 loop\n\nend\n", 2),
    (b"drop place 1 loop\r\nend\n", 1),
    (b"end\r\n", 1),
    // The last line, and nothing after it.
    (b"", 1),
    (b"end", 1),
    (b"drop place 1 loop", 1),
    (b"drop place 1 loop\n", 2),
    (b"drop place 1 loop\nend", 2),
    (b"drop place 1 loop\nen", 2),
    (
        b"restore h h+ loop\ndrop place 1 loop\ndrop place 2 loop\n",
        4,
    ),
    (b"end \n", 1),
    (b"End\n", 1),
    (b"end\n\n", 2),
    (b"end\nx", 2),
    (b"end\nend\n", 2),
    (b"end\ndrop place 1 loop\nend\n", 2),
    (b"drop place 1 loop\nend\ndrop place 2 loop\n", 3),
    // The first of two bad lines.
    (b"drop place 1 loop\nundo\nredo\nend\n", 2),
];

#[test]
fn tells_the_first_line_that_is_not_of_the_form(rt: HostRuntime) -> Result<(), Fail> {
    let spec = spec_of(rt.alloc(), CLASH)?;
    for (text, line) in BAD_LINES {
        assert!(rt; text.len() < 1000);
        let error = read_short(rt.alloc(), &spec, *text).err();
        let bad = StepError::BadLine { line: *line };
        assert_eq!(rt; error, Some(bad), "line {line} of {:?}", *text);
    }
    Ok(())
}

/// Texts that are logs of that specification, with how many records and steps they tell. What they
/// tell can't be done in it.
const LOGS: &[(&[u8], usize, usize)] = &[
    (b"end\n", 0, 0),
    (b"restore h h+ clash a+ a+/1\nend\n", 1, 0),
    (b"drop place 0 loop\nend\n", 0, 1),
    (b"drop place 999999999 same 999999999\nend\n", 0, 1),
    (b"restore a a+/1 large\nrestore a a+ places 0\nend\n", 2, 0),
    (
        b"restore x x+ weight\ndrop dummy x+ same x+\ncontract x+ type2 places 0\nend\n",
        1,
        2,
    ),
];

#[test]
fn reads_logs_of_what_cannot_be_done(rt: HostRuntime) -> Result<(), Fail> {
    let spec = spec_of(rt.alloc(), CLASH)?;
    for (text, restored, steps) in LOGS {
        assert!(rt; text.len() < 1000);
        let log = read_short(rt.alloc(), &spec, *text)?;
        assert_eq!(rt; log.restored.len(), *restored, "{:?}", *text);
        assert_eq!(rt; log.steps.len(), *steps, "{:?}", *text);
    }
    Ok(())
}
