//! Words with what they ask for.

use super::*;
use std::test::Fail;

// A row: the words, and what they ask for.
type Row = (&'static [&'static str], Option<Command<'static>>);

const fn decompose(
    spec: &'static str,
    workers: u32,
    partition: Option<&'static str>,
    steps: bool,
) -> Option<Command<'static>> {
    Some(Command::Decompose {
        spec,
        workers,
        partition,
        steps,
    })
}

const fn measure(count: u32, workers: u32) -> Option<Command<'static>> {
    Some(Command::Measure { count, workers })
}

fn strings(alloc: Global, all: &[&str]) -> Result<Vec<String>, NoMemory> {
    let mut strings = Vec::new(alloc);
    for one in all {
        strings.push(String::from_str(alloc, one)?)?;
    }
    Ok(strings)
}

fn assert_row(
    rt: &(impl AllocGlobal + std::process::Abort),
    number: usize,
    row: &Row,
) -> Result<(), Fail> {
    let words = strings(rt.alloc(), row.0)?;
    let command = read_command(rt.alloc(), words.as_slice())?;
    assert_eq!(rt; command, row.1, "row {number}");
    Ok(())
}

#[test]
fn reads_words_of_the_form(rt: HostRuntime) -> Result<(), Fail> {
    let rows: &[Row] = &[
        (&["decompose", "a.g"], decompose("a.g", 1, None, false)),
        (
            &["decompose", "--workers=2", "a.g"],
            decompose("a.g", 2, None, false),
        ),
        (
            &[
                "decompose",
                "--steps",
                "--partition",
                "p",
                "a.g",
                "--workers",
                "64",
            ],
            decompose("a.g", 64, Some("p"), true),
        ),
        (
            &[
                "decompose",
                "a.g",
                "--workers",
                "10",
                "--partition=p=q",
                "--steps",
            ],
            decompose("a.g", 10, Some("p=q"), true),
        ),
        (&["decompose", "help"], decompose("help", 1, None, false)),
        (&["measure", "248"], measure(248, 1)),
        (&["measure", "--workers", "3", "1"], measure(1, 3)),
        (&[], None),
        (&["decompose"], None),
        (&["decompose", "a.g", "b.g"], None),
        (&["decompose", "a.g", "--workers", "0"], None),
        (&["decompose", "a.g", "--steps", "--steps"], None),
        (&["decompose", "--", "a.g"], None),
        (&["decompose", "a.g", "--help"], None),
        (&["measure", "249"], None),
        (&["measure", "7", "--steps"], None),
    ];
    for (number, row) in rows.iter().enumerate() {
        assert_row(&rt, number, row)?;
    }
    Ok(())
}

// A row: the words, and what they ask to be served.
type ServingRow = (&'static [&'static str], Option<Serving<'static>>);

const fn serving(
    addr: &'static str,
    count: u32,
    database: Option<&'static str>,
) -> Option<Serving<'static>> {
    Some(Serving {
        addr,
        count,
        database,
    })
}

#[test]
fn reads_words_of_a_run_that_serves(rt: HostRuntime) -> Result<(), Fail> {
    let rows: &[ServingRow] = &[
        (&["serve", "here", "3"], serving("here", 3, None)),
        (
            &["serve", "127.0.0.1:80", "1000000"],
            serving("127.0.0.1:80", 1_000_000, None),
        ),
        (
            &["serve", "here", "1", "--database", "a.db"],
            serving("here", 1, Some("a.db")),
        ),
        (
            &["serve", "here", "--database=a.db", "1"],
            serving("here", 1, Some("a.db")),
        ),
        (&["serve", "here", "0"], None),
        (&["serve", "here", "1000001"], None),
        (&["serve", "1", "here"], None),
        (&["serve", "here", "1", "2"], None),
        (&["decompose", "a.g"], None),
        (&[], None),
    ];
    for (number, row) in rows.iter().enumerate() {
        let words = strings(rt.alloc(), row.0)?;
        let serving = read_serving(rt.alloc(), words.as_slice())?;
        assert_eq!(rt; serving, row.1, "row {number}");
    }
    Ok(())
}
