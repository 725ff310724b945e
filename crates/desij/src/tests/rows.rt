//! Runs over one text in memory, each with how it has to end.

ghost use Rattle.std.specs.Prelude.{◌≢◌, AllPairs, IfOk};
ghost use Rattle.io_shelf.specs.Entries.{NamedBytes};

use crate::run::run;
use crate::status::Status;
use io_shelf::{MemShelf, MemSink, MemSource};
use std::alloc::Global;
use std::process::Abort;
use std::test::Fail;
use std::thread::Threads;
use stg_net::{NoMemory, Nums, Seq, Text};

/// The words that name the text.
pub const NAMED: &[&str] = &["decompose", "spec.g"];

/// The words that name a partition besides.
pub const PARTITIONED: &[&str] = &["decompose", "spec.g", "--partition", "groups"];

/// A run of these words over the one text `spec.g`, and how it has to end.
pub struct Row {
    pub words: &'static [&'static str],
    pub text: &'static [u8],
    /// The numbers of the calls of source, shelf and sink that fail, counted from 1; 0 where none does.
    pub fails: (u32, u32, u32),
    /// How many bytes can be printed.
    pub room: u32,
    pub status: Status,
    /// How many files come.
    pub files: usize,
    /// The bytes of the first files, as many as are looked at.
    pub parts: &'static [&'static [u8]],
    pub printed: &'static [u8],
}

#[derive(Drop)]
pub struct Ran {
    pub status: Status,
    pub shelf: MemShelf,
    pub sink: MemSink,
}

/// The number of the call that fails.
pub fn nums(alloc: Global, number: u32) -> Result<Nums, NoMemory> {
    Seq::from_slice(alloc, &[number])
}

/// The words as strings.
pub fn strings(alloc: Global, all: &[&str]) -> Result<Vec<String>, NoMemory> {
    let mut strings = Vec::new(alloc);
    for one in all {
        strings.push(String::from_str(alloc, one)?)?;
    }
    Ok(strings)
}

/// A run of these words over these texts, and how it has to end.
pub struct Given {
    pub words: &'static [&'static str],
    /// The text `spec.g` of the source.
    pub text: &'static [u8],
    /// Its text `groups`, if it has one.
    pub partition: Option<&'static [u8]>,
    /// The numbers of the calls of source, shelf and sink that fail, counted from 1; 0 where none does.
    pub fails: (u32, u32, u32),
    pub status: Status,
    /// The files of the shelf, in the order in which they came.
    pub files: &'static [(&'static str, &'static [u8])],
    pub printed: &'static [u8],
}

// A text of the name `spec.g`, and one of the name `groups`, if there is one.
fn name_texts(
    alloc: Global,
    text: &[u8],
    partition: Option<&[u8]>,
) -> Result<Seq<(Text, Text)>, NoMemory>
    ensures { IfOk result (λ ts. AllPairs (λ (a b : NamedBytes). a.0 ≢ b.0) ts) }
{
    let mut texts = Seq::new(alloc);
    texts.push((
        Seq::from_slice(alloc, b"spec.g")?,
        Seq::from_slice(alloc, text)?,
    ))?;
    if let Some(partition) = partition {
        texts.push((
            Seq::from_slice(alloc, b"groups")?,
            Seq::from_slice(alloc, partition)?,
        ))?;
    }
    Ok(texts)
}

/// Runs these words over these texts, where the calls of these numbers fail.
pub fn run_with(
    rt: &(impl Threads + Sync),
    alloc: Global,
    words: &[&str],
    texts: (&[u8], Option<&[u8]>),
    fails: (u32, u32, u32),
    room: u32,
) -> Result<Ran, Fail> {
    let texts = name_texts(alloc, texts.0, texts.1)?;
    let mut source = MemSource::new(texts, 100, nums(alloc, fails.0)?);
    let mut shelf = MemShelf::new(alloc, nums(alloc, fails.1)?);
    let mut sink = MemSink::new(alloc, room, nums(alloc, fails.2)?)?;
    let words = strings(alloc, words)?;
    let status = run(
        rt,
        alloc,
        words.as_slice(),
        &mut source,
        &mut shelf,
        &mut sink,
    );
    Ok(Ran {
        status,
        shelf,
        sink,
    })
}

/// Runs these words over the one text `spec.g`, where the calls of these numbers fail.
pub fn run_over(
    rt: &(impl Threads + Sync),
    alloc: Global,
    words: &[&str],
    text: &[u8],
    fails: (u32, u32, u32),
    room: u32,
) -> Result<Ran, Fail> {
    run_with(rt, alloc, words, (text, None), fails, room)
}

// The files of a run's shelf are these.
fn assert_files(rt: &impl Abort, row: usize, ran: &Ran, wanted: &[(&str, &[u8])]) {
    assert_eq!(rt; ran.shelf.files().len(), wanted.len(), "row {row}");
    for (file, wanted) in ran.shelf.files().iter().zip(wanted) {
        assert_eq!(rt; file.0.as_slice(), wanted.0.as_bytes(), "row {row}");
        assert_eq!(rt; file.1.as_slice(), wanted.1, "row {row}");
    }
}

/// Each of these runs ends as it says.
pub fn assert_given(
    rt: &(impl Abort + Threads + Sync),
    alloc: Global,
    rows: &[Given],
) -> Result<(), Fail> {
    for (row, wanted) in rows.iter().enumerate() {
        let texts = (wanted.text, wanted.partition);
        let ran = run_with(rt, alloc, wanted.words, texts, wanted.fails, 1000)?;
        assert_eq!(rt; ran.status, wanted.status, "row {row}");
        assert_eq!(rt; ran.sink.bytes(), wanted.printed, "row {row}");
        assert_files(rt, row, &ran, wanted.files);
    }
    Ok(())
}

// The first files that a run put have these bytes, and the first of them is `part1.g`.
fn assert_parts(rt: &impl Abort, row: usize, ran: &Ran, parts: &[&[u8]]) {
    for (file, bytes) in ran.shelf.files().iter().zip(parts) {
        assert_eq!(rt; file.1.as_slice(), *bytes, "row {row}");
    }
    if let Some(file) = ran.shelf.files().first() {
        assert_eq!(rt; file.0.as_slice(), b"part1.g".as_slice(), "row {row}");
    }
}

// How a run of that row ended, how many files it put, and what it printed.
fn assert_row(rt: &impl Abort, row: usize, ran: &Ran, wanted: &Row) {
    assert_eq!(rt; ran.status, wanted.status, "row {row}");
    assert_eq!(rt; ran.shelf.files().len(), wanted.files, "row {row}");
    assert_eq!(rt; ran.sink.bytes(), wanted.printed, "row {row}");
    assert!(rt; wanted.parts.len() <= wanted.files, "row {row}");
    assert_parts(rt, row, ran, wanted.parts);
}

/// Each row's run ends as it says.
pub fn assert_rows(
    rt: &(impl Abort + Threads + Sync),
    alloc: Global,
    rows: &[Row],
) -> Result<(), Fail> {
    for (row, wanted) in rows.iter().enumerate() {
        let ran = run_over(
            rt,
            alloc,
            wanted.words,
            wanted.text,
            wanted.fails,
            wanted.room,
        )?;
        assert_row(rt, row, &ran, wanted);
    }
    Ok(())
}
