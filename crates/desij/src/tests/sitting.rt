//! Runs that serve over memory, each with how it has to end.

ghost use Rattle.std.specs.Prelude.{◌≡◌, false, IfOk};

use crate::run_serve::run_serve;
use crate::status::Status;
use crate::tests::rows::{nums, strings};
use io_shelf::{MemDoors, MemLink, MemSink};
use job_keeper::{MemVault, Project, Vault, are_projects};
use std::alloc::Global;
use std::process::Abort;
use std::test::Fail;
use std::thread::Threads;
use stg_net::{NoMemory, Seq};

/// The bytes that a link sends, and the number of its call that fails; 0 where none does.
pub type Came = (&'static [u8], u32);

/// A run of these words over links at `here`, and how it has to end.
pub struct Sitting {
    pub words: &'static [&'static str],
    /// The file under which the vault has the one project `old`; where there is none, it has none.
    pub file: Option<&'static str>,
    pub coming: &'static [Came],
    /// The numbers of the calls of doors, vault and sink that fail, counted from 1; 0 where none does.
    pub fails: (u32, u32, u32),
    pub status: Status,
    pub printed: &'static [u8],
    /// All that was written to the finished links.
    pub replies: &'static [&'static [u8]],
    /// How many links are still to come.
    pub left: usize,
}

fn links(alloc: Global, coming: &[Came]) -> Result<Vec<MemLink>, NoMemory> {
    let mut links = Vec::new(alloc);
    for (input, fails) in coming {
        let input = Seq::from_slice(alloc, input)?;
        links.push(MemLink::new(alloc, input, 100, 1000, nums(alloc, *fails)?)?)?;
    }
    Ok(links)
}

fn vault(rt: &impl Abort, alloc: Global, row: &Sitting) -> Result<MemVault, NoMemory>
    ensures { IfOk result (λ v. (⟦<MemVault as Vault>⟧.seen v).asked ≡ false) }
{
    let mut projects = Seq::new(alloc);
    let mut file = None;
    if let Some(name) = row.file {
        file = Some(Seq::from_slice(alloc, name.as_bytes())?);
        projects.push(Project {
            name: Seq::from_slice(alloc, b"old")?,
            text: Seq::new(alloc),
            parts: Seq::new(alloc),
        })?;
    }
    assert!(rt; are_projects(projects.as_slice()));
    Ok(MemVault::new(alloc, file, projects, nums(alloc, row.fails.1)?))
}

fn assert_replies(rt: &impl Abort, number: usize, row: &Sitting, doors: &MemDoors) {
    assert_eq!(rt; doors.coming().len(), row.left, "row {number}");
    assert_eq!(rt; doors.finished().len(), row.replies.len(), "row {number}");
    for (k, (link, reply)) in doors.finished().iter().zip(row.replies).enumerate() {
        assert_eq!(rt; link.written(), *reply, "row {number}, link {k}");
    }
}

fn assert_sitting(
    rt: &(impl Abort + Threads + Sync),
    alloc: Global,
    number: usize,
    row: &Sitting,
) -> Result<(), Fail> {
    let here = Seq::from_slice(alloc, b"here")?;
    let links = links(alloc, row.coming)?;
    let mut doors = MemDoors::new(alloc, here, links, nums(alloc, row.fails.0)?);
    let mut vault = vault(rt, alloc, row)?;
    let mut sink = MemSink::new(alloc, 1000, nums(alloc, row.fails.2)?)?;
    let words = strings(alloc, row.words)?;
    let status = run_serve(
        rt,
        alloc,
        words.as_slice(),
        &mut doors,
        &mut vault,
        &mut sink,
    );
    assert_eq!(rt; status, row.status, "row {number}");
    assert_eq!(rt; sink.bytes(), row.printed, "row {number}");
    assert_replies(rt, number, row, &doors);
    Ok(())
}

/// Each of these runs ends as it says.
pub fn assert_sittings(
    rt: &(impl Abort + Threads + Sync),
    alloc: Global,
    rows: &[Sitting],
) -> Result<(), Fail> {
    for (number, row) in rows.iter().enumerate() {
        assert_sitting(rt, alloc, number, row)?;
    }
    Ok(())
}
