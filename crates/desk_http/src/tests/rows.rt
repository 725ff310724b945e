//! Requests, each with the reply that has to come.

ghost use Rattle.std.specs.Prelude.{◌≤◌};

use crate::desk::{Desk, serve_one};
use crate::served::Served;
use io_shelf::MemLink;
use job_keeper::MemKeeper;
use std::alloc::Global;
use std::process::Abort;
use std::test::Fail;
use std::thread::Threads;
use stg_net::{NoMemory, Seq};

/// The bytes of a request, and the status and all bytes of the reply to it.
pub type Row = (&'static [u8], u16, &'static [u8]);

/// The bytes of a request, how many of them one read gives at most, the number of the link's call
/// that fails, how the connection ends, and all bytes that are written.
pub type Turn = (&'static [u8], u32, u32, Served, &'static [u8]);

/// A desk over a keeper without projects, whose call of that number fails; with 0 none does.
pub fn desk(alloc: Global, fails: u32) -> Result<Desk<MemKeeper>, NoMemory> {
    let keeper = MemKeeper::new(alloc, Seq::from_slice(alloc, &[fails])?);
    Desk::new(alloc, keeper, 1)
}

/// Serves one request, of which one read gives at most `piece` bytes, over a link whose call of
/// that number fails; with 0 none does.
pub fn serve(
    rt: &(impl Threads + Sync),
    alloc: Global,
    desk: &mut Desk<MemKeeper>,
    request: &[u8],
    piece: u32,
    fails: u32,
) -> Result<(Served, MemLink), NoMemory>
    requires { 1 ≤ piece }
{
    let input = Seq::from_slice(alloc, request)?;
    let mut link = MemLink::new(
        alloc,
        input,
        piece,
        1_000,
        Seq::from_slice(alloc, &[fails])?,
    )?;
    let served = serve_one(rt, desk, &mut link);
    Ok((served, link))
}

/// These requests come one after the other over one keeper, whose call of that number fails, and
/// have these replies.
pub fn assert_rows(
    rt: &(impl Abort + Threads + Sync),
    alloc: Global,
    fails: u32,
    rows: &[Row],
) -> Result<(), Fail> {
    let mut desk = desk(alloc, fails)?;
    for (row, (request, status, reply)) in rows.iter().enumerate() {
        let (served, link) = serve(rt, alloc, &mut desk, request, 100, 0)?;
        assert_eq!(rt; served, Served::Replied(*status), "row {row}");
        assert_eq!(rt; link.written(), *reply, "row {row}");
    }
    Ok(())
}

/// These requests come over links that fail, one after the other over one keeper.
pub fn assert_turns(
    rt: &(impl Abort + Threads + Sync),
    alloc: Global,
    turns: &[Turn],
) -> Result<(), Fail> {
    let mut desk = desk(alloc, 0)?;
    for (row, (request, piece, fails, served, written)) in turns.iter().enumerate() {
        assert!(rt; 1 <= *piece, "row {row}");
        let (ended, link) = serve(rt, alloc, &mut desk, request, *piece, *fails)?;
        assert_eq!(rt; ended, *served, "row {row}");
        assert_eq!(rt; link.written(), *written, "row {row}");
    }
    Ok(())
}
