//! Requests over a keeper and links in memory.

mod faults;
mod rows;
mod session;
mod targets;

use super::*;
use rows::{assert_rows, assert_turns, desk, serve};
use std::alloc::Global;
use std::process::Abort;
use std::test::Fail;
use std::thread::Threads;
use stg_net::{NoMemory, Seq, Text};

#[test]
fn serves_a_session_over_one_keeper(rt: HostRuntime) -> Result<(), Fail> {
    assert_rows(&rt, rt.alloc(), 0, session::SESSION)
}

#[test]
fn answers_by_the_bytes_of_the_request_alone(rt: HostRuntime) -> Result<(), Fail> {
    assert_rows(&rt, rt.alloc(), 0, targets::REFUSED)
}

#[test]
fn refuses_each_request_that_is_cut_off(rt: HostRuntime) -> Result<(), Fail> {
    let mut desk = desk(rt.alloc(), 0)?;
    for len in 0..session::PUT.len() {
        let (served, _link) = serve(&rt, rt.alloc(), &mut desk, &session::PUT[..len], 100, 0)?;
        assert_eq!(rt; served, Served::Replied(400), "{len} bytes");
    }
    let (_served, link) = serve(&rt, rt.alloc(), &mut desk, session::LIST, 100, 0)?;
    assert_eq!(rt; link.written(), session::NONE);
    Ok(())
}

// A request whose head has so many bytes.
fn head_of(alloc: Global, len: usize) -> Result<Text, NoMemory> {
    let mut text = Seq::from_slice(alloc, b"GET /projects HTTP/1.1\r\nX: ")?;
    for _byte in text.len() + 4..len {
        text.push(b'x')?;
    }
    text.extend_from_slice(b"\r\n\r\n")?;
    Ok(text)
}

// A request whose head has so many fields.
fn fields_of(alloc: Global, count: usize) -> Result<Text, NoMemory> {
    let mut text = Seq::from_slice(alloc, b"GET /projects HTTP/1.1\r\n")?;
    for _field in 0..count {
        text.extend_from_slice(b"X: x\r\n")?;
    }
    text.extend_from_slice(b"\r\n")?;
    Ok(text)
}

// A request with this head has a reply of that status.
fn assert_head(
    rt: &(impl Abort + Threads + Sync),
    alloc: Global,
    head: &Text,
    status: u16,
) -> Result<(), Fail> {
    let mut desk = desk(alloc, 0)?;
    let (served, _link) = serve(rt, alloc, &mut desk, head.as_slice(), 1_000, 0)?;
    assert_eq!(rt; served, Served::Replied(status), "{} bytes", head.len());
    Ok(())
}

#[test]
fn takes_heads_up_to_the_limits(rt: HostRuntime) -> Result<(), Fail> {
    assert_head(&rt, rt.alloc(), &head_of(rt.alloc(), 8_192)?, 200)?;
    assert_head(&rt, rt.alloc(), &head_of(rt.alloc(), 8_193)?, 400)?;
    assert_head(&rt, rt.alloc(), &fields_of(rt.alloc(), 64)?, 200)?;
    assert_head(&rt, rt.alloc(), &fields_of(rt.alloc(), 65)?, 400)
}

#[test]
fn breaks_off_where_the_link_fails(rt: HostRuntime) -> Result<(), Fail> {
    assert_turns(&rt, rt.alloc(), faults::LINK_FAILS)
}

#[test]
fn tells_a_fault_of_the_keeper(rt: HostRuntime) -> Result<(), Fail> {
    assert_rows(&rt, rt.alloc(), 1, faults::LIST_FAILS)?;
    assert_rows(&rt, rt.alloc(), 1, faults::PUT_FAILS)?;
    assert_rows(&rt, rt.alloc(), 2, faults::PUT_FAILS)
}
