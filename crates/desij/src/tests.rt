//! Words, texts and faults over the forms in memory, with and without options.

mod derived;
mod loopback;
mod options;
mod restored;
mod rows;
mod served;
mod sitting;
mod texts;

use super::*;
use io_shelf::{MemSink, pipeline};
use loopback::KnockedDoors;
use rows::{NAMED, Ran, assert_given, assert_rows, run_over, strings};
use sitting::assert_sittings;
use std::alloc::Global;
use std::io::Read;
use std::test::Fail;
use std::thread::Threads;
use stg_net::{Seq, Text};

#[test]
fn writes_a_file_and_a_line_for_each_part(rt: HostRuntime) -> Result<(), Fail> {
    assert_rows(&rt, rt.alloc(), texts::PARTS)
}

#[test]
fn tells_the_usage_for_all_other_words(rt: HostRuntime) -> Result<(), Fail> {
    assert_rows(&rt, rt.alloc(), texts::OTHER_WORDS)
}

#[test]
fn ends_with_the_first_fault(rt: HostRuntime) -> Result<(), Fail> {
    assert_rows(&rt, rt.alloc(), texts::FAULTS)
}

#[test]
fn refuses_a_line_by_the_first_rule_that_it_breaks(rt: HostRuntime) -> Result<(), Fail> {
    assert_rows(&rt, rt.alloc(), texts::LINES)
}

#[test]
fn refuses_a_marking(rt: HostRuntime) -> Result<(), Fail> {
    assert_rows(&rt, rt.alloc(), texts::MARKINGS)
}

#[test]
fn refuses_a_whole_text(rt: HostRuntime) -> Result<(), Fail> {
    assert_rows(&rt, rt.alloc(), texts::WHOLE)
}

#[test]
fn accepts_what_the_profile_leaves_free(rt: HostRuntime) -> Result<(), Fail> {
    assert_rows(&rt, rt.alloc(), texts::FREE)
}

#[test]
fn makes_a_part_for_each_group(rt: HostRuntime) -> Result<(), Fail> {
    assert_rows(&rt, rt.alloc(), texts::GROUPS)
}

#[test]
fn deletes_what_is_redundant(rt: HostRuntime) -> Result<(), Fail> {
    assert_rows(&rt, rt.alloc(), derived::DERIVED)
}

#[test]
fn gives_a_signal_back_where_its_dummy_is_refused(rt: HostRuntime) -> Result<(), Fail> {
    assert_rows(&rt, rt.alloc(), restored::RESTORED)
}

// A text of that many bytes: these, and then `#`.
fn with_comment(alloc: Global, prefix: &[u8], len: usize) -> Result<Text, NoMemory> {
    let mut text = Seq::from_slice(alloc, prefix)?;
    for _byte in prefix.len()..len {
        text.push(b'#')?;
    }
    Ok(text)
}

#[test]
fn reads_up_to_the_limit_of_bytes(rt: HostRuntime) -> Result<(), Fail> {
    let text = b".inputs a\n.outputs x\n.graph\na+ x+\n.marking { }\n.end\n";
    let longest = with_comment(rt.alloc(), text, 1_048_576)?;
    let ran = run_over(&rt, rt.alloc(), NAMED, longest.as_slice(), (0, 0, 0), 1000)?;
    assert_eq!(rt; ran.status, Status::Done);
    let longer = with_comment(rt.alloc(), b"", 1_048_577)?;
    let ran = run_over(&rt, rt.alloc(), NAMED, longer.as_slice(), (0, 0, 0), 1000)?;
    assert_eq!(rt; ran.sink.bytes(), b"refused TooLong line 0\n".as_slice());
    Ok(())
}

#[test]
fn puts_logs_beside_the_parts(rt: HostRuntime) -> Result<(), Fail> {
    assert_given(&rt, rt.alloc(), options::LOGS)
}

#[test]
fn takes_the_groups_of_a_partition(rt: HostRuntime) -> Result<(), Fail> {
    assert_given(&rt, rt.alloc(), options::PARTITIONS)
}

#[test]
fn needs_the_text_of_a_named_partition(rt: HostRuntime) -> Result<(), Fail> {
    assert_given(&rt, rt.alloc(), options::LACKING)
}

#[test]
fn sums_up_the_parts_of_a_pipeline(rt: HostRuntime) -> Result<(), Fail> {
    assert_given(&rt, rt.alloc(), options::PIPELINES)
}

// The files and the text of a run over a pipeline of 40 outputs, by so many workers.
fn run_pipeline(rt: &(impl Threads + Sync), alloc: Global, workers: &str) -> Result<Ran, Fail> {
    let text = pipeline(alloc, 40)?;
    let words = ["decompose", "spec.g", "--workers", workers];
    run_over(rt, alloc, &words, text.as_slice(), (0, 0, 0), 10_000)
}

#[test]
fn has_the_same_files_for_each_number_of_workers(rt: HostRuntime) -> Result<(), Fail> {
    let one = run_pipeline(&rt, rt.alloc(), "1")?;
    assert_eq!(rt; one.status, Status::Done);
    assert_eq!(rt; one.shelf.files().len(), 40);
    let line = b"part 1 own 1 inputs 2 transitions 6 places 8 restored 0\n";
    assert!(rt; one.sink.bytes().starts_with(line));
    assert!(rt; one.sink.bytes().ends_with(b"done 40\n"));
    for workers in ["2", "64"] {
        let ran = run_pipeline(&rt, rt.alloc(), workers)?;
        assert_eq!(rt; ran.shelf.files(), one.shelf.files());
        assert_eq!(rt; ran.sink.bytes(), one.sink.bytes());
    }
    Ok(())
}

#[test]
fn serves_a_session(rt: HostRuntime) -> Result<(), Fail> {
    assert_sittings(&rt, rt.alloc(), served::SESSION)
}

#[test]
fn serves_the_first_links(rt: HostRuntime) -> Result<(), Fail> {
    assert_sittings(&rt, rt.alloc(), served::FIRST_LINKS)
}

#[test]
fn ends_with_a_fault_of_doors_or_vault(rt: HostRuntime) -> Result<(), Fail> {
    assert_sittings(&rt, rt.alloc(), served::UNDONE)
}

// The peer keeps its stream open, so that a body that waits for its end is never answered.
#[test]
fn serves_a_peer_over_loopback(rt: HostRuntime) -> Result<(), Fail> {
    let addr = "127.0.0.1:47313";
    let words = strings(rt.alloc(), &["serve", addr, "1"])?;
    let mut doors = KnockedDoors::new(&rt, addr);
    let mut vault = RealVault::new(&rt);
    let mut sink = MemSink::new(rt.alloc(), 100, Seq::new(rt.alloc()))?;
    let status = run_serve(
        &rt,
        rt.alloc(),
        words.as_slice(),
        &mut doors,
        &mut vault,
        &mut sink,
    );
    assert_eq!(rt; status, Status::Done);
    assert_eq!(rt; sink.bytes(), b"served 1\n".as_slice());
    let mut peer = doors.peer.ok_or("no peer")?;
    let mut reply = Vec::new(rt.alloc());
    peer.read_to_end(&mut reply)?;
    let wanted = b"HTTP/1.1 200 OK\r\nContent-Type: application/json\r\nContent-Length: 15\r\n\
      Connection: close\r\n\r\n{\"projects\":[]}";
    assert_eq!(rt; reply.as_slice(), wanted.as_slice());
    Ok(())
}
