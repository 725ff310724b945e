//! One run of each real form, links in memory, and a pipeline's text.

use super::*;
use std::fs;
use std::io::{Read, Write};
use std::net::TcpStream;
use std::test::Fail;
use stg_net::Seq;

#[test]
fn puts_a_file_into_the_folder(rt: HostRuntime) -> Result<(), Fail> {
    let mut shelf = FolderShelf::new(&rt);
    shelf.put("desij-shelf.tmp", b"put\n")?;
    let read = fs::read(&rt, "desij-shelf.tmp")?;
    fs::remove_file(&rt, "desij-shelf.tmp")?;
    assert_eq!(rt; read.as_slice(), b"put\n".as_slice());
    assert!(rt; shelf.put("no/such/folder", b"put\n").is_err());
    Ok(())
}

#[test]
fn reads_a_file_of_the_folder(rt: HostRuntime) -> Result<(), Fail> {
    fs::write(&rt, "desij-source.tmp", b"read\n")?;
    let mut source = FileSource::new(&rt);
    let mut buf = [0u8; 8];
    assert_eq!(rt; source.select("desij-source.tmp"), Ok(true));
    assert_eq!(rt; source.read(&mut buf), Ok(5));
    assert_eq!(rt; &buf[..5], b"read\n".as_slice());
    assert_eq!(rt; source.read(&mut buf), Ok(0));
    fs::remove_file(&rt, "desij-source.tmp")?;
    assert_eq!(rt; source.select("desij-source.tmp"), Err(Failed));

    // A read that fails isn't taken for the end: a folder can be selected and not be read.
    assert_eq!(rt; source.select("."), Ok(true));
    assert_eq!(rt; source.read(&mut buf), Err(Failed));
    Ok(())
}

#[test]
fn writes_to_standard_output(rt: HostRuntime) -> Result<(), Fail> {
    let mut sink = StdSink::new(&rt);
    assert_eq!(rt; sink.write(b"out\n"), Ok(4));
    Ok(())
}

#[test]
fn writes_a_pipeline(rt: HostRuntime) -> Result<(), Fail> {
    let wanted = b".model pipeline\n.inputs c0 c2\n.outputs c1\n.graph\nc0+ c1+\nc1+ c0-\n\
        c0- c1-\nc1- c0+\nc1+ c2+\nc2+ c1-\nc1- c2-\nc2- c1+\n\
        .marking { <c1-,c0+> <c2-,c1+> }\n.end\n";
    assert_eq!(rt; pipeline(rt.alloc(), 1)?.as_slice(), wanted.as_slice());
    Ok(())
}

#[test]
fn answers_a_peer_over_loopback(rt: HostRuntime) -> Result<(), Fail> {
    let addr = "127.0.0.1:47311";
    let mut doors = TcpDoors::new(&rt);
    doors.listen(addr)?;
    let mut peer = TcpStream::connect(&rt, addr)?;
    peer.write_all(b"ask")?;
    let mut link = doors.next()?;
    let mut buf = [0u8; 8];
    assert_eq!(rt; link.read(&mut buf), Ok(3));
    assert_eq!(rt; &buf[..3], b"ask".as_slice());
    assert_eq!(rt; link.write(b"reply"), Ok(5));
    doors.finish(link)?;
    assert_eq!(rt; peer.read(&mut buf)?, 5);
    assert_eq!(rt; &buf[..5], b"reply".as_slice());
    assert_eq!(rt; peer.read(&mut buf)?, 0);
    assert!(rt; TcpDoors::new(&rt).listen("no address").is_err());
    Ok(())
}

// A peer whose bytes aren't all read isn't reset: it reads the reply, and then the end.
#[test]
fn answers_a_peer_whose_bytes_are_left(rt: HostRuntime) -> Result<(), Fail> {
    let addr = "127.0.0.1:47312";
    let mut doors = TcpDoors::new(&rt);
    doors.listen(addr)?;
    let mut peer = TcpStream::connect(&rt, addr)?;
    let long = [b'x'; 100_000];
    peer.write_all(&long)?;
    let mut link = doors.next()?;
    let mut buf = [0u8; 8];
    assert_eq!(rt; link.read(&mut buf), Ok(8));
    assert_eq!(rt; link.write(b"reply"), Ok(5));
    doors.finish(link)?;
    assert_eq!(rt; peer.read(&mut buf)?, 5);
    assert_eq!(rt; &buf[..5], b"reply".as_slice());
    assert_eq!(rt; peer.read(&mut buf)?, 0);
    Ok(())
}

// The links of doors in memory come at their own address alone, and one without bytes stands for
// each that doesn't come.
#[test]
fn lets_links_come_in_memory(rt: HostRuntime) -> Result<(), Fail> {
    let alloc = rt.alloc();
    for (addr, read) in [("here", 3), ("there", 0)] {
        let mut links = Vec::new(alloc);
        let input = Seq::from_slice(alloc, b"ask")?;
        links.push(MemLink::new(alloc, input, 8, 2, Seq::new(alloc))?)?;
        let here = Seq::from_slice(alloc, b"here")?;
        let mut fails = Seq::new(alloc);
        fails.push(3)?;
        let mut doors = MemDoors::new(alloc, here, links, fails);
        doors.listen(addr)?;
        let mut link = doors.next()?;
        assert!(rt; doors.next().is_err());
        let mut buf = [0u8; 8];
        assert_eq!(rt; link.read(&mut buf), Ok(read));
        assert_eq!(rt; link.write(b"reply").is_ok(), read > 0);
        doors.finish(link)?;
        assert_eq!(rt; doors.finished().len(), 1);
    }
    Ok(())
}
