//! Replies, written to a link.

ghost use Rattle.std.specs.Prelude.{◌≡◌, ◌≤◌, OnOk, OnErr};
ghost use Rattle.std.specs.Io.KnownBytes.{append_known};
ghost use Rattle.io_shelf.specs.Outside.{HasCause};
ghost use Rattle.desk_http.specs.inner.Wire.{Sends, WritesPrefix};

use crate::reply::Reply;
use crate::served::Served;
use io_shelf::{Failed, Link};

// Writes all of these bytes.
fn write_all<L: Link>(link: &mut L, bytes: &[u8]) -> Result<(), Failed>
    ensures ok { OnOk result
        ((L.seen link.new).written ≡ append_known (L.seen link.old).written bytes.now) }
    ensures err { OnErr result
        (WritesPrefix bytes.now (L.seen link.old).written (L.seen link.new).written) }
    ensures broken { (L.seen link.new).broken ≡ (L.seen link.old).broken }
    ensures cause { HasCause (L.seen link.old).faults (L.seen link.new).faults result }
{
    let mut at = 0;
    while at < bytes.len() {
        at += link.write(&bytes[at..])?;
    }
    Ok(())
}

/// Writes a reply.
pub fn send<L: Link>(link: &mut L, reply: &Reply) -> Served
    ensures sent { Sends reply.now result (L.seen link.old) (L.seen link.new) }
    ensures broken { (L.seen link.new).broken ≡ (L.seen link.old).broken }
    ensures later { (L.seen link.old).faults ≤ (L.seen link.new).faults }
{
    match write_all(link, reply.text.as_slice()) {
        Ok(()) => Served::Replied(reply.status),
        Err(Failed) => Served::LinkFault,
    }
}
