//! The body of a request, read from a link.

ghost use Rattle.std.specs.Prelude.{◌≡◌, ◌≤◌, ◌<◌, length, take, IfOk};
ghost use Rattle.desk_http.specs.inner.Wire.{ReadsOn, IsBody, OnlyReads};

use crate::served::ReadError;
use io_shelf::Link;
use std::alloc::Global;
use stg_net::{NoMemory, Seq, Text};

/// The first bytes, at most so many.
pub fn first_bytes(alloc: Global, bytes: &[u8], count: usize) -> Result<Text, NoMemory>
    ensures { IfOk result (λ t. t ≡ take count bytes.now) }
{
    let len = bytes.len().min(count);
    Seq::from_slice(alloc, &bytes[..len])
}

// One read, appended to a text.
fn read_on<L: Link>(
    link: &mut L,
    buf: &mut [u8],
    text: &mut Text,
    most: usize,
) -> Result<usize, ReadError>
    requires some { 0 < most }
    requires room { most ≤ length buf.old }
    ensures on { IfOk result (λ n.
        ReadsOn n most text.old text.new (L.seen link.old).left (L.seen link.new).left) }
    ensures reads { OnlyReads (L.seen link.old) (L.seen link.new) result }
{
    let got = link.read(&mut buf[..most])?;
    text.extend_from_slice(&buf[..got])?;
    Ok(got)
}

/// Reads on until a text has so many bytes, and tells whether it has them. Nothing is read past
/// them.
pub fn read_body<L: Link>(
    link: &mut L,
    buf: &mut [u8],
    text: &mut Text,
    count: usize,
) -> Result<bool, ReadError>
    requires some { 0 < length buf.old }
    requires short { length text.old ≤ count }
    ensures body { IfOk result (λ whole.
        IsBody whole count text.old text.new (L.seen link.old).left) }
    ensures reads { OnlyReads (L.seen link.old) (L.seen link.new) result }
{
    while text.len() < count {
        let most = buf.len().min(count - text.len());
        if read_on(link, buf, text, most)? == 0 {
            return Ok(false);
        }
    }
    Ok(true)
}
