//! The head of a request, read from a link.

ghost use Rattle.std.specs.Prelude.{◌≡◌, ◌≤◌, ◌<◌, ◌-◌, length, take, drop, IfOk};
ghost use Rattle.std.specs.Io.KnownBytes.{IsAtEnd};
ghost use Rattle.io_shelf.specs.Doors.{broken_after};
ghost use Rattle.io_shelf.specs.Outside.{HasCause};
ghost use Rattle.desk_http.specs.Requests.{most_fields, most_head};
ghost use Rattle.desk_http.specs.inner.Heads.{Parses, FindsHead};
ghost use Rattle.desk_http.specs.inner.Wire.{HasRead};

use httparse::Status;
use httparse::spans::{HeaderSpan, RequestSpans, parse_request};
use io_shelf::{Failed, Link};

/// What some bytes are.
#[derive(Clone, Copy, Debug)]
pub enum Parsed {
    /// They begin with a head.
    Whole(RequestSpans),
    /// They may, if others follow.
    Partly,
    /// They never do.
    Never,
}

/// How many bytes were read, and the head that they begin with.
#[derive(Clone, Copy, Debug)]
pub struct Front {
    pub len: usize,
    pub spans: RequestSpans,
}

fn parse(bytes: &[u8], headers: &mut [HeaderSpan]) -> Parsed
    ensures { Parses bytes.now headers.new result }
{
    match parse_request(bytes, headers) {
        Ok(Status::Complete(spans)) => Parsed::Whole(spans),
        Ok(Status::Partial) => Parsed::Partly,
        Err(_) => Parsed::Never,
    }
}

// One read behind the first `len` bytes.
fn read_more<L: Link>(link: &mut L, buf: &mut [u8], len: usize) -> Result<usize, Failed>
    requires { len < length buf.old }
    ensures kept { take len buf.new ≡ take len buf.old }
    ensures within { IfOk result (λ n. n ≤ length buf.old - len) }
    ensures read { IfOk result
        (λ n. HasRead (take n (drop len buf.new)) (L.seen link.old).left (L.seen link.new).left) }
    ensures end { IfOk result (λ n. n ≡ 0 → IsAtEnd (L.seen link.new).left) }
    ensures written { (L.seen link.new).written ≡ (L.seen link.old).written }
    ensures broken { (L.seen link.new).broken ≡ broken_after result (L.seen link.old).broken }
    ensures cause { HasCause (L.seen link.old).faults (L.seen link.new).faults result }
{
    link.read(&mut buf[len..])
}

/// Reads up to the end of a head. The buffer is as long as a head can be; bytes that follow the
/// head stand in it too.
pub fn read_head<L: Link>(
    link: &mut L,
    buf: &mut [u8],
    headers: &mut [HeaderSpan],
) -> Result<Option<Front>, Failed>
    requires buf { length buf.old ≡ most_head }
    requires headers { length headers.old ≡ most_fields }
    ensures found { FindsHead buf.new headers.new
        (L.seen link.old).left (L.seen link.new).left result }
    ensures written { (L.seen link.new).written ≡ (L.seen link.old).written }
    ensures broken { (L.seen link.new).broken ≡ broken_after result (L.seen link.old).broken }
    ensures cause { HasCause (L.seen link.old).faults (L.seen link.new).faults result }
{
    let mut len = 0;
    loop {
        match parse(&buf[..len], headers) {
            Parsed::Whole(spans) => return Ok(Some(Front { len, spans })),
            Parsed::Never => return Ok(None),
            Parsed::Partly => {}
        }
        if len == buf.len() {
            return Ok(None);
        }
        let count = read_more(link, buf, len)?;
        if count == 0 {
            return Ok(None);
        }
        len += count;
    }
}
