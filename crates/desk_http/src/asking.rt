//! What the bytes of a link ask for.

ghost use Rattle.std.specs.Prelude.{◌≡◌, ◌≤◌, ◌<◌, ◌++◌, List, ℕ, Some, length, take, map, IfOk, IsTrue};
ghost use Rattle.httparse.specs.Grammar.{RequestHead};
ghost use Rattle.httparse.specs.Spans.{IsRequestAt, name_and_value};
ghost use Rattle.job_keeper.specs.Projects.{is_project_name};
ghost use Rattle.desk_http.specs.Answering.{NamesProject};
ghost use Rattle.desk_http.specs.Asking.{Asks, with_rest, wanted_at};
ghost use Rattle.desk_http.specs.Fields.{body_length};
ghost use Rattle.desk_http.specs.Paths.{path_of};
ghost use Rattle.desk_http.specs.Requests.{most_fields, most_head};
ghost use Rattle.desk_http.specs.Routes.{IsRoutes};
ghost use Rattle.desk_http.specs.declared.asked.Wanted.TheVariants as wanted;
ghost use Rattle.desk_http.specs.inner.Heads.{IsRequestHead, IsNamedWant};
ghost use Rattle.desk_http.specs.inner.Wire.{OnlyReads};

use crate::asked::{Asked, Wanted, wanted_at};
use crate::body::{first_bytes, read_body};
use crate::fields::body_length;
use crate::head::read_head;
use crate::path::{behind, path_of};
use crate::routes::Kind;
use crate::served::ReadError;
use httparse::spans::{HeaderSpan, RequestSpans};
use io_shelf::Link;
use matchit::Router;
use std::alloc::Global;
use stg_net::{NoMemory, Text};

// What the request of a head wants.
fn want(
    alloc: Global,
    router: &Router<Kind>,
    bytes: &[u8],
    headers: &[HeaderSpan],
    spans: RequestSpans,
) -> Result<Wanted, NoMemory>
    requires routes { IsRoutes router.now }
    requires head { IsRequestHead bytes.now headers.now spans }
    ensures wanted { IfOk result (λ w. (h : RequestHead)
        → IsRequestAt bytes.now headers.now spans h
        → w ≡ wanted_at h.method (path_of h.target) (body_length (map name_and_value h.fields))) }
    ensures named { IfOk result (λ w. IsNamedWant w) }
{
    let len = body_length(bytes, &headers[..spans.headers]);
    let path = path_of(alloc, router, spans.path.of(bytes))?;
    Ok(wanted_at(spans.method.of(bytes), path, len))
}

// A PUT of a name, whose body begins with this text.
fn put_with<L: Link>(
    link: &mut L,
    buf: &mut [u8],
    name: Text,
    mut text: Text,
    count: usize,
) -> Result<Asked, ReadError>
    requires some { 0 < length buf.old }
    requires short { length text ≤ count }
    requires named { IsTrue (is_project_name name) }
    ensures asked { IfOk result (λ a. (front input : List ℕ)
        → text ≡ take count front
        → (L.seen link.old).left ≡ Some input
        → a ≡ with_rest (front ++ input) (wanted.Body name count)) }
    ensures named { IfOk result (λ a. NamesProject a) }
    ensures reads { OnlyReads (L.seen link.old) (L.seen link.new) result }
{
    if read_body(link, buf, &mut text, count)? {
        Ok(Asked::Put(name, text))
    } else {
        Ok(Asked::BadRequest)
    }
}

/// What the bytes of a link ask for. A body is read for a PUT alone.
pub fn ask<L: Link>(
    alloc: Global,
    router: &Router<Kind>,
    buf: &mut [u8],
    headers: &mut [HeaderSpan],
    link: &mut L,
) -> Result<Asked, ReadError>
    requires routes { IsRoutes router.now }
    requires buf { length buf.old ≡ most_head }
    requires headers { length headers.old ≡ most_fields }
    ensures asked { IfOk result (λ a. (input : List ℕ)
        → (L.seen link.old).left ≡ Some input → Asks input a) }
    ensures named { IfOk result (λ a. NamesProject a) }
    ensures reads { OnlyReads (L.seen link.old) (L.seen link.new) result }
{
    let Some(front) = read_head(link, buf, headers)? else {
        return Ok(Asked::BadRequest);
    };
    match want(alloc, router, &buf[..front.len], headers, front.spans)? {
        Wanted::Now(asked) => Ok(asked),
        Wanted::Body(name, count) => {
            let rest = behind(&buf[..front.len], front.spans.len);
            let text = first_bytes(alloc, rest, count as usize)?;
            put_with(link, buf, name, text, count as usize)
        }
    }
}
