//! The path that a target is.

ghost use Rattle.std.specs.Prelude.{◌≡◌, IfOk, drop};
ghost use Rattle.std.specs.Str.{IsUtf8};
ghost use Rattle.desk_http.specs.Routes.{IsRoutes, from_slash, kind_of};
ghost use Rattle.desk_http.specs.Paths.{leads_zero, name_in, part_number_in, path_as, path_of, read_number, up_to_slash};
ghost use Rattle.desk_http.specs.inner.Heads.{IsNamedPath};

use crate::fields::read_length;
use crate::routes::{Kind, kind_at};
use job_keeper::is_project_name;
use matchit::Router;
use std::alloc::Global;
use stg_net::{NoMemory, Seq, Text};

/// A path, with the name and the number that stand in it.
#[derive(Debug, Drop)]
pub enum Path {
    /// All projects.
    Projects,
    /// The project of that name.
    Project(Text),
    /// The part of that number of the project of that name.
    Part(Text, u64),
}

// The kind of a target.
fn kind_of(router: &Router<Kind>, target: &[u8]) -> Option<Kind>
    requires routes { IsRoutes router.now }
    requires text { IsUtf8 target.now }
    ensures { result ≡ kind_of target.now }
{
    match str::from_utf8(target) {
        Ok(text) => kind_at(router, text),
        Err(_) => None,
    }
}

/// What follows the first bytes.
pub fn behind(text: &[u8], count: usize) -> &[u8]
    ensures { result.now ≡ drop count text.now }
{
    text.get(count..).unwrap_or_default()
}

fn from_slash(text: &[u8]) -> &[u8]
    ensures { result.now ≡ from_slash text.now }
{
    match text {
        [] => text,
        [c, rest @ ..] => { if *c == b'/' { text } else { from_slash(rest) } }
    }
}

fn up_to_slash(text: &[u8]) -> &[u8]
    ensures { result.now ≡ up_to_slash text.now }
{
    let rest = from_slash(text);
    &text[..text.len().saturating_sub(rest.len())]
}

// The name in a target.
fn name_in(target: &[u8]) -> &[u8]
    ensures { result.now ≡ name_in target.now }
{
    up_to_slash(behind(target, b"/projects/".len()))
}

// The number in a target.
fn part_number_in(target: &[u8]) -> &[u8]
    ensures { result.now ≡ part_number_in target.now }
{
    behind(
        from_slash(behind(target, b"/projects/".len())),
        b"/parts/".len(),
    )
}

fn leads_zero(text: &[u8]) -> bool
    ensures { result ≡ leads_zero text.now }
{
    match text {
        [] => false,
        [c, rest @ ..] => *c == b'0' && !rest.is_empty(),
    }
}

fn read_number(text: &[u8]) -> Option<u64>
    ensures { result ≡ read_number text.now }
{
    if leads_zero(text) {
        None
    } else {
        read_length(text)
    }
}

// The path of a target of that kind.
fn path_as(alloc: Global, kind: Option<Kind>, target: &[u8]) -> Result<Option<Path>, NoMemory>
    ensures path { IfOk result (λ p. p ≡ path_as kind target.now) }
    ensures named { IfOk result (λ p. IsNamedPath p) }
{
    let name = name_in(target);
    match kind {
        None => Ok(None),
        Some(Kind::Projects) => Ok(Some(Path::Projects)),
        Some(Kind::Project) => {
            if !is_project_name(name) {
                return Ok(None);
            }
            Ok(Some(Path::Project(Seq::from_slice(alloc, name)?)))
        }
        Some(Kind::Part) => {
            if !is_project_name(name) {
                return Ok(None);
            }
            match read_number(part_number_in(target)) {
                Some(number) => Ok(Some(Path::Part(Seq::from_slice(alloc, name)?, number))),
                None => Ok(None),
            }
        }
    }
}

/// The path that a target is, byte for byte.
pub fn path_of(
    alloc: Global,
    router: &Router<Kind>,
    target: &[u8],
) -> Result<Option<Path>, NoMemory>
    requires routes { IsRoutes router.now }
    requires text { IsUtf8 target.now }
    ensures path { IfOk result (λ p. p ≡ path_of target.now) }
    ensures named { IfOk result (λ p. IsNamedPath p) }
{
    path_as(alloc, kind_of(router, target), target)
}
