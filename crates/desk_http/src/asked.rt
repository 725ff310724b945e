//! What a request asks for.

ghost use Rattle.std.specs.Prelude.{◌≡◌, IsTrue};
ghost use Rattle.job_keeper.specs.Projects.{is_project_name};
ghost use Rattle.desk_http.specs.Asking.{of_project, put_of, wanted_at};
ghost use Rattle.desk_http.specs.inner.Heads.{IsNamedPath, IsNamedWant};

use crate::path::Path;
use crate::routes::Kind;
use stg_net::Text;

/// The most bytes that a body may have.
const MOST_BODY: u64 = 1_048_576;

/// What a request asks for, by its bytes alone.
#[derive(Debug, Drop)]
pub enum Asked {
    /// It is no request, or its body isn't as its fields say.
    BadRequest,
    /// Its target is no path.
    NoPath,
    /// Paths of that kind haven't its method.
    NoMethod(Kind),
    /// It gives no length of its body.
    NoLength,
    /// Its body is too long.
    TooLarge,
    /// The names of all projects.
    List,
    /// The project of that name.
    Get(Text),
    /// The part of that number of the project of that name.
    Part(Text, u64),
    /// A project of that name is to have that text.
    Put(Text, Text),
    /// The project of that name is to go.
    Delete(Text),
}

/// What a request wants, before its body is read.
#[derive(Debug, Drop)]
pub enum Wanted {
    /// Nothing more is read.
    Now(Asked),
    /// A body of so many bytes, as the text of the project of that name.
    Body(Text, u64),
}

fn put_of(name: Text, len: Option<Option<u64>>) -> Wanted
    requires { IsTrue (is_project_name name) }
    ensures wanted { result ≡ put_of name len }
    ensures named { IsNamedWant result }
{
    match len {
        None => Wanted::Now(Asked::BadRequest),
        Some(None) => Wanted::Now(Asked::NoLength),
        Some(Some(count)) => {
            if MOST_BODY < count {
                Wanted::Now(Asked::TooLarge)
            } else {
                Wanted::Body(name, count)
            }
        }
    }
}

fn of_project(method: &[u8], name: Text, len: Option<Option<u64>>) -> Wanted
    requires { IsTrue (is_project_name name) }
    ensures wanted { result ≡ of_project method.now name len }
    ensures named { IsNamedWant result }
{
    if method == b"GET".as_slice() {
        Wanted::Now(Asked::Get(name))
    } else if method == b"PUT".as_slice() {
        put_of(name, len)
    } else if method == b"DELETE".as_slice() {
        Wanted::Now(Asked::Delete(name))
    } else {
        Wanted::Now(Asked::NoMethod(Kind::Project))
    }
}

/// What is wanted of a path, by the method and the length of the body.
pub fn wanted_at(method: &[u8], path: Option<Path>, len: Option<Option<u64>>) -> Wanted
    requires { IsNamedPath path }
    ensures wanted { result ≡ wanted_at method.now path len }
    ensures named { IsNamedWant result }
{
    match path {
        None => Wanted::Now(Asked::NoPath),
        Some(Path::Projects) => {
            if method == b"GET".as_slice() {
                Wanted::Now(Asked::List)
            } else {
                Wanted::Now(Asked::NoMethod(Kind::Projects))
            }
        }
        Some(Path::Project(name)) => of_project(method, name, len),
        Some(Path::Part(name, number)) => {
            if method == b"GET".as_slice() {
                Wanted::Now(Asked::Part(name, number))
            } else {
                Wanted::Now(Asked::NoMethod(Kind::Part))
            }
        }
    }
}
