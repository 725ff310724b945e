//! The kinds of paths, told by a router.

ghost use Rattle.std.specs.Prelude.{◌≡◌, IfOk};
ghost use Rattle.desk_http.specs.Routes.{IsRoutes, kind_at};

use matchit::{InsertError, Router};
use std::alloc::Global;

/// What a path names.
#[derive(Clone, Copy, Debug, PartialEq, Eq)]
pub enum Kind {
    /// All projects.
    Projects,
    /// One project.
    Project,
    /// One part of a project.
    Part,
}

/// The router of the desk's paths.
pub fn routes(alloc: Global) -> Result<Router<Kind>, InsertError>
    ensures { IfOk result (λ r. IsRoutes r) }
{
    let mut router = Router::new(alloc);
    router.insert("/projects", Kind::Projects)?;
    router.insert("/projects/{name}", Kind::Project)?;
    router.insert("/projects/{name}/parts/{k}", Kind::Part)?;
    Ok(router)
}

/// The kind that the router finds.
pub fn kind_at(router: &Router<Kind>, target: &str) -> Option<Kind>
    ensures { result ≡ kind_at router.now target.now }
{
    match router.at(target) {
        Ok(found) => Some(*found.value),
        Err(_) => None,
    }
}
