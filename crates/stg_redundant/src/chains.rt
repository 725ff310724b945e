//! Places with one giver and one taker, and chains of them.

ghost use Rattle.std.specs.Prelude.{◌≡◌};
ghost use Rattle.stg_net.specs.Graph.{IsPlace};
ghost use Rattle.stg_redundant.specs.inner.Chains as chains;

use crate::walks::sole_of;
use stg_edit::Editor;

/// A place with one giver and one taker, with weights 1.
#[derive(Clone, Copy, Debug)]
pub struct Link {
    /// The place.
    pub place: u32,
    /// Its giver.
    pub giver: u32,
    /// Its taker.
    pub taker: u32,
    /// Its tokens.
    pub tokens: u32,
}

/// The link at a live place, where it is one.
pub fn link_at(editor: &Editor, p: u32) -> Option<Link>
    requires { IsPlace editor.now.now p }
    ensures { result ≡ chains.link_at editor.now.now p }
{
    match (sole_of(editor.givers(p)), sole_of(editor.takers(p))) {
        (Some(giver), Some(taker)) => Some(Link {
            place: p,
            giver,
            taker,
            tokens: editor.tokens(p),
        }),
        (Some(_), None) => None,
        (None, _) => None,
    }
}
