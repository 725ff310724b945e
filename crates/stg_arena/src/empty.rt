//! The lists of an arena without places.

ghost use Rattle.std.specs.Prelude.{◌≡◌, ◌≤◌, IfOk, map, vec_capacity};
ghost use Rattle.std.specs.List.{range_with_len};
ghost use Rattle.stg_arena.specs.EmptyArena.{trans_head};
ghost use Rattle.stg_arena.specs.inner.Links.{lone_link};

use crate::cell::{Cell, NONE};
use crate::links::Link;
use std::alloc::Global;
use stg_net::NoMemory;

/// The heads of the transitions' rings, with room for so many cells.
pub fn push_heads(alloc: Global, trans: u32, room: usize) -> Result<Vec<Cell>, NoMemory>
    requires { trans ≤ room }
    ensures items { IfOk result (λ v. v.items ≡ map trans_head (range_with_len 0 trans)) }
    ensures room { IfOk result (λ v. vec_capacity v ≡ room) }
{
    let mut heads = Vec::with_capacity(alloc, room)?;
    for trans in 0..trans {
        heads.push_reserved(Cell {
            place: NONE,
            trans,
            take: 0,
            give: 0,
        });
    }
    Ok(heads)
}

/// Cells that are alone in their rings, with room for more.
pub fn push_rings(alloc: Global, count: u32, room: usize) -> Result<Vec<Link>, NoMemory>
    requires { count ≤ room }
    ensures items { IfOk result (λ v. v.items ≡ map lone_link (range_with_len 0 count)) }
    ensures room { IfOk result (λ v. vec_capacity v ≡ room) }
{
    let mut rings = Vec::with_capacity(alloc, room)?;
    for cell in 0..count {
        rings.push_reserved(Link {
            prev: cell,
            next: cell,
        });
    }
    Ok(rings)
}
