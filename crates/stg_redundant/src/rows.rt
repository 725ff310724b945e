//! The nets of the tests.

use crate::worked::make_editor;
use std::alloc::Global;
use stg_edit::Editor;
use stg_net::{Edge, NoMemory};

/// A place from a+ to x-, and a chain of three places by x+ and a-.
pub fn chain(alloc: Global) -> Result<Editor, NoMemory> {
    make_editor(
        alloc,
        &[b"a", b"x"],
        &[
            (0, Edge::Rise, 0),
            (1, Edge::Rise, 0),
            (1, Edge::Fall, 0),
            (0, Edge::Fall, 0),
        ],
        &[0, 0, 0, 0, 1],
        &[
            (0, 0, true, 1),
            (0, 1, false, 1),
            (1, 0, true, 1),
            (1, 2, false, 1),
            (2, 1, true, 1),
            (2, 3, false, 1),
            (3, 2, false, 1),
            (3, 3, true, 1),
            (4, 0, false, 1),
            (4, 2, true, 1),
        ],
        &[0, 1],
    )
}

/// Two places from a+ to x+, of which the first one holds a token.
pub fn first_marked(alloc: Global) -> Result<Editor, NoMemory> {
    make_editor(
        alloc,
        &[b"a", b"x"],
        &[(0, Edge::Rise, 0), (1, Edge::Rise, 0)],
        &[1, 0],
        &[
            (0, 0, true, 1),
            (0, 1, false, 1),
            (1, 0, true, 1),
            (1, 1, false, 1),
        ],
        &[0, 1],
    )
}

/// Two empty places from a+ to x+.
pub fn both_empty(alloc: Global) -> Result<Editor, NoMemory> {
    make_editor(
        alloc,
        &[b"a", b"x"],
        &[(0, Edge::Rise, 0), (1, Edge::Rise, 0)],
        &[0, 0],
        &[
            (0, 0, true, 1),
            (0, 1, false, 1),
            (1, 0, true, 1),
            (1, 1, false, 1),
        ],
        &[0, 1],
    )
}

/// a+ takes two tokens and gives them back, and the place holds two.
pub fn loop_place(alloc: Global) -> Result<Editor, NoMemory> {
    make_editor(
        alloc,
        &[b"a"],
        &[(0, Edge::Rise, 0)],
        &[0, 2],
        &[(0, 0, true, 1), (1, 0, false, 2), (1, 0, true, 2)],
        &[0],
    )
}

/// The C-element: a+ and b+, then c+, then a- and b-, then c-.
pub fn c_element(alloc: Global) -> Result<Editor, NoMemory> {
    make_editor(
        alloc,
        &[b"a", b"b", b"c"],
        &[
            (0, Edge::Rise, 0),
            (2, Edge::Rise, 0),
            (1, Edge::Rise, 0),
            (0, Edge::Fall, 0),
            (1, Edge::Fall, 0),
            (2, Edge::Fall, 0),
        ],
        &[0, 0, 0, 0, 0, 0, 1, 1],
        &[
            (0, 0, true, 1),
            (0, 1, false, 1),
            (1, 1, false, 1),
            (1, 2, true, 1),
            (2, 1, true, 1),
            (2, 3, false, 1),
            (3, 1, true, 1),
            (3, 4, false, 1),
            (4, 3, true, 1),
            (4, 5, false, 1),
            (5, 4, true, 1),
            (5, 5, false, 1),
            (6, 0, false, 1),
            (6, 5, true, 1),
            (7, 2, false, 1),
            (7, 5, true, 1),
        ],
        &[0, 1, 2],
    )
}

/// h+ and h- take from one place and give to another, where h isn't known.
pub fn same_dummies(alloc: Global) -> Result<Editor, NoMemory> {
    make_editor(
        alloc,
        &[b"a", b"h"],
        &[(1, Edge::Rise, 0), (0, Edge::Rise, 0), (1, Edge::Fall, 0)],
        &[1, 0],
        &[
            (0, 0, false, 1),
            (0, 2, false, 1),
            (1, 0, true, 1),
            (1, 1, false, 1),
            (1, 2, true, 1),
        ],
        &[0],
    )
}

/// h+ takes from a place and gives back to it, where h isn't known.
pub fn loop_dummy(alloc: Global) -> Result<Editor, NoMemory> {
    make_editor(
        alloc,
        &[b"a", b"h"],
        &[(1, Edge::Rise, 0), (0, Edge::Rise, 0)],
        &[1],
        &[(0, 0, false, 1), (0, 0, true, 1), (0, 1, false, 1)],
        &[0],
    )
}

/// The read cycle of a bus controller, in which d and dtack alone are known: dsr+, lds+, ldtack+,
/// d+, dtack+, dsr- and d- follow one another; after d- come dtack- and dsr+ again, and lds-,
/// ldtack- and lds+ again.
pub fn bus(alloc: Global) -> Result<Editor, NoMemory> {
    make_editor(
        alloc,
        &[b"dsr", b"ldtack", b"lds", b"d", b"dtack"],
        &[
            (0, Edge::Rise, 0),
            (2, Edge::Rise, 0),
            (1, Edge::Rise, 0),
            (3, Edge::Rise, 0),
            (4, Edge::Rise, 0),
            (0, Edge::Fall, 0),
            (3, Edge::Fall, 0),
            (4, Edge::Fall, 0),
            (2, Edge::Fall, 0),
            (1, Edge::Fall, 0),
        ],
        &[0, 0, 0, 0, 0, 0, 0, 0, 1, 0, 1],
        &[
            (0, 0, true, 1),
            (0, 1, false, 1),
            (1, 1, true, 1),
            (1, 2, false, 1),
            (2, 2, true, 1),
            (2, 3, false, 1),
            (3, 3, true, 1),
            (3, 4, false, 1),
            (4, 4, true, 1),
            (4, 5, false, 1),
            (5, 5, true, 1),
            (5, 6, false, 1),
            (6, 6, true, 1),
            (6, 7, false, 1),
            (7, 6, true, 1),
            (7, 8, false, 1),
            (8, 0, false, 1),
            (8, 7, true, 1),
            (9, 8, true, 1),
            (9, 9, false, 1),
            (10, 1, false, 1),
            (10, 9, true, 1),
        ],
        &[3, 4],
    )
}
