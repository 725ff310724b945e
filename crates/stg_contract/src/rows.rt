//! The nets of the tests. But for the last one, their transitions are h+, a+, a+/1, b+, c+, d+ and
//! x+, of which h+ alone is a dummy.

use crate::worked::{make_editor, make_row};
use std::alloc::Global;
use stg_edit::Editor;
use stg_net::{Edge, NoMemory};

/// a+ and h+ take from one place, a+/1 from the one after h+.
pub fn clash(alloc: Global) -> Result<Editor, NoMemory> {
    make_row(
        alloc,
        &[1, 0, 0],
        &[
            (0, 0, false, 1),
            (0, 1, false, 1),
            (1, 0, true, 1),
            (1, 2, false, 1),
            (2, 1, true, 1),
            (2, 2, true, 1),
            (2, 6, false, 1),
        ],
    )
}

/// b+ takes from the place before h+ too, and the one after it is empty.
pub fn type2(alloc: Global) -> Result<Editor, NoMemory> {
    make_row(
        alloc,
        &[1, 0, 1, 0],
        &[
            (0, 0, false, 1),
            (0, 3, false, 1),
            (1, 0, true, 1),
            (1, 5, false, 1),
            (2, 4, false, 1),
            (3, 3, true, 1),
            (3, 4, true, 1),
            (3, 5, true, 1),
            (3, 6, false, 1),
        ],
    )
}

/// The same, where c+ gives to the place after h+ too.
pub fn second_giver(alloc: Global) -> Result<Editor, NoMemory> {
    make_row(
        alloc,
        &[1, 0, 1, 0],
        &[
            (0, 0, false, 1),
            (0, 3, false, 1),
            (1, 0, true, 1),
            (1, 4, true, 1),
            (1, 5, false, 1),
            (2, 4, false, 1),
            (3, 3, true, 1),
            (3, 4, true, 1),
            (3, 5, true, 1),
            (3, 6, false, 1),
        ],
    )
}

/// The same, where the place after h+ has a token.
pub fn marked(alloc: Global) -> Result<Editor, NoMemory> {
    make_row(
        alloc,
        &[1, 1, 1, 0],
        &[
            (0, 0, false, 1),
            (0, 3, false, 1),
            (1, 0, true, 1),
            (1, 5, false, 1),
            (2, 4, false, 1),
            (3, 3, true, 1),
            (3, 4, true, 1),
            (3, 5, true, 1),
            (3, 6, false, 1),
        ],
    )
}

/// a+ gives 2 to the place before h+, and b+ takes 2 from the one after it.
pub fn weighted(alloc: Global) -> Result<Editor, NoMemory> {
    make_row(
        alloc,
        &[1, 2, 0],
        &[
            (0, 0, false, 1),
            (0, 1, true, 2),
            (1, 0, true, 1),
            (1, 1, true, 1),
            (1, 3, false, 2),
            (2, 1, true, 1),
            (2, 3, true, 1),
            (2, 6, false, 1),
        ],
    )
}

/// The same, where h+ takes 2.
pub fn heavy(alloc: Global) -> Result<Editor, NoMemory> {
    make_row(
        alloc,
        &[1, 2, 0],
        &[
            (0, 0, false, 2),
            (0, 1, true, 2),
            (1, 0, true, 1),
            (1, 1, true, 1),
            (1, 3, false, 2),
            (2, 1, true, 1),
            (2, 3, true, 1),
            (2, 6, false, 1),
        ],
    )
}

/// h+ takes from a place to which it gives.
pub fn with_loop(alloc: Global) -> Result<Editor, NoMemory> {
    make_row(
        alloc,
        &[0, 0, 0, 0],
        &[
            (0, 0, false, 1),
            (0, 0, true, 1),
            (1, 0, false, 1),
            (1, 1, true, 1),
            (2, 0, true, 1),
            (2, 3, false, 1),
            (3, 1, true, 1),
            (3, 3, true, 1),
            (3, 6, false, 1),
        ],
    )
}

/// h+ takes from twelve places and gives to twelve, and there is one more.
pub fn wide(alloc: Global) -> Result<Editor, NoMemory> {
    make_row(
        alloc,
        &[0; 25],
        &[
            (0, 0, false, 1),
            (1, 0, false, 1),
            (2, 0, false, 1),
            (3, 0, false, 1),
            (4, 0, false, 1),
            (5, 0, false, 1),
            (6, 0, false, 1),
            (7, 0, false, 1),
            (8, 0, false, 1),
            (9, 0, false, 1),
            (10, 0, false, 1),
            (11, 0, false, 1),
            (12, 0, true, 1),
            (13, 0, true, 1),
            (14, 0, true, 1),
            (15, 0, true, 1),
            (16, 0, true, 1),
            (17, 0, true, 1),
            (18, 0, true, 1),
            (19, 0, true, 1),
            (20, 0, true, 1),
            (21, 0, true, 1),
            (22, 0, true, 1),
            (23, 0, true, 1),
        ],
    )
}

/// 600,000 tokens before h+ and after it.
pub fn rich(alloc: Global) -> Result<Editor, NoMemory> {
    make_row(
        alloc,
        &[600000, 600000],
        &[(0, 0, false, 1), (1, 0, true, 1), (1, 3, false, 1)],
    )
}

/// 500,000 tokens before h+ and after it.
pub fn less_rich(alloc: Global) -> Result<Editor, NoMemory> {
    make_row(
        alloc,
        &[500000, 500000],
        &[(0, 0, false, 1), (1, 0, true, 1), (1, 3, false, 1)],
    )
}

/// a+ and a+/1 take from one place that h+ does not touch.
pub fn far_clash(alloc: Global) -> Result<Editor, NoMemory> {
    make_row(
        alloc,
        &[0, 0, 1],
        &[
            (0, 0, false, 1),
            (1, 0, true, 1),
            (1, 3, false, 1),
            (2, 1, false, 1),
            (2, 2, false, 1),
        ],
    )
}

/// The read cycle of a bus controller, in which d and dtack alone are known: dsr+, lds+, ldtack+,
/// d+, dtack+, dsr- and d- follow one another; after d- come dtack- and dsr+ again, and lds-,
/// ldtack- and lds+ again.
pub fn bus(alloc: Global) -> Result<Editor, NoMemory> {
    make_editor(
        alloc,
        &[b"dsr", b"ldtack", b"lds", b"d", b"dtack"],
        &[
            (0, Edge::Rise, 0),
            (2, Edge::Rise, 0),
            (1, Edge::Rise, 0),
            (3, Edge::Rise, 0),
            (4, Edge::Rise, 0),
            (0, Edge::Fall, 0),
            (3, Edge::Fall, 0),
            (4, Edge::Fall, 0),
            (2, Edge::Fall, 0),
            (1, Edge::Fall, 0),
        ],
        &[0, 0, 0, 0, 0, 0, 0, 0, 1, 0, 1],
        &[
            (0, 0, true, 1),
            (0, 1, false, 1),
            (1, 1, true, 1),
            (1, 2, false, 1),
            (2, 2, true, 1),
            (2, 3, false, 1),
            (3, 3, true, 1),
            (3, 4, false, 1),
            (4, 4, true, 1),
            (4, 5, false, 1),
            (5, 5, true, 1),
            (5, 6, false, 1),
            (6, 6, true, 1),
            (6, 7, false, 1),
            (7, 6, true, 1),
            (7, 8, false, 1),
            (8, 0, false, 1),
            (8, 7, true, 1),
            (9, 8, true, 1),
            (9, 9, false, 1),
            (10, 1, false, 1),
            (10, 9, true, 1),
        ],
        &[3, 4],
    )
}
