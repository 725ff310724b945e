//! The nets of the tests, as the texts of their specifications number them, and the parts that are
//! derived from them.

use crate::Part;
use crate::worked::derive_row;
use std::alloc::Global;
use stg_net::{Edge, NoMemory};

/// The read cycle of a bus controller; dtack is the group, which knows d too.
pub fn bus(alloc: Global) -> Result<Part, NoMemory> {
    derive_row(
        alloc,
        &[b"dsr", b"ldtack", b"lds", b"d", b"dtack"],
        &[
            (0, Edge::Rise, 0),
            (2, Edge::Rise, 0),
            (1, Edge::Rise, 0),
            (3, Edge::Rise, 0),
            (4, Edge::Rise, 0),
            (0, Edge::Fall, 0),
            (3, Edge::Fall, 0),
            (4, Edge::Fall, 0),
            (2, Edge::Fall, 0),
            (1, Edge::Fall, 0),
        ],
        &[0, 0, 0, 0, 0, 0, 0, 0, 1, 0, 1],
        &[
            (0, 0, true, 1),
            (0, 1, false, 1),
            (1, 1, true, 1),
            (1, 2, false, 1),
            (2, 2, true, 1),
            (2, 3, false, 1),
            (3, 3, true, 1),
            (3, 4, false, 1),
            (4, 4, true, 1),
            (4, 5, false, 1),
            (5, 5, true, 1),
            (5, 6, false, 1),
            (6, 6, true, 1),
            (6, 7, false, 1),
            (7, 6, true, 1),
            (7, 8, false, 1),
            (8, 0, false, 1),
            (8, 7, true, 1),
            (9, 8, true, 1),
            (9, 9, false, 1),
            (10, 1, false, 1),
            (10, 9, true, 1),
        ],
        &[4],
        &[3, 4],
    )
}

/// Two handshakes that don't meet, each with a token.
pub fn handshakes(alloc: Global) -> Result<Part, NoMemory> {
    derive_row(
        alloc,
        &[b"r1", b"r2", b"a1", b"a2"],
        &[
            (0, Edge::Rise, 0),
            (2, Edge::Rise, 0),
            (0, Edge::Fall, 0),
            (2, Edge::Fall, 0),
            (1, Edge::Rise, 0),
            (3, Edge::Rise, 0),
            (1, Edge::Fall, 0),
            (3, Edge::Fall, 0),
        ],
        &[0, 0, 0, 1, 0, 0, 0, 1],
        &[
            (0, 0, true, 1),
            (0, 1, false, 1),
            (1, 1, true, 1),
            (1, 2, false, 1),
            (2, 2, true, 1),
            (2, 3, false, 1),
            (3, 0, false, 1),
            (3, 3, true, 1),
            (4, 4, true, 1),
            (4, 5, false, 1),
            (5, 5, true, 1),
            (5, 6, false, 1),
            (6, 6, true, 1),
            (6, 7, false, 1),
            (7, 4, false, 1),
            (7, 7, true, 1),
        ],
        &[2],
        &[0, 2],
    )
}

/// The same, where the second one has no token.
pub fn one_marked_handshake(alloc: Global) -> Result<Part, NoMemory> {
    derive_row(
        alloc,
        &[b"r1", b"r2", b"a1", b"a2"],
        &[
            (0, Edge::Rise, 0),
            (2, Edge::Rise, 0),
            (0, Edge::Fall, 0),
            (2, Edge::Fall, 0),
            (1, Edge::Rise, 0),
            (3, Edge::Rise, 0),
            (1, Edge::Fall, 0),
            (3, Edge::Fall, 0),
        ],
        &[0, 0, 0, 1, 0, 0, 0, 0],
        &[
            (0, 0, true, 1),
            (0, 1, false, 1),
            (1, 1, true, 1),
            (1, 2, false, 1),
            (2, 2, true, 1),
            (2, 3, false, 1),
            (3, 0, false, 1),
            (3, 3, true, 1),
            (4, 4, true, 1),
            (4, 5, false, 1),
            (5, 5, true, 1),
            (5, 6, false, 1),
            (6, 6, true, 1),
            (6, 7, false, 1),
            (7, 4, false, 1),
            (7, 7, true, 1),
        ],
        &[2],
        &[0, 2],
    )
}

/// a+ and h+ take from one place, a+/1 from the one after h+.
pub fn clash(alloc: Global) -> Result<Part, NoMemory> {
    derive_row(
        alloc,
        &[b"a", b"h", b"x"],
        &[
            (0, Edge::Rise, 0),
            (1, Edge::Rise, 0),
            (0, Edge::Rise, 1),
            (2, Edge::Rise, 0),
        ],
        &[1, 0, 0],
        &[
            (0, 0, false, 1),
            (0, 1, false, 1),
            (1, 1, true, 1),
            (1, 2, false, 1),
            (2, 0, true, 1),
            (2, 2, true, 1),
            (2, 3, false, 1),
        ],
        &[2],
        &[0, 2],
    )
}

/// The same with k+ between two places that have no other transition.
pub fn clash_beside_a_step_that_stays(alloc: Global) -> Result<Part, NoMemory> {
    derive_row(
        alloc,
        &[b"a", b"h", b"k", b"x"],
        &[
            (0, Edge::Rise, 0),
            (1, Edge::Rise, 0),
            (0, Edge::Rise, 1),
            (3, Edge::Rise, 0),
            (2, Edge::Rise, 0),
        ],
        &[1, 0, 0, 0, 0],
        &[
            (0, 0, false, 1),
            (0, 1, false, 1),
            (1, 1, true, 1),
            (1, 2, false, 1),
            (2, 0, true, 1),
            (2, 2, true, 1),
            (2, 3, false, 1),
            (3, 4, false, 1),
            (4, 4, true, 1),
        ],
        &[3],
        &[0, 3],
    )
}

/// h+ and k+ take from one place, h+/1 from the one after k+, and both give twice to one place.
pub fn clash_of_the_shown_signal(alloc: Global) -> Result<Part, NoMemory> {
    derive_row(
        alloc,
        &[b"a", b"h", b"k", b"x"],
        &[
            (1, Edge::Rise, 0),
            (2, Edge::Rise, 0),
            (1, Edge::Rise, 1),
            (0, Edge::Rise, 0),
            (3, Edge::Rise, 0),
        ],
        &[1, 0, 0, 0],
        &[
            (0, 0, false, 1),
            (0, 1, false, 1),
            (1, 1, true, 1),
            (1, 2, false, 1),
            (2, 0, true, 2),
            (2, 2, true, 2),
            (2, 3, false, 1),
            (3, 3, true, 1),
            (3, 4, false, 1),
        ],
        &[3],
        &[0, 3],
    )
}

/// b+ takes from the place before h+ too, and the one after it is empty.
pub fn secure_by_type_2(alloc: Global) -> Result<Part, NoMemory> {
    derive_row(
        alloc,
        &[b"b", b"c", b"d", b"h", b"x"],
        &[
            (0, Edge::Rise, 0),
            (3, Edge::Rise, 0),
            (2, Edge::Rise, 0),
            (1, Edge::Rise, 0),
            (4, Edge::Rise, 0),
        ],
        &[1, 0, 1, 0],
        &[
            (0, 0, false, 1),
            (0, 1, false, 1),
            (1, 1, true, 1),
            (1, 2, false, 1),
            (2, 3, false, 1),
            (3, 0, true, 1),
            (3, 2, true, 1),
            (3, 3, true, 1),
            (3, 4, false, 1),
        ],
        &[4],
        &[0, 1, 2, 4],
    )
}

/// The same, where c+ gives to the place after h+ too.
pub fn second_giver(alloc: Global) -> Result<Part, NoMemory> {
    derive_row(
        alloc,
        &[b"b", b"c", b"d", b"h", b"x"],
        &[
            (0, Edge::Rise, 0),
            (3, Edge::Rise, 0),
            (1, Edge::Rise, 0),
            (2, Edge::Rise, 0),
            (4, Edge::Rise, 0),
        ],
        &[1, 0, 1, 0],
        &[
            (0, 0, false, 1),
            (0, 1, false, 1),
            (1, 1, true, 1),
            (1, 2, true, 1),
            (1, 3, false, 1),
            (2, 2, false, 1),
            (3, 0, true, 1),
            (3, 2, true, 1),
            (3, 3, true, 1),
            (3, 4, false, 1),
        ],
        &[4],
        &[0, 1, 2, 4],
    )
}

/// As where type 2 applies, but the place after h+ has a token.
pub fn marked_after(alloc: Global) -> Result<Part, NoMemory> {
    derive_row(
        alloc,
        &[b"b", b"c", b"d", b"h", b"x"],
        &[
            (0, Edge::Rise, 0),
            (3, Edge::Rise, 0),
            (2, Edge::Rise, 0),
            (1, Edge::Rise, 0),
            (4, Edge::Rise, 0),
        ],
        &[1, 1, 1, 0],
        &[
            (0, 0, false, 1),
            (0, 1, false, 1),
            (1, 1, true, 1),
            (1, 2, false, 1),
            (2, 3, false, 1),
            (3, 0, true, 1),
            (3, 2, true, 1),
            (3, 3, true, 1),
            (3, 4, false, 1),
        ],
        &[4],
        &[0, 1, 2, 4],
    )
}

/// a+ gives 2 to the place before h+, and b+ takes 2 from the one after it.
pub fn weighted(alloc: Global) -> Result<Part, NoMemory> {
    derive_row(
        alloc,
        &[b"a", b"b", b"h", b"x"],
        &[
            (0, Edge::Rise, 0),
            (1, Edge::Rise, 0),
            (2, Edge::Rise, 0),
            (3, Edge::Rise, 0),
        ],
        &[1, 2, 0],
        &[
            (0, 0, true, 2),
            (0, 2, false, 1),
            (1, 0, true, 1),
            (1, 1, false, 2),
            (1, 2, true, 1),
            (2, 0, true, 1),
            (2, 1, true, 1),
            (2, 3, false, 1),
        ],
        &[3],
        &[0, 1, 3],
    )
}

/// The same, where h+ takes 2.
pub fn heavy(alloc: Global) -> Result<Part, NoMemory> {
    derive_row(
        alloc,
        &[b"a", b"b", b"h", b"x"],
        &[
            (0, Edge::Rise, 0),
            (1, Edge::Rise, 0),
            (2, Edge::Rise, 0),
            (3, Edge::Rise, 0),
        ],
        &[1, 2, 0],
        &[
            (0, 0, true, 2),
            (0, 2, false, 2),
            (1, 0, true, 1),
            (1, 1, false, 2),
            (1, 2, true, 1),
            (2, 0, true, 1),
            (2, 1, true, 1),
            (2, 3, false, 1),
        ],
        &[3],
        &[0, 1, 3],
    )
}

/// h+ takes from twelve places and gives to twelve.
pub fn wide(alloc: Global) -> Result<Part, NoMemory> {
    derive_row(
        alloc,
        &[
            b"a1", b"a2", b"a3", b"a4", b"a5", b"a6", b"a7", b"a8", b"a9", b"a10", b"a11", b"a12",
            b"b1", b"b2", b"b3", b"b4", b"b5", b"b6", b"b7", b"b8", b"b9", b"b10", b"b11", b"b12",
            b"h", b"x",
        ],
        &[
            (0, Edge::Rise, 0),
            (24, Edge::Rise, 0),
            (1, Edge::Rise, 0),
            (2, Edge::Rise, 0),
            (3, Edge::Rise, 0),
            (4, Edge::Rise, 0),
            (5, Edge::Rise, 0),
            (6, Edge::Rise, 0),
            (7, Edge::Rise, 0),
            (8, Edge::Rise, 0),
            (9, Edge::Rise, 0),
            (10, Edge::Rise, 0),
            (11, Edge::Rise, 0),
            (12, Edge::Rise, 0),
            (13, Edge::Rise, 0),
            (14, Edge::Rise, 0),
            (15, Edge::Rise, 0),
            (16, Edge::Rise, 0),
            (17, Edge::Rise, 0),
            (18, Edge::Rise, 0),
            (19, Edge::Rise, 0),
            (20, Edge::Rise, 0),
            (21, Edge::Rise, 0),
            (22, Edge::Rise, 0),
            (23, Edge::Rise, 0),
            (25, Edge::Rise, 0),
        ],
        &[
            0, 0, 0, 0, 0, 0, 0, 0, 0, 0, 0, 0, 0, 0, 0, 0, 0, 0, 0, 0, 0, 0, 0, 0, 0,
        ],
        &[
            (0, 0, true, 1),
            (0, 1, false, 1),
            (1, 0, true, 1),
            (1, 2, true, 1),
            (1, 3, true, 1),
            (1, 4, true, 1),
            (1, 5, true, 1),
            (1, 6, true, 1),
            (1, 7, true, 1),
            (1, 8, true, 1),
            (1, 9, true, 1),
            (1, 10, true, 1),
            (1, 11, true, 1),
            (1, 12, true, 1),
            (1, 13, true, 1),
            (1, 14, true, 1),
            (1, 15, true, 1),
            (1, 16, true, 1),
            (1, 17, true, 1),
            (1, 18, true, 1),
            (1, 19, true, 1),
            (1, 20, true, 1),
            (1, 21, true, 1),
            (1, 22, true, 1),
            (1, 23, true, 1),
            (1, 24, true, 1),
            (1, 25, false, 1),
            (2, 1, false, 1),
            (2, 2, true, 1),
            (3, 1, false, 1),
            (3, 3, true, 1),
            (4, 1, false, 1),
            (4, 4, true, 1),
            (5, 1, false, 1),
            (5, 5, true, 1),
            (6, 1, false, 1),
            (6, 6, true, 1),
            (7, 1, false, 1),
            (7, 7, true, 1),
            (8, 1, false, 1),
            (8, 8, true, 1),
            (9, 1, false, 1),
            (9, 9, true, 1),
            (10, 1, false, 1),
            (10, 10, true, 1),
            (11, 1, false, 1),
            (11, 11, true, 1),
            (12, 1, false, 1),
            (12, 12, true, 1),
            (13, 1, true, 1),
            (13, 13, false, 1),
            (14, 1, true, 1),
            (14, 14, false, 1),
            (15, 1, true, 1),
            (15, 15, false, 1),
            (16, 1, true, 1),
            (16, 16, false, 1),
            (17, 1, true, 1),
            (17, 17, false, 1),
            (18, 1, true, 1),
            (18, 18, false, 1),
            (19, 1, true, 1),
            (19, 19, false, 1),
            (20, 1, true, 1),
            (20, 20, false, 1),
            (21, 1, true, 1),
            (21, 21, false, 1),
            (22, 1, true, 1),
            (22, 22, false, 1),
            (23, 1, true, 1),
            (23, 23, false, 1),
            (24, 1, true, 1),
            (24, 24, false, 1),
        ],
        &[25],
        &[
            0, 1, 2, 3, 4, 5, 6, 7, 8, 9, 10, 11, 12, 13, 14, 15, 16, 17, 18, 19, 20, 21, 22, 23,
            25,
        ],
    )
}

/// A place from a+ to x-, and a chain of three places by x+ and a-.
pub fn chain(alloc: Global) -> Result<Part, NoMemory> {
    derive_row(
        alloc,
        &[b"a", b"x"],
        &[
            (0, Edge::Rise, 0),
            (1, Edge::Rise, 0),
            (1, Edge::Fall, 0),
            (0, Edge::Fall, 0),
        ],
        &[0, 0, 0, 0, 1],
        &[
            (0, 0, true, 1),
            (0, 1, false, 1),
            (1, 0, true, 1),
            (1, 2, false, 1),
            (2, 1, true, 1),
            (2, 3, false, 1),
            (3, 2, false, 1),
            (3, 3, true, 1),
            (4, 0, false, 1),
            (4, 2, true, 1),
        ],
        &[1],
        &[0, 1],
    )
}

/// Two places from a+ to x+, of which the first one holds a token.
pub fn first_marked(alloc: Global) -> Result<Part, NoMemory> {
    derive_row(
        alloc,
        &[b"a", b"x"],
        &[(0, Edge::Rise, 0), (1, Edge::Rise, 0)],
        &[1, 0],
        &[
            (0, 0, true, 1),
            (0, 1, false, 1),
            (1, 0, true, 1),
            (1, 1, false, 1),
        ],
        &[1],
        &[0, 1],
    )
}

/// Two empty places from a+ to x+.
pub fn both_empty(alloc: Global) -> Result<Part, NoMemory> {
    derive_row(
        alloc,
        &[b"a", b"x"],
        &[(0, Edge::Rise, 0), (1, Edge::Rise, 0)],
        &[0, 0],
        &[
            (0, 0, true, 1),
            (0, 1, false, 1),
            (1, 0, true, 1),
            (1, 1, false, 1),
        ],
        &[1],
        &[0, 1],
    )
}

/// h+ takes from a place to which it gives.
pub fn with_loop(alloc: Global) -> Result<Part, NoMemory> {
    derive_row(
        alloc,
        &[b"a", b"b", b"h", b"x"],
        &[
            (0, Edge::Rise, 0),
            (2, Edge::Rise, 0),
            (1, Edge::Rise, 0),
            (3, Edge::Rise, 0),
        ],
        &[0, 0, 0, 0],
        &[
            (0, 0, true, 1),
            (0, 1, false, 1),
            (1, 0, true, 1),
            (1, 2, true, 1),
            (1, 3, false, 1),
            (2, 1, false, 1),
            (2, 1, true, 1),
            (3, 1, true, 1),
            (3, 2, false, 1),
        ],
        &[3],
        &[0, 1, 3],
    )
}
