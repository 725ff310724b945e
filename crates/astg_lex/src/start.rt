//! Where the reading of a text begins.

ghost use Rattle.std.specs.Prelude.{◌≡◌, ◌≤◌, length};
ghost use Rattle.astg_lex.specs.Lexing.{start_of};

use crate::Lines;
use std::alloc::Global;

/// The lines of a text of at most 16,777,216 bytes. Memory is taken only by each line's words.
pub fn lines<'a>(alloc: Global, text: &'a [u8]) -> Lines<'a>
    requires { length text.now ≤ 16777216 }
    ensures { result ≡ start_of text.now }
{
    Lines::of(alloc, text)
}
