//! What is left of a place once a transition is contracted.

ghost use Rattle.std.specs.Prelude.{◌≡◌};
ghost use Rattle.stg_net.specs.Graph.{IsPlace, IsTrans};
ghost use Rattle.stg_net.specs.Contraction as contraction;
ghost use Rattle.stg_contract.specs.inner.Tests as tests;

use crate::walks::{is_nothing, weight_of};
use stg_edit::Editor;

/// Whether a live transition takes from a live place or gives to it.
fn is_touched(editor: &Editor, t: u32, p: u32) -> bool
    requires t { IsTrans editor.now.now t }
    requires p { IsPlace editor.now.now p }
    ensures { result ≡ contraction.is_touched editor.now.now t p }
{
    weight_of(editor.takes(t), p) > 0 || weight_of(editor.gives(t), p) > 0
}

/// Whether a place is live, and the contraction of t doesn't touch it.
pub fn is_kept(editor: &Editor, t: u32, p: u32) -> bool
    requires { IsTrans editor.now.now t }
    ensures { result ≡ tests.is_kept editor.now.now t p }
{
    editor.is_place(p) && !is_touched(editor, t, p)
}

/// Whether a place is live, and its tokens and arcs are left in the graph in which t is contracted.
pub fn is_left(editor: &Editor, t: u32, p: u32) -> bool
    requires { IsTrans editor.now.now t }
    ensures { result ≡ tests.is_left editor.now.now t p }
{
    editor.is_place(p) && !vanishes(editor, t, p)
}

/// Whether a live place goes and stands in no pair.
fn vanishes(editor: &Editor, t: u32, p: u32) -> bool
    requires t { IsTrans editor.now.now t }
    requires p { IsPlace editor.now.now p }
    ensures { result ≡ tests.vanishes editor.now.now t p }
{
    is_touched(editor, t, p) && (is_nothing(editor.takes(t)) || is_nothing(editor.gives(t)))
}
