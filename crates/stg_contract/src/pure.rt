//! Transitions that are pure and ordinary: without loop, and with arcs of weight 1.

ghost use Rattle.std.specs.Prelude.{◌≡◌};
ghost use Rattle.stg_net.specs.Graph.{IsTrans};
ghost use Rattle.stg_edit.specs.Drafts.{IsDraft};
ghost use Rattle.stg_contract.specs.inner.Tests as tests;

use crate::walks::{are_ones, weight_of};
use stg_edit::Editor;

/// Whether a live transition takes from a place to which it gives.
pub fn has_loop(editor: &Editor, t: u32) -> bool
    requires { IsTrans editor.now.now t }
    ensures value { result ≡ tests.has_loop editor.now.now t }
    ensures draft { IsDraft editor.now }
{
    for (p, _) in editor.takes(t) {
        if weight_of(editor.gives(t), p) > 0 {
            return true;
        }
    }
    false
}

/// Whether each arc of a live transition has weight 1.
pub fn is_ordinary(editor: &Editor, t: u32) -> bool
    requires { IsTrans editor.now.now t }
    ensures { result ≡ tests.is_ordinary editor.now.now t }
{
    are_ones(editor.takes(t)) && are_ones(editor.gives(t))
}
