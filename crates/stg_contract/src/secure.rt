//! The two types of secure contractions.

ghost use Rattle.std.specs.Prelude.{◌≡◌};
ghost use Rattle.std.specs.List.{list_all, list_any};
ghost use Rattle.stg_net.specs.Graph.{IsTrans};
ghost use Rattle.stg_edit.specs.Drafts.{IsDraft};
ghost use Rattle.stg_contract.specs.inner.Weights.{ArePlaces};
ghost use Rattle.stg_contract.specs.inner.Tests as tests;

use crate::walks::is_only;
use stg_edit::{Editor, Walk};

/// Whether the transition alone takes from each of these places.
fn is_sole_taker(editor: &Editor, places: Walk<'_>, t: u32) -> bool
    requires { ArePlaces editor.now.now places }
    ensures { result ≡ list_all (tests.is_sole_taker editor.now.now t) places.entry }
{
    for (p, _) in places {
        if !is_only(editor.takers(p), t) {
            return false;
        }
    }
    true
}

/// Whether the transition alone gives to each of these places.
fn is_sole_giver(editor: &Editor, places: Walk<'_>, t: u32) -> bool
    requires { ArePlaces editor.now.now places }
    ensures { result ≡ list_all (tests.is_sole_giver editor.now.now t) places.entry }
{
    for (p, _) in places {
        if !is_only(editor.givers(p), t) {
            return false;
        }
    }
    true
}

/// Whether one of these places is empty.
fn has_empty(editor: &Editor, places: Walk<'_>) -> bool
    requires { ArePlaces editor.now.now places }
    ensures { result ≡ list_any (tests.is_empty editor.now.now) places.entry }
{
    for (p, _) in places {
        if editor.tokens(p) == 0 {
            return true;
        }
    }
    false
}

/// Whether no other transition takes from a place from which t takes.
pub fn is_type1(editor: &Editor, t: u32) -> bool
    requires { IsTrans editor.now.now t }
    ensures value { result ≡ tests.is_type1 editor.now.now t }
    ensures draft { IsDraft editor.now }
{
    is_sole_taker(editor, editor.takes(t), t)
}

/// Whether no other transition gives to a place to which t gives, and one of these is empty.
pub fn is_type2(editor: &Editor, t: u32) -> bool
    requires { IsTrans editor.now.now t }
    ensures { result ≡ tests.is_type2 editor.now.now t }
{
    is_sole_giver(editor, editor.gives(t), t) && has_empty(editor, editor.gives(t))
}
