//! Redundant dummies.

ghost use Rattle.std.specs.Prelude.{◌≡◌, length};
ghost use Rattle.stg_net.specs.Graph.{IsTrans, IsDummy};
ghost use Rattle.stg_redundant.specs.inner.Tests as tests;
ghost use Rattle.stg_redundant.specs.Rules.{IsDummyFound};
ghost use Rattle.stg_redundant.specs.inner.Searches.{IsFirst, IsDummyRuleOf};

use crate::found::{DummyFound, DummyRule};
use crate::walks::{are_same, first_of};
use stg_edit::{Editor, Walk};

/// Whether there is a live dummy of that number.
pub fn is_dummy(editor: &Editor, t: u32) -> bool
    ensures { result ≡ tests.is_live_dummy editor.now.now t }
{
    editor.is_trans(t) && editor.is_dummy(t)
}

/// Whether a live transition gives back what it takes.
fn is_loop(editor: &Editor, t: u32) -> bool
    requires { IsTrans editor.now.now t }
    ensures { result ≡ tests.is_loop_dummy editor.now.now t }
{
    are_same(editor.takes(t), editor.gives(t))
}

/// Whether u is another dummy with the arcs of a live transition.
pub fn is_same(editor: &Editor, t: u32, u: u32) -> bool
    requires { IsTrans editor.now.now t }
    ensures { result ≡ tests.is_same_dummy editor.now.now t u }
{
    t != u
        && is_dummy(editor, u)
        && are_same(editor.takes(t), editor.takes(u))
        && are_same(editor.gives(t), editor.gives(u))
}

/// The first of these transitions that is another dummy with the arcs of t.
fn first_same(editor: &Editor, t: u32, trans: Walk<'_>) -> Option<u32>
    requires { IsTrans editor.now.now t }
    ensures { result ≡ tests.first_in (tests.is_same_dummy editor.now.now t) trans.entry }
{
    for (u, _) in trans {
        if is_same(editor, t, u) {
            return Some(u);
        }
    }
    None
}

/// The least of all other dummies with the arcs of t.
fn find_same_among_all(editor: &Editor, t: u32) -> Option<u32>
    requires { IsTrans editor.now.now t }
    ensures { IsFirst (tests.is_same_dummy editor.now.now t) (length editor.now.now.trans) result }
{
    for u in 0..editor.all_trans() {
        if is_same(editor, t, u) {
            return Some(u);
        }
    }
    None
}

/// The least other dummy with the arcs of a dummy. It is sought among the transitions at a place of
/// t, where t has one.
fn find_same(editor: &Editor, t: u32) -> Option<u32>
    requires { IsDummy editor.now.now t }
    ensures { IsFirst (tests.is_same_dummy editor.now.now t) (length editor.now.now.trans) result }
{
    match first_of(editor.takes(t)) {
        Some(p) => return first_same(editor, t, editor.takers(p)),
        None => {}
    }
    match first_of(editor.gives(t)) {
        Some(p) => return first_same(editor, t, editor.givers(p)),
        None => {}
    }
    find_same_among_all(editor, t)
}

/// The first rule by which a dummy is redundant.
pub fn rule_of(editor: &Editor, t: u32) -> Option<DummyRule>
    requires { IsDummy editor.now.now t }
    ensures { IsDummyRuleOf editor.now.now t result }
{
    if is_loop(editor, t) {
        return Some(DummyRule::Loop);
    }
    match find_same(editor, t) {
        Some(u) => Some(DummyRule::Same(u)),
        None => None,
    }
}

/// The redundant dummy of greatest number, with its first rule.
pub fn redundant_dummy(editor: &Editor) -> Option<DummyFound>
    ensures { IsDummyFound editor.now.now result }
{
    for t in (0..editor.all_trans()).rev() {
        if is_dummy(editor, t) {
            match rule_of(editor, t) {
                Some(rule) => return Some(DummyFound { trans: t, rule }),
                None => {}
            }
        }
    }
    None
}
