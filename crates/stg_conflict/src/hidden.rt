//! The search for the least clash of one signal.

ghost use Rattle.std.specs.Prelude.{◌≡◌, ◌<◌, ◌↔◌, None, IfSome, length};
ghost use Rattle.stg_net.specs.Graph.{IsPlace, IsTrans};
ghost use Rattle.stg_laws.specs.Conflict.{HasNoAutoConflict, IsLeastClash};
ghost use Rattle.stg_conflict.specs.Hidden.{with_only};
ghost use Rattle.stg_conflict.specs.inner.HiddenSearch as search;

use crate::Clash;
use crate::clash::least_of;
use crate::labels::{are_alike, is_of_signal};
use stg_edit::Editor;

/// The clash of t with a later transition of its label, where both take from p.
fn later_clash(editor: &Editor, t: u32, p: u32, u: u32) -> Option<Clash>
    requires t { IsTrans editor.now.now t }
    requires u { IsTrans editor.now.now u }
    ensures { result ≡ search.later_clash editor.now.now t p u }
{
    if t < u && are_alike(editor, t, u) {
        Some(Clash {
            t1: t,
            t2: u,
            place: p,
        })
    } else {
        None
    }
}

/// The least of these and the clashes of t at the place p.
fn least_at_place(editor: &Editor, t: u32, p: u32, first: Option<Clash>) -> Option<Clash>
    requires t { IsTrans editor.now.now t }
    requires p { IsPlace editor.now.now p }
    ensures { result ≡ search.least_at_place editor.now.now t p first }
{
    let mut least = first;
    for (u, _) in editor.takers(p) {
        least = least_of(later_clash(editor, t, p, u), least);
    }
    least
}

/// The least of these and the clashes of t.
fn least_of_trans(editor: &Editor, t: u32, first: Option<Clash>) -> Option<Clash>
    requires { IsTrans editor.now.now t }
    ensures { result ≡ search.least_of_trans editor.now.now t first }
{
    let mut least = first;
    for (p, _) in editor.takes(t) {
        least = least_at_place(editor, t, p, least);
    }
    least
}

/// The least clash of the signal's transitions.
fn least_of_signal(editor: &Editor, signal: u32) -> Option<Clash>
    requires { signal < length editor.now.signals }
    ensures { result ≡ search.least_of_signal editor.now.signals signal editor.now.now }
{
    let mut least = None;
    for t in 0..editor.all_trans() {
        if is_of_signal(editor, signal, t) {
            least = least_of_trans(editor, t, least);
        }
    }
    least
}

/// Looks for two different live transitions of the signal that have one label and take from one
/// place, whether the signal is known or not. Gives the least such pair with the least such place,
/// and none where there is no pair. Takes time for all transitions, and, for each of the signal's
/// transitions, for the takers of the places from which it takes.
pub fn hidden_clash(editor: &Editor, signal: u32) -> Option<Clash>
    requires { signal < length editor.now.signals }
    ensures none { (result ≡ None)
        ↔ HasNoAutoConflict (with_only editor.now.signals signal editor.now.now) }
    ensures least { IfSome result
        (λ c. IsLeastClash (with_only editor.now.signals signal editor.now.now) c.t1 c.t2 c.place) }
{
    least_of_signal(editor, signal)
}
