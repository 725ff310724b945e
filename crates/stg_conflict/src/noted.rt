//! Notes of the signals that clash at later places.

ghost use Rattle.std.specs.Prelude.{◌≡◌, ◌<◌, ℕ, None, length, slice_index_or};
ghost use Rattle.std.specs.List.{list_any};
ghost use Rattle.stg_net.specs.Graph.{IsPlace, IsTrans};
ghost use Rattle.stg_edit.specs.Walks.{taking_trans};
ghost use Rattle.stg_conflict.specs.Hidden.{with_only, IsNoted};
ghost use Rattle.stg_conflict.specs.inner.Labels.{WalksTrans};
ghost use Rattle.stg_conflict.specs.inner.Notes as notes;
ghost use Rattle.stg_conflict.specs.inner.Notes.{AreNotedFurther};

use crate::labels::are_alike;
use stg_edit::{Editor, Walk};

/// Whether the walk gives another transition with the label of u.
fn has_like(editor: &Editor, u: u32, walk: Walk<'_>) -> bool
    requires u { IsTrans editor.now.now u }
    requires walk { WalksTrans editor.now.now walk }
    ensures { result ≡ list_any (notes.is_like editor.now.now u) walk.entry }
{
    for (v, _) in walk {
        if u != v && are_alike(editor, u, v) {
            return true;
        }
    }
    false
}

/// Notes the step for the signal of u, where another taker of p has the label of u.
fn note_taker(editor: &Editor, p: u32, u: u32, step: u32, noted: &mut [Option<u32>])
    requires p { IsPlace editor.now.now p }
    requires u { IsTrans editor.now.now u }
    requires len { length noted.old ≡ length editor.now.signals }
    ensures noted { AreNotedFurther
        (λ s. notes.clashes_with editor.now.now editor.now.signals p s u) step noted.old noted.new }
    ensures len { length noted.new ≡ length noted.old }
{
    let _names = editor.signals();
    let signal = editor.name(u).signal as usize;
    if noted[signal].is_none() && has_like(editor, u, editor.takers(p)) {
        noted[signal] = Some(step);
    }
}

/// Notes the step for the signals that clash at the place.
fn note_place(editor: &Editor, p: u32, step: u32, noted: &mut [Option<u32>])
    requires p { IsPlace editor.now.now p }
    requires len { length noted.old ≡ length editor.now.signals }
    ensures noted { AreNotedFurther
        (notes.clashes_among editor.now.now editor.now.signals p (taking_trans editor.now.now p))
        step noted.old noted.new }
    ensures len { length noted.new ≡ length noted.old }
{
    for (u, _) in editor.takers(p) {
        note_taker(editor, p, u, step, noted);
    }
}

/// Notes the step for the signals that clash at the place, where it is live.
fn note_at(editor: &Editor, p: u32, step: u32, noted: &mut [Option<u32>])
    requires { length noted.old ≡ length editor.now.signals }
    ensures noted { AreNotedFurther
        (λ s. notes.clashes_at editor.now.now editor.now.signals s p) step noted.old noted.new }
    ensures len { length noted.new ≡ length noted.old }
{
    if editor.is_place(p) {
        note_place(editor, p, step, noted);
    }
}

/// Notes the step for the signals that clash at a place of this number or a greater one.
fn note_from(editor: &Editor, first: u32, step: u32, noted: &mut [Option<u32>])
    requires { length noted.old ≡ length editor.now.signals }
    ensures noted { AreNotedFurther
        (notes.clashes_from editor.now.now editor.now.signals first) step noted.old noted.new }
    ensures len { length noted.new ≡ length noted.old }
{
    for p in first..editor.next_place() {
        note_at(editor, p, step, noted);
    }
}

/// Notes the step for each signal that has nothing noted yet, and of which two different live
/// transitions of one label take from one place, where the place has this number or a greater one.
/// A signal counts whether it is known or not. Takes time for the pairs of takers of these places.
pub fn note_clashes(editor: &Editor, first: u32, step: u32, noted: &mut [Option<u32>])
    requires { length noted.old ≡ length editor.now.signals }
    ensures noted { (s : ℕ) → s < length noted.old
        → IsNoted (with_only editor.now.signals s editor.now.now) first step
        (slice_index_or noted.old s None) (slice_index_or noted.new s None) }
    ensures len { length noted.new ≡ length noted.old }
{
    note_from(editor, first, step, noted);
}
