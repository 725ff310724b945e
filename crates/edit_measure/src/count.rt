//! Counts of arcs.

ghost use Rattle.std.specs.Prelude.{◌≡◌, length};
ghost use Rattle.stg_net.specs.Graph.{IsTrans};
ghost use Rattle.stg_edit.specs.Walks.{taken_places, given_places};

use stg_edit::Editor;

/// The number of places from which t takes.
pub fn count_takes(editor: &Editor, t: u32) -> u32
    requires { IsTrans editor.now.now t }
    ensures { result ≡ length (taken_places editor.now.now t) }
{
    editor.takes(t).count() as u32
}

/// The number of places to which t gives.
pub fn count_gives(editor: &Editor, t: u32) -> u32
    requires { IsTrans editor.now.now t }
    ensures { result ≡ length (given_places editor.now.now t) }
{
    editor.gives(t).count() as u32
}

/// The number of arcs at a place, where it is live.
fn arcs_at(editor: &Editor, p: u32) -> u64 {
    if editor.is_place(p) {
        (editor.takers(p).count() as u64).saturating_add(editor.givers(p).count() as u64)
    } else {
        0
    }
}

/// The number of arcs at the places from this number on.
pub fn arcs_from(editor: &Editor, first: u32) -> u64 {
    let mut count = 0u64;
    for p in first..editor.next_place() {
        count = count.saturating_add(arcs_at(editor, p));
    }
    count
}

/// Whether t takes from p.
fn is_taken(editor: &Editor, t: u32, p: u32) -> bool
    requires { IsTrans editor.now.now t }
{
    editor.takes(t).any(|arc| arc.0 == p)
}

/// The number of arcs at the places from which t takes or to which it gives.
pub fn arcs_round(editor: &Editor, t: u32) -> u64
    requires { IsTrans editor.now.now t }
{
    let mut count = 0u64;
    for (p, _) in editor.takes(t) {
        count = count.saturating_add(arcs_at(editor, p));
    }
    for (p, _) in editor.gives(t) {
        if !is_taken(editor, t, p) {
            count = count.saturating_add(arcs_at(editor, p));
        }
    }
    count
}
