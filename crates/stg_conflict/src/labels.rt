//! The labels of transitions of a graph under work.

ghost use Rattle.std.specs.Prelude.{◌≡◌, ◌<◌, length};
ghost use Rattle.stg_net.specs.Graph.{IsTrans, full_name_at};
ghost use Rattle.stg_conflict.specs.inner.Labels as labels;

use crate::search::is_label;
use stg_edit::Editor;

/// Whether two live transitions have one label.
pub fn are_alike(editor: &Editor, t: u32, u: u32) -> bool
    requires t { IsTrans editor.now.now t }
    requires u { IsTrans editor.now.now u }
    ensures { result
        ≡ labels.are_alike (full_name_at editor.now.now t) (full_name_at editor.now.now u) }
{
    let _names = editor.signals();
    is_label(editor.name(t), editor.name(u))
}

/// Whether the transition is live and of the signal.
pub fn is_of_signal(editor: &Editor, signal: u32, t: u32) -> bool
    requires { signal < length editor.now.signals }
    ensures { result ≡ labels.is_of_signal editor.now.signals signal editor.now.now t }
{
    let _names = editor.signals();
    editor.is_trans(t) && editor.name(t).signal == signal
}
