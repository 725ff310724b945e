//! Two known transitions of one label.

ghost use Rattle.std.specs.Prelude.{◌≡◌};
ghost use Rattle.stg_net.specs.Graph.{IsTrans};
ghost use Rattle.stg_contract.specs.inner.Searches as searches;

use stg_edit::Editor;

/// Whether the signal of a live transition is known.
fn is_known(editor: &Editor, t: u32) -> bool
    requires { IsTrans editor.now.now t }
    ensures { result ≡ searches.is_known editor.now.now t }
{
    !editor.is_dummy(t)
}

/// Whether two live transitions have one label.
fn share_label(editor: &Editor, u: u32, v: u32) -> bool
    requires u { IsTrans editor.now.now u }
    requires v { IsTrans editor.now.now v }
    ensures { result ≡ searches.share_label editor.now.now u v }
{
    let _names = editor.signals();
    let (one, other) = (editor.name(u), editor.name(v));
    one.signal == other.signal && one.edge == other.edge
}

/// Whether two live transitions are known, differ and have one label.
fn are_rivals(editor: &Editor, u: u32, v: u32) -> bool
    requires u { IsTrans editor.now.now u }
    requires v { IsTrans editor.now.now v }
    ensures { result ≡ searches.are_rivals editor.now.now u v }
{
    u != v && is_known(editor, u) && is_known(editor, v) && share_label(editor, u, v)
}

/// Two rivals, the lesser first.
pub fn ordered_rivals(editor: &Editor, u: u32, v: u32) -> Option<(u32, u32)>
    requires u { IsTrans editor.now.now u }
    requires v { IsTrans editor.now.now v }
    ensures { result ≡ searches.ordered_rivals editor.now.now u v }
{
    if are_rivals(editor, u, v) {
        Some((u.min(v), u.max(v)))
    } else {
        None
    }
}

fn is_lower(one: (u32, u32), other: (u32, u32)) -> bool
    ensures { result ≡ searches.is_lower one other }
{
    one.0 < other.0 || one.0 == other.0 && one.1 < other.1
}

/// The lower one of two, by the first transition and then by the second.
pub fn lower_of(one: Option<(u32, u32)>, other: Option<(u32, u32)>) -> Option<(u32, u32)>
    ensures { result ≡ searches.lower_of one other }
{
    match (one, other) {
        (Some(x), Some(y)) => Some(if is_lower(x, y) { x } else { y }),
        (Some(x), None) => Some(x),
        (None, other) => other,
    }
}
