//! The transitions near an edit.

ghost use Rattle.std.specs.Prelude.{All, OnOk};
ghost use Rattle.stg_net.specs.Graph.{IsPlace, IsTrans};
ghost use Rattle.stg_contract.specs.Neighbours.{HasArc, AreNeighbours};
ghost use Rattle.stg_redundant.specs.Watching.{HasBesides};
ghost use Rattle.stg_redundant.specs.inner.Flagging.{HasArcAmong};

use crate::edited::push_all;
use stg_edit::{Editor, Walk};
use stg_net::NoMemory;

/// Adds the transitions that take from a live place or give to it to a list.
pub fn list_trans_at(editor: &Editor, p: u32, list: &mut Vec<u32>) -> Result<(), NoMemory>
    requires { IsPlace editor.now.now p }
    ensures { OnOk result
        (HasBesides (λ u. HasArc editor.now.now u p) list.old.items list.new.items) }
{
    push_all(list, editor.takers(p))?;
    push_all(list, editor.givers(p))?;
    Ok(())
}

/// Adds the transitions that have an arc with a place of a walk to a list.
fn list_at_each(editor: &Editor, places: Walk<'_>, list: &mut Vec<u32>) -> Result<(), NoMemory>
    requires { All (λ x. IsPlace editor.now.now x.0) places }
    ensures { OnOk result
        (HasBesides (HasArcAmong editor.now.now places.entry) list.old.items list.new.items) }
{
    for (p, _) in places {
        list_trans_at(editor, p, list)?;
    }
    Ok(())
}

/// Adds the transitions that have an arc with a place with which a live transition has one to a
/// list, some more than once.
pub fn list_trans_round(editor: &Editor, t: u32, list: &mut Vec<u32>) -> Result<(), NoMemory>
    requires { IsTrans editor.now.now t }
    ensures { OnOk result
        (HasBesides (AreNeighbours editor.now.now t) list.old.items list.new.items) }
{
    list_at_each(editor, editor.takes(t), list)?;
    list_at_each(editor, editor.gives(t), list)?;
    Ok(())
}
