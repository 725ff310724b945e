//! The contraction of a dummy, and what it costs.

ghost use Rattle.std.specs.Prelude.{◌≡◌, ◌≤◌, ◌<◌, ◌-◌, ◌^◌, ◌++◌, ◌∷◌, [], min};
ghost use Rattle.stg_net.specs.Graph.{IsTrans, IsDummy};
ghost use Rattle.stg_net.specs.Contraction.{contracted};
ghost use Rattle.stg_edit.specs.Editing.{IsAsMuch};
ghost use Rattle.stg_edit.specs.Replacing.{new_places as made_places, new_arcs};
ghost use Rattle.stg_contract.specs.Verdicts.{IsContractible};
ghost use Rattle.stg_contract.specs.Room.{spare_after};

use crate::arcs::arcs_round;
use crate::verdict::Cost;
use crate::walks::count_all;
use stg_edit::Editor;

/// How many places the contraction of a live transition makes.
pub(crate) fn count_new_places(editor: &Editor, t: u32) -> u64
    requires { IsTrans editor.now.now t }
    ensures { result ≡ made_places editor.now.now t }
{
    let before = count_all(editor.takes(t));
    let after = count_all(editor.gives(t));
    before.saturating_mul(after)
}

/// Counts the places that the contraction of a live transition makes. It takes time for the arcs
/// of the transition alone.
pub fn new_places(editor: &Editor, t: u32) -> u32
    requires { IsTrans editor.now.now t }
    ensures { result ≡ min (made_places editor.now.now t) (2 ^ 32 - 1) }
{
    count_new_places(editor, t).min(u32::MAX as u64) as u32
}

/// Counts the places and arcs that the contraction of a live transition makes. It looks at each
/// pair round the transition.
pub fn cost(editor: &Editor, t: u32) -> Cost
    requires { IsTrans editor.now.now t }
    ensures places { result.places ≡ min (made_places editor.now.now t) (2 ^ 32 - 1) }
    ensures arcs { result.arcs ≡ min (new_arcs editor.now.now t) (2 ^ 32 - 1) }
{
    let arcs = arcs_round(editor, t).min(u32::MAX as u64);
    Cost {
        places: new_places(editor, t),
        arcs: arcs as u32,
    }
}

/// Contracts a dummy whose verdict is `Type1` or `Type2`. The draft before joins the past, and
/// nothing that is spare goes but one edit and at most the new places and arcs.
pub fn contract(editor: &mut Editor, t: u32)
    requires dummy { IsDummy editor.old.now t }
    requires contractible { IsContractible editor.old.now t }
    requires room { 0 < editor.old.spare.edits }
    requires places { made_places editor.old.now t ≤ editor.old.spare.places }
    requires arcs { new_arcs editor.old.now t ≤ editor.old.spare.arcs }
    ensures now { editor.new.now ≡ contracted editor.old.now t }
    ensures past { editor.new.past ≡ editor.old.past ++ editor.old.now ∷ [] }
    ensures spare { IsAsMuch (spare_after editor.old.now t editor.old.spare) editor.new.spare }
    ensures undone { editor.new.undone ≡ editor.old.undone }
    ensures signals { editor.new.signals ≡ editor.old.signals }
{
    editor.replace(t);
}
