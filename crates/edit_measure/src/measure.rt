//! Contractions that are taken back.

ghost use Rattle.std.specs.Prelude.{◌≡◌, ◌≤◌, ◌+◌, ◌-◌, ◌^◌, ◌++◌, ◌∷◌, ◌↔◌, [], min, IfOk, IsTrue, OnOk};
ghost use Rattle.stg_net.specs.declared.limits.TheConstants.Limits.{PART};
ghost use Rattle.stg_net.specs.Net.{IsWithin};
ghost use Rattle.stg_net.specs.Graph.{IsDummy, IsTrans};
ghost use Rattle.stg_net.specs.Contraction.{contracted};
ghost use Rattle.stg_edit.specs.Replacing.{new_places, new_arcs};
ghost use Rattle.edit_measure.specs.Measuring.{IsLight};

use crate::count::{arcs_from, arcs_round, count_gives, count_takes};
use std::alloc::Global;
use stg_edit::Editor;
use stg_net::{Net, NoMemory, Seq};

/// The arcs that contractions touch.
#[derive(Clone, Copy, Debug)]
pub struct Touched {
    /// The arcs at the places round the transitions.
    pub round: u64,
    /// The arcs of the new places.
    pub made: u64,
}

/// An editor of the net in which no signal is known, so that each transition is a dummy.
pub fn new_editor(alloc: Global, net: &Net) -> Result<Editor, NoMemory>
    requires { IsWithin PART net.now }
    ensures { IfOk result (λ e. IsLight e.now) }
{
    let editor = Editor::of(alloc, net, &Seq::new(alloc))?;
    Ok(editor)
}

/// Contracts each dummy and takes that back. Tells how many edits were undone.
pub fn edit_all(mut editor: Editor) -> Result<u64, NoMemory>
    requires { IsLight editor.now }
{
    for t in 0..editor.all_trans() {
        if is_dummy(&editor, t) {
            contract_and_undo(&mut editor, t)?;
        }
    }
    Ok(editor.close().undone())
}

/// The arcs that these contractions touch, where each is counted and taken back.
pub fn touch_all(mut editor: Editor) -> Result<Touched, NoMemory>
    requires { IsLight editor.now }
{
    let mut touched = Touched { round: 0, made: 0 };
    for t in 0..editor.all_trans() {
        if is_dummy(&editor, t) {
            touched.round = touched.round.saturating_add(arcs_round(&editor, t));
            touched.made = touched.made.saturating_add(count_made(&mut editor, t)?);
        }
    }
    Ok(touched)
}

/// Whether t is live and its signal isn't known.
pub fn is_dummy(editor: &Editor, t: u32) -> bool
    ensures { IsTrue result ↔ IsDummy editor.now.now t }
{
    editor.is_trans(t) && editor.is_dummy(t)
}

/// Contracts t and takes that back.
fn contract_and_undo(editor: &mut Editor, t: u32) -> Result<(), NoMemory>
    requires live { IsDummy editor.old.now t }
    requires light { IsLight editor.old.now }
    ensures now { OnOk result (editor.new.now ≡ editor.old.now) }
    ensures undone { OnOk result (editor.new.undone ≡ min (editor.old.undone + 1) (2 ^ 64 - 1)) }
{
    contract(editor, t)?;
    editor.undo();
    Ok(())
}

/// The number of arcs that the contraction of t makes, which is taken back.
fn count_made(editor: &mut Editor, t: u32) -> Result<u64, NoMemory>
    requires live { IsDummy editor.old.now t }
    requires light { IsLight editor.old.now }
    ensures now { OnOk result (editor.new.now ≡ editor.old.now) }
    ensures undone { OnOk result (editor.new.undone ≡ min (editor.old.undone + 1) (2 ^ 64 - 1)) }
{
    let first = editor.next_place();
    contract(editor, t)?;
    let made = arcs_from(editor, first);
    editor.undo();
    Ok(made)
}

/// Contracts t, with room for it.
fn contract(editor: &mut Editor, t: u32) -> Result<(), NoMemory>
    requires live { IsDummy editor.old.now t }
    requires light { IsLight editor.old.now }
    ensures now { OnOk result (editor.new.now ≡ contracted editor.old.now t) }
    ensures past { OnOk result (editor.new.past ≡ editor.old.past ++ editor.old.now ∷ []) }
    ensures undone { OnOk result (editor.new.undone ≡ editor.old.undone) }
{
    let (places, arcs) = room_for(editor, t)?;
    editor.reserve(1, places, arcs)?;
    editor.replace(t);
    Ok(())
}

/// Room for the contraction of t: places and arcs. Each new place has at most two arcs at each
/// transition.
fn room_for(editor: &Editor, t: u32) -> Result<(u32, u32), NoMemory>
    requires { IsTrans editor.now.now t }
    ensures places { IfOk result (λ r. new_places editor.now.now t ≤ r.0) }
    ensures arcs { IfOk result (λ r. new_arcs editor.now.now t ≤ r.1) }
{
    let before = count_takes(editor, t);
    let after = count_gives(editor, t);
    let Some(places) = before.checked_mul(after) else {
        return Err(NoMemory);
    };
    let Some(most) = editor.all_trans().checked_mul(2) else {
        return Err(NoMemory);
    };
    let Some(arcs) = places.checked_mul(most) else {
        return Err(NoMemory);
    };
    Ok((places, arcs))
}
