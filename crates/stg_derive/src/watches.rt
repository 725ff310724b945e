//! What is watched of a draft, so that its next step is found without a look at all of it.

ghost use Rattle.std.specs.Prelude.{◌≡◌, ◌≤◌, ◌++◌, ◌∷◌, [], IfOk, OnOk};
ghost use Rattle.stg_net.specs.Graph.{IsPlace, IsDummy};
ghost use Rattle.stg_net.specs.Contraction.{without_place, without_trans, contracted};
ghost use Rattle.stg_contract.specs.Calm.{IsCalm};
ghost use Rattle.stg_contract.specs.Candidates.{IsCandidate};
ghost use Rattle.stg_derive.specs.Steps.{HasNoRedundantPlace, IsPlainStep, stepped};
ghost use Rattle.stg_derive.specs.inner.Watching.{IsWatching};

use crate::Step;
use std::alloc::Global;
use stg_contract::{DummyWatch, contract, cost};
use stg_edit::Editor;
use stg_net::NoMemory;
use stg_redundant::{
    Levels, PlaceWatch, RedundantWatch, has_other_near, list_trans_at, list_trans_round,
    near_places,
};

/// What is watched of a draft.
#[derive(Drop)]
pub struct Watches {
    /// They bound the searches for chains.
    pub levels: Levels,
    /// Places that may be redundant.
    pub places: PlaceWatch,
    /// Dummies that may be redundant.
    pub redundant: RedundantWatch,
    /// Dummies that may be contractible.
    pub dummies: DummyWatch,
    /// The transitions near an edit.
    pub near: Vec<u32>,
}

/// Watches all of a draft.
pub fn watch_all(alloc: Global, editor: &Editor) -> Result<Watches, NoMemory>
    ensures { IfOk result (IsWatching editor.now.now) }
{
    Ok(Watches {
        levels: Levels::of(alloc, editor)?,
        places: PlaceWatch::of(alloc, editor)?,
        redundant: RedundantWatch::of(alloc, editor)?,
        dummies: DummyWatch::of(alloc, editor)?,
        near: Vec::new(alloc),
    })
}

/// Deletes a place, beside which dummies are watched again.
fn drop_place(editor: &mut Editor, watches: &mut Watches, p: u32) -> Result<(), NoMemory>
    requires live { IsPlace editor.old.now p }
    requires calm { IsCalm editor.old.now }
    requires watching { IsWatching editor.old.now watches.old }
    ensures now { OnOk result (editor.new.now ≡ without_place editor.old.now p) }
    ensures past { OnOk result (editor.new.past ≡ editor.old.past ++ editor.old.now ∷ []) }
    ensures undone { editor.new.undone ≡ editor.old.undone }
    ensures signals { editor.new.signals ≡ editor.old.signals }
    ensures watching { OnOk result
        (IsWatching (without_place editor.old.now p) watches.new) }
{
    watches.near.clear();
    list_trans_at(editor, p, &mut watches.near)?;
    editor.reserve(1, 0, 0)?;
    editor.drop_place(p);
    watches.redundant.add_each(editor, &watches.near)?;
    watches.dummies.add_each(editor, &watches.near)?;
    Ok(())
}

/// Deletes a dummy, beside which dummies and places are watched again.
fn drop_dummy(
    alloc: Global,
    editor: &mut Editor,
    watches: &mut Watches,
    t: u32,
) -> Result<(), NoMemory>
    requires dummy { IsDummy editor.old.now t }
    requires no_redundant_place { HasNoRedundantPlace editor.old.now }
    requires calm { IsCalm editor.old.now }
    requires watching { IsWatching editor.old.now watches.old }
    ensures now { OnOk result (editor.new.now ≡ without_trans editor.old.now t) }
    ensures past { OnOk result (editor.new.past ≡ editor.old.past ++ editor.old.now ∷ []) }
    ensures undone { editor.new.undone ≡ editor.old.undone }
    ensures signals { editor.new.signals ≡ editor.old.signals }
    ensures watching { OnOk result
        (IsWatching (without_trans editor.old.now t) watches.new) }
{
    let near = near_places(alloc, editor, t)?;
    watches.near.clear();
    list_trans_round(editor, t, &mut watches.near)?;
    editor.reserve(1, 0, 0)?;
    editor.drop_dummy(t);
    watches.dummies.add_each(editor, &watches.near)?;
    watches.places.add_after_deletion(editor, &near)?;
    Ok(())
}

/// Contracts a dummy, beside which dummies and places are watched again.
fn contract_dummy(editor: &mut Editor, watches: &mut Watches, t: u32) -> Result<(), NoMemory>
    requires first { editor.old.now.first_places ≤ 4064 }
    requires candidate { IsCandidate editor.old.now t }
    requires no_redundant_place { HasNoRedundantPlace editor.old.now }
    requires calm { IsCalm editor.old.now }
    requires watching { IsWatching editor.old.now watches.old }
    ensures now { OnOk result (editor.new.now ≡ contracted editor.old.now t) }
    ensures past { OnOk result (editor.new.past ≡ editor.old.past ++ editor.old.now ∷ []) }
    ensures undone { editor.new.undone ≡ editor.old.undone }
    ensures signals { editor.new.signals ≡ editor.old.signals }
    ensures watching { OnOk result (IsWatching (contracted editor.old.now t) watches.new) }
{
    let first = editor.next_place();
    let had_other = has_other_near(editor, t);
    watches.near.clear();
    list_trans_round(editor, t, &mut watches.near)?;
    let cost = cost(editor, t);
    editor.reserve(1, cost.places, cost.arcs)?;
    contract(editor, t);
    watches.redundant.add_each(editor, &watches.near)?;
    watches.dummies.add_each(editor, &watches.near)?;
    watches
        .places
        .add_after_contraction(editor, first, had_other)?;
    Ok(())
}

/// Edits the graph by a plain step. The room for it is reserved first.
pub fn edit(
    alloc: Global,
    editor: &mut Editor,
    watches: &mut Watches,
    step: Step,
) -> Result<(), NoMemory>
    requires first { editor.old.now.first_places ≤ 4064 }
    requires plain { IsPlainStep editor.old.now step }
    requires calm { IsCalm editor.old.now }
    requires watching { IsWatching editor.old.now watches.old }
    ensures now { OnOk result (editor.new.now ≡ stepped editor.old.now step) }
    ensures past { OnOk result (editor.new.past ≡ editor.old.past ++ editor.old.now ∷ []) }
    ensures undone { editor.new.undone ≡ editor.old.undone }
    ensures signals { editor.new.signals ≡ editor.old.signals }
    ensures watching { OnOk result (IsWatching (stepped editor.old.now step) watches.new) }
{
    match step {
        Step::DropPlace(found) => drop_place(editor, watches, found.place),
        Step::DropDummy(found) => drop_dummy(alloc, editor, watches, found.trans),
        Step::Contract { trans, .. } => contract_dummy(editor, watches, trans),
    }
}
