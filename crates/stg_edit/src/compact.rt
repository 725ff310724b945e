//! The lists of which the net of a draft is made.

ghost use Rattle.std.specs.Prelude.{◌≡◌, ◌<◌, ◌^◌, ◌++◌, ℕ, true, Some, All, map, length, is_some, slice_index, IfOk, OnOk};
ghost use Rattle.stg_net.specs.declared.trans.TransName.{TransName as ThisName};
ghost use Rattle.stg_net.specs.Ordered.{new_number};
ghost use Rattle.stg_net.specs.Graph.{IsPlace, IsTrans, place_at, full_name_at, tokens_at, has_signal_of};
ghost use Rattle.stg_edit.specs.Compacted.{live_trans, known_signals};
ghost use Rattle.stg_edit.specs.Counted.{live_places};
ghost use Rattle.stg_edit.specs.Editing.{full_name_in};
ghost use Rattle.stg_arena.specs.WalkItems.{weighted};
ghost use Rattle.stg_edit.specs.inner.Packing.{HaveNamesOf, weighted_arc, place_arcs, all_arcs};

use crate::editor::Editor;
use std::alloc::Global;
use stg_arena::Walk;
use stg_net::{NetArc, NoMemory, Nums, Seq, Signal, TransName, renumber};

/// Whether there is a live place of that number.
fn has_place(editor: &Editor, p: u32) -> bool
    ensures { result ≡ is_some (place_at editor.now.now p) }
{
    editor.is_place(p)
}

/// Whether there is a live transition of that number.
fn has_trans(editor: &Editor, t: u32) -> bool
    ensures { result ≡ is_some (full_name_at editor.now.now t) }
{
    editor.is_trans(t)
}

/// The numbers of the known signals.
pub fn list_signals(alloc: Global, editor: &Editor) -> Result<Nums, NoMemory>
    requires { length editor.now.signals < 2 ^ 32 }
    ensures { IfOk result (λ list. list ≡ known_signals editor.now.signals editor.now.now) }
{
    let mut list = Seq::new(alloc);
    for s in 0..editor.signals().len() as u32 {
        if editor.is_known(s) {
            list.push(s)?;
        }
    }
    Ok(list)
}

/// The numbers of the live places.
pub fn list_places(alloc: Global, editor: &Editor) -> Result<Nums, NoMemory>
    ensures { IfOk result (λ list. list ≡ live_places editor.now.now) }
{
    let mut list = Seq::new(alloc);
    for p in 0..editor.next_place() {
        if has_place(editor, p) {
            list.push(p)?;
        }
    }
    Ok(list)
}

/// The numbers of the live transitions.
pub fn list_trans(alloc: Global, editor: &Editor) -> Result<Nums, NoMemory>
    ensures { IfOk result (λ list. list ≡ live_trans editor.now.now) }
{
    let mut list = Seq::new(alloc);
    for t in 0..editor.all_trans() {
        if has_trans(editor, t) {
            list.push(t)?;
        }
    }
    Ok(list)
}

/// The name of a live transition with the number that its signal has among those that are kept.
fn rename(editor: &Editor, signals: &[Signal], kept: &[u32], t: u32) -> TransName
    requires live { IsTrans editor.now.now t }
    requires known { has_signal_of editor.now.now.known (full_name_at editor.now.now t) ≡ true }
    requires kept { kept.now ≡ known_signals editor.now.signals editor.now.now }
    requires names { HaveNamesOf editor.now.signals kept.now signals.now }
    requires bounded { length signals.now < 2 ^ 32 }
    ensures name { full_name_at editor.now.now t ≡ Some (full_name_in signals.now result) }
    ensures signal { result.signal < length signals.now }
{
    let name = editor.name(t);
    let signal = renumber(kept, name.signal) as u32;
    TransName { signal, ..name }
}

/// The names of these transitions.
pub fn list_names(
    alloc: Global,
    editor: &Editor,
    signals: &[Signal],
    kept: &[u32],
    trans: &[u32],
) -> Result<Seq<TransName>, NoMemory>
    requires live { All (λ t. IsTrans editor.now.now t) trans.now }
    requires known { All (λ t. has_signal_of editor.now.now.known (full_name_at editor.now.now t)
        ≡ true) trans.now }
    requires kept { kept.now ≡ known_signals editor.now.signals editor.now.now }
    requires names { HaveNamesOf editor.now.signals kept.now signals.now }
    requires bounded { length signals.now < 2 ^ 32 }
    ensures names { IfOk result
        (λ list. map (λ x. Some (full_name_in signals.now x)) list
        ≡ map (full_name_at editor.now.now) trans.now) }
    ensures there { IfOk result
        (λ list. All (λ (x : ThisName). x.signal < length signals.now) list) }
{
    let mut list = Seq::new(alloc);
    for t in trans {
        list.push(rename(editor, signals, kept, *t))?;
    }
    Ok(list)
}

/// The tokens of these places.
pub fn list_tokens(alloc: Global, editor: &Editor, places: &[u32]) -> Result<Nums, NoMemory>
    requires { All (λ p. IsPlace editor.now.now p) places.now }
    ensures { IfOk result (λ list. list ≡ map (tokens_at editor.now.now) places.now) }
{
    let mut list = Seq::new(alloc);
    for p in places {
        list.push(editor.tokens(*p))?;
    }
    Ok(list)
}

/// For each of so many transitions the weight that the walk gives, and 0 where it gives none.
fn weights_of(alloc: Global, count: u32, walk: Walk<'_>) -> Result<Vec<u32>, NoMemory>
    requires { (w : ℕ → ℕ) × (walk ≡ weighted count w) }
    ensures len { IfOk result (λ list. length list.items ≡ count) }
    ensures weights { IfOk result
        (λ list. (w : ℕ → ℕ) → walk.entry ≡ weighted count w → (t : ℕ) → t < count
        → slice_index list.items t ≡ w t) }
{
    let mut list = vec![in alloc; 0; count as usize]?;
    for (t, weight) in walk {
        list[t as usize] = weight;
    }
    Ok(list)
}

/// Adds the arc, where it has a weight.
fn push_arc(list: &mut Seq<NetArc>, arc: NetArc) -> Result<(), NoMemory>
    ensures { OnOk result (list.new ≡ list.old ++ weighted_arc arc) }
{
    if arc.weight > 0 {
        list.push(arc)?;
    }
    Ok(())
}

/// Adds the arcs between a live place, whose new number is q, and these transitions.
fn push_place_arcs(
    alloc: Global,
    list: &mut Seq<NetArc>,
    editor: &Editor,
    trans: &[u32],
    p: u32,
    q: u32,
) -> Result<(), NoMemory>
    requires live { IsPlace editor.now.now p }
    requires in_range { All (λ t. t < length editor.now.now.trans) trans.now }
    requires bounded { length trans.now < 2 ^ 32 }
    ensures { OnOk result (list.new ≡ list.old ++ place_arcs editor.now.now trans.now p q) }
{
    let count = editor.all_trans();
    let taken = weights_of(alloc, count, editor.takers(p))?;
    let given = weights_of(alloc, count, editor.givers(p))?;
    for u in 0..trans.len() as u32 {
        let t = trans[u as usize] as usize;
        push_arc(
            list,
            NetArc {
                place: q,
                trans: u,
                into: false,
                weight: taken[t],
            },
        )?;
        push_arc(
            list,
            NetArc {
                place: q,
                trans: u,
                into: true,
                weight: given[t],
            },
        )?;
    }
    Ok(())
}

/// The arcs between these places and these transitions.
pub fn list_arcs(
    alloc: Global,
    editor: &Editor,
    places: &[u32],
    trans: &[u32],
) -> Result<Seq<NetArc>, NoMemory>
    requires live { All (λ p. IsPlace editor.now.now p) places.now }
    requires in_range { All (λ t. t < length editor.now.now.trans) trans.now }
    requires bounded { length trans.now < 2 ^ 32 }
    requires places_fit { length places.now < 2 ^ 32 }
    ensures { IfOk result (λ list. list ≡ all_arcs editor.now.now places.now trans.now) }
{
    let mut list = Seq::new(alloc);
    for q in 0..places.len() as u32 {
        push_place_arcs(alloc, &mut list, editor, trans, places[q as usize], q)?;
    }
    Ok(list)
}
