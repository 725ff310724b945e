//! Worked nets and the editors of them, for the tests.

ghost use Rattle.std.specs.Prelude.{◌≡◌, ◌<◌, ◌≤◌, ◌+◌, ℕ, true, false, map, length, All, IfOk, IsTrue};
ghost use Rattle.stg_net.specs.Graph.{IsDummy};
ghost use Rattle.stg_contract.specs.inner.Worked as worked;

use crate::{DummyWatch, Verdict, contract, cost, test};
use std::alloc::Global;
use stg_edit::Editor;
use stg_net::{Edge, Kind, Net, NetArc, NoMemory, Seq, Signal, TransName};

fn make_signals(alloc: Global, names: &[&[u8]]) -> Result<Seq<Signal>, NoMemory>
    ensures { IfOk result (λ list. list ≡ map worked.input (worked.lent_texts names.now)) }
{
    let mut list = Seq::new(alloc);
    for name in names {
        list.push(Signal {
            name: Seq::from_slice(alloc, name)?,
            kind: Kind::Input,
        })?;
    }
    Ok(list)
}

fn make_trans(alloc: Global, table: &[(u32, Edge, u32)]) -> Result<Seq<TransName>, NoMemory>
    ensures { IfOk result (λ list. list ≡ map worked.named_trans table.now) }
{
    let mut list = Seq::new(alloc);
    for (signal, edge, index) in table {
        list.push(TransName {
            signal: *signal,
            edge: *edge,
            index: *index,
        })?;
    }
    Ok(list)
}

fn make_arcs(alloc: Global, table: &[(u32, u32, bool, u32)]) -> Result<Seq<NetArc>, NoMemory>
    ensures { IfOk result (λ list. list ≡ map worked.arc table.now) }
{
    let mut list = Seq::new(alloc);
    for (place, trans, into, weight) in table {
        list.push(NetArc {
            place: *place,
            trans: *trans,
            into: *into,
            weight: *weight,
        })?;
    }
    Ok(list)
}

/// The net of these tables.
fn make_net(
    alloc: Global,
    names: &[&[u8]],
    trans: &[(u32, Edge, u32)],
    tokens: &[u32],
    arcs: &[(u32, u32, bool, u32)],
) -> Result<Net, NoMemory>
    requires labels { worked.are_labels (worked.lent_texts names.now) trans.now ≡ true }
    requires arcs { worked.are_arcs (length trans.now) tokens.now arcs.now ≡ true }
    ensures { IfOk result (λ n. n ≡ worked.lent_net names.now trans.now tokens.now arcs.now) }
{
    Ok(Net::of(
        make_signals(alloc, names)?,
        make_trans(alloc, trans)?,
        Seq::from_slice(alloc, tokens)?,
        make_arcs(alloc, arcs)?,
    ))
}

/// An editor of that net, in which these signals are known.
pub fn make_editor(
    alloc: Global,
    names: &[&[u8]],
    trans: &[(u32, Edge, u32)],
    tokens: &[u32],
    arcs: &[(u32, u32, bool, u32)],
    known: &[u32],
) -> Result<Editor, NoMemory>
    requires labels { worked.are_labels (worked.lent_texts names.now) trans.now ≡ true }
    requires arcs { worked.are_arcs (length trans.now) tokens.now arcs.now ≡ true }
    requires known { All (λ s. s < length names.now) known.now }
{
    let net = make_net(alloc, names, trans, tokens, arcs)?;
    let known = Seq::from_slice(alloc, known)?;
    Editor::of(alloc, &net, &known)
}

/// An editor of the net with the transitions h+, a+, a+/1, b+, c+, d+ and x+, in which all signals
/// but h are known.
pub fn make_row(
    alloc: Global,
    tokens: &[u32],
    arcs: &[(u32, u32, bool, u32)],
) -> Result<Editor, NoMemory>
    requires { worked.are_arcs 7 tokens.now arcs.now ≡ true }
{
    let names: [&[u8]; 6] = [b"h", b"a", b"b", b"c", b"d", b"x"];
    let trans = [
        (0, Edge::Rise, 0),
        (1, Edge::Rise, 0),
        (1, Edge::Rise, 1),
        (2, Edge::Rise, 0),
        (3, Edge::Rise, 0),
        (4, Edge::Rise, 0),
        (5, Edge::Rise, 0),
    ];
    make_editor(alloc, &names, &trans, tokens, arcs, &[1, 2, 3, 4, 5])
}

/// The verdict on a transition, where it is a dummy.
pub fn verdict_on(editor: &Editor, t: u32) -> Option<Verdict> {
    if editor.is_trans(t) && editor.is_dummy(t) {
        Some(test(editor, t))
    } else {
        None
    }
}

/// Contracts a transition where it is a dummy and its verdict allows it, and tells whether it did.
pub fn contract_told(editor: &mut Editor, t: u32) -> Result<bool, NoMemory>
    ensures { IfOk result (λ done. IsTrue done → worked.MadeEdits editor.old editor.new 1) }
{
    if !editor.is_trans(t) || !editor.is_dummy(t) {
        return Ok(false);
    }
    let cost = cost(editor, t);
    if cost.places == u32::MAX || cost.arcs == u32::MAX {
        return Ok(false);
    }
    editor.reserve(1, cost.places, cost.arcs)?;
    match test(editor, t) {
        Verdict::Type1 | Verdict::Type2 => {
            contract(editor, t);
            Ok(true)
        }
        _ => Ok(false),
    }
}

/// Contracts each of these transitions in order, as far as it may be contracted, and tells whether
/// each was.
pub fn contract_each(editor: &mut Editor, trans: &[u32]) -> Result<bool, NoMemory>
    ensures { IfOk result (λ d. IsTrue d
        → worked.MadeEdits editor.old editor.new (length trans.now)) }
{
    for t in trans {
        if !contract_told(editor, *t)? {
            return Ok(false);
        }
    }
    Ok(true)
}

/// The cheapest candidate, as a new watch finds it.
pub fn cheapest_told(alloc: Global, editor: &Editor) -> Result<Option<u32>, NoMemory> {
    let mut watch = DummyWatch::of(alloc, editor)?;
    Ok(watch.cheapest(editor))
}

/// Contracts the cheapest candidate as often as there are transitions, and tells whether they were
/// these in order.
pub fn contract_cheapest(
    alloc: Global,
    editor: &mut Editor,
    trans: &[u32],
) -> Result<bool, NoMemory> {
    for t in trans {
        if cheapest_told(alloc, editor)? != Some(*t) {
            return Ok(false);
        }
        if !contract_told(editor, *t)? {
            return Ok(false);
        }
    }
    Ok(true)
}

/// Deletes a place, where it is live, and tells whether it was.
pub fn drop_live(editor: &mut Editor, p: u32) -> Result<bool, NoMemory>
    ensures { IfOk result (λ done. IsTrue done → worked.MadeEdits editor.old editor.new 1) }
{
    if !editor.is_place(p) {
        return Ok(false);
    }
    editor.reserve(1, 0, 0)?;
    editor.drop_place(p);
    Ok(true)
}

/// Whether a dummy is live.
pub fn has_dummy(editor: &Editor) -> bool
    ensures { result ≡ false → (t : ℕ) → ¬ IsDummy editor.now.now t }
{
    for t in 0..editor.all_trans() {
        if editor.is_trans(t) && editor.is_dummy(t) {
            return true;
        }
    }
    false
}

/// Takes so many edits back.
pub fn undo_all(editor: &mut Editor, count: u32)
    requires { count ≤ length editor.old.past }
{
    for _ in 0..count {
        editor.undo();
    }
}
