//! Worked nets and the editors of them, for the tests.

ghost use Rattle.std.specs.Prelude.{◌≡◌, ◌<◌, ◌≤◌, ◌+◌, ℕ, true, false, map, length, All, IfOk, IsTrue};
ghost use Rattle.stg_contract.specs.inner.Worked as worked;

use crate::{DummyFound, RedundantWatch};
use std::alloc::Global;
use stg_contract::{Verdict, contract, cost, test};
use stg_edit::Editor;
use stg_net::{Edge, Kind, Net, NetArc, NoMemory, Seq, Signal, TransName};

fn make_signals(alloc: Global, names: &[&[u8]]) -> Result<Seq<Signal>, NoMemory>
    ensures { IfOk result (λ list. list ≡ map worked.input (worked.lent_texts names.now)) }
{
    let mut list = Seq::new(alloc);
    for name in names {
        list.push(Signal {
            name: Seq::from_slice(alloc, name)?,
            kind: Kind::Input,
        })?;
    }
    Ok(list)
}

fn make_trans(alloc: Global, table: &[(u32, Edge, u32)]) -> Result<Seq<TransName>, NoMemory>
    ensures { IfOk result (λ list. list ≡ map worked.named_trans table.now) }
{
    let mut list = Seq::new(alloc);
    for (signal, edge, index) in table {
        list.push(TransName {
            signal: *signal,
            edge: *edge,
            index: *index,
        })?;
    }
    Ok(list)
}

fn make_arcs(alloc: Global, table: &[(u32, u32, bool, u32)]) -> Result<Seq<NetArc>, NoMemory>
    ensures { IfOk result (λ list. list ≡ map worked.arc table.now) }
{
    let mut list = Seq::new(alloc);
    for (place, trans, into, weight) in table {
        list.push(NetArc {
            place: *place,
            trans: *trans,
            into: *into,
            weight: *weight,
        })?;
    }
    Ok(list)
}

/// The net of these tables.
fn make_net(
    alloc: Global,
    names: &[&[u8]],
    trans: &[(u32, Edge, u32)],
    tokens: &[u32],
    arcs: &[(u32, u32, bool, u32)],
) -> Result<Net, NoMemory>
    requires labels { worked.are_labels (worked.lent_texts names.now) trans.now ≡ true }
    requires arcs { worked.are_arcs (length trans.now) tokens.now arcs.now ≡ true }
    ensures { IfOk result (λ n.
        n ≡ worked.net (worked.lent_texts names.now) trans.now tokens.now arcs.now) }
{
    Ok(Net::of(
        make_signals(alloc, names)?,
        make_trans(alloc, trans)?,
        Seq::from_slice(alloc, tokens)?,
        make_arcs(alloc, arcs)?,
    ))
}

/// An editor of that net, in which these signals are known.
pub fn make_editor(
    alloc: Global,
    names: &[&[u8]],
    trans: &[(u32, Edge, u32)],
    tokens: &[u32],
    arcs: &[(u32, u32, bool, u32)],
    known: &[u32],
) -> Result<Editor, NoMemory>
    requires labels { worked.are_labels (worked.lent_texts names.now) trans.now ≡ true }
    requires arcs { worked.are_arcs (length trans.now) tokens.now arcs.now ≡ true }
    requires known { All (λ s. s < length names.now) known.now }
{
    let net = make_net(alloc, names, trans, tokens, arcs)?;
    let known = Seq::from_slice(alloc, known)?;
    Editor::of(alloc, &net, &known)
}

/// Contracts a transition where it is a dummy and its verdict allows it, and tells whether it did.
pub fn contract_told(editor: &mut Editor, t: u32) -> Result<bool, NoMemory>
    ensures { IfOk result (λ done. IsTrue done
        → length editor.new.past ≡ length editor.old.past + 1) }
{
    if !editor.is_trans(t) || !editor.is_dummy(t) {
        return Ok(false);
    }
    let cost = cost(editor, t);
    if cost.places == u32::MAX || cost.arcs == u32::MAX {
        return Ok(false);
    }
    editor.reserve(1, cost.places, cost.arcs)?;
    match test(editor, t) {
        Verdict::Type1 | Verdict::Type2 => {
            contract(editor, t);
            Ok(true)
        }
        _ => Ok(false),
    }
}

/// Contracts each of these transitions in order, as far as it may be contracted, and tells whether
/// each was.
pub fn contract_each(editor: &mut Editor, trans: &[u32]) -> Result<bool, NoMemory>
    ensures { IfOk result (λ done. IsTrue done
        → length editor.new.past ≡ length editor.old.past + length trans.now) }
{
    for t in trans {
        if !contract_told(editor, *t)? {
            return Ok(false);
        }
    }
    Ok(true)
}

/// The redundant dummy of greatest number, as a new watch finds it.
pub fn next_told(alloc: Global, editor: &Editor) -> Result<Option<DummyFound>, NoMemory> {
    let mut watch = RedundantWatch::of(alloc, editor)?;
    Ok(watch.next(editor))
}
