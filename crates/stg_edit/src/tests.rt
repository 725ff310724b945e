//! That the calls succeed while there is memory, and what the getters tell then.

ghost use Rattle.std.specs.Prelude.{IfOk};
ghost use Rattle.stg_net.specs.declared.limits.TheConstants.Limits.{PART};
ghost use Rattle.stg_net.specs.Net.{IsWithin};

use crate::Editor;
use std::alloc::Global;
use std::test::Fail;
use stg_net::{Edge, Kind, Limits, Net, NetArc, NetBuilder, Seq, TransName};

/// One place with three tokens, to which one transition gives two.
fn small_net(alloc: Global) -> Result<Net, Fail>
    ensures { IfOk result (λ n. IsWithin PART n) }
{
    let mut builder = NetBuilder::new(alloc, Limits::PART);
    builder.add_signal(b"a", Kind::Output)?;
    builder.add_trans(TransName {
        signal: 0,
        edge: Edge::Rise,
        index: 0,
    })?;
    builder.add_place(3)?;
    builder.add_arc(NetArc {
        place: 0,
        trans: 0,
        into: true,
        weight: 2,
    })?;
    Ok(builder.finish()?)
}

#[test]
fn deletes_and_takes_back(rt: HostRuntime) -> Result<(), Fail> {
    let net = small_net(rt.alloc())?;
    let known = Seq::new(rt.alloc());
    let mut editor = Editor::of(rt.alloc(), &net, &known)?;
    editor.reserve(2, 4, 8)?;
    assert_eq!(rt; editor.next_place(), 1);
    assert!(rt; editor.is_place(0));
    assert_eq!(rt; editor.tokens(0), 3);
    editor.drop_place(0);
    assert!(rt; !editor.is_place(0));
    editor.undo();
    assert!(rt; editor.is_place(0));
    assert_eq!(rt; editor.close().undone(), 1);
    Ok(())
}

#[test]
fn walks_round_a_transition(rt: HostRuntime) -> Result<(), Fail> {
    let net = small_net(rt.alloc())?;
    let known = Seq::new(rt.alloc());
    let editor = Editor::of(rt.alloc(), &net, &known)?;
    assert!(rt; editor.is_trans(0));
    assert!(rt; editor.is_dummy(0));
    assert_eq!(rt; editor.takes(0).next(), None);
    let mut gives = editor.gives(0);
    assert_eq!(rt; gives.next(), Some((0, 2)));
    assert_eq!(rt; gives.next(), None);
    Ok(())
}

#[test]
fn counts_through_deletions_and_undos(rt: HostRuntime) -> Result<(), Fail> {
    let net = small_net(rt.alloc())?;
    let known = Seq::new(rt.alloc());
    let mut editor = Editor::of(rt.alloc(), &net, &known)?;
    editor.reserve(2, 0, 0)?;
    assert!(rt; editor.is_trans(0));
    assert!(rt; editor.is_dummy(0));
    assert_eq!(rt; (editor.places(), editor.arcs()), (1, 1));
    editor.drop_dummy(0);
    assert_eq!(rt; (editor.places(), editor.arcs()), (1, 0));
    assert!(rt; editor.is_place(0));
    editor.drop_place(0);
    assert_eq!(rt; (editor.places(), editor.arcs()), (0, 0));
    editor.undo();
    assert_eq!(rt; (editor.places(), editor.arcs()), (1, 0));
    editor.undo();
    assert_eq!(rt; (editor.places(), editor.arcs()), (1, 1));
    Ok(())
}
