//! What no clause says: that calls succeed.

use crate::{BuildError, Edge, Kind, Limits, NetArc, NetBuilder, TransName, ordered};
use std::test::Fail;

const ONE_OF_EACH: Limits = Limits {
    bytes: 1,
    signals: 1,
    trans: 1,
    places: 1,
    arcs: 1,
    weight: 1,
};

const RISE: TransName = TransName {
    signal: 0,
    edge: Edge::Rise,
    index: 0,
};

const INTO: NetArc = NetArc {
    place: 0,
    trans: 0,
    into: true,
    weight: 1,
};

#[test]
fn adds_signals_up_to_the_limit(rt: HostRuntime) -> Result<(), Fail> {
    let mut builder = NetBuilder::new(rt.alloc(), ONE_OF_EACH);
    assert_eq!(rt; builder.add_signal(b"a", Kind::Input)?, 0);
    assert_eq!(rt;
        builder.add_signal(b"b", Kind::Input),
        Err(BuildError::TooManySignals)
    );
    Ok(())
}

#[test]
fn adds_transitions_up_to_the_limit(rt: HostRuntime) -> Result<(), Fail> {
    let mut builder = NetBuilder::new(rt.alloc(), ONE_OF_EACH);
    builder.add_signal(b"a", Kind::Input)?;
    assert_eq!(rt; builder.add_trans(RISE)?, 0);
    let other = TransName { index: 1, ..RISE };
    assert_eq!(rt;
        builder.add_trans(other),
        Err(BuildError::TooManyTransitions)
    );
    Ok(())
}

#[test]
fn adds_places_up_to_the_limit(rt: HostRuntime) -> Result<(), Fail> {
    let mut builder = NetBuilder::new(rt.alloc(), ONE_OF_EACH);
    assert_eq!(rt; builder.add_place(1)?, 0);
    assert_eq!(rt; builder.add_place(1), Err(BuildError::TooManyPlaces));
    Ok(())
}

#[test]
fn adds_arcs_up_to_the_limit(rt: HostRuntime) -> Result<(), Fail> {
    let mut builder = NetBuilder::new(rt.alloc(), ONE_OF_EACH);
    builder.add_signal(b"a", Kind::Input)?;
    builder.add_trans(RISE)?;
    builder.add_place(1)?;
    builder.add_arc(INTO)?;
    let again = NetArc {
        into: false,
        ..INTO
    };
    assert_eq!(rt; builder.add_arc(again), Err(BuildError::TooManyArcs));
    Ok(())
}

#[test]
fn orders_a_net_and_makes_a_component_of_it(rt: HostRuntime) -> Result<(), Fail> {
    let alloc = rt.alloc();
    let mut builder = NetBuilder::new(alloc, Limits::SPEC);
    builder.add_signal(b"x", Kind::Output)?;
    let net = ordered(alloc, &builder.finish()?)?;
    assert_eq!(rt; net.signals().len(), 1);
    let part = net.component(alloc, &[], &[])?;
    assert_eq!(rt; part.signals().len(), 1);
    Ok(())
}

#[test]
fn finds_signals_and_sets_tokens(rt: HostRuntime) -> Result<(), Fail> {
    let mut builder = NetBuilder::new(rt.alloc(), ONE_OF_EACH);
    builder.add_signal(b"a", Kind::Input)?;
    assert_eq!(rt; builder.find_signal(b"a"), Some(0));
    assert_eq!(rt; builder.find_signal(b"b"), None);
    builder.add_place(1)?;
    builder.set_tokens(0, 0);
    assert_eq!(rt; builder.finish()?.tokens(), [0].as_slice());
    Ok(())
}
