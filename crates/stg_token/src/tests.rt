//! A run of the game. No clause says that `start` succeeds.

ghost use Rattle.std.specs.Prelude.{◌≡◌, ◌<◌, ◌≤◌, ◌↔◌, length, All, IsTrue};
ghost use Rattle.stg_net.specs.Net.{IsWithin};

use crate::{enabled, fire, start};
use std::test::Fail;
use stg_net::{Edge, Kind, Limits, Net, NetArc, NetBuilder, Nums, TransName};

const A_RISES: TransName = TransName {
    signal: 0,
    edge: Edge::Rise,
    index: 0,
};

const TAKEN: NetArc = NetArc {
    place: 0,
    trans: 0,
    into: false,
    weight: 2,
};

const B_RISES: TransName = TransName {
    signal: 1,
    edge: Edge::Rise,
    index: 0,
};

const C_RISES: TransName = TransName {
    signal: 2,
    edge: Edge::Rise,
    index: 0,
};

const A_GIVES: NetArc = NetArc {
    place: 0,
    trans: 0,
    into: true,
    weight: 1,
};

const B_GIVES: NetArc = NetArc {
    place: 1,
    trans: 1,
    into: true,
    weight: 1,
};

const C_TAKES_OF_A: NetArc = NetArc {
    place: 0,
    trans: 2,
    into: false,
    weight: 1,
};

const C_TAKES_OF_B: NetArc = NetArc {
    place: 1,
    trans: 2,
    into: false,
    weight: 1,
};

fn is_small(m: &Nums) -> bool
    ensures { IsTrue result ↔ All (λ k. k ≤ 1000) m.now }
{
    m.as_slice().iter().all(|k| *k <= 1000)
}

fn fire_small(net: &Net, m: &mut Nums, t: u32) -> bool
    requires within { IsWithin Limits.SPEC net.now }
    requires in_range { t < length net.now.trans }
    ensures { length m.new ≡ length m.old }
{
    let places = net.tokens().len();
    if m.len() != places {
        return false;
    }
    if !is_small(m) {
        return false;
    }
    if !enabled(net, m, t) {
        return false;
    }
    fire(net, m, t);
    true
}

#[test]
fn fires_until_a_place_lacks_tokens(rt: HostRuntime) -> Result<(), Fail> {
    let mut builder = NetBuilder::new(rt.alloc(), Limits::SPEC);
    builder.add_signal(b"a", Kind::Input)?;
    builder.add_trans(A_RISES)?;
    builder.add_place(3)?;
    builder.add_arc(TAKEN)?;
    let net = builder.finish()?;
    let mut m = start(rt.alloc(), &net)?;
    assert_eq!(rt; m.as_slice(), [3].as_slice());
    assert!(rt; fire_small(&net, &mut m, 0));
    assert_eq!(rt; m.as_slice(), [1].as_slice());
    assert!(rt; !fire_small(&net, &mut m, 0));
    Ok(())
}

// c+ waits for a+ and b+, by a place after each.
#[test]
fn waits_for_both(rt: HostRuntime) -> Result<(), Fail> {
    let mut builder = NetBuilder::new(rt.alloc(), Limits::SPEC);
    builder.add_signal(b"a", Kind::Input)?;
    builder.add_signal(b"b", Kind::Input)?;
    builder.add_signal(b"c", Kind::Output)?;
    builder.add_trans(A_RISES)?;
    builder.add_trans(B_RISES)?;
    builder.add_trans(C_RISES)?;
    builder.add_place(0)?;
    builder.add_place(0)?;
    builder.add_arc(A_GIVES)?;
    builder.add_arc(B_GIVES)?;
    builder.add_arc(C_TAKES_OF_A)?;
    builder.add_arc(C_TAKES_OF_B)?;
    let net = builder.finish()?;
    let mut m = start(rt.alloc(), &net)?;
    assert!(rt; enabled(&net, &m, 0));
    assert!(rt; enabled(&net, &m, 1));
    assert!(rt; !enabled(&net, &m, 2));
    assert!(rt; fire_small(&net, &mut m, 0));
    assert!(rt; fire_small(&net, &mut m, 1));
    assert!(rt; enabled(&net, &m, 2));
    Ok(())
}
