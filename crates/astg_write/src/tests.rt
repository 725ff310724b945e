//! Nets of worked examples, and what is written of them.

ghost use Rattle.std.specs.Prelude.{◌≡◌, ◌<◌, ◌≤◌, [], length, All, IfOk, OnOk};
ghost use Rattle.stg_net.specs.declared.trans.TransName.{TransName};
ghost use Rattle.stg_net.specs.Net.{IsWithin};
ghost use Rattle.stg_net.specs.Names.{IsWellNamed};

use crate::{read_again, write_net};
use std::alloc::Global;
use std::test::Fail;
use stg_net::{BuildError, Edge, Kind, Limits, Net, NetArc, NetBuilder, TransName};

/// Adds a place between two transitions.
fn connect(net: &mut NetBuilder, from: u32, to: u32, tokens: u32) -> Result<(), BuildError>
    requires from { from < length net.old.lists.trans }
    requires to { to < length net.old.lists.trans }
    requires tokens { tokens ≤ 1 }
    requires limits { net.old.limits ≡ Limits.PART }
    ensures signals { OnOk result (net.new.lists.signals ≡ net.old.lists.signals) }
    ensures trans { OnOk result (net.new.lists.trans ≡ net.old.lists.trans) }
    ensures limits { OnOk result (net.new.limits ≡ Limits.PART) }
{
    let place = net.add_place(tokens)?;
    net.add_arc(NetArc {
        place,
        trans: from,
        into: true,
        weight: 1,
    })?;
    net.add_arc(NetArc {
        place,
        trans: to,
        into: false,
        weight: 1,
    })
}

/// Adds places between transitions: from, to, and tokens of each.
fn connect_all(
    net: &mut NetBuilder,
    count: u32,
    places: &[(u32, u32, u32)],
) -> Result<(), BuildError>
    requires limits { net.old.limits ≡ Limits.PART }
    requires count { length net.old.lists.trans ≡ count }
    ensures signals { OnOk result (net.new.lists.signals ≡ net.old.lists.signals) }
    ensures trans { OnOk result (net.new.lists.trans ≡ net.old.lists.trans) }
    ensures limits { OnOk result (net.new.limits ≡ Limits.PART) }
{
    for &(from, to, tokens) in places {
        if from < count && to < count && tokens <= 1 {
            connect(net, from, to, tokens)?;
        }
    }
    Ok(())
}

fn of(signal: u32, edge: Edge) -> TransName
    ensures { result ≡ record { signal = signal; edge = edge; index = 0 } }
{
    TransName {
        signal,
        edge,
        index: 0,
    }
}

/// Adds the transitions of a C-element.
fn add_c_trans(net: &mut NetBuilder) -> Result<(), BuildError>
    requires limits { net.old.limits ≡ Limits.PART }
    requires signals { length net.old.lists.signals ≡ 3 }
    requires first { net.old.lists.trans ≡ [] }
    ensures signals { OnOk result (net.new.lists.signals ≡ net.old.lists.signals) }
    ensures count { OnOk result (length net.new.lists.trans ≡ 6) }
    ensures indices { OnOk result
        (All (λ (t : TransName). t.index < 1000000000) net.new.lists.trans) }
    ensures limits { OnOk result (net.new.limits ≡ Limits.PART) }
{
    net.add_trans(of(0, Edge::Rise))?;
    net.add_trans(of(2, Edge::Rise))?;
    net.add_trans(of(1, Edge::Rise))?;
    net.add_trans(of(0, Edge::Fall))?;
    net.add_trans(of(1, Edge::Fall))?;
    net.add_trans(of(2, Edge::Fall))?;
    Ok(())
}

fn c_element(alloc: Global) -> Result<Net, Fail>
    ensures within { IfOk result (λ n. IsWithin Limits.PART n) }
    ensures named { IfOk result (λ n. IsWellNamed n) }
{
    let mut net = NetBuilder::new(alloc, Limits::PART);
    net.add_signal(b"a", Kind::Input)?;
    net.add_signal(b"b", Kind::Input)?;
    net.add_signal(b"c", Kind::Output)?;
    add_c_trans(&mut net)?;
    connect_all(&mut net, 6, &[(0, 1, 0), (1, 3, 0), (1, 4, 0), (2, 1, 0)])?;
    connect_all(&mut net, 6, &[(3, 5, 0), (4, 5, 0), (5, 0, 1), (5, 2, 1)])?;
    Ok(net.finish()?)
}

fn with_pc(alloc: Global) -> Result<Net, Fail>
    ensures within { IfOk result (λ n. IsWithin Limits.PART n) }
    ensures named { IfOk result (λ n. IsWellNamed n) }
{
    let mut net = NetBuilder::new(alloc, Limits::PART);
    net.add_signal(b"pc", Kind::Input)?;
    net.add_signal(b"x", Kind::Output)?;
    net.add_trans(of(0, Edge::Rise))?;
    net.add_trans(of(1, Edge::Rise))?;
    connect_all(&mut net, 2, &[(0, 1, 0)])?;
    Ok(net.finish()?)
}

const C_ELEMENT: &[u8] = b".model part1
.inputs a b
.outputs c
.graph
a+ p1
c+ p2 p3
b+ p4
a- p5
b- p6
c- p7 p8
p1 c+
p2 a-
p3 b-
p4 c+
p5 c-
p6 c-
p7 a+
p8 b+
.marking { p7 p8 }
.end
";

const WITH_PC: &[u8] = b".model part20
.inputs pc
.outputs x
.graph
pc+ p1_1
x+
p1_1 x+
.marking { }
.end
";

#[test]
fn writes_worked_examples(rt: HostRuntime) -> Result<(), Fail> {
    let alloc = rt.alloc();
    let c_element = write_net(alloc, &c_element(alloc)?, 1)?;
    let with_pc = write_net(alloc, &with_pc(alloc)?, 20)?;
    for (name, text, want) in [
        ("C-element", &c_element, C_ELEMENT),
        ("a signal pc", &with_pc, WITH_PC),
    ] {
        assert_eq!(rt; text.as_slice(), want, "{name}");
    }
    Ok(())
}

#[test]
fn reads_an_ordered_net_again(rt: HostRuntime) -> Result<(), Fail> {
    let alloc = rt.alloc();
    let net = c_element(alloc)?;
    let again = read_again(alloc, &net, 1)?;
    assert_eq!(rt; again.tokens(), net.tokens());
    assert_eq!(rt; again.arcs(), net.arcs());
    Ok(())
}
