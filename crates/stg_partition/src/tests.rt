//! That the groups are found while there is memory, and which line, signal or pair is told.

use crate::{GroupError, plain_groups, read_groups};
use std::alloc::Global;
use std::test::Fail;
use stg_net::{Edge, Kind, Limits, NetArc, NetBuilder, PlaceName, Seq, Spec, TransName};

const RISE_X: TransName = TransName {
    signal: 1,
    edge: Edge::Rise,
    index: 0,
};

const TO_X: NetArc = NetArc {
    place: 0,
    trans: 0,
    into: false,
    weight: 1,
};

/// An input a and two outputs x and y, and one place from which x+ and y+ take.
fn shared_place(alloc: Global) -> Result<Spec, Fail> {
    let mut builder = NetBuilder::new(alloc, Limits::SPEC);
    builder.add_signal(b"a", Kind::Input)?;
    builder.add_signal(b"x", Kind::Output)?;
    builder.add_signal(b"y", Kind::Output)?;
    builder.add_trans(RISE_X)?;
    builder.add_trans(TransName {
        signal: 2,
        ..RISE_X
    })?;
    builder.add_place(1)?;
    builder.add_arc(TO_X)?;
    builder.add_arc(NetArc { trans: 1, ..TO_X })?;
    let mut names = Seq::new(alloc);
    names.push(PlaceName::Named(Seq::from_slice(alloc, b"p")?))?;
    Ok(Spec::new(builder.finish()?, names))
}

#[test]
fn groups_an_output_without_transitions(rt: HostRuntime) -> Result<(), Fail> {
    let alloc = rt.alloc();
    let mut builder = NetBuilder::new(alloc, Limits::SPEC);
    builder.add_signal(b"x", Kind::Output)?;
    let spec = Spec::new(builder.finish()?, Seq::new(alloc));
    let groups = plain_groups(alloc, &spec)?;
    assert_eq!(rt; groups.len(), 1);
    let group = &groups.as_slice()[0];
    assert_eq!(rt; group.own.as_slice(), [0].as_slice());
    assert_eq!(rt; group.known.as_slice(), [0].as_slice());
    Ok(())
}

#[test]
fn tells_why_a_text_is_refused(rt: HostRuntime) -> Result<(), Fail> {
    let spec = shared_place(rt.alloc())?;
    let rows: [(&[u8], GroupError); 8] = [
        (b"x\ny \x01\n", GroupError::BadLine { line: 2 }),
        (b"# inputs too\na\n", GroupError::UnknownOutput { line: 2 }),
        (b"x{y}", GroupError::UnknownOutput { line: 1 }),
        (b"x\n\ny x\n", GroupError::OutputTwice { line: 3 }),
        (b"y\n", GroupError::OutputMissing { signal: 1 }),
        (b"", GroupError::OutputMissing { signal: 1 }),
        (
            b"y\nx\n",
            GroupError::SplitConflict {
                x: 1,
                y: 2,
                place: 0,
            },
        ),
        (b"y\nx\ny\n", GroupError::OutputTwice { line: 3 }),
    ];
    for (text, want) in &rows {
        let refusal = read_groups(rt.alloc(), &spec, text).err();
        assert_eq!(rt; refusal, Some(*want));
    }
    Ok(())
}

#[test]
fn reads_a_group_from_each_line_with_words(rt: HostRuntime) -> Result<(), Fail> {
    let spec = shared_place(rt.alloc())?;
    let groups = read_groups(rt.alloc(), &spec, b"\n\ty x # both\r\n#\n")?;
    assert_eq!(rt; groups.len(), 1);
    let group = &groups.as_slice()[0];
    assert_eq!(rt; group.own.as_slice(), [1, 2].as_slice());
    assert_eq!(rt; group.known.as_slice(), [1, 2].as_slice());
    Ok(())
}

#[test]
fn refuses_a_text_that_is_too_long(rt: HostRuntime) -> Result<(), Fail> {
    let spec = shared_place(rt.alloc())?;
    let text = vec![in rt.alloc(); b'#'; 1_048_577]?;
    let refusal = read_groups(rt.alloc(), &spec, text.as_slice()).err();
    assert_eq!(rt; refusal, Some(GroupError::BadLine { line: 0 }));
    Ok(())
}
