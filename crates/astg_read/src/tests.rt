//! That texts are read and refused.

use crate::{ReadError, Rule, read_part, read_spec};
use std::test::Fail;

#[test]
fn reads_a_text(rt: HostRuntime) -> Result<(), Fail> {
    let text =
        b".name t\r\n.inputs a # in\n.outputs x\n.graph\na+ x+ p(2)\np x-\n.marking {\n<a+ , x+> = 2 p }\n.end here\n\x01";
    let spec = read_spec(rt.alloc(), text)?;
    assert_eq!(rt; spec.net().trans().len(), 3);
    assert_eq!(rt; spec.net().tokens(), [2, 1].as_slice());
    assert_eq!(rt; spec.net().arcs().len(), 4);
    Ok(())
}

#[test]
fn refuses_by_line_and_rule(rt: HostRuntime) -> Result<(), Fail> {
    let table: [(&[u8], Rule, u32); 4] = [
        (b"", Rule::NoGraph, 1),
        (b".inputs a\n.graph\np q\n.end\n", Rule::BadArc, 3),
        (b".dummy e", Rule::HasDummy, 1),
        (b".graph\n.marking {\n.end\n", Rule::BadMarking, 3),
    ];
    for (text, rule, line) in table {
        let refused = ReadError::Refused { rule, line };
        assert_eq!(rt; read_spec(rt.alloc(), text).err(), Some(refused));
    }
    Ok(())
}

#[test]
fn reads_a_part_within_its_own_limits(rt: HostRuntime) -> Result<(), Fail> {
    let text = b".model part1\n.outputs x\n.graph\nx+ p1(1001)\np1\n.marking { p1=1001 }\n.end\n";
    assert_eq!(rt; read_part(rt.alloc(), text)?.tokens(), [1001].as_slice());
    let refused = ReadError::Refused {
        rule: Rule::BadWeight,
        line: 4,
    };
    assert_eq!(rt; read_spec(rt.alloc(), text).err(), Some(refused));
    Ok(())
}
