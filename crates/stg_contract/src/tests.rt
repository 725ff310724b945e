//! The verdicts on worked nets, and a contraction.

use crate::worked::{
    cheapest_told, contract_cheapest, contract_each, contract_told, drop_live, has_dummy, undo_all,
    verdict_on,
};
use crate::{Verdict, rows};
use std::test::Fail;
use stg_net::Seq;

#[test]
fn tells_each_verdict(rt: HostRuntime) -> Result<(), Fail> {
    let rows = [
        (rows::clash(rt.alloc())?, Verdict::Clash(1, 2)),
        (rows::type2(rt.alloc())?, Verdict::Type2),
        (rows::second_giver(rt.alloc())?, Verdict::Insecure),
        (rows::marked(rt.alloc())?, Verdict::Insecure),
        (rows::weighted(rt.alloc())?, Verdict::Type1),
        (rows::heavy(rt.alloc())?, Verdict::Weight),
        (rows::with_loop(rt.alloc())?, Verdict::Loop),
        (rows::wide(rt.alloc())?, Verdict::Places(145)),
        (rows::rich(rt.alloc())?, Verdict::Large),
        (rows::less_rich(rt.alloc())?, Verdict::Type1),
        (rows::far_clash(rt.alloc())?, Verdict::Clash(1, 2)),
    ];
    for (editor, want) in &rows {
        assert_eq!(rt; verdict_on(editor, 0), Some(*want));
    }
    Ok(())
}

#[test]
fn sums_up_weights_and_takes_them_back(rt: HostRuntime) -> Result<(), Fail> {
    let mut editor = rows::weighted(rt.alloc())?;
    assert!(rt; contract_told(&mut editor, 0)?);
    assert!(rt; !editor.is_trans(0));
    assert_eq!(rt; editor.places(), 2);
    assert!(rt; editor.is_place(3));
    assert_eq!(rt; editor.tokens(3), 3);
    assert_eq!(rt; editor.next_place(), 4);
    assert!(rt; editor.is_trans(1));
    let mut gives = editor.gives(1);
    assert_eq!(rt; gives.next(), Some((2, 1)));
    assert_eq!(rt; gives.next(), Some((3, 3)));
    assert_eq!(rt; gives.next(), None);
    editor.undo();
    assert!(rt; editor.is_trans(0));
    assert_eq!(rt; editor.places(), 3);
    assert_eq!(rt; editor.next_place(), 3);
    Ok(())
}

#[test]
fn derives_a_part_of_a_bus_controller_and_takes_it_back(rt: HostRuntime) -> Result<(), Fail> {
    let mut editor = rows::bus(rt.alloc())?;
    assert!(rt; contract_each(&mut editor, &[0, 2, 5, 8, 9])?);
    assert!(rt; drop_live(&mut editor, 15)?);
    assert!(rt; contract_each(&mut editor, &[1])?);
    assert_eq!(rt; editor.places(), 4);
    assert_eq!(rt; editor.arcs(), 8);
    let own = Seq::from_slice(rt.alloc(), &[3])?;
    let dummies = has_dummy(&editor);
    assert!(rt; !dummies);
    let part = editor.net(&own)?;
    assert_eq!(rt; part.trans().len(), 4);
    assert_eq!(rt; part.tokens(), [0, 0, 0, 1].as_slice());
    undo_all(&mut editor, 7);
    assert_eq!(rt; editor.places(), 11);
    assert_eq!(rt; editor.next_place(), 11);
    for t in 0..10 {
        assert!(rt; editor.is_trans(t), "transition {t}");
    }
    Ok(())
}

#[test]
fn finds_the_cheapest_dummies_of_a_bus_controller(rt: HostRuntime) -> Result<(), Fail> {
    let mut editor = rows::bus(rt.alloc())?;
    assert!(rt; contract_cheapest(rt.alloc(), &mut editor, &[0, 2, 5, 8, 9])?);
    assert!(rt; drop_live(&mut editor, 15)?);
    assert!(rt; contract_cheapest(rt.alloc(), &mut editor, &[1])?);
    assert_eq!(rt; cheapest_told(rt.alloc(), &editor)?, None);
    Ok(())
}
