//! What is found in worked nets.

use crate::worked::{contract_each, next_told};
use crate::{
    DummyFound, DummyRule, PlaceFound, PlaceRule, PlaceWatch, has_other_near, is_link, near_places,
    redundant_dummy, redundant_place, rows,
};
use std::test::Fail;

#[test]
fn finds_the_greatest_redundant_place(rt: HostRuntime) -> Result<(), Fail> {
    let rows = [
        (rows::chain(rt.alloc())?, 1, PlaceRule::Shortcut),
        (rows::first_marked(rt.alloc())?, 0, PlaceRule::Same(1)),
        (rows::both_empty(rt.alloc())?, 1, PlaceRule::Same(0)),
        (rows::loop_place(rt.alloc())?, 1, PlaceRule::Loop),
    ];
    for (editor, place, rule) in &rows {
        let want = PlaceFound {
            place: *place,
            rule: *rule,
        };
        assert_eq!(rt; redundant_place(rt.alloc(), editor)?, Some(want));
    }
    Ok(())
}

#[test]
fn finds_the_greatest_redundant_dummy(rt: HostRuntime) -> Result<(), Fail> {
    let rows = [
        (rows::same_dummies(rt.alloc())?, 2, DummyRule::Same(0)),
        (rows::loop_dummy(rt.alloc())?, 0, DummyRule::Loop),
    ];
    for (editor, trans, rule) in &rows {
        let want = DummyFound {
            trans: *trans,
            rule: *rule,
        };
        assert_eq!(rt; redundant_dummy(editor), Some(want));
        assert_eq!(rt; next_told(rt.alloc(), editor)?, Some(want));
    }
    Ok(())
}

#[test]
fn finds_nothing_in_a_c_element(rt: HostRuntime) -> Result<(), Fail> {
    let editor = rows::c_element(rt.alloc())?;
    assert_eq!(rt; redundant_place(rt.alloc(), &editor)?, None);
    assert_eq!(rt; redundant_dummy(&editor), None);
    assert_eq!(rt; next_told(rt.alloc(), &editor)?, None);
    Ok(())
}

#[test]
fn finds_a_place_that_contractions_made(rt: HostRuntime) -> Result<(), Fail> {
    let mut editor = rows::bus(rt.alloc())?;
    assert!(rt; contract_each(&mut editor, &[0, 2, 5, 8, 9])?);
    let want = PlaceFound {
        place: 15,
        rule: PlaceRule::Shortcut,
    };
    assert_eq!(rt; redundant_place(rt.alloc(), &editor)?, Some(want));
    Ok(())
}

#[test]
fn watches_what_is_in_reach(rt: HostRuntime) -> Result<(), Fail> {
    let rows = [
        (rows::chain(rt.alloc())?, 3, false),
        (rows::c_element(rt.alloc())?, 2, false),
        (rows::both_empty(rt.alloc())?, 2, false),
    ];
    for (editor, near, other) in &rows {
        let mut watch = PlaceWatch::of(rt.alloc(), editor)?;
        if editor.is_trans(0) {
            let places = near_places(rt.alloc(), editor, 0)?;
            assert_eq!(rt; places.len(), *near);
            assert_eq!(rt; has_other_near(editor, 0), *other);
            watch.add_after_deletion(editor, &places)?;
        }
        watch.add_after_contraction(editor, 0, true)?;
        assert!(rt; is_link(editor, 0));
    }
    Ok(())
}
