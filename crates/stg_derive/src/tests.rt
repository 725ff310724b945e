//! The records, the steps and the sizes of the parts of worked nets.

use crate::{Part, Restore, Secure, Step, rows};
use std::process::Abort;
use std::test::Fail;
use stg_contract::Verdict;
use stg_redundant::{DummyFound, DummyRule, PlaceFound, PlaceRule};

/// The contraction of a dummy that makes one place.
fn contract(trans: u32, secure: Secure) -> Step {
    Step::Contract {
        trans,
        secure,
        places: 1,
    }
}

fn drop_place(place: u32, rule: PlaceRule) -> Step {
    Step::DropPlace(PlaceFound { place, rule })
}

fn drop_dummy(trans: u32, rule: DummyRule) -> Step {
    Step::DropDummy(DummyFound { trans, rule })
}

/// How many signals, transitions and places the part's net has.
fn size(part: &Part) -> (usize, usize, usize) {
    let net = &part.net;
    (net.signals().len(), net.trans().len(), net.tokens().len())
}

/// The part has no records, these steps and this size.
fn assert_steps(
    rt: &impl Abort,
    part: &Part,
    steps: &[Step],
    want: (usize, usize, usize),
) -> Result<(), Fail> {
    assert_eq!(rt; part.restored.len(), 0);
    assert_eq!(rt; part.steps.as_slice(), steps);
    assert_eq!(rt; size(part), want);
    Ok(())
}

/// The part has one record, no steps and this size.
fn assert_restored(
    rt: &impl Abort,
    part: &Part,
    record: (u32, u32, Verdict),
    want: (usize, usize, usize),
) -> Result<(), Fail> {
    let (signal, trans, verdict) = record;
    let restore = Restore {
        signal,
        trans,
        verdict,
    };
    assert_eq!(rt; part.restored.as_slice(), [restore].as_slice());
    assert_eq!(rt; part.steps.len(), 0);
    assert_eq!(rt; size(part), want);
    Ok(())
}

#[test]
fn contracts_the_dummies_of_a_bus_controller(rt: HostRuntime) -> Result<(), Fail> {
    let part = rows::bus(rt.alloc())?;
    let steps = [
        contract(0, Secure::Type1),
        contract(2, Secure::Type1),
        contract(5, Secure::Type1),
        contract(8, Secure::Type1),
        contract(9, Secure::Type1),
        drop_place(15, PlaceRule::Shortcut),
        contract(1, Secure::Type1),
    ];
    assert_steps(&rt, &part, &steps, (2, 4, 4))
}

#[test]
fn drops_a_loop_place_before_a_loop_dummy(rt: HostRuntime) -> Result<(), Fail> {
    let part = rows::handshakes(rt.alloc())?;
    let steps = [
        contract(4, Secure::Type1),
        contract(5, Secure::Type1),
        contract(6, Secure::Type1),
        drop_place(10, PlaceRule::Loop),
        drop_dummy(7, DummyRule::Loop),
    ];
    assert_steps(&rt, &part, &steps, (2, 4, 4))
}

#[test]
fn drops_a_loop_dummy_before_an_unmarked_place(rt: HostRuntime) -> Result<(), Fail> {
    let part = rows::one_marked_handshake(rt.alloc())?;
    let steps = [
        contract(4, Secure::Type1),
        contract(5, Secure::Type1),
        contract(6, Secure::Type1),
        drop_dummy(7, DummyRule::Loop),
        drop_place(10, PlaceRule::Loop),
    ];
    assert_steps(&rt, &part, &steps, (2, 4, 4))
}

#[test]
fn tells_that_a_contraction_is_of_type_2(rt: HostRuntime) -> Result<(), Fail> {
    let part = rows::secure_by_type_2(rt.alloc())?;
    assert_steps(&rt, &part, &[contract(1, Secure::Type2)], (4, 4, 3))
}

#[test]
fn contracts_between_weights(rt: HostRuntime) -> Result<(), Fail> {
    let part = rows::weighted(rt.alloc())?;
    assert_steps(&rt, &part, &[contract(2, Secure::Type1)], (3, 3, 2))
}

#[test]
fn drops_a_shortcut(rt: HostRuntime) -> Result<(), Fail> {
    let part = rows::chain(rt.alloc())?;
    assert_steps(&rt, &part, &[drop_place(1, PlaceRule::Shortcut)], (2, 4, 4))
}

#[test]
fn drops_the_marked_one_of_equal_places(rt: HostRuntime) -> Result<(), Fail> {
    let part = rows::first_marked(rt.alloc())?;
    assert_steps(&rt, &part, &[drop_place(0, PlaceRule::Same(1))], (2, 2, 1))
}

#[test]
fn drops_the_later_of_equal_places(rt: HostRuntime) -> Result<(), Fail> {
    let part = rows::both_empty(rt.alloc())?;
    assert_steps(&rt, &part, &[drop_place(1, PlaceRule::Same(0))], (2, 2, 1))
}

#[test]
fn gives_a_signal_back_for_a_clash(rt: HostRuntime) -> Result<(), Fail> {
    let part = rows::clash(rt.alloc())?;
    assert_restored(&rt, &part, (1, 1, Verdict::Clash(0, 2)), (3, 4, 3))
}

#[test]
fn gives_a_signal_back_for_a_second_giver(rt: HostRuntime) -> Result<(), Fail> {
    let part = rows::second_giver(rt.alloc())?;
    assert_restored(&rt, &part, (3, 1, Verdict::Insecure), (5, 5, 4))
}

#[test]
fn gives_a_signal_back_for_a_marked_place(rt: HostRuntime) -> Result<(), Fail> {
    let part = rows::marked_after(rt.alloc())?;
    assert_restored(&rt, &part, (3, 1, Verdict::Insecure), (5, 5, 4))
}

#[test]
fn gives_a_signal_back_for_a_weight(rt: HostRuntime) -> Result<(), Fail> {
    let part = rows::heavy(rt.alloc())?;
    assert_restored(&rt, &part, (2, 2, Verdict::Weight), (4, 4, 3))
}

#[test]
fn gives_a_signal_back_for_a_loop(rt: HostRuntime) -> Result<(), Fail> {
    let part = rows::with_loop(rt.alloc())?;
    assert_restored(&rt, &part, (2, 1, Verdict::Loop), (4, 4, 4))
}

#[test]
fn gives_a_signal_back_for_the_bound_on_places(rt: HostRuntime) -> Result<(), Fail> {
    let part = rows::wide(rt.alloc())?;
    assert_restored(&rt, &part, (24, 1, Verdict::Places(145)), (26, 26, 25))
}

/// How many steps the part's editor has made and not undone, and how many it has undone.
fn wear(part: &Part) -> (u64, u64) {
    (part.wear.edits(), part.wear.undone())
}

#[test]
fn keeps_the_steps_that_stay(rt: HostRuntime) -> Result<(), Fail> {
    let part = rows::clash_beside_a_step_that_stays(rt.alloc())?;
    let restore = Restore {
        signal: 1,
        trans: 1,
        verdict: Verdict::Clash(0, 2),
    };
    assert_eq!(rt; part.restored.as_slice(), [restore].as_slice());
    let steps = [contract(4, Secure::Type1), drop_place(5, PlaceRule::Loop)];
    assert_eq!(rt; part.steps.as_slice(), steps.as_slice());
    assert_eq!(rt; size(&part), (3, 4, 3));
    assert_eq!(rt; wear(&part), (2, 0));
    Ok(())
}

#[test]
fn undoes_a_contraction_and_the_deletion_of_a_twin(rt: HostRuntime) -> Result<(), Fail> {
    let part = rows::clash_of_the_shown_signal(rt.alloc())?;
    let restored = [
        Restore {
            signal: 1,
            trans: 0,
            verdict: Verdict::Weight,
        },
        Restore {
            signal: 2,
            trans: 1,
            verdict: Verdict::Clash(0, 2),
        },
    ];
    assert_eq!(rt; part.restored.as_slice(), restored.as_slice());
    assert_eq!(rt; part.steps.len(), 0);
    assert_eq!(rt; size(&part), (4, 5, 4));
    assert_eq!(rt; wear(&part), (0, 2));
    Ok(())
}
