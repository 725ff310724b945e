//! Redundant places.

ghost use Rattle.std.specs.Prelude.{◌≡◌, ◌↔◌, length, is_some, IfOk, IsTrue};
ghost use Rattle.stg_net.specs.Graph.{IsPlace, place_at};
ghost use Rattle.stg_laws.specs.RedundantPlaces.{IsShortcut};
ghost use Rattle.stg_edit.specs.Drafts.{IsDraft};
ghost use Rattle.stg_redundant.specs.Levelled.{IsLevelled};
ghost use Rattle.stg_redundant.specs.inner.Tests as tests;
ghost use Rattle.stg_redundant.specs.Rules.{IsPlaceFound};
ghost use Rattle.stg_redundant.specs.inner.Searches.{IsFirst, IsPlaceRuleOf};

use crate::chains::link_at;
use crate::found::{PlaceFound, PlaceRule};
use crate::levels::Levels;
use crate::search::has_chain;
use crate::walks::{are_at_most, are_same, first_of};
use crate::watch::PlaceWatch;
use std::alloc::Global;
use std::collections::BinaryHeap;
use stg_edit::{Editor, Walk};
use stg_net::NoMemory;

/// Whether there is a live place of that number.
pub fn has_place(editor: &Editor, p: u32) -> bool
    ensures { result ≡ is_some (place_at editor.now.now p) }
{
    editor.is_place(p)
}

/// Whether q is another live place with the arcs of p and at most its tokens.
fn is_same(editor: &Editor, p: u32, q: u32) -> bool
    requires { IsPlace editor.now.now p }
    ensures { result ≡ tests.is_same_place editor.now.now p q }
{
    p != q
        && has_place(editor, q)
        && editor.tokens(q) <= editor.tokens(p)
        && are_same(editor.takers(p), editor.takers(q))
        && are_same(editor.givers(p), editor.givers(q))
}

/// The first of these places that has the arcs of p and at most its tokens.
fn first_same(editor: &Editor, p: u32, places: Walk<'_>) -> Option<u32>
    requires { IsPlace editor.now.now p }
    ensures { result ≡ tests.first_in (tests.is_same_place editor.now.now p) places.entry }
{
    for (q, _) in places {
        if is_same(editor, p, q) {
            return Some(q);
        }
    }
    None
}

/// The least of all places that has the arcs of p and at most its tokens.
fn find_same_among_all(editor: &Editor, p: u32) -> Option<u32>
    requires { IsPlace editor.now.now p }
    ensures value { IsFirst (tests.is_same_place editor.now.now p)
        (length editor.now.now.places) result }
    ensures draft { IsDraft editor.now }
{
    for q in 0..editor.next_place() {
        if is_same(editor, p, q) {
            return Some(q);
        }
    }
    None
}

/// The least other place with the arcs of a live place and at most its tokens. It is sought among
/// the places at a transition of p, where p has one.
fn find_same(editor: &Editor, p: u32) -> Option<u32>
    requires { IsPlace editor.now.now p }
    ensures value { IsFirst (tests.is_same_place editor.now.now p)
        (length editor.now.now.places) result }
    ensures draft { IsDraft editor.now }
{
    match first_of(editor.takers(p)) {
        Some(t) => return first_same(editor, p, editor.takes(t)),
        None => {}
    }
    match first_of(editor.givers(p)) {
        Some(t) => return first_same(editor, p, editor.gives(t)),
        None => {}
    }
    find_same_among_all(editor, p)
}

/// Whether each transition gives to a live place what it takes, and the place holds as much.
fn is_loop(editor: &Editor, p: u32) -> bool
    requires { IsPlace editor.now.now p }
    ensures { result ≡ tests.is_loop_place editor.now.now p }
{
    are_same(editor.takers(p), editor.givers(p)) && are_at_most(editor.takers(p), editor.tokens(p))
}

/// Whether a chain of other places leads where a live place leads, with at most its tokens.
fn is_shortcut(
    editor: &Editor,
    levels: &Levels,
    rooms: &mut [u64],
    list: &mut BinaryHeap<(u64, u32)>,
    p: u32,
) -> Result<bool, NoMemory>
    requires draft { IsDraft editor.now }
    requires live { IsPlace editor.now.now p }
    requires levels { IsLevelled editor.now.now levels.now }
    requires rooms { length rooms.old ≡ length editor.now.now.trans }
    ensures value { IfOk result (λ yes. IsTrue yes ↔ IsShortcut editor.now.now p) }
    ensures len { length rooms.new ≡ length rooms.old }
{
    match link_at(editor, p) {
        None => Ok(false),
        Some(link) => {
            if link.giver == link.taker {
                return Ok(false);
            }
            has_chain(editor, levels, rooms, list, link)
        }
    }
}

/// The first rule by which a live place is redundant.
fn rule_of(
    editor: &Editor,
    levels: &Levels,
    rooms: &mut [u64],
    list: &mut BinaryHeap<(u64, u32)>,
    p: u32,
) -> Result<Option<PlaceRule>, NoMemory>
    requires live { IsPlace editor.now.now p }
    requires levels { IsLevelled editor.now.now levels.now }
    requires rooms { length rooms.old ≡ length editor.now.now.trans }
    ensures value { IfOk result (λ rule. IsPlaceRuleOf editor.now.now p rule) }
    ensures len { length rooms.new ≡ length rooms.old }
{
    match find_same(editor, p) {
        Some(q) => return Ok(Some(PlaceRule::Same(q))),
        None => {}
    }
    if is_loop(editor, p) {
        return Ok(Some(PlaceRule::Loop));
    }
    if is_shortcut(editor, levels, rooms, list, p)? {
        return Ok(Some(PlaceRule::Shortcut));
    }
    Ok(None)
}

/// The first rule by which the place of a number is redundant.
pub fn rule_at(
    editor: &Editor,
    levels: &Levels,
    rooms: &mut [u64],
    list: &mut BinaryHeap<(u64, u32)>,
    p: u32,
) -> Result<Option<PlaceRule>, NoMemory>
    requires levels { IsLevelled editor.now.now levels.now }
    requires rooms { length rooms.old ≡ length editor.now.now.trans }
    ensures value { IfOk result (λ rule. IsPlaceRuleOf editor.now.now p rule) }
    ensures len { length rooms.new ≡ length rooms.old }
{
    if has_place(editor, p) {
        return rule_of(editor, levels, rooms, list, p);
    }
    Ok(None)
}

/// The redundant place of greatest number, with its first rule.
pub fn redundant_place(alloc: Global, editor: &Editor) -> Result<Option<PlaceFound>, NoMemory>
    ensures { IfOk result (λ found. IsPlaceFound editor.now.now found) }
{
    let mut watch = PlaceWatch::of(alloc, editor)?;
    watch.next(editor)
}
