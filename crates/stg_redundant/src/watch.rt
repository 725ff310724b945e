//! Watched places, among which redundant ones are sought.

ghost use Rattle.std.specs.Prelude.{◌≡◌, ◌<◌, ◌-◌, ◌↔◌, ℕ, length, slice_get, IfOk, OnOk, OnErr};
ghost use Rattle.std.specs.List.Sorted.{IsStrictlyIncreasing};
ghost use Rattle.stg_edit.specs.Counted.{live_places};
ghost use Rattle.stg_redundant.specs.Levelled.{IsLevelled};
ghost use Rattle.stg_redundant.specs.Rules.{IsPlaceFound};
ghost use Rattle.stg_redundant.specs.Watching.{AreWatched, KeepsRedundant, HasNoneBesides, HasBesides};

use crate::found::PlaceFound;
use crate::levels::Levels;
use crate::places::{has_place, rule_at};
use std::alloc::Global;
use std::collections::BinaryHeap;
use std::marker::Model;
use stg_edit::Editor;
use stg_net::NoMemory;

/// Numbers of places. Contracts see them as an ascending list.
#[derive(Drop)]
pub struct PlaceWatch {
    alloc: Global,
    numbers: Vec<u32>,
    /// What the searches for chains use.
    rooms: Vec<u64>,
    list: BinaryHeap<(u64, u32)>,
}

impl Model for PlaceWatch {
    ghost use Rattle.std.specs.Prelude.{List, ℕ};
    ghost use Rattle.std.specs.List.Sorted.{IsStrictlyIncreasing};

    ghost Value = { List ℕ };

    ghost view = { λ w. w.numbers.items };

    ghost invariant = { λ w. IsStrictlyIncreasing w.numbers.items };
}

impl PlaceWatch {
    /// Watches every live place.
    pub fn of(alloc: Global, editor: &Editor) -> Result<PlaceWatch, NoMemory>
        ensures { IfOk result (λ w. w ≡ live_places editor.now.now) }
    {
        Ok(PlaceWatch {
            alloc,
            numbers: list_places(alloc, editor)?,
            rooms: vec![in alloc; 0u64; editor.all_trans() as usize]?,
            list: BinaryHeap::new(alloc),
        })
    }

    /// Watches a place besides.
    pub fn add(&mut self, p: u32) -> Result<(), NoMemory>
        ensures ok { OnOk result (HasBesides (λ q. q ≡ p) self.old self.new) }
        ensures err { OnErr result (self.new ≡ self.old) }
        ensures kept { HasNoneBesides self.new self.old }
    {
        insert(&mut self.numbers, p)
    }

    /// The redundant place of greatest number, with its first rule, where each redundant place is
    /// watched. Watched places of greater numbers are dropped. Finds levels first, in time for the
    /// whole draft.
    pub fn next(&mut self, editor: &Editor) -> Result<Option<PlaceFound>, NoMemory>
        requires watched { AreWatched editor.now.now self.old }
        ensures value { IfOk result (λ found. IsPlaceFound editor.now.now found) }
        ensures kept { KeepsRedundant editor.now.now self.old self.new }
        ensures dropped { HasNoneBesides self.old self.new }
    {
        let levels = Levels::of(self.alloc, editor)?;
        self.next_levelled(editor, &levels)
    }

    /// The same, with levels of the draft. Takes time for the watched places that are dropped and
    /// the one that is found alone.
    pub fn next_levelled(
        &mut self,
        editor: &Editor,
        levels: &Levels,
    ) -> Result<Option<PlaceFound>, NoMemory>
        requires watched { AreWatched editor.now.now self.old }
        requires levels { IsLevelled editor.now.now levels.now }
        ensures value { IfOk result (λ found. IsPlaceFound editor.now.now found) }
        ensures kept { KeepsRedundant editor.now.now self.old self.new }
        ensures dropped { HasNoneBesides self.old self.new }
    {
        self.rooms.resize(editor.all_trans() as usize, 0)?;
        find_last(
            editor,
            levels,
            &mut self.rooms,
            &mut self.list,
            &mut self.numbers,
        )
    }
}

/// The live places.
fn list_places(alloc: Global, editor: &Editor) -> Result<Vec<u32>, NoMemory>
    ensures value { IfOk result (λ list. list.items ≡ live_places editor.now.now) }
    ensures ascending { IfOk result (λ list. IsStrictlyIncreasing list.items) }
{
    let mut list = Vec::with_capacity(alloc, editor.places() as usize)?;
    for p in 0..editor.next_place() {
        if has_place(editor, p) {
            list.push(p)?;
        }
    }
    Ok(list)
}

/// Puts a number at its place in an ascending list.
fn insert(numbers: &mut Vec<u32>, p: u32) -> Result<(), NoMemory>
    requires ascending { IsStrictlyIncreasing numbers.old.items }
    ensures ok { OnOk result (HasBesides (λ q. q ≡ p) numbers.old.items numbers.new.items) }
    ensures ascending { IsStrictlyIncreasing numbers.new.items }
    ensures err { OnErr result (numbers.new.items ≡ numbers.old.items) }
    ensures kept { HasNoneBesides numbers.new.items numbers.old.items }
{
    match numbers.binary_search(&p) {
        Ok(_) => Ok(()),
        Err(at) => {
            numbers.insert(at, p)?;
            Ok(())
        }
    }
}

/// The last of the numbers that is of a redundant place, with its first rule. Those after it are
/// dropped.
fn find_last(
    editor: &Editor,
    levels: &Levels,
    rooms: &mut [u64],
    list: &mut BinaryHeap<(u64, u32)>,
    numbers: &mut Vec<u32>,
) -> Result<Option<PlaceFound>, NoMemory>
    requires watched { AreWatched editor.now.now numbers.old.items }
    requires ascending { IsStrictlyIncreasing numbers.old.items }
    requires levels { IsLevelled editor.now.now levels.now }
    requires rooms { length rooms.old ≡ length editor.now.now.trans }
    ensures value { IfOk result (λ found. IsPlaceFound editor.now.now found) }
    ensures kept { KeepsRedundant editor.now.now numbers.old.items numbers.new.items }
    ensures dropped { HasNoneBesides numbers.old.items numbers.new.items }
    ensures ascending { IsStrictlyIncreasing numbers.new.items }
{
    while let Some(p) = last_of(numbers) {
        match rule_at(editor, levels, rooms, list, p)? {
            Some(rule) => return Ok(Some(PlaceFound { place: p, rule })),
            None => {
                numbers.pop();
            }
        }
    }
    Ok(None)
}

/// The last of the numbers.
fn last_of(numbers: &[u32]) -> Option<u32>
    ensures { result ≡ slice_get numbers.now (length numbers.now - 1) }
{
    match numbers {
        [] => None,
        [.., last] => Some(*last),
    }
}
