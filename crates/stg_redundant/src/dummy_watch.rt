//! Watched dummies, among which redundant ones are sought.

ghost use Rattle.std.specs.Prelude.{◌≡◌, ◌<◌, ◌≤◌, ◌↔◌, ℕ, Bool, Option, All, Contains, IsTrue, IfOk, IfSome, OnOk, OnErr, None, Some, true, false, length, slice_set};
ghost use Rattle.std.specs.BinaryHeap.{heap_items, IsHeap};
ghost use Rattle.std.specs.Ordering.{nat_cmp};
ghost use Rattle.stg_net.specs.Graph.{IsPlace, IsTrans, IsDummy};
ghost use Rattle.stg_laws.specs.RedundantDummies.{IsRedundantDummy, IsSameDummy};
ghost use Rattle.stg_contract.specs.Neighbours.{HasArc};
ghost use Rattle.stg_contract.specs.inner.Watches.{HasNumber};
ghost use Rattle.stg_redundant.specs.Rules.{IsDummyFound};
ghost use Rattle.stg_redundant.specs.FlaggedDummies.{IsFlagged, FlagsRedundant, DropsUseful, FlagsMore, IsFlaggedWithSame};
ghost use Rattle.stg_redundant.specs.inner.Searches.{IsDummyRuleOf};
ghost use Rattle.stg_redundant.specs.inner.Flagging.{AreWaiting};
ghost use Rattle.stg_redundant.specs.inner.Tests as tests;

use crate::dummies::{is_dummy, is_same, rule_of};
use crate::found::{DummyFound, DummyRule};
use crate::walks::first_of;
use std::alloc::Global;
use std::collections::BinaryHeap;
use std::marker::Model;
use stg_edit::{Editor, Walk};
use stg_net::NoMemory;

/// The first rule for a number, where it is that of a redundant dummy.
fn rule_at(editor: &Editor, t: u32) -> Option<DummyRule>
    ensures { IsDummyRuleOf editor.now.now t result }
{
    if !is_dummy(editor, t) {
        return None;
    }
    rule_of(editor, t)
}

/// The greatest redundant dummy of those that wait. Greater ones that wait are dropped.
fn find_greatest(
    editor: &Editor,
    flags: &mut [bool],
    waiting: &mut BinaryHeap<u32>,
) -> Option<DummyFound>
    requires heap { IsHeap nat_cmp (heap_items waiting.old) }
    requires waiting { AreWaiting flags.old (heap_items waiting.old) }
    requires watched { FlagsRedundant editor.now.now flags.old }
    ensures found { IsDummyFound editor.now.now result }
    ensures kept { DropsUseful editor.now.now flags.old flags.new }
    ensures waiting { AreWaiting flags.new (heap_items waiting.new) }
    ensures heap { IsHeap nat_cmp (heap_items waiting.new) }
{
    loop {
        let t = match waiting.peek() {
            None => return None,
            Some(t) => *t,
        };
        match rule_at(editor, t) {
            Some(rule) => return Some(DummyFound { trans: t, rule }),
            None => {
                let _ = waiting.pop();
                flags[t as usize] = false;
            }
        }
    }
}

/// Numbers of transitions, among which redundant dummies are sought. Contracts see for each
/// transition whether it is watched.
#[derive(Drop)]
pub struct RedundantWatch {
    flags: Vec<bool>,
    // Each number that is watched, the greatest first.
    waiting: BinaryHeap<u32>,
}

impl Model for RedundantWatch {
    ghost use Rattle.std.specs.Prelude.{List, Bool};
    ghost use Rattle.std.specs.BinaryHeap.{heap_items, IsHeap};
    ghost use Rattle.std.specs.Ordering.{nat_cmp};
    ghost use Rattle.stg_redundant.specs.inner.Flagging.{AreWaiting};

    ghost Value = { List Bool };

    ghost view = { λ w. w.flags.items };

    ghost invariant = { λ w. AreWaiting w.flags.items (heap_items w.waiting)
        × IsHeap nat_cmp (heap_items w.waiting) };
}

impl RedundantWatch {
    /// Watches each live dummy.
    pub fn of(alloc: Global, editor: &Editor) -> Result<RedundantWatch, NoMemory>
        ensures long { IfOk result (λ w. length w ≡ length editor.now.now.trans) }
        ensures watched { IfOk result (λ w. (t : ℕ) → IsDummy editor.now.now t → IsFlagged w t) }
        ensures only { IfOk result (λ w. (t : ℕ) → IsFlagged w t → IsDummy editor.now.now t) }
    {
        let all = editor.all_trans();
        let mut watch = RedundantWatch {
            flags: vec![in alloc; false; all as usize]?,
            waiting: BinaryHeap::new(alloc),
        };
        for t in 0..all {
            if is_dummy(editor, t) {
                watch.add(t)?;
            }
        }
        Ok(watch)
    }

    /// Watches a transition.
    pub fn add(&mut self, t: u32) -> Result<(), NoMemory>
        requires { t < length self.old }
        ensures ok { OnOk result (self.new ≡ slice_set self.old t true) }
        ensures err { OnErr result (self.new ≡ self.old) }
    {
        if self.flags[t as usize] {
            return Ok(());
        }
        self.waiting.push(t)?;
        self.flags[t as usize] = true;
        Ok(())
    }

    /// Watches those of these transitions that are redundant dummies now, and the dummies that are
    /// the same as one of them. After an error some of them may not be watched.
    pub fn add_each(&mut self, editor: &Editor, trans: &[u32]) -> Result<(), NoMemory>
        requires long { length self.old ≡ length editor.now.now.trans }
        ensures added { OnOk result ((v : ℕ) → Contains trans.now v
            → IsFlaggedWithSame editor.now.now self.new v) }
        ensures kept { FlagsMore self.old self.new }
    {
        for v in trans {
            add_redundant(self, editor, *v)?;
        }
        Ok(())
    }

    /// Gives the redundant dummy of greatest number, with its first rule, where each redundant
    /// dummy is watched. It no longer watches greater numbers.
    pub fn next(&mut self, editor: &Editor) -> Option<DummyFound>
        requires { FlagsRedundant editor.now.now self.old }
        ensures found { IsDummyFound editor.now.now result }
        ensures kept { DropsUseful editor.now.now self.old self.new }
    {
        find_greatest(editor, &mut self.flags, &mut self.waiting)
    }
}

/// Watches u, where it is the same as the dummy v.
fn add_same_at(watch: &mut RedundantWatch, editor: &Editor, v: u32, u: u32) -> Result<(), NoMemory>
    requires live { IsTrans editor.now.now v }
    requires below { u < length watch.old }
    ensures added { OnOk result (tests.is_same_dummy editor.now.now v u ≡ true
        → IsFlagged watch.new u) }
    ensures kept { FlagsMore watch.old watch.new }
{
    if is_same(editor, v, u) {
        return watch.add(u);
    }
    Ok(())
}

/// Watches those of a walk that are the same as the dummy v.
fn add_all_same(
    watch: &mut RedundantWatch,
    editor: &Editor,
    v: u32,
    trans: Walk<'_>,
) -> Result<(), NoMemory>
    requires live { IsTrans editor.now.now v }
    requires below { All (λ x. x.0 < length watch.old) trans }
    ensures added { OnOk result ((u : ℕ) → HasNumber u trans.entry
        → tests.is_same_dummy editor.now.now v u ≡ true → IsFlagged watch.new u) }
    ensures kept { FlagsMore watch.old watch.new }
{
    for (u, _) in trans {
        add_same_at(watch, editor, v, u)?;
    }
    Ok(())
}

/// Watches the dummies that are the same as the dummy v, where it has an arc. They are among the
/// transitions at its first place.
fn add_same(watch: &mut RedundantWatch, editor: &Editor, v: u32) -> Result<(), NoMemory>
    requires dummy { IsDummy editor.now.now v }
    requires long { length watch.old ≡ length editor.now.now.trans }
    ensures added { OnOk result ((u p : ℕ) → HasArc editor.now.now v p
        → IsSameDummy editor.now.now u v → IsFlagged watch.new u) }
    ensures kept { FlagsMore watch.old watch.new }
{
    match first_of(editor.takes(v)) {
        Some(p) => {
            add_all_same(watch, editor, v, editor.takers(p))?;
            return Ok(());
        }
        None => {}
    }
    match first_of(editor.gives(v)) {
        Some(p) => add_all_same(watch, editor, v, editor.givers(p))?,
        None => {}
    }
    Ok(())
}

/// Watches a transition, where it is a redundant dummy, and the dummies that are the same.
fn add_redundant(watch: &mut RedundantWatch, editor: &Editor, v: u32) -> Result<(), NoMemory>
    requires long { length watch.old ≡ length editor.now.now.trans }
    ensures added { OnOk result (IsFlaggedWithSame editor.now.now watch.new v) }
    ensures kept { FlagsMore watch.old watch.new }
{
    match rule_at(editor, v) {
        None => return Ok(()),
        Some(_) => watch.add(v)?,
    }
    add_same(watch, editor, v)
}
