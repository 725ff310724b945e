//! What is watched again after an edit.

ghost use Rattle.std.specs.Prelude.{◌≡◌, ◌↔◌, ℕ, Contains, IfOk, OnOk, IsTrue, true};
ghost use Rattle.stg_net.specs.Graph.{IsPlace, IsTrans};
ghost use Rattle.stg_redundant.specs.inner.Chains.{IsAmong};
ghost use Rattle.stg_redundant.specs.inner.Tests as tests;
ghost use Rattle.stg_redundant.specs.Watching.{IsNearPlace, IsNewPlace, IsLinkPlace, IsInReach, HasLinkAmong, HasOtherAmong, HasNoneBesides, HasBesides};

use crate::chains::link_at;
use crate::places::has_place;
use crate::walks::{are_same, first_of};
use crate::watch::PlaceWatch;
use std::alloc::Global;
use stg_edit::{Editor, Walk};
use stg_net::NoMemory;

/// Whether the place of a number is live, and one transition gives to it and one takes from it,
/// both with weight 1.
pub fn is_link(editor: &Editor, p: u32) -> bool
    ensures { IsTrue result ↔ IsLinkPlace editor.now.now p }
{
    if editor.is_place(p) {
        return link_at(editor, p).is_some();
    }
    false
}

/// Whether one of the places is no link.
fn has_other(editor: &Editor, places: Walk<'_>) -> bool
    ensures { IsTrue result ↔ HasOtherAmong editor.now.now (λ p. IsAmong p places.entry) }
{
    for (p, _) in places {
        if !is_link(editor, p) {
            return true;
        }
    }
    false
}

/// Whether a place near a live transition is no link. Takes time for its arcs.
pub fn has_other_near(editor: &Editor, t: u32) -> bool
    requires { IsTrans editor.now.now t }
    ensures { IsTrue result ↔ HasOtherAmong editor.now.now (IsNearPlace editor.now.now t) }
{
    has_other(editor, editor.takes(t)) || has_other(editor, editor.gives(t))
}

/// Adds the numbers of a walk to a list.
pub fn push_all(list: &mut Vec<u32>, places: Walk<'_>) -> Result<(), NoMemory>
    ensures { OnOk result
        (HasBesides (λ p. IsAmong p places.entry) list.old.items list.new.items) }
{
    for (p, _) in places {
        list.push(p)?;
    }
    Ok(())
}

/// The places near a live transition.
pub fn near_places(alloc: Global, editor: &Editor, t: u32) -> Result<Vec<u32>, NoMemory>
    requires { IsTrans editor.now.now t }
    ensures { IfOk result (λ near. (p : ℕ) →
        Contains near.items p ↔ IsNearPlace editor.now.now t p) }
{
    let mut near = Vec::new(alloc);
    push_all(&mut near, editor.takes(t))?;
    push_all(&mut near, editor.gives(t))?;
    Ok(near)
}

/// Whether one of the places is a link.
fn has_link(editor: &Editor, places: &[u32]) -> bool
    ensures { IsTrue result ↔ HasLinkAmong editor.now.now (Contains places.now) }
{
    for p in places {
        if is_link(editor, *p) {
            return true;
        }
    }
    false
}

/// Whether a place from that number on is a link.
fn has_new_link(editor: &Editor, first: u32) -> bool
    ensures { IsTrue result ↔ HasLinkAmong editor.now.now (IsNewPlace first) }
{
    for p in first..editor.next_place() {
        if is_link(editor, p) {
            return true;
        }
    }
    false
}

/// Whether a place from that number on is a link, and a place near the transition was none.
fn do_links_count(editor: &Editor, first: u32, had_other: bool) -> bool
    ensures { IsTrue result
        ↔ (HasLinkAmong editor.now.now (IsNewPlace first) × IsTrue had_other) }
{
    had_other && has_new_link(editor, first)
}

/// Whether q is live and has the arcs of the live place p.
fn has_arcs_of(editor: &Editor, p: u32, q: u32) -> bool
    requires { IsPlace editor.now.now p }
    ensures { result ≡ tests.has_arcs_of editor.now.now p q }
{
    has_place(editor, q)
        && are_same(editor.takers(p), editor.takers(q))
        && are_same(editor.givers(p), editor.givers(q))
}

impl PlaceWatch {
    /// Watches q, where it has the arcs of p.
    fn add_same_at(&mut self, editor: &Editor, p: u32, q: u32) -> Result<(), NoMemory>
        requires { IsPlace editor.now.now p }
        ensures ok { OnOk result (HasBesides
            (λ r. (r ≡ q) × (tests.has_arcs_of editor.now.now p r ≡ true)) self.old self.new) }
        ensures kept { HasNoneBesides self.new self.old }
    {
        if has_arcs_of(editor, p, q) {
            return self.add(q);
        }
        Ok(())
    }

    /// Watches those of the places that have the arcs of p.
    fn add_same(&mut self, editor: &Editor, p: u32, places: Walk<'_>) -> Result<(), NoMemory>
        requires { IsPlace editor.now.now p }
        ensures ok { OnOk result (HasBesides
            (λ q. IsAmong q places.entry × (tests.has_arcs_of editor.now.now p q ≡ true))
            self.old self.new) }
        ensures kept { HasNoneBesides self.new self.old }
    {
        for (q, _) in places {
            self.add_same_at(editor, p, q)?;
        }
        Ok(())
    }

    /// Watches a place, where it is live, and those with its arcs. Takes time for the arcs at the
    /// places of one transition of it. After a refusal what was watched still is.
    pub fn add_near(&mut self, editor: &Editor, p: u32) -> Result<(), NoMemory>
        ensures ok { OnOk result
            (HasBesides (IsInReach editor.now.now (λ r. r ≡ p) ⊥) self.old self.new) }
        ensures kept { HasNoneBesides self.new self.old }
    {
        if !editor.is_place(p) {
            return Ok(());
        }
        self.add(p)?;
        match first_of(editor.takers(p)) {
            Some(t) => return self.add_same(editor, p, editor.takes(t)),
            None => {}
        }
        match first_of(editor.givers(p)) {
            Some(t) => self.add_same(editor, p, editor.gives(t)),
            None => Ok(()),
        }
    }

    /// Watches a place, where it is a link.
    fn add_link_at(&mut self, editor: &Editor, p: u32) -> Result<(), NoMemory>
        ensures ok { OnOk result
            (HasBesides (λ q. (q ≡ p) × IsLinkPlace editor.now.now q) self.old self.new) }
        ensures kept { HasNoneBesides self.new self.old }
    {
        if is_link(editor, p) {
            return self.add(p);
        }
        Ok(())
    }

    /// Watches all links, in time for all places. After a refusal what was watched still is.
    pub fn add_links(&mut self, editor: &Editor) -> Result<(), NoMemory>
        ensures ok { OnOk result (HasBesides (IsLinkPlace editor.now.now) self.old self.new) }
        ensures kept { HasNoneBesides self.new self.old }
    {
        for p in 0..editor.next_place() {
            self.add_link_at(editor, p)?;
        }
        Ok(())
    }

    /// Watches these places, where they are live, and those with their arcs.
    fn add_each(&mut self, editor: &Editor, places: &[u32]) -> Result<(), NoMemory>
        ensures ok { OnOk result
            (HasBesides (IsInReach editor.now.now (Contains places.now) ⊥) self.old self.new) }
        ensures kept { HasNoneBesides self.new self.old }
    {
        for p in places {
            self.add_near(editor, *p)?;
        }
        Ok(())
    }

    /// Watches the live places from that number on, and those with their arcs.
    fn add_new(&mut self, editor: &Editor, first: u32) -> Result<(), NoMemory>
        ensures ok { OnOk result
            (HasBesides (IsInReach editor.now.now (IsNewPlace first) ⊥) self.old self.new) }
        ensures kept { HasNoneBesides self.new self.old }
    {
        for p in first..editor.next_place() {
            self.add_near(editor, p)?;
        }
        Ok(())
    }

    /// After a transition was deleted near these places: watches those that are live, those with
    /// their arcs, and, where one of them is a link now, all links. After a refusal what was
    /// watched still is.
    pub fn add_after_deletion(&mut self, editor: &Editor, near: &[u32]) -> Result<(), NoMemory>
        ensures ok { OnOk result (HasBesides
            (IsInReach editor.now.now (Contains near.now)
            (HasLinkAmong editor.now.now (Contains near.now))) self.old self.new) }
        ensures kept { HasNoneBesides self.new self.old }
    {
        self.add_each(editor, near)?;
        if has_link(editor, near) {
            return self.add_links(editor);
        }
        Ok(())
    }

    /// After a contraction whose new places have the numbers from `first` on: watches those that
    /// are live, those with their arcs, and, where one of them is a link and `had_other`, which
    /// tells whether a place near the contracted transition was none, all links. After a refusal
    /// what was watched still is.
    pub fn add_after_contraction(
        &mut self,
        editor: &Editor,
        first: u32,
        had_other: bool,
    ) -> Result<(), NoMemory>
        ensures ok { OnOk result (HasBesides
            (IsInReach editor.now.now (IsNewPlace first)
            (HasLinkAmong editor.now.now (IsNewPlace first) × IsTrue had_other))
            self.old self.new) }
        ensures kept { HasNoneBesides self.new self.old }
    {
        self.add_new(editor, first)?;
        if do_links_count(editor, first, had_other) {
            return self.add_links(editor);
        }
        Ok(())
    }
}
