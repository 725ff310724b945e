//! The editor: a graph under work, and its earlier drafts.

ghost use Rattle.std.specs.Prelude.{◌≡◌, ◌≢◌, ◌<◌, ◌≤◌, ◌↔◌, ◌+◌, ◌-◌, ◌^◌, ◌++◌, ◌∷◌, [], ℕ, Some, length, map, min, All, AllPairs, IfOk, OnOk, OnErr, IsTrue};
ghost use Rattle.stg_net.specs.declared.limits.TheConstants.Limits.{PART};
ghost use Rattle.stg_net.specs.declared.signal.Signal.{Signal as ThisSignal};
ghost use Rattle.stg_net.specs.Net.{IsNet, IsWithin, signal_at};
ghost use Rattle.stg_net.specs.Initial.{initial};
ghost use Rattle.stg_net.specs.Contraction.{without_place, without_trans, contracted, pairs_round};
ghost use Rattle.stg_net.specs.Graph.{IsPlace, IsTrans, IsDummy, tokens_at, full_name_at, is_among};
ghost use Rattle.stg_edit.specs.Compacted.{IsNetOf};
ghost use Rattle.stg_edit.specs.Drafts.{IsDraft};
ghost use Rattle.stg_edit.specs.inner.Nodes.{IsNode, walk_arcs, without_node};
ghost use Rattle.stg_edit.specs.Walks.{taken_places, given_places, taking_trans, giving_trans};
ghost use Rattle.stg_edit.specs.Counted.{live_places, count_arcs};
ghost use Rattle.stg_edit.specs.Editing.{IsAsMuch, less, one_edit_less, full_name_in};
ghost use Rattle.stg_edit.specs.Replacing.{new_places, new_arcs, IsSmallPair};
ghost use Rattle.stg_edit.specs.Shown.{with_shown};

use crate::build::build;
use crate::compact::{list_arcs, list_names, list_places, list_signals, list_tokens, list_trans};
use crate::edit_start::{EditStart, edit_start};
use crate::pair_places::add_pair_places;
use crate::round::remove_round;
use crate::signals::{copy_signals, known_flags, known_numbers, list_flagged, net_signals};
use crate::size::{Size, size_at, size_from, size_round};
use crate::wear::Wear;
use std::alloc::Global;
use std::marker::Model;
use stg_arena::{Arena, End, Walk, Way};
use stg_net::{Net, NoMemory, Nums, Seq, Signal, TransName};

/// A graph under work. Contracts see it as its draft, the drafts before each edit, what is spare,
/// how many edits were undone, and the signals of the net.
#[derive(Drop)]
pub struct Editor {
    alloc: Global,
    arena: Arena,
    signals: Seq<Signal>,
    names: Seq<TransName>,
    /// The numbers of the known signals, with room for all.
    known: Vec<u32>,
    /// For each signal, whether it is known.
    is_known: Vec<bool>,
    starts: Vec<EditStart>,
    /// What the draft has, and what the drafts before each edit had.
    size: Size,
    sizes: Vec<Size>,
    edit_room: u32,
    first_places: u32,
    undone: u64,
}

impl Model for Editor {
    ghost use Rattle.stg_edit.specs.Editing.{Editing};

    ghost Value = { Editing };

    ghost use Rattle.stg_edit.specs.inner.View.{editing, IsEditor};

    ghost view = { editing };

    ghost invariant = { IsEditor };
}

impl Editor {
    /// Makes the editor of a net in which these signals are known. All is live. Takes time for the
    /// whole net.
    pub fn of(alloc: Global, net: &Net, known: &Nums) -> Result<Editor, NoMemory>
        requires within { IsWithin PART net.now }
        requires in_range { All (λ s. s < length net.now.signals) known.now }
        ensures now { IfOk result (λ e. e.now ≡ initial net.now known.now) }
        ensures past { IfOk result (λ e. e.past ≡ []) }
        ensures undone { IfOk result (λ e. e.undone ≡ 0) }
        ensures signals { IfOk result (λ e. e.signals ≡ net.now.signals) }
        ensures net { IfOk result (λ e. IsNet net.now) }
    {
        let arena = build(alloc, net)?;
        let size = size_from(&arena, 0);
        Ok(Editor {
            alloc,
            arena,
            signals: copy_signals(alloc, net.signals())?,
            names: Seq::from_slice(alloc, net.trans())?,
            known: known_numbers(alloc, net.signals().len(), known.as_slice())?,
            is_known: known_flags(alloc, net.signals().len(), known.as_slice())?,
            starts: Vec::new(alloc),
            size,
            sizes: Vec::new(alloc),
            edit_room: 0,
            first_places: net.tokens().len() as u32,
            undone: 0,
        })
    }

    /// Makes at least so much spare. `NoMemory` comes also where the edits, places or arcs would
    /// altogether pass 32 bits. A list for which there is too little room may be copied.
    pub fn reserve(&mut self, edits: u32, places: u32, arcs: u32) -> Result<(), NoMemory>
        ensures ok { OnOk result
            (IsAsMuch (record { edits = edits; places = places; arcs = arcs }) self.new.spare) }
        ensures spare { IsAsMuch self.old.spare self.new.spare }
        ensures kept { self.new ≡ record self.old { spare = self.new.spare } }
        ensures err { OnErr result (self.new ≡ self.old) }
    {
        let edit_room = self.starts.len() as u64 + edits as u64;
        if edit_room > u32::MAX as u64 {
            return Err(NoMemory);
        }
        self.starts.reserve(edits as usize)?;
        self.sizes.reserve(edits as usize)?;
        self.arena.reserve(places, arcs)?;
        self.edit_room = self.edit_room.max(edit_room as u32);
        Ok(())
    }

    /// Whether the place of that number is live.
    pub fn is_place(&self, p: u32) -> bool
        ensures value { IsTrue result ↔ IsPlace self.now.now p }
        ensures draft { IsDraft self.now }
    {
        self.arena.is_live(End::Place, p)
    }

    /// The tokens of a live place.
    pub fn tokens(&self, p: u32) -> u32
        requires { IsPlace self.now.now p }
        ensures { result ≡ tokens_at self.now.now p }
    {
        self.arena.tokens(p)
    }

    /// Whether the transition of that number is live.
    pub fn is_trans(&self, t: u32) -> bool
        ensures value { IsTrue result ↔ IsTrans self.now.now t }
        ensures draft { IsDraft self.now }
    {
        self.arena.is_live(End::Trans, t)
    }

    /// Whether the signal of a live transition isn't known.
    pub fn is_dummy(&self, t: u32) -> bool
        requires { IsTrans self.now.now t }
        ensures { IsTrue result ↔ IsDummy self.now.now t }
    {
        let name = self.name(t);
        !self.is_known[name.signal as usize]
    }

    /// The name of a live transition, with the number of its signal in the net.
    pub fn name(&self, t: u32) -> TransName
        requires { IsTrans self.now.now t }
        ensures name { full_name_at self.now.now t ≡ Some (full_name_in self.now.signals result) }
        ensures signal { result.signal < length self.now.signals }
    {
        self.names.as_slice()[t as usize]
    }

    /// The places from which a live transition takes, with the weights. The walk takes time
    /// for the arcs of the transition alone.
    pub fn takes(&self, t: u32) -> Walk<'_>
        requires { IsTrans self.now.now t }
        ensures value { result ≡ taken_places self.now.now t }
        ensures live { All (λ x. IsPlace self.now.now x.0) result }
        ensures draft { IsDraft self.now }
    {
        self.walk(End::Trans, Way::Take, t)
    }

    /// The places to which a live transition gives, with the weights. The walk takes time
    /// for the arcs of the transition alone.
    pub fn gives(&self, t: u32) -> Walk<'_>
        requires { IsTrans self.now.now t }
        ensures value { result ≡ given_places self.now.now t }
        ensures live { All (λ x. IsPlace self.now.now x.0) result }
        ensures draft { IsDraft self.now }
    {
        self.walk(End::Trans, Way::Give, t)
    }

    /// The transitions that take from a live place, with the weights. The walk takes time
    /// for the arcs of the place alone.
    pub fn takers(&self, p: u32) -> Walk<'_>
        requires { IsPlace self.now.now p }
        ensures value { result ≡ taking_trans self.now.now p }
        ensures live { All (λ x. IsTrans self.now.now x.0) result }
        ensures draft { IsDraft self.now }
    {
        self.walk(End::Place, Way::Take, p)
    }

    /// The transitions that give to a live place, with the weights. The walk takes time
    /// for the arcs of the place alone.
    pub fn givers(&self, p: u32) -> Walk<'_>
        requires { IsPlace self.now.now p }
        ensures value { result ≡ giving_trans self.now.now p }
        ensures live { All (λ x. IsTrans self.now.now x.0) result }
        ensures draft { IsDraft self.now }
    {
        self.walk(End::Place, Way::Give, p)
    }

    /// The arcs at a live place, or at a live transition, in one direction.
    fn walk(&self, end: End, way: Way, node: u32) -> Walk<'_>
        requires { IsNode end self.now.now node }
        ensures value { result ≡ walk_arcs self.now.now end way node }
        ensures draft { IsDraft self.now }
    {
        Walk::of(&self.arena, end, way, node)
    }

    /// The number of live places. Takes constant time.
    pub fn places(&self) -> u32
        ensures { result ≡ length (live_places self.now.now) }
    {
        self.size.places
    }

    /// The number of arcs, or the last number of 32 bits where there are more. Takes constant time.
    pub fn arcs(&self) -> u32
        ensures { result ≡ min (count_arcs self.now.now) (2 ^ 32 - 1) }
    {
        self.size.arcs.min(u32::MAX as u64) as u32
    }

    /// The number that the next new place gets.
    pub fn next_place(&self) -> u32
        ensures value { result ≡ length self.now.now.places }
        ensures draft { IsDraft self.now }
    {
        self.arena.count_places()
    }

    /// The number of the net's transitions, live or not.
    pub fn all_trans(&self) -> u32
        ensures value { result ≡ length self.now.now.trans }
        ensures draft { IsDraft self.now }
    {
        self.arena.count_trans()
    }

    /// The signals of the net.
    pub fn signals(&self) -> &[Signal]
        ensures value { result.now ≡ self.now.signals }
        ensures names { AllPairs (λ (s t : ThisSignal). s.name ≢ t.name) self.now.signals }
        ensures draft { IsDraft self.now }
    {
        self.signals.as_slice()
    }

    /// Whether the signal of that number is known.
    pub(crate) fn is_known(&self, s: u32) -> bool
        requires { s < length self.now.signals }
        ensures { result ≡ is_among self.now.now.known (signal_at self.now.signals s).name }
    {
        self.is_known[s as usize]
    }

    /// The number of the net's places.
    pub fn first_places(&self) -> u32
        ensures { result ≡ self.now.now.first_places }
    {
        self.first_places
    }

    /// Deletes a place with its arcs. Takes time for these alone.
    pub fn drop_place(&mut self, p: u32)
        requires live { IsPlace self.old.now p }
        requires room { 0 < self.old.spare.edits }
        ensures now { self.new.now ≡ without_place self.old.now p }
        ensures past { self.new.past ≡ self.old.past ++ self.old.now ∷ [] }
        ensures spare { self.new.spare ≡ one_edit_less self.old.spare }
        ensures undone { self.new.undone ≡ self.old.undone }
        ensures signals { self.new.signals ≡ self.old.signals }
    {
        self.delete(End::Place, p);
    }

    /// Deletes a dummy with its arcs. Takes time for these alone.
    pub fn drop_dummy(&mut self, t: u32)
        requires live { IsDummy self.old.now t }
        requires room { 0 < self.old.spare.edits }
        ensures now { self.new.now ≡ without_trans self.old.now t }
        ensures past { self.new.past ≡ self.old.past ++ self.old.now ∷ [] }
        ensures spare { self.new.spare ≡ one_edit_less self.old.spare }
        ensures undone { self.new.undone ≡ self.old.undone }
        ensures signals { self.new.signals ≡ self.old.signals }
    {
        self.delete(End::Trans, t);
    }

    /// Deletes the place, or the transition, with its arcs.
    fn delete(&mut self, end: End, node: u32)
        requires live { IsNode end self.old.now node }
        requires room { 0 < self.old.spare.edits }
        ensures now { self.new.now ≡ without_node end self.old.now node }
        ensures past { self.new.past ≡ self.old.past ++ self.old.now ∷ [] }
        ensures spare { self.new.spare ≡ one_edit_less self.old.spare }
        ensures undone { self.new.undone ≡ self.old.undone }
        ensures signals { self.new.signals ≡ self.old.signals }
    {
        let start = edit_start(&self.arena);
        let removed = size_at(&self.arena, end, node);
        self.arena.remove(end, node);
        self.starts.push_reserved(start);
        self.sizes.push_reserved(self.size);
        self.size = self.size.minus(removed);
    }

    /// Contracts a dummy: it is removed with the places round it, and each pair of a place before
    /// it and a place after it has a new place. Takes time for the arcs of the places that are
    /// removed, and for those of both places of each pair.
    pub fn replace(&mut self, t: u32)
        requires live { IsDummy self.old.now t }
        requires room { 0 < self.old.spare.edits }
        requires places { new_places self.old.now t ≤ self.old.spare.places }
        requires arcs { new_arcs self.old.now t ≤ self.old.spare.arcs }
        requires sums { All (IsSmallPair self.old.now) (pairs_round self.old.now t) }
        ensures now { self.new.now ≡ contracted self.old.now t }
        ensures past { self.new.past ≡ self.old.past ++ self.old.now ∷ [] }
        ensures spare { IsAsMuch
            (less self.old.spare 1 (new_places self.old.now t) (new_arcs self.old.now t))
            self.new.spare }
        ensures undone { self.new.undone ≡ self.old.undone }
        ensures signals { self.new.signals ≡ self.old.signals }
    {
        let start = edit_start(&self.arena);
        let removed = size_round(&self.arena, t);
        add_pair_places(&mut self.arena, t);
        remove_round(&mut self.arena, t);
        self.arena.remove(End::Trans, t);
        let made = size_from(&self.arena, start.places);
        self.starts.push_reserved(start);
        self.sizes.push_reserved(self.size);
        self.size = self.size.plus(made).minus(removed);
    }

    /// Takes the last edit back: the draft before it is the draft again. Takes time for the arcs
    /// that the edit took off and added.
    pub fn undo(&mut self)
        requires { 0 < length self.old.past }
        ensures back { self.old.past ≡ self.new.past ++ self.new.now ∷ [] }
        ensures edits { self.new.spare.edits ≡ self.old.spare.edits + 1 }
        ensures spare { IsAsMuch self.old.spare self.new.spare }
        ensures undone { self.new.undone ≡ min (self.old.undone + 1) (2 ^ 64 - 1) }
        ensures signals { self.new.signals ≡ self.old.signals }
    {
        let start = self.starts.take_last();
        self.arena.revive_to(start.moment);
        self.arena.pop_to(start.cells);
        self.size = self.sizes.take_last();
        self.undone = self.undone.saturating_add(1);
    }

    /// Makes a signal of the net known in the draft and in the drafts before each edit; the known
    /// ones then stand in the net's order. Takes time for the signals of the net.
    pub fn show(&mut self, signal: u32)
        requires { signal < length self.old.signals }
        ensures now { self.new.now ≡ with_shown self.old.signals signal self.old.now }
        ensures past { self.new.past ≡ map (with_shown self.old.signals signal) self.old.past }
        ensures spare { self.new.spare ≡ self.old.spare }
        ensures undone { self.new.undone ≡ self.old.undone }
        ensures signals { self.new.signals ≡ self.old.signals }
    {
        self.is_known[signal as usize] = true;
        list_flagged(&mut self.known, self.is_known.as_slice());
    }

    /// Makes the net of the draft: the known signals, where the own ones alone keep their kinds and
    /// the others are inputs, and the live transitions and places. No dummy may be live. Takes time
    /// for each live place with each of the net's transitions.
    pub fn net(&self, own: &Nums) -> Result<Net, NoMemory>
        requires { (t : ℕ) → IsDummy self.now.now t → ⊥ }
        ensures value { IfOk result (λ n. IsNetOf self.now.signals self.now.now own.now n) }
        ensures arcs { IfOk result (λ n. length n.arcs ≡ count_arcs self.now.now) }
    {
        let alloc = self.alloc;
        let kept = list_signals(alloc, self)?;
        let places = list_places(alloc, self)?;
        let trans = list_trans(alloc, self)?;
        let signals = net_signals(alloc, self.signals(), own.as_slice(), kept.as_slice())?;
        let names = list_names(
            alloc,
            self,
            signals.as_slice(),
            kept.as_slice(),
            trans.as_slice(),
        )?;
        let tokens = list_tokens(alloc, self, places.as_slice())?;
        let arcs = list_arcs(alloc, self, places.as_slice(), trans.as_slice())?;
        Ok(Net::of(signals, names, tokens, arcs))
    }

    /// Ends the editor.
    pub fn close(self) -> Wear
        ensures edits { result.edits ≡ length self.past }
        ensures undone { result.undone ≡ self.undone }
    {
        Wear::of(self.starts.len() as u64, self.undone)
    }
}
