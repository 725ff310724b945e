//! A watch of dummies, which finds the cheapest candidate without a look at all.

ghost use Rattle.std.specs.Prelude.{◌≡◌, ◌<◌, ℕ, Contains, IfOk, IfSome, OnOk, OnErr, None, Some, length, slice_set};
ghost use Rattle.stg_net.specs.Graph.{IsDummy};
ghost use Rattle.stg_contract.specs.Calm.{IsCalm};
ghost use Rattle.stg_contract.specs.Candidates.{IsCandidate, IsCheapest};
ghost use Rattle.stg_contract.specs.WatchedDummies.{IsWatchedDummy, WatchesCandidates, AreLeastPlaces, DropsHopeless, WeighsDummies, IsWeighed};

use crate::cheapest::{is_kept, search, search_anew};
use crate::contraction::count_new_places;
use crate::outlook::is_dummy;
use crate::queue::Queue;
use crate::reach::Reach;
use std::alloc::Global;
use std::marker::Model;
use stg_edit::Editor;
use stg_net::NoMemory;

/// Watches dummies, and tells which of them is the cheapest candidate. Contracts see for each
/// transition nothing, where it isn't watched, or a number of places that its contraction makes at
/// least.
#[derive(Drop)]
pub struct DummyWatch {
    least: Vec<Option<u64>>,
    // Each watched dummy with the places that are kept for it, and what was kept before.
    queue: Queue,
}

impl Model for DummyWatch {
    ghost use Rattle.std.specs.Prelude.{List, Option, ℕ};
    ghost use Rattle.stg_contract.specs.inner.Watches.{AreQueued};

    ghost Value = { List (Option ℕ) };

    ghost view = { λ w. w.least.items };

    ghost invariant = { λ w. AreQueued w.least.items w.queue };
}

impl DummyWatch {
    /// Watches each live dummy, with the number of places that its contraction makes.
    pub fn of(alloc: Global, editor: &Editor) -> Result<DummyWatch, NoMemory>
        ensures long { IfOk result (λ w. length w ≡ length editor.now.now.trans) }
        ensures weighed { IfOk result (λ w. (t : ℕ) → IsWeighed editor.now.now w t) }
        ensures only { IfOk result
            (λ w. (t : ℕ) → IsWatchedDummy w t → IsDummy editor.now.now t) }
    {
        let all = editor.all_trans();
        let mut watch = DummyWatch {
            least: vec![in alloc; None; all as usize]?,
            queue: Queue::new(alloc),
        };
        for t in 0..all {
            watch.weigh(editor, t)?;
        }
        Ok(watch)
    }

    /// Watches a transition, whose contraction makes at least so many places.
    fn keep(&mut self, t: u32, places: u64) -> Result<(), NoMemory>
        requires { t < length self.old }
        ensures ok { OnOk result (self.new ≡ slice_set self.old t (Some places)) }
        ensures err { OnErr result (self.new ≡ self.old) }
    {
        if is_kept(self.least[t as usize], places) {
            return Ok(());
        }
        self.queue.reserve()?;
        self.queue.push(places, t);
        self.least[t as usize] = Some(places);
        Ok(())
    }

    /// Watches a transition, whatever number of places its contraction makes.
    pub fn add(&mut self, t: u32) -> Result<(), NoMemory>
        requires { t < length self.old }
        ensures ok { OnOk result (self.new ≡ slice_set self.old t (Some 0)) }
        ensures err { OnErr result (self.new ≡ self.old) }
    {
        self.keep(t, 0)?;
        Ok(())
    }

    /// Watches a transition, where it is a dummy now, with the number of places that its
    /// contraction makes now.
    fn weigh(&mut self, editor: &Editor, t: u32) -> Result<(), NoMemory>
        requires long { length self.old ≡ length editor.now.now.trans }
        ensures weighed { OnOk result (IsWeighed editor.now.now self.new t) }
        ensures kept { WeighsDummies editor.now.now self.old self.new }
    {
        if is_dummy(editor, t) {
            self.keep(t, count_new_places(editor, t))?;
        }
        Ok(())
    }

    /// Watches those of these transitions that are dummies now, with the number of places that the
    /// contraction of each makes now. After an error some of them may not be watched.
    pub fn add_each(&mut self, editor: &Editor, trans: &[u32]) -> Result<(), NoMemory>
        requires long { length self.old ≡ length editor.now.now.trans }
        ensures weighed { OnOk result ((u : ℕ) → Contains trans.now u
            → IsWeighed editor.now.now self.new u) }
        ensures kept { WeighsDummies editor.now.now self.old self.new }
    {
        for u in trans {
            self.weigh(editor, *u)?;
        }
        Ok(())
    }

    /// Gives the cheapest candidate of any draft. It weighs and tests all watched dummies anew, and
    /// no longer watches those that it finds hopeless, or no dummies.
    pub fn cheapest(&mut self, editor: &Editor) -> Option<u32>
        requires { WatchesCandidates editor.now.now self.old }
        ensures some { IfSome result (IsCheapest editor.now.now) }
        ensures none { result ≡ None → (t : ℕ) → ¬ IsCandidate editor.now.now t }
        ensures kept { DropsHopeless editor.now.now self.old self.new }
        ensures least { AreLeastPlaces editor.now.now self.new }
    {
        search_anew(editor, &mut self.least, &mut self.queue)
    }

    /// Gives the cheapest candidate of a calm draft, where the contraction of each watched dummy
    /// makes as many places as are kept for it, or more. It looks at those alone that come before
    /// it, and no longer watches those of them that it finds hopeless, or no dummies.
    pub fn cheapest_calm(&mut self, editor: &Editor) -> Option<u32>
        requires calm { IsCalm editor.now.now }
        requires watched { WatchesCandidates editor.now.now self.old }
        requires least { AreLeastPlaces editor.now.now self.old }
        ensures some { IfSome result (IsCheapest editor.now.now) }
        ensures none { result ≡ None → (t : ℕ) → ¬ IsCandidate editor.now.now t }
        ensures kept { DropsHopeless editor.now.now self.old self.new }
        ensures least { AreLeastPlaces editor.now.now self.new }
    {
        search(editor, &mut self.least, &mut self.queue, Reach::Near)
    }
}
