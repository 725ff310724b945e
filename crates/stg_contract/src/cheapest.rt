//! The search for the cheapest candidate among the entries of a queue.

ghost use Rattle.std.specs.Prelude.{◌≡◌, ◌<◌, ◌+◌, ◌∷◌, ◌↔◌, [], ℕ, List, Option, IsTrue, IfSome, None, Some, true, false, map, length};
ghost use Rattle.std.specs.List.Sorted.{IsPermutation};
ghost use Rattle.stg_edit.specs.Replacing.{new_places as made_places};
ghost use Rattle.stg_contract.specs.Candidates.{IsCandidate, IsCheapest};
ghost use Rattle.stg_contract.specs.WatchedDummies.{least_places, WatchesCandidates, AreLeastPlaces, DropsHopeless};
ghost use Rattle.stg_contract.specs.inner.Judging.{IsFarEnough};
ghost use Rattle.stg_contract.specs.inner.Watches.{AreQueued, IsUnderWay, toil_of, toil, unweighed, unweighed_entry};

use crate::contraction::count_new_places;
use crate::outlook::{Outlook, is_dummy, outlook_of};
use crate::queue::Queue;
use crate::reach::Reach;
use stg_edit::Editor;

/// Whether that many places are kept.
pub fn is_kept(kept: Option<u64>, places: u64) -> bool
    ensures { IsTrue result ↔ (kept ≡ Some places) }
{
    kept == Some(places)
}

/// Goes on from an entry that was taken out, and tells whether its dummy is a candidate that makes
/// as many places. What stands for no dummy, or for one without hope, isn't watched any more.
fn advance(
    editor: &Editor,
    least: &mut [Option<u64>],
    queue: &mut Queue,
    reach: Reach,
    places: u64,
    t: u32,
) -> bool
    requires reach { IsFarEnough reach editor.now.now }
    requires below { t < length least.old }
    requires room { 0 < queue.old.room }
    ensures way { (old : List (Option ℕ)) → IsUnderWay editor.now.now old least.old
        ((places, t) ∷ queue.old.waiting) queue.old.aside
        → IsUnderWay editor.now.now old least.new queue.new.waiting queue.new.aside }
    ensures found { result ≡ true
        → IsCandidate editor.now.now t × (places ≡ made_places editor.now.now t) }
    ensures less { result ≡ false → toil editor.now.now queue.new.waiting
        < toil editor.now.now queue.old.waiting + toil_of editor.now.now (places, t) }
{
    if !is_kept(least[t as usize], places) {
        return false;
    }
    if !is_dummy(editor, t) {
        least[t as usize] = None;
        return false;
    }
    let made = count_new_places(editor, t);
    if places != made {
        least[t as usize] = Some(made);
        queue.push(made, t);
        return false;
    }
    match outlook_of(editor, t, reach) {
        Outlook::Ready => {
            queue.push(places, t);
            true
        }
        Outlook::Open => {
            queue.put_aside(places, t);
            false
        }
        Outlook::Hopeless => {
            least[t as usize] = None;
            false
        }
    }
}

/// Takes out entries until one is of a candidate, and then puts all back that were put aside.
pub fn search(
    editor: &Editor,
    least: &mut [Option<u64>],
    queue: &mut Queue,
    reach: Reach,
) -> Option<u32>
    requires reach { IsFarEnough reach editor.now.now }
    requires queued { AreQueued least.old queue.old }
    requires least { AreLeastPlaces editor.now.now least.old }
    ensures some { IfSome result
        (λ t. WatchesCandidates editor.now.now least.old → IsCheapest editor.now.now t) }
    ensures none { result ≡ None → WatchesCandidates editor.now.now least.old
        → (t : ℕ) → ¬ IsCandidate editor.now.now t }
    ensures kept { DropsHopeless editor.now.now least.old least.new }
    ensures least { AreLeastPlaces editor.now.now least.new }
    ensures queued { AreQueued least.new queue.new }
{
    loop {
        match queue.pop() {
            None => {
                queue.put_back();
                return None;
            }
            Some((places, t)) => {
                if advance(editor, least, queue, reach, places, t) {
                    queue.put_back();
                    return Some(t);
                }
            }
        }
    }
}

/// Keeps 0 places for each dummy that is watched.
fn forget_places(least: &mut [Option<u64>])
    ensures kept { (t : ℕ) → least_places least.new t ≡ unweighed (least_places least.old t) }
    ensures long { length least.new ≡ length least.old }
{
    for t in 0..least.len() {
        if least[t].is_some() {
            least[t] = Some(0);
        }
    }
}

/// Lets each entry wait with 0 places.
fn forget_entries(queue: &mut Queue)
    requires { queue.old.aside ≡ [] }
    ensures waiting { IsPermutation (map unweighed_entry queue.old.waiting) queue.new.waiting }
    ensures aside { queue.new.aside ≡ [] }
{
    loop {
        match queue.pop() {
            None => {
                queue.put_back();
                return;
            }
            Some((_, t)) => queue.put_aside(0, t),
        }
    }
}

/// Weighs all entries anew, and looks far.
pub fn search_anew(editor: &Editor, least: &mut [Option<u64>], queue: &mut Queue) -> Option<u32>
    requires queued { AreQueued least.old queue.old }
    ensures some { IfSome result
        (λ t. WatchesCandidates editor.now.now least.old → IsCheapest editor.now.now t) }
    ensures none { result ≡ None → WatchesCandidates editor.now.now least.old
        → (t : ℕ) → ¬ IsCandidate editor.now.now t }
    ensures kept { DropsHopeless editor.now.now least.old least.new }
    ensures least { AreLeastPlaces editor.now.now least.new }
    ensures queued { AreQueued least.new queue.new }
{
    forget_places(least);
    forget_entries(queue);
    search(editor, least, queue, Reach::Far)
}
