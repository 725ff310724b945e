//! Ranks of transitions, each past those from which places without tokens lead to it.

ghost use Rattle.std.specs.Prelude.{◌≡◌, length};
ghost use Rattle.stg_net.specs.Graph.{IsPlace};

use crate::walks::first_of;
use std::alloc::Global;
use stg_edit::Editor;
use stg_net::NoMemory;

/// What ranks still wait for.
#[derive(Drop)]
struct Waiting {
    /// For each place without tokens, how many of its givers have no rank yet.
    givers: Vec<u32>,
    /// For each place, a rank past those of its givers so far.
    past: Vec<u32>,
    /// For each transition, from how many places that wait it takes.
    places: Vec<u32>,
    /// The transitions that wait for no place, in the order in which they came.
    ready: Vec<u32>,
}

/// Raises a number of the list to at least so much.
fn raise_to(list: &mut [u32], at: u32, least: u32)
    ensures { length list.new ≡ length list.old }
{
    let at = at as usize;
    if at < list.len() && list[at] < least {
        list[at] = least;
    }
}

/// Adds 1 to a number of the list.
fn add_one(list: &mut [u32], at: u32)
    ensures { length list.new ≡ length list.old }
{
    let at = at as usize;
    if at < list.len() {
        list[at] = list[at].saturating_add(1);
    }
}

/// Takes 1 from a number of the list, and tells whether that makes it 0.
fn take_one(list: &mut [u32], at: u32) -> bool
    ensures { length list.new ≡ length list.old }
{
    let at = at as usize;
    if at >= list.len() {
        return false;
    }
    let last = list[at] == 1;
    list[at] = list[at].saturating_sub(1);
    last
}

/// The takers of a live place wait for it, and it waits for its givers, where it has any.
fn wait_at(editor: &Editor, givers: &mut [u32], places: &mut [u32], p: u32)
    requires { IsPlace editor.now.now p }
{
    for _ in editor.givers(p) {
        add_one(givers, p);
    }
    if first_of(editor.givers(p)).is_some() {
        for (t, _) in editor.takers(p) {
            add_one(places, t);
        }
    }
}

/// The transitions that wait for no place.
fn list_ready(alloc: Global, places: &[u32]) -> Result<Vec<u32>, NoMemory> {
    let mut ready = Vec::with_capacity(alloc, places.len())?;
    let mut t = 0u32;
    for count in places {
        if *count == 0 {
            ready.push(t)?;
        }
        t = t.saturating_add(1);
    }
    Ok(ready)
}

/// What waits before any rank is set.
fn first_waiting(alloc: Global, editor: &Editor) -> Result<Waiting, NoMemory> {
    let mut givers = vec![in alloc; 0u32; editor.next_place() as usize]?;
    let mut places = vec![in alloc; 0u32; editor.all_trans() as usize]?;
    for p in 0..editor.next_place() {
        if editor.is_place(p) && editor.tokens(p) == 0 {
            wait_at(editor, &mut givers, &mut places, p);
        }
    }
    let ready = list_ready(alloc, &places)?;
    Ok(Waiting {
        givers,
        past: vec![in alloc; 0u32; editor.next_place() as usize]?,
        places,
        ready,
    })
}

/// The takers of a live place get a rank past those of its givers.
fn pass_to_takers(
    editor: &Editor,
    ranks: &mut [u32],
    waiting: &mut Waiting,
    p: u32,
) -> Result<(), NoMemory>
    requires { IsPlace editor.now.now p }
    ensures { length ranks.new ≡ length ranks.old }
{
    let past = match waiting.past.get(p as usize) {
        Some(past) => *past,
        None => 0,
    };
    for (t, _) in editor.takers(p) {
        raise_to(ranks, t, past);
        if take_one(&mut waiting.places, t) {
            waiting.ready.push(t)?;
        }
    }
    Ok(())
}

/// The rank of a transition is passed on to its places without tokens, and from those whose givers
/// all have one to their takers.
fn pass_on(
    editor: &Editor,
    ranks: &mut [u32],
    waiting: &mut Waiting,
    t: u32,
) -> Result<(), NoMemory>
    ensures { length ranks.new ≡ length ranks.old }
{
    if !editor.is_trans(t) || t as usize >= ranks.len() {
        return Ok(());
    }
    let past = ranks[t as usize].saturating_add(1);
    for (p, _) in editor.gives(t) {
        if editor.tokens(p) == 0 {
            raise_to(&mut waiting.past, p, past);
            if take_one(&mut waiting.givers, p) {
                pass_to_takers(editor, ranks, waiting, p)?;
            }
        }
    }
    Ok(())
}

/// Each transition gets its rank when it waits for nothing any more.
fn pass_all(editor: &Editor, ranks: &mut [u32], waiting: &mut Waiting) -> Result<(), NoMemory>
    ensures { length ranks.new ≡ length ranks.old }
{
    for i in 0..ranks.len() {
        let t = match waiting.ready.get(i) {
            Some(t) => *t,
            None => return Ok(()),
        };
        pass_on(editor, ranks, waiting, t)?;
    }
    Ok(())
}

/// The least rank past all.
fn past_all(ranks: &[u32]) -> u32 {
    let mut past = 0u32;
    for rank in ranks {
        past = past.max(rank.saturating_add(1));
    }
    past
}

/// The transitions that still wait get one rank past all others. Tells whether there are none.
fn rank_rest(ranks: &mut [u32], places: &[u32]) -> bool
    ensures { length ranks.new ≡ length ranks.old }
{
    let past = past_all(ranks);
    let mut is_each_ranked = true;
    for i in 0..ranks.len() {
        if i < places.len() && places[i] > 0 {
            ranks[i] = past;
            is_each_ranked = false;
        }
    }
    is_each_ranked
}

/// Sets the ranks, which are all 0, in time for all arcs. Tells whether each transition is past
/// those from which places without tokens lead to it. Where such places form a circle, those on it
/// and past it have the same rank, past all others.
pub fn set_ranks(alloc: Global, editor: &Editor, ranks: &mut [u32]) -> Result<bool, NoMemory>
    ensures { length ranks.new ≡ length ranks.old }
{
    let mut waiting = first_waiting(alloc, editor)?;
    pass_all(editor, ranks, &mut waiting)?;
    Ok(rank_rest(ranks, &waiting.places))
}
