//! The search for a chain beside a link.

ghost use Rattle.std.specs.Prelude.{◌≡◌, ◌≢◌, ◌≤◌, ◌<◌, ◌+◌, ◌-◌, ◌↔◌, ℕ, List, [], Some, length, All, IfOk, OnOk, IsTrue, false, true, slice_index, slice_set};
ghost use Rattle.std.specs.BinaryHeap.{heap_items};
ghost use Rattle.stg_net.specs.Graph.{Graph, IsPlace, IsTrans};
ghost use Rattle.stg_edit.specs.Drafts.{IsDraft};
ghost use Rattle.stg_redundant.specs.declared.chains.Link.{Link};
ghost use Rattle.stg_redundant.specs.inner.Chains as chains;
ghost use Rattle.stg_redundant.specs.Levelled.{IsLevelled};

use crate::chains::{Link, link_at};
use crate::levels::{Levels, is_dead};
use std::collections::BinaryHeap;
use stg_edit::Editor;
use stg_net::NoMemory;

/// Raises the room at the end of a link to what the link leaves, and tells whether it rose.
fn raise(rooms: &mut [u64], link: Link) -> bool
    requires giver { link.giver < length rooms.old }
    requires taker { link.taker < length rooms.old }
    ensures kept { result ≡ false → rooms.new ≡ rooms.old }
    ensures enough { result ≡ false
        → slice_index rooms.old link.giver ≤ slice_index rooms.old link.taker + link.tokens }
    ensures more { result ≡ true
        → slice_index rooms.old link.taker + link.tokens < slice_index rooms.old link.giver }
    ensures set { result ≡ true
        → rooms.new ≡ slice_set rooms.old link.taker
        (slice_index rooms.old link.giver - link.tokens) }
    ensures len { length rooms.new ≡ length rooms.old }
{
    let room = rooms[link.giver as usize].saturating_sub(link.tokens as u64);
    if room <= rooms[link.taker as usize] {
        return false;
    }
    rooms[link.taker as usize] = room;
    true
}

/// Goes along the link at a place, where it is one other than that whose chain is sought.
fn visit(
    editor: &Editor,
    levels: &Levels,
    rooms: &mut [u64],
    list: &mut BinaryHeap<(u64, u32)>,
    sought: Link,
    q: u32,
) -> Result<(), NoMemory>
    requires draft { IsDraft editor.now }
    requires levels { IsLevelled editor.now.now levels.now }
    requires rooms { length rooms.old ≡ length editor.now.now.trans }
    requires to { sought.taker < length editor.now.now.trans }
    requires place { IsPlace editor.now.now q }
    ensures ok { OnOk result (chains.IsVisited editor.now.now sought.place sought.taker q
        rooms.old rooms.new (heap_items list.old) (heap_items list.new)) }
    ensures len { length rooms.new ≡ length rooms.old }
{
    let link = match link_at(editor, q) {
        Some(link) => link,
        None => return Ok(()),
    };
    if q == sought.place {
        return Ok(());
    }
    if is_dead(levels, link, sought.taker, rooms[link.giver as usize]) {
        return Ok(());
    }
    if raise(rooms, link) {
        list.push((rooms[link.taker as usize], link.taker))?;
    }
    Ok(())
}

/// Goes along the links that leave a live transition.
fn follow(
    editor: &Editor,
    levels: &Levels,
    rooms: &mut [u64],
    list: &mut BinaryHeap<(u64, u32)>,
    sought: Link,
    t: u32,
) -> Result<(), NoMemory>
    requires live { IsTrans editor.now.now t }
    requires levels { IsLevelled editor.now.now levels.now }
    requires to { sought.taker < length editor.now.now.trans }
    requires rooms { length rooms.old ≡ length editor.now.now.trans }
    ensures ok { OnOk result (chains.ArePassed editor.now.now sought.place sought.taker t []
        rooms.old rooms.new (heap_items list.old) (heap_items list.new)) }
    ensures len { length rooms.new ≡ length rooms.old }
{
    for (q, _) in editor.gives(t) {
        visit(editor, levels, rooms, list, sought, q)?;
    }
    Ok(())
}

/// Goes on from the listed transition of greatest room, and tells whether one was listed. An entry
/// that isn't the room of its transition any more is passed over.
fn advance(
    editor: &Editor,
    levels: &Levels,
    rooms: &mut [u64],
    list: &mut BinaryHeap<(u64, u32)>,
    sought: Link,
) -> Result<bool, NoMemory>
    requires levels { IsLevelled editor.now.now levels.now }
    requires to { sought.taker < length editor.now.now.trans }
    requires search { chains.IsSearch editor.now.now sought.place sought.giver sought.taker
        (sought.tokens + 1) rooms.old (heap_items list.old) }
    ensures ok { OnOk result (chains.IsSearch editor.now.now sought.place sought.giver sought.taker
        (sought.tokens + 1) rooms.new (heap_items list.new)) }
    ensures less { IfOk result (λ more. more ≡ true
        → chains.effort (sought.tokens + 1) rooms.new (heap_items list.new)
        < chains.effort (sought.tokens + 1) rooms.old (heap_items list.old)) }
    ensures end { IfOk result (λ more. more ≡ false
        → (heap_items list.new ≡ []) × (rooms.new ≡ rooms.old)) }
    ensures len { length rooms.new ≡ length rooms.old }
{
    match list.pop() {
        None => Ok(false),
        Some((room, t)) => {
            if room == rooms[t as usize] {
                follow(editor, levels, rooms, list, sought, t)?;
            }
            Ok(true)
        }
    }
}

/// The search begins with all the room at one transition.
fn start(
    rooms: &mut [u64],
    list: &mut BinaryHeap<(u64, u32)>,
    from: u32,
    all: u64,
) -> Result<(), NoMemory>
    requires from { from < length rooms.old }
    ensures ok { OnOk result ((g : Graph) (p b : ℕ) → length rooms.old ≡ length g.trans
        → IsTrans g from
        → chains.IsSearch g p from b all rooms.new (heap_items list.new)) }
    ensures len { length rooms.new ≡ length rooms.old }
{
    rooms.fill(0);
    rooms[from as usize] = all;
    list.clear();
    list.push((all, from))?;
    Ok(())
}

/// Whether the link at a place, where it is one other than the sought one, may begin a chain.
fn may_begin(editor: &Editor, levels: &Levels, sought: Link, q: u32) -> bool
    requires draft { IsDraft editor.now }
    requires levels { IsLevelled editor.now.now levels.now }
    requires to { sought.taker < length editor.now.now.trans }
    requires place { IsPlace editor.now.now q }
    ensures { result ≡ false → (l : Link) → chains.link_at editor.now.now q ≡ Some l
        → q ≢ sought.place → chains.HasPath editor.now.now sought.place l.taker sought.taker
        (sought.tokens + 1) (l.tokens + 1) → ⊥ }
{
    match link_at(editor, q) {
        Some(link) => {
            q != sought.place && !is_dead(levels, link, sought.taker, sought.tokens as u64 + 1)
        }
        None => false,
    }
}

/// Whether a link that leaves the giver of the sought one may begin a chain.
fn may_leave(editor: &Editor, levels: &Levels, sought: Link) -> bool
    requires draft { IsDraft editor.now }
    requires levels { IsLevelled editor.now.now levels.now }
    requires to { sought.taker < length editor.now.now.trans }
    requires giver { IsTrans editor.now.now sought.giver }
    ensures { result ≡ false → chains.HasPath editor.now.now sought.place sought.giver sought.taker
        sought.tokens 0 → sought.giver ≡ sought.taker }
{
    for (q, _) in editor.gives(sought.giver) {
        if may_begin(editor, levels, sought, q) {
            return true;
        }
    }
    false
}

/// Whether links but the sought one lead from its giver to its taker with at most its tokens. The
/// rooms, one for each transition, and the list are set anew, where the levels leave it open. Each
/// transition that is reached within the tokens is then followed once: the greatest room comes
/// first, and none rises along a link.
pub fn has_chain(
    editor: &Editor,
    levels: &Levels,
    rooms: &mut [u64],
    list: &mut BinaryHeap<(u64, u32)>,
    sought: Link,
) -> Result<bool, NoMemory>
    requires draft { IsDraft editor.now }
    requires levels { IsLevelled editor.now.now levels.now }
    requires rooms { length rooms.old ≡ length editor.now.now.trans }
    requires sought { chains.link_at editor.now.now sought.place ≡ Some sought }
    requires apart { sought.giver ≢ sought.taker }
    ensures value { IfOk result (λ found. IsTrue found ↔ chains.HasPath editor.now.now sought.place
        sought.giver sought.taker sought.tokens 0) }
    ensures len { length rooms.new ≡ length rooms.old }
{
    if !may_leave(editor, levels, sought) {
        return Ok(false);
    }
    start(rooms, list, sought.giver, sought.tokens as u64 + 1)?;
    while rooms[sought.taker as usize] == 0 {
        if !advance(editor, levels, rooms, list, sought)? {
            return Ok(false);
        }
    }
    Ok(true)
}
