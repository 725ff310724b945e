//! Cells linked in rings, on one side of the arena.

ghost use Rattle.std.specs.Prelude.{◌≡◌, ◌<◌, ◌+◌, ◌-◌, ◌++◌, ◌∷◌, [], List, length, vec_len, vec_capacity};
ghost use Rattle.stg_arena.specs.Ends.{other};
ghost use Rattle.stg_arena.specs.LinkHistory.{Frame};
ghost use Rattle.stg_arena.specs.declared.links.Link.{Link as TheLink};
ghost use Rattle.stg_arena.specs.inner.Links.{links_of, next_at, prev_at, IsSameBelow, IsUnlinked, IsRelinked};
ghost use Rattle.stg_arena.specs.inner.RingChange.{CanUnlink, CanUnlinkRing, IsRingUnlinked, CanRelink, CanRelinkRing, IsRingRelinked};

use crate::end::End;

/// The cells before and after a cell in its ring.
#[derive(Clone, Copy)]
pub struct Link {
    pub prev: u32,
    pub next: u32,
}

/// The cells before and after x are next to each other. x keeps its own links.
fn unlink(links: &mut [Link], x: u32)
    requires in_range { x < length links.old }
    requires prev { prev_at links.old x < length links.old }
    requires next { next_at links.old x < length links.old }
    ensures { IsUnlinked links.old links.new x }
{
    let link = links[x as usize];
    links[link.prev as usize].next = link.next;
    links[link.next as usize].prev = link.prev;
}

/// x stands between its two cells again.
fn relink(links: &mut [Link], x: u32)
    requires in_range { x < length links.old }
    requires prev { prev_at links.old x < length links.old }
    requires next { next_at links.old x < length links.old }
    ensures { IsRelinked links.old links.new x }
{
    let link = links[x as usize];
    links[link.prev as usize].next = x;
    links[link.next as usize].prev = x;
}

/// The cells in the ring of `head` leave their rings on the other side.
fn unlink_all(own: &[Link], other: &mut [Link], head: u32)
    requires { (f : Frame) × CanUnlink f own.now other.old head }
    ensures { (f : Frame) → CanUnlink f own.now other.old head
        → IsRingUnlinked f head f.size other.old other.new }
{
    let mut x = own[head as usize].next;
    while x != head {
        unlink(other, x);
        x = own[x as usize].next;
    }
}

/// The cells in the ring of `head` come back into their rings on the other side.
fn relink_all(own: &[Link], other: &mut [Link], head: u32)
    requires { (f : Frame) × CanRelink f own.now other.old head }
    ensures { (f : Frame) → CanRelink f own.now other.old head
        → IsRingRelinked f head f.size other.old other.new }
{
    let mut x = own[head as usize].next;
    while x != head {
        relink(other, x);
        x = own[x as usize].next;
    }
}

/// The ring of a place, or of a transition, is taken out of those of the other side.
pub fn unlink_ring(by_place: &mut Vec<Link>, by_trans: &mut Vec<Link>, end: End, head: u32)
    requires { (f : Frame) × CanUnlinkRing f end by_place.old.items by_trans.old.items head }
    ensures ring { (f : Frame) → CanUnlinkRing f end by_place.old.items by_trans.old.items head
        → IsRingUnlinked f head f.size (links_of (other end) by_place.old.items by_trans.old.items)
        (links_of (other end) by_place.new.items by_trans.new.items) }
    ensures kept { links_of end by_place.new.items by_trans.new.items
        ≡ links_of end by_place.old.items by_trans.old.items }
    ensures len { length (links_of (other end) by_place.new.items by_trans.new.items)
        ≡ length (links_of (other end) by_place.old.items by_trans.old.items) }
    ensures by_place_room { vec_capacity by_place.new ≡ vec_capacity by_place.old }
    ensures by_trans_room { vec_capacity by_trans.new ≡ vec_capacity by_trans.old }
{
    match end {
        End::Place => {
            unlink_all(by_place, by_trans, head);
        }
        End::Trans => {
            unlink_all(by_trans, by_place, head);
        }
    }
}

/// The ring of a place, or of a transition, is put back into those of the other side.
pub fn relink_ring(by_place: &mut Vec<Link>, by_trans: &mut Vec<Link>, end: End, head: u32)
    requires { (f : Frame) × CanRelinkRing f end by_place.old.items by_trans.old.items head }
    ensures ring { (f : Frame) → CanRelinkRing f end by_place.old.items by_trans.old.items head
        → IsRingRelinked f head f.size (links_of (other end) by_place.old.items by_trans.old.items)
        (links_of (other end) by_place.new.items by_trans.new.items) }
    ensures kept { links_of end by_place.new.items by_trans.new.items
        ≡ links_of end by_place.old.items by_trans.old.items }
    ensures len { length (links_of (other end) by_place.new.items by_trans.new.items)
        ≡ length (links_of (other end) by_place.old.items by_trans.old.items) }
    ensures by_place_room { vec_capacity by_place.new ≡ vec_capacity by_place.old }
    ensures by_trans_room { vec_capacity by_trans.new ≡ vec_capacity by_trans.old }
{
    match end {
        End::Place => {
            relink_all(by_place, by_trans, head);
        }
        End::Trans => {
            relink_all(by_trans, by_place, head);
        }
    }
}

/// A new cell stands at the end of the ring of `head`.
pub fn push_link(links: &mut Vec<Link>, head: u32)
    requires room { vec_len links.old < vec_capacity links.old }
    requires bounded { length links.old.items < 4294967295 }
    requires in_range { head < length links.old.items }
    requires prev { prev_at links.old.items head < length links.old.items }
    ensures links { IsRelinked
        (links.old.items ++ record { prev = prev_at links.old.items head; next = head } ∷ [])
        links.new.items (length links.old.items) }
    ensures len { length links.new.items ≡ length links.old.items + 1 }
    ensures capacity { vec_capacity links.new ≡ vec_capacity links.old }
{
    let x = links.len() as u32;
    let prev = links[head as usize].prev;
    links.push_reserved(Link { prev, next: head });
    relink(links, x);
}

/// Takes off the last cell, from its ring too.
pub fn pop_link(links: &mut Vec<Link>)
    requires some { 0 < length links.old.items }
    requires bounded { length links.old.items < 4294967295 }
    requires prev { prev_at links.old.items (length links.old.items - 1) < length links.old.items }
    requires next { next_at links.old.items (length links.old.items - 1) < length links.old.items }
    ensures links { (mid : List TheLink)
        × IsUnlinked links.old.items mid (length links.old.items - 1)
        × IsSameBelow (length links.old.items - 1) mid links.new.items }
    ensures len { length links.new.items + 1 ≡ length links.old.items }
    ensures capacity { vec_capacity links.new ≡ vec_capacity links.old }
{
    let x = links.len() - 1;
    unlink(links, x as u32);
    let _link = links.take_last();
}
