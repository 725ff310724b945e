//! The arena: cells between places and transitions, linked on both sides.
//!
//! What is removed keeps its cells and links, with the moment of its removal, so that it can come
//! back.

ghost use Rattle.std.specs.Prelude.{◌≡◌, ◌<◌, ◌≤◌, ◌+◌, ◌-◌, ℕ, length, IsTrue, IfOk, OnOk, OnErr, vec_capacity, ◌↔◌};
ghost use Rattle.stg_arena.specs.declared.cell.Cell.{Cell as ThisCell};
ghost use Rattle.stg_arena.specs.declared.cell.Spot.{Spot as ThisSpot};
ghost use Rattle.stg_arena.specs.declared.end.End.TheVariants.{Place as PlaceEnd, Trans as TransEnd};
ghost use Rattle.stg_arena.specs.Ends.{other};
ghost use Rattle.stg_arena.specs.ArenaView as view;
ghost use Rattle.stg_arena.specs.ArenaView.{IsArena, IsCellAllowed, IsPushedCell, IsPushedPlace, IsRemoved, cell_at, count_of, end_cell, end_of, head_of, last_removal, new_cell, new_spot, none, removal_now, side, spot_at, times_of};
ghost use Rattle.stg_arena.specs.EmptyArena.{empty_arena};
ghost use Rattle.stg_arena.specs.Extends.{HasAllCells, IsRevivedTo};
ghost use Rattle.stg_arena.specs.RingWalk.{IsLive, IsNextCell, cell_weight};
ghost use Rattle.stg_arena.specs.Room.{HasMoreRoom, HasRoom, spare_cells};
ghost use Rattle.stg_arena.specs.Truncation.{CanTruncate, IsTruncated};
ghost use Rattle.stg_arena.specs.inner.LastCell.{EndsInCell, EndsInPlace, IsOneMore, IsPushedHead};
ghost use Rattle.stg_arena.specs.inner.Links.{IsHeld};
ghost use Rattle.stg_arena.specs.inner.Removing.{places_removed_at, trans_removed_at};

use crate::cell::{Cell, NONE, Removal, Rooms, Spot};
use crate::empty::{push_heads, push_rings};
use crate::end::{End, Way};
use crate::links::{Link, pop_link, push_link, relink_ring, unlink_ring};
use std::alloc::Global;
use std::marker::Model;
use stg_net::NoMemory;

/// The cells with their links on both sides, the places, for each transition the moment of its
/// removal, the removals in order, and what the lists can hold without memory.
#[derive(Drop)]
pub struct Arena {
    cells: Vec<Cell>,
    by_place: Vec<Link>,
    by_trans: Vec<Link>,
    places: Vec<Spot>,
    trans: Vec<u32>,
    removals: Vec<Removal>,
    rooms: Rooms,
}

impl Model for Arena {
    ghost use Rattle.stg_arena.specs.ArenaView.{Layout};

    ghost Value = { Layout };

    ghost use Rattle.stg_arena.specs.inner.ArenaFields.{layout, AreArenaFields};

    ghost view = { layout };

    ghost invariant = { AreArenaFields };
}

impl Arena {
    /// Live transitions without cells but their heads, with room for so many places and cells.
    pub fn new(alloc: Global, trans: u32, places: u32, cells: u32) -> Result<Self, NoMemory>
        requires { trans + places + cells < none }
        ensures value { IfOk result (λ a. a ≡ empty_arena trans places cells) }
        ensures arena { IfOk result (λ a. IsArena a) }
    {
        let rooms = Rooms {
            removals: places + trans,
            cells: trans + places + cells,
            places,
        };
        let room = rooms.cells as usize;
        Ok(Arena {
            cells: push_heads(alloc, trans, room)?,
            by_place: push_rings(alloc, trans, room)?,
            by_trans: push_rings(alloc, trans, room)?,
            places: Vec::with_capacity(alloc, places as usize)?,
            trans: vec![in alloc; NONE; trans as usize]?,
            removals: Vec::with_capacity(alloc, rooms.removals as usize)?,
            rooms,
        })
    }

    /// Makes room for so many new places, and for so many new cells besides their heads.
    pub fn reserve(&mut self, places: u32, cells: u32) -> Result<(), NoMemory>
        ensures ok { OnOk result (HasRoom self.new places cells) }
        ensures more { HasMoreRoom self.old self.new }
        ensures arena { IsArena self.new }
        ensures err { OnErr result (self.new ≡ self.old) }
    {
        let new_places = (self.rooms.places - self.places.len() as u32).max(places) as u64;
        let new_cells = self.spare_cells().max(cells) as u64;
        let place_room = self.places.len() as u64 + new_places;
        let cell_room = self.cells.len() as u64 + new_places + new_cells;
        let removal_room = (self.rooms.removals as u64).max(place_room + self.trans.len() as u64);
        let most = NONE as u64;
        if place_room >= most || cell_room >= most || removal_room >= most {
            return Err(NoMemory);
        }
        let room = (new_places + new_cells) as usize;
        self.cells.reserve(room)?;
        self.by_place.reserve(room)?;
        self.by_trans.reserve(room)?;
        self.places.reserve(new_places as usize)?;
        self.removals
            .reserve(removal_room as usize - self.removals.len())?;
        self.rooms = Rooms {
            removals: removal_room as u32,
            cells: cell_room as u32,
            places: place_room as u32,
        };
        Ok(())
    }

    /// The cells that are free, but for those of the heads of new places.
    fn spare_cells(&self) -> u32
        ensures { result ≡ self.now.rooms.cells - length self.now.cells -
            (self.now.rooms.places - length self.now.places) }
    {
        let places = self.rooms.places - self.places.len() as u32;
        (self.rooms.cells - self.cells.len() as u32).saturating_sub(places)
    }

    /// Whether the place, or the transition, of that number is live.
    pub fn is_live(&self, end: End, node: u32) -> bool
        ensures { IsTrue result
            ↔ (node < count_of self.now end) × (view.removed_at self.now end node ≡ none) }
    {
        match end {
            End::Place => (node as usize) < self.places.len()
                && self.places[node as usize].removed_at == NONE,
            End::Trans => (node as usize) < self.trans.len() && self.trans[node as usize] == NONE,
        }
    }

    /// The tokens of the place.
    pub fn tokens(&self, p: u32) -> u32
        requires { p < length self.now.places }
        ensures { result ≡ (spot_at self.now.places p).tokens }
    {
        self.places[p as usize].tokens
    }

    /// How many places there are, live or not.
    pub fn count_places(&self) -> u32
        ensures { result ≡ length self.now.places }
    {
        self.places.len() as u32
    }

    /// How many transitions there are, live or not.
    pub fn count_trans(&self) -> u32
        ensures { result ≡ length self.now.trans }
    {
        self.trans.len() as u32
    }

    /// How many cells there are.
    pub fn count_cells(&self) -> u32
        ensures value { result ≡ length self.now.cells }
        ensures arena { IsArena self.now }
    {
        self.cells.len() as u32
    }

    /// How many places and transitions have been removed.
    pub fn moment(&self) -> u32
        ensures value { result ≡ length self.now.removals }
        ensures arena { IsArena self.now }
    {
        self.removals.len() as u32
    }

    /// The links of the rings of places, or of those of transitions.
    fn links(&self, end: End) -> &[Link]
        ensures held { IsHeld (side self.now.cells end) (side self.now.cells (other end))
            (times_of self.now) result.now }
        ensures arena { IsArena self.now }
    {
        match end {
            End::Place => &self.by_place,
            End::Trans => &self.by_trans,
        }
    }

    /// The head of the ring of a place, or of a transition.
    fn head(&self, end: End, node: u32) -> u32
        requires { node < count_of self.now end }
        ensures { result ≡ head_of self.now end node }
    {
        match end {
            End::Place => self.places[node as usize].head,
            End::Trans => node,
        }
    }

    /// The first cell in the ring of a live place, or of a live transition: its head where there
    /// is no other.
    pub fn first(&self, end: End, node: u32) -> u32
        requires in_range { node < count_of self.now end }
        requires live { view.removed_at self.now end node ≡ none }
        ensures first { IsNextCell self.now end (head_of self.now end node) result }
        ensures arena { IsArena self.now }
    {
        let head = self.head(end, node);
        self.links(end)[head as usize].next
    }

    /// The next cell in the ring of c's place, or in that of its transition.
    pub fn next(&self, end: End, c: u32) -> u32
        requires { IsLive self.now end c }
        ensures { IsNextCell self.now end c result }
    {
        self.links(end)[c as usize].next
    }

    /// The end of the cell c that is the other one.
    pub fn far(&self, end: End, c: u32) -> u32
        requires { c < length self.now.cells }
        ensures { result ≡ end_of (other end) (cell_at self.now.cells c) }
    {
        match end.other() {
            End::Place => self.cells[c as usize].place,
            End::Trans => self.cells[c as usize].trans,
        }
    }

    /// The weight of the cell out of its place, or into it.
    pub fn weight(&self, way: Way, c: u32) -> u32
        requires { c < length self.now.cells }
        ensures { result ≡ cell_weight way (cell_at self.now.cells c) }
    {
        match way {
            Way::Take => self.cells[c as usize].take,
            Way::Give => self.cells[c as usize].give,
        }
    }

    /// Removes the place, or the transition.
    pub fn remove(&mut self, end: End, node: u32)
        requires in_range { node < count_of self.old end }
        requires live { view.removed_at self.old end node ≡ none }
        requires room { length self.old.removals < self.old.rooms.removals }
        ensures removed { IsRemoved end node self.old self.new }
        ensures arena { IsArena self.new }
    {
        let cells = self.cells.len() as u32;
        let moment = self.removals.len() as u32;
        let head = self.head(end, node);
        set_removed_at(&mut self.places, &mut self.trans, end, node, moment);
        unlink_ring(&mut self.by_place, &mut self.by_trans, end, head);
        self.removals.push_reserved(Removal { end, node, cells });
    }

    /// What was removed last, the place or the transition, comes back.
    fn revive(&mut self, end: End, node: u32)
        requires some { 0 < length self.old.removals }
        requires last { last_removal self.old ≡ removal_now self.old end node }
        ensures { IsRemoved end node self.new self.old }
    {
        let head = self.head(end, node);
        let _removal = self.removals.take_last();
        set_removed_at(&mut self.places, &mut self.trans, end, node, NONE);
        relink_ring(&mut self.by_place, &mut self.by_trans, end, head);
    }

    /// What was removed last comes back.
    fn revive_last(&mut self)
        requires some { 0 < length self.old.removals }
        requires cells { (last_removal self.old).cells ≡ length self.old.cells }
        ensures { let g = last_removal self.old in IsRemoved g.end g.node self.new self.old }
    {
        let removal = self.removals[self.removals.len() - 1];
        self.revive(removal.end, removal.node);
    }

    /// What was removed since the moment comes back.
    pub fn revive_to(&mut self, moment: u32)
        requires in_range { moment ≤ length self.old.removals }
        requires cells { HasAllCells moment self.old }
        ensures back { IsRevivedTo moment self.old self.new }
        ensures moment { length self.new.removals ≡ moment }
        ensures arena { IsArena self.new }
    {
        while self.moment() > moment {
            self.revive_last();
        }
    }

    /// A new place without cells but its head, behind all others.
    pub fn push_place(&mut self, tokens: u32)
        requires room { length self.old.cells < self.old.rooms.cells }
        requires space { length self.old.places < self.old.rooms.places }
        ensures pushed { IsPushedPlace (new_spot self.old tokens) self.old self.new }
        ensures arena { IsArena self.new }
    {
        let cell = self.cells.len() as u32;
        let place = self.places.len() as u32;
        self.by_place.push_reserved(Link {
            prev: cell,
            next: cell,
        });
        self.by_trans.push_reserved(Link {
            prev: cell,
            next: cell,
        });
        self.cells.push_reserved(Cell {
            place,
            trans: NONE,
            take: 0,
            give: 0,
        });
        self.places.push_reserved(Spot {
            head: cell,
            tokens,
            removed_at: NONE,
        });
    }

    /// A new cell of the last place, behind those that the place has.
    pub fn push_cell(&mut self, trans: u32, take: u32, give: u32)
        requires { IsCellAllowed self.old trans }
        ensures pushed { IsPushedCell (new_cell self.old trans take give) self.old self.new }
        ensures arena { IsArena self.new }
    {
        let place = (self.places.len() - 1) as u32;
        let head = self.places[place as usize].head;
        push_link(&mut self.by_place, head);
        push_link(&mut self.by_trans, trans);
        self.cells.push_reserved(Cell {
            place,
            trans,
            take,
            give,
        });
    }

    /// Takes off the last cells, so that so many are left.
    pub fn pop_to(&mut self, cells: u32)
        requires { (n : ℕ) × CanTruncate n cells self.old }
        ensures popped { (n : ℕ) → CanTruncate n cells self.old
            → IsTruncated n cells self.old self.new }
        ensures cells { length self.new.cells ≡ cells }
        ensures arena { IsArena self.new }
    {
        while self.count_cells() > cells {
            self.pop_last(cells);
        }
    }

    /// Takes off the last cell, and with a head its place, where more than so many are left.
    fn pop_last(&mut self, cells: u32)
        requires can { (n : ℕ) × CanTruncate n cells self.old }
        requires more { cells < length self.old.cells }
        ensures popped { IsOneMore self.new self.old }
        ensures arena { IsArena self.new }
    {
        if self.cells[self.cells.len() - 1].trans == NONE {
            self.pop_place();
        } else {
            self.pop_cell();
        }
    }

    /// Takes off the last place, which has no cells but its head.
    fn pop_place(&mut self)
        requires { EndsInPlace self.old }
        ensures popped { (a : ThisCell) × (s : ThisSpot) × IsPushedHead a s self.new self.old }
        ensures arena { IsArena self.new }
    {
        let _by_place = self.by_place.take_last();
        let _by_trans = self.by_trans.take_last();
        let _cell = self.cells.take_last();
        let _place = self.places.take_last();
    }

    /// Takes off the last cell, which is no head.
    fn pop_cell(&mut self)
        requires { EndsInCell self.old }
        ensures popped { IsPushedCell (end_cell self.old) self.new self.old }
        ensures arena { IsArena self.new }
    {
        pop_link(&mut self.by_place);
        pop_link(&mut self.by_trans);
        let _cell = self.cells.take_last();
    }
}

/// The place, or the transition, gets the moment of its removal.
fn set_removed_at(places: &mut Vec<Spot>, trans: &mut Vec<u32>, end: End, node: u32, moment: u32)
    requires place { end ≡ PlaceEnd → node < length places.old.items }
    requires trans { end ≡ TransEnd → node < length trans.old.items }
    ensures places { places.new.items ≡ places_removed_at end node moment places.old.items }
    ensures trans { trans.new.items ≡ trans_removed_at end node moment trans.old.items }
    ensures room { vec_capacity places.new ≡ vec_capacity places.old }
{
    match end {
        End::Place => {
            places[node as usize].removed_at = moment;
        }
        End::Trans => {
            trans[node as usize] = moment;
        }
    }
}
