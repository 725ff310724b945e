//! The arena of a net: the heads of its transitions, and then each place with its arcs.

ghost use Rattle.std.specs.Prelude.{◌≡◌, ◌<◌, ◌+◌, ◌-◌, ◌↔◌, IsTrue, IfOk, length};
ghost use Rattle.stg_net.specs.declared.limits.TheConstants.Limits.{PART};
ghost use Rattle.stg_net.specs.Net.{IsWithin};
ghost use Rattle.stg_arena.specs.EmptyArena.{empty_arena};
ghost use Rattle.stg_arena.specs.ArenaView.{none};
ghost use Rattle.stg_edit.specs.inner.Filling.{net_arc_at, IsTwoWay, IsFilled, IsFillingPlace};

use std::alloc::Global;
use stg_arena::Arena;
use stg_net::{Net, NetArc, NoMemory};

/// Makes the arena in which all of the net is live.
pub fn build(alloc: Global, net: &Net) -> Result<Arena, NoMemory>
    requires { IsWithin PART net.now }
    ensures { IfOk result
        (λ a. IsFilled net.now (length net.now.tokens) (length net.now.tokens) (length net.now.arcs)
        a) }
{
    let trans = net.trans().len() as u32;
    let places = net.tokens().len() as u32;
    let arcs = net.arcs().len() as u32;
    let mut arena = Arena::new(alloc, trans, places, arcs)?;
    push_places(&mut arena, net);
    Ok(arena)
}

/// Adds the places of the net with their arcs.
fn push_places(arena: &mut Arena, net: &Net)
    requires bounded { length net.now.trans + length net.now.tokens + length net.now.arcs < none }
    requires empty { arena.old
        ≡ empty_arena (length net.now.trans) (length net.now.tokens) (length net.now.arcs) }
    ensures { IsFilled net.now (length net.now.tokens) (length net.now.tokens) (length net.now.arcs)
        arena.new }
{
    let tokens = net.tokens();
    let mut at = 0;
    for place in 0..tokens.len() as u32 {
        arena.push_place(tokens[place as usize]);
        at = push_place_arcs(arena, net, place, at);
    }
}

/// Adds the arcs of the last place, from that number on, and gives the number of the next arc.
fn push_place_arcs(arena: &mut Arena, net: &Net, place: u32, from: usize) -> usize
    requires { IsFillingPlace net.now place from arena.old }
    ensures { IsFilled net.now (place + 1) (place + 1) result arena.new }
{
    let arcs = net.arcs();
    let mut at = from;
    while is_of_place(arcs, at, place) {
        at = push_next_arcs(arena, net, place, at);
    }
    at
}

/// Whether there is an arc of that number, and it is of the place.
fn is_of_place(arcs: &[NetArc], at: usize, place: u32) -> bool
    ensures { IsTrue result ↔ (at < length arcs.now) × ((net_arc_at arcs.now at).place ≡ place) }
{
    at < arcs.len() && arcs[at].place == place
}

/// Whether the next arc joins the same place and transition, in the other direction.
fn is_two_way(arcs: &[NetArc], at: usize) -> bool
    requires { at < length arcs.now }
    ensures { IsTrue result ↔ IsTwoWay arcs.now at }
{
    at + 1 < arcs.len()
        && arcs[at + 1].place == arcs[at].place
        && arcs[at + 1].trans == arcs[at].trans
}

/// Adds the arc of that number, or the two of both directions. Gives the number of the next one.
fn push_next_arcs(arena: &mut Arena, net: &Net, place: u32, at: usize) -> usize
    requires filling { IsFillingPlace net.now place at arena.old }
    requires there { at < length net.now.arcs }
    requires here { (net_arc_at net.now.arcs at).place ≡ place }
    ensures filling { IsFillingPlace net.now place result arena.new }
    ensures more { at < result }
{
    let arcs = net.arcs();
    let arc = arcs[at];
    if is_two_way(arcs, at) {
        arena.push_cell(arc.trans, arc.weight, arcs[at + 1].weight);
        return at + 2;
    }
    if arc.into {
        arena.push_cell(arc.trans, 0, arc.weight);
    } else {
        arena.push_cell(arc.trans, arc.weight, 0);
    }
    at + 1
}
