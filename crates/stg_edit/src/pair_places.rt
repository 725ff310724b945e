//! New places that stand for two: their arcs are merged.

ghost use Rattle.std.specs.Prelude.{◌≡◌, ◌<◌, ◌≤◌, ◌+◌, ◌==◌, ◌-◌, ◌^◌, ◌∷◌, [], min, length, if◌then◌else◌};
ghost use Rattle.stg_arena.specs.declared.end.End.TheVariants.{Place, Trans};
ghost use Rattle.stg_arena.specs.ArenaView.{IsArena, none, cell_at, removed_at};
ghost use Rattle.stg_edit.specs.inner.NewPlaces.{CanMake, IsMade, pairs_of_cell, pairs_from_cell, pairs_with, pairs_from, after_at, before_at};
ghost use Rattle.stg_arena.specs.Appends.{IsAppended};
ghost use Rattle.stg_arena.specs.RingWalk.{IsLive, cell_weight};
ghost use Rattle.stg_edit.specs.inner.RowMerge.{far, share_at, IsStep, IsPut, KeepsAllButCells, IsPutAllowed, CanMerge, IsMerged};

use stg_arena::{Arena, End, NONE, Way};

/// The weight at the cell x, where it is an arc of the transition u.
fn share(arena: &Arena, way: Way, x: u32, u: u32) -> u32
    requires { x < length arena.now.cells }
    ensures { result ≡ share_at arena.now way x u }
{
    if arena.far(End::Place, x) == u {
        arena.weight(way, x)
    } else {
        0
    }
}

/// What the cells x and y have with the transition u together.
fn shares(arena: &Arena, way: Way, x: u32, y: u32, u: u32) -> u32
    requires first { x < length arena.now.cells }
    requires second { y < length arena.now.cells }
    requires bounded { share_at arena.now way x u + share_at arena.now way y u < 2 ^ 32 }
    ensures { result ≡ share_at arena.now way x u + share_at arena.now way y u }
{
    share(arena, way, x, u) + share(arena, way, y, u)
}

/// The cell after x, where x is an arc of the transition u, and else x.
fn step_past(arena: &Arena, x: u32, u: u32) -> u32
    requires { IsLive arena.now Place x }
    ensures { IsStep arena.now u x result }
{
    if arena.far(End::Place, x) == u {
        arena.next(End::Place, x)
    } else {
        x
    }
}

/// The lesser one of the two transitions.
fn least(arena: &Arena, x: u32, y: u32) -> u32
    requires first { x < length arena.now.cells }
    requires second { y < length arena.now.cells }
    ensures { result ≡ min (far arena.now x) (far arena.now y) }
{
    let a = arena.far(End::Place, x);
    let b = arena.far(End::Place, y);
    if a < b { a } else { b }
}

/// The last place gets an arc of u, unless u is t or the weights are 0.
fn put(arena: &mut Arena, t: u32, u: u32, take: u32, give: u32)
    requires { IsPutAllowed arena.old t u (take + give) }
    ensures put { IsPut arena.old arena.new t (length arena.old.places - 1) u
        (λ b. cell_weight b (record
        { place = length arena.old.places - 1; trans = u; take = take; give = give })) }
    ensures kept { KeepsAllButCells arena.old arena.new }
    ensures appended { IsAppended t (length arena.old.places - 1) arena.old arena.new }
    ensures arena { IsArena arena.new }
    ensures few { length arena.new.cells
        ≤ length arena.old.cells + (if u == t then 0 else min 1 (take + give)) }
{
    if u == t {
        return;
    }
    if take == 0 && give == 0 {
        return;
    }
    arena.push_cell(u, take, give);
}

/// The last place, which has no cells but its head, gets the arcs of p and q together, but for
/// those of t.
pub fn merge_places(arena: &mut Arena, p: u32, q: u32, t: u32)
    requires { CanMerge arena.old p q t }
    ensures { IsMerged arena.old arena.new p q t (length arena.old.places - 1) }
{
    let mut x = arena.first(End::Place, p);
    let mut y = arena.first(End::Place, q);
    let mut u = least(arena, x, y);
    while u != NONE {
        let take = shares(arena, Way::Take, x, y, u);
        let give = shares(arena, Way::Give, x, y, u);
        let past_x = step_past(arena, x, u);
        let past_y = step_past(arena, y, u);
        put(arena, t, u, take, give);
        x = past_x;
        y = past_y;
        u = least(arena, x, y);
    }
}

/// Adds the place that stands for p and q once t is contracted.
fn add_pair_place(arena: &mut Arena, t: u32, p: u32, q: u32)
    requires bounded { t < none }
    requires can { CanMake t ((p, q) ∷ []) arena.old }
    ensures { IsMade t ((p, q) ∷ []) arena.old arena.new }
{
    let tokens = arena.tokens(p) + arena.tokens(q);
    arena.push_place(tokens);
    merge_places(arena, p, q, t);
}

/// Adds the place for p and the place at the cell y, where t gives to it.
fn add_at(arena: &mut Arena, t: u32, p: u32, y: u32)
    requires bounded { t < none }
    requires in_range { y < length arena.old.cells }
    requires can { CanMake t (pairs_of_cell arena.old p y) arena.old }
    ensures { IsMade t (pairs_of_cell arena.old p y) arena.old arena.new }
{
    if arena.weight(Way::Give, y) > 0 {
        add_pair_place(arena, t, p, arena.far(End::Trans, y));
    }
}

/// Adds the places for p and each place after t.
fn add_after(arena: &mut Arena, t: u32, p: u32)
    requires in_range { t < length arena.old.trans }
    requires live { removed_at arena.old Trans t ≡ none }
    requires can { CanMake t (pairs_with p (after_at arena.old t)) arena.old }
    ensures { IsMade t (pairs_with p (after_at arena.old t)) arena.old arena.new }
{
    let mut y = arena.first(End::Trans, t);
    while y != t {
        let next = arena.next(End::Trans, y);
        add_at(arena, t, p, y);
        y = next;
    }
}

/// Adds the places for the place at the cell x, where t takes from it, and each place after t.
fn add_from(arena: &mut Arena, t: u32, x: u32)
    requires in_range { t < length arena.old.trans }
    requires live { removed_at arena.old Trans t ≡ none }
    requires there { x < length arena.old.cells }
    requires can { CanMake t (pairs_from_cell arena.old t x) arena.old }
    ensures { IsMade t (pairs_from_cell arena.old t x) arena.old arena.new }
{
    if arena.weight(Way::Take, x) > 0 {
        add_after(arena, t, arena.far(End::Trans, x));
    }
}

/// Adds the places for each place before t and each place after it.
pub fn add_pair_places(arena: &mut Arena, t: u32)
    requires in_range { t < length arena.old.trans }
    requires live { removed_at arena.old Trans t ≡ none }
    requires can { CanMake t (pairs_from arena.old t (before_at arena.old t)) arena.old }
    ensures { IsMade t (pairs_from arena.old t (before_at arena.old t)) arena.old arena.new }
{
    let mut x = arena.first(End::Trans, t);
    while x != t {
        let next = arena.next(End::Trans, x);
        add_from(arena, t, x);
        x = next;
    }
}
