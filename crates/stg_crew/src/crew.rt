//! The workers' threads, each with a seat of its own.

ghost use Rattle.std.specs.Prelude.{◌≡◌, ◌≤◌, ◌<◌, ◌+◌, [], Ok, List, length, All, IfOk, OnOk};
ghost use Rattle.stg_net.specs.declared.limits.TheConstants.Limits.{SPEC, PART};
ghost use Rattle.stg_net.specs.Initial.{graph_of};
ghost use Rattle.stg_net.specs.Names.{IsWellNamed};
ghost use Rattle.stg_net.specs.Net.{IsNet, IsWithin};
ghost use Rattle.stg_laws.specs.Conflict.{HasNoAutoConflict};
ghost use Rattle.stg_laws.specs.Faithful.{IsFaithful};
ghost use Rattle.stg_laws.specs.PlainGroups.{AreClosed};
ghost use Rattle.stg_laws.specs.Stgs.{stg_of};
ghost use Rattle.stg_derive.specs.declared.part.Part.{Part as ThisPart};
ghost use Rattle.stg_derive.specs.Loggable.{IsLoggable};
ghost use Rattle.stg_crew.specs.declared.kind.SeatKind.TheVariants as kind;
ghost use Rattle.stg_crew.specs.declared.worker.Drawn.{Drawn as ThisDrawn};
ghost use Rattle.stg_crew.specs.Claims.{collecting, joined_to, view};
ghost use Rattle.stg_crew.specs.Parts.{AreKnownInRange, AreDerived, AreExactlyWorn};
ghost use Rattle.stg_crew.specs.Seats.{view_of, IsOf};
ghost use Rattle.stg_crew.specs.inner.Crew.{AreDerivable, IsFresh, IsThrough, HasDrawnParts, AreTakenIn};
ghost use Rattle.stg_crew.specs.inner.Slots.{placed};

use crate::Gate;
use crate::claims::{ClaimStart, Draws, claims_for, close_claims, join_claims, split_claims};
use crate::slots::{make_slots, place_all, take_parts};
use crate::table::{ClaimSeat, Claims};
use crate::worker::{Drawn, draw_all};
use std::alloc::Global;
use std::thread;
use std::thread::Threads;
use stg_derive::Part;
use stg_net::{NoMemory, Seq, Spec};
use stg_partition::Group;

/// A worker: its seat, and the parts of the groups that it drew.
#[derive(Drop)]
struct Worker {
    seat: ClaimSeat,
    drawn: Result<Seq<Drawn>, NoMemory>,
}

/// The parts of all groups, and how often workers drew.
#[derive(Drop)]
pub struct Worked {
    /// One part for each group, in the order of the groups.
    pub parts: Seq<Part>,
    /// One draw for each group, and one more for each worker, which found none left.
    pub draws: Draws,
}

/// Splits off a seat for each worker.
fn hire(
    alloc: Global,
    claims: &Claims,
    seat: &mut ClaimSeat,
    workers: u32,
) -> Result<Vec<Worker>, NoMemory>
    requires of { IsOf seat.old claims.now }
    requires first { view_of seat.old ≡ collecting (view_of seat.old).groups }
    requires few { workers ≤ 64 }
    ensures fresh { IfOk result
        (λ all. All (IsFresh claims.now (view_of seat.old).groups) all.items) }
    ensures count { IfOk result (λ all. length all.items ≡ workers) }
    ensures ok { OnOk result (view_of seat.new
        ≡ view kind.Collecting [] workers 0 (view_of seat.old).groups) }
    ensures kept { IsOf seat.new claims.now }
{
    let mut all = Vec::new(alloc);
    for _worker in 0..workers {
        let other = split_claims(claims, seat);
        all.push(Worker {
            seat: other,
            drawn: Ok(Seq::new(alloc)),
        })?;
    }
    Ok(all)
}

/// Lets the worker draw groups and derive their parts, until there is none left.
fn send<G: Gate>(
    alloc: Global,
    spec: &Spec,
    groups: &[Group],
    claims: &Claims,
    worker: &mut Worker,
    gate: &G,
)
    requires fresh { IsFresh claims.now (length groups.now) worker.old }
    requires derivable { AreDerivable spec.now.net groups.now }
    ensures through { IsThrough claims.now (length groups.now) worker.new }
    ensures parts { HasDrawnParts spec.now.net groups.now worker.new }
{
    worker.drawn = draw_all(alloc, spec, groups, claims, &mut worker.seat, gate);
}

/// Sends all workers of a slice, each in a thread of its own, where the system has one for it, and
/// ends when all have ended.
fn send_slice<R: Threads + Sync, G: Gate>(
    rt: &R,
    alloc: Global,
    spec: &Spec,
    groups: &[Group],
    claims: &Claims,
    workers: &mut [Worker],
    gate: &G,
)
    requires some { 0 < length workers.old }
    requires fresh { All (IsFresh claims.now (length groups.now)) workers.old }
    requires derivable { AreDerivable spec.now.net groups.now }
    ensures through { All (IsThrough claims.now (length groups.now)) workers.new }
    ensures parts { All (HasDrawnParts spec.now.net groups.now) workers.new }
    ensures count { length workers.new ≡ length workers.old }
{
    let threads = workers.len();
    thread::for_each_mut(
        rt,
        workers,
        threads,
        &|_place: usize, worker: &mut Worker|
            requires { IsFresh claims.now (length groups.now) worker.now
                × AreDerivable spec.now.net groups.now }
            ensures { IsThrough claims.entry.now (length groups.entry.now) worker.exit.now
                × HasDrawnParts spec.entry.now.net groups.entry.now worker.exit.now }
        { send(alloc, spec, groups, claims, worker, gate) },
    );
}

/// Sends all workers, each in a thread of its own, where the system has one for it, and ends when
/// all have ended.
fn send_all<R: Threads + Sync, G: Gate>(
    rt: &R,
    alloc: Global,
    spec: &Spec,
    groups: &[Group],
    claims: &Claims,
    workers: &mut Vec<Worker>,
    gate: &G,
)
    requires some { 0 < length workers.old.items }
    requires fresh { All (IsFresh claims.now (length groups.now)) workers.old.items }
    requires derivable { AreDerivable spec.now.net groups.now }
    ensures through { All (IsThrough claims.now (length groups.now)) workers.new.items }
    ensures parts { All (HasDrawnParts spec.now.net groups.now) workers.new.items }
    ensures count { length workers.new.items ≡ length workers.old.items }
{
    send_slice(
        rt,
        alloc,
        spec,
        groups,
        claims,
        workers.as_mut_slice(),
        gate,
    );
}

/// Takes in a worker's seat, and its parts.
fn join_one(
    claims: &Claims,
    seat: &mut ClaimSeat,
    worker: Worker,
    slots: &mut Vec<Option<Part>>,
) -> Result<(), NoMemory>
    requires of { IsOf seat.old claims.now }
    requires collecting { (view_of seat.old).kind ≡ kind.Collecting }
    requires through { IsThrough claims.now (length slots.old.items) worker }
    ensures slots { OnOk result ((all : List ThisDrawn) × (worker.drawn ≡ Ok all)
        × (slots.new.items ≡ placed slots.old.items all)) }
    ensures joined { view_of seat.new ≡ joined_to (view_of seat.old) (view_of worker.seat) }
    ensures kept { IsOf seat.new claims.now }
{
    let Worker { seat: other, drawn } = worker;
    join_claims(claims, seat, other);
    place_all(slots, drawn?);
    Ok(())
}

/// Takes in the seats of all workers, and their parts.
fn join_all(
    claims: &Claims,
    seat: &mut ClaimSeat,
    mut workers: Vec<Worker>,
    slots: &mut Vec<Option<Part>>,
) -> Result<(), NoMemory>
    requires of { IsOf seat.old claims.now }
    requires hired { view_of seat.old
        ≡ view kind.Collecting [] (length workers.items) 0 (length slots.old.items) }
    requires through { All (IsThrough claims.now (length slots.old.items)) workers.items }
    ensures taken_in { OnOk result (AreTakenIn workers.items slots.old.items slots.new.items
        (length workers.items) (view_of seat.new)) }
    ensures all { OnOk result ((view_of seat.new).joined ≡ (view_of seat.new).split) }
    ensures kept { IsOf seat.new claims.now }
{
    while let Some(worker) = workers.pop() {
        join_one(claims, seat, worker, slots)?;
    }
    Ok(())
}

/// Derives the part of each group. There are from 1 to 64 workers, each in a thread of its own
/// where the system has one for it. Each draws groups by a common count, one at a time, enters the
/// gate and derives the group, until there is none left; no thread outlives the call. The parts
/// come in the order of their groups, and are the same for every number of workers, since a group
/// has at most one part, and that at most one wear (`law_one_derivation`).
///
/// There are at most 250 groups. The specification has no structural auto-conflict, and each group
/// knows the signals of all arcs at the places from which its own transitions take.
///
/// Where memory runs out for one worker, the others go on, and it is answered once all have ended.
pub fn work<R: Threads + Sync, G: Gate>(
    rt: &R,
    alloc: Global,
    spec: &Spec,
    groups: &[Group],
    workers: u32,
    gate: &G,
) -> Result<Worked, NoMemory>
    requires workers { (1 ≤ workers) × (workers ≤ 64) }
    requires few { length groups.now ≤ 250 }
    requires within { IsWithin SPEC spec.now.net }
    requires in_range { AreKnownInRange spec.now.net groups.now }
    requires closed { AreClosed spec.now.net groups.now }
    requires no_conflict { HasNoAutoConflict (graph_of spec.now.net) }
    ensures parts { IfOk result (λ worked. AreDerived spec.now.net groups.now worked.parts) }
    ensures worn { IfOk result (λ worked. AreExactlyWorn spec.now.net groups.now worked.parts) }
    ensures nets { IfOk result
        (λ worked. All (λ (part : ThisPart). IsNet part.net) worked.parts) }
    ensures within { IfOk result
        (λ worked. All (λ (part : ThisPart). IsWithin PART part.net) worked.parts) }
    ensures named { IfOk result
        (λ worked. All (λ (part : ThisPart). IsWellNamed part.net) worked.parts) }
    ensures faithful { IfOk result (λ worked. All
        (λ (part : ThisPart). IsFaithful (graph_of spec.now.net) (stg_of part.net)) worked.parts) }
    ensures loggable { IfOk result (λ worked. All (IsLoggable spec.now.net) worked.parts) }
    ensures draws { IfOk result
        (λ worked. worked.draws.count ≡ length groups.now + workers) }
{
    let ClaimStart { claims, mut seat } = claims_for(alloc, groups.len() as u32)?;
    let mut slots = make_slots(alloc, groups.len())?;
    let mut crew = hire(alloc, &claims, &mut seat, workers)?;
    send_all(rt, alloc, spec, groups, &claims, &mut crew, gate);
    join_all(&claims, &mut seat, crew, &mut slots)?;
    let draws = close_claims(claims, seat);
    let parts = take_parts(alloc, slots)?;
    Ok(Worked { parts, draws })
}
