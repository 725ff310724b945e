//! What one worker does: it draws groups and derives their parts, until there is none left.

ghost use Rattle.std.specs.Prelude.{◌≡◌, ◌<◌, ◌≤◌, [], length, All, IfOk};
ghost use Rattle.stg_net.specs.declared.limits.TheConstants.Limits.{SPEC};
ghost use Rattle.stg_net.specs.Initial.{graph_of};
ghost use Rattle.stg_net.specs.Net.{IsWithin};
ghost use Rattle.stg_laws.specs.Conflict.{HasNoAutoConflict};
ghost use Rattle.stg_laws.specs.PlainGroups.{AreClosed};
ghost use Rattle.stg_crew.specs.Drawing.{HasDrawn, IsDrawnPart};
ghost use Rattle.stg_crew.specs.Parts.{AreKnownInRange, IsPartOf, group_in};
ghost use Rattle.stg_crew.specs.Seats.{view_of, IsOf};
ghost use Rattle.stg_crew.specs.declared.kind.SeatKind.TheVariants.{Worker};

use crate::Gate;
use crate::claims::draw;
use crate::table::{ClaimSeat, Claims};
use std::alloc::Global;
use stg_derive::{Part, derive};
use stg_net::{NoMemory, Seq, Spec};
use stg_partition::Group;

/// A group that was drawn, by its number, and its part.
#[derive(Debug, Drop)]
pub struct Drawn {
    /// The number of the group, counted from 0.
    pub group: u32,
    /// The part that was derived for it.
    pub part: Part,
}

/// The group of that number.
fn group_at(groups: &[Group], number: u32) -> &Group
    requires { number < length groups.now }
    ensures { result.now ≡ group_in groups.now number }
{
    &groups[number as usize]
}

/// Derives the part of the group of that number, once the gate lets it.
fn derive_drawn<G: Gate>(
    alloc: Global,
    spec: &Spec,
    groups: &[Group],
    number: u32,
    gate: &G,
) -> Result<Drawn, NoMemory>
    requires within { IsWithin SPEC spec.now.net }
    requires in_range { AreKnownInRange spec.now.net groups.now }
    requires closed { AreClosed spec.now.net groups.now }
    requires no_conflict { HasNoAutoConflict (graph_of spec.now.net) }
    requires there { number < length groups.now }
    ensures group { IfOk result (λ drawn. drawn.group ≡ number) }
    ensures part { IfOk result (λ drawn. IsPartOf spec.now.net (group_in groups.now number)
        drawn.part) }
{
    gate.enter(number);
    let part = derive(alloc, spec, group_at(groups, number))?;
    Ok(Drawn {
        group: number,
        part,
    })
}

/// Draws groups for a worker's seat that has drawn nothing, enters the gate with each and derives
/// its part, until the number drawn is past the groups. The parts are in the order of the draws.
///
/// Where memory runs out, the seat is still a worker's, with the numbers that it drew.
pub fn draw_all<G: Gate>(
    alloc: Global,
    spec: &Spec,
    groups: &[Group],
    claims: &Claims,
    seat: &mut ClaimSeat,
    gate: &G,
) -> Result<Seq<Drawn>, NoMemory>
    requires of { IsOf seat.old claims.now }
    requires worker { (view_of seat.old).kind ≡ Worker }
    requires nothing { (view_of seat.old).list ≡ [] }
    requires groups { (view_of seat.old).groups ≡ length groups.now }
    requires within { IsWithin SPEC spec.now.net }
    requires in_range { AreKnownInRange spec.now.net groups.now }
    requires closed { AreClosed spec.now.net groups.now }
    requires no_conflict { HasNoAutoConflict (graph_of spec.now.net) }
    ensures drawn { IfOk result
        (λ all. HasDrawn (length groups.now) all (view_of seat.new).list) }
    ensures parts { IfOk result (λ all. All (IsDrawnPart spec.now.net groups.now) all) }
    ensures worker { (view_of seat.new).kind ≡ Worker }
    ensures groups { (view_of seat.new).groups ≡ length groups.now }
    ensures kept { IsOf seat.new claims.now }
{
    let mut all = Seq::new(alloc);
    let mut number = draw(claims, seat);
    while (number as usize) < groups.len() {
        let drawn = derive_drawn(alloc, spec, groups, number, gate)?;
        all.push(drawn)?;
        number = draw(claims, seat);
    }
    Ok(all)
}
