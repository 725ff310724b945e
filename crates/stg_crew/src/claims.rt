//! The steps of a table of claims: how workers share groups out among themselves.

ghost use Rattle.std.specs.Prelude.{◌≡◌, ◌<◌, ◌≤◌, [], All, IfOk};
ghost use Rattle.stg_crew.specs.Claims.{collecting, worker, drawn, split_from, joined_to, AreGroups, HasEachBelow};
ghost use Rattle.stg_crew.specs.Seats.{view_of, IsOf};
ghost use Rattle.stg_crew.specs.declared.kind.SeatKind.TheVariants.{Collecting, Worker};

use crate::rule::{Draw, SetGroups, SplitOff, TakeIn};
use crate::table::{ClaimSeat, Claims};
use atomic_table::Table;
use std::alloc::Global;
use stg_net::NoMemory;

/// A table of claims with its first seat, the collecting one.
#[derive(Drop)]
pub struct ClaimStart {
    pub claims: Claims,
    pub seat: ClaimSeat,
}

/// The number of draws of a table that was closed. `close_claims` alone makes one.
#[derive(Drop)]
pub struct Draws {
    count: u32,
}

impl Draws {
    /// The number of draws.
    pub fn count(&self) -> u32
        ensures { result ≡ self.now.count }
    {
        self.count
    }
}

/// A table of claims for that many groups, at most 250.
pub fn claims_for(alloc: Global, groups: u32) -> Result<ClaimStart, NoMemory>
    requires { groups ≤ 250 }
    ensures of { IfOk result (λ start. IsOf start.seat start.claims) }
    ensures view { IfOk result (λ start. view_of start.seat ≡ collecting groups) }
{
    let (table, mut seat) = Table::of_words(alloc, &[0, 0], &())?;
    let _before = table
        .shared
        .fetch_add::<SetGroups>(&mut seat, 1, u64::from(groups));
    Ok(ClaimStart {
        claims: Claims { table },
        seat: ClaimSeat { seat },
    })
}

/// Splits a worker's seat off the collecting one, off which at most 64 are split.
pub fn split_claims(claims: &Claims, seat: &mut ClaimSeat) -> ClaimSeat
    requires of { IsOf seat.old claims.now }
    requires collecting { (view_of seat.old).kind ≡ Collecting }
    requires room { (view_of seat.old).split < 64 }
    ensures of { IsOf result claims.now }
    ensures view { view_of result ≡ worker (view_of seat.old).groups }
    ensures ok { view_of seat.new ≡ split_from (view_of seat.old) }
    ensures kept { IsOf seat.new claims.now }
{
    ClaimSeat {
        seat: claims.table.shared.split_seat::<SplitOff>(&mut seat.seat),
    }
}

/// Draws the next number for a worker. It is that of a group, which no other draw gives, or else it
/// is past the groups, and then each group has been drawn.
pub fn draw(claims: &Claims, seat: &mut ClaimSeat) -> u32
    requires of { IsOf seat.old claims.now }
    requires worker { (view_of seat.old).kind ≡ Worker }
    requires goes_on { AreGroups (view_of seat.old).groups (view_of seat.old).list }
    ensures ok { view_of seat.new ≡ drawn result (view_of seat.old) }
    ensures greatest { All (λ x. x < result) (view_of seat.old).list }
    ensures kept { IsOf seat.new claims.now }
{
    claims.table.shared.fetch_add::<Draw>(&mut seat.seat, 0, 1) as u32
}

/// Takes a worker's seat into the collecting one, with the numbers that it drew.
pub fn join_claims(claims: &Claims, seat: &mut ClaimSeat, other: ClaimSeat)
    requires of { IsOf seat.old claims.now }
    requires other { IsOf other claims.now }
    requires collecting { (view_of seat.old).kind ≡ Collecting }
    requires worker { (view_of other).kind ≡ Worker }
    ensures ok { view_of seat.new ≡ joined_to (view_of seat.old) (view_of other) }
    ensures kept { IsOf seat.new claims.now }
{
    let ClaimSeat { seat: other } = other;
    claims
        .table
        .shared
        .join_seat::<TakeIn>(&mut seat.seat, other);
}

/// Closes a table once all workers' seats were taken in, and gives the number of draws. Each number
/// below it was drawn once, and no other.
pub fn close_claims(claims: Claims, seat: ClaimSeat) -> Draws
    requires of { IsOf seat claims }
    requires collecting { (view_of seat).kind ≡ Collecting }
    requires all { (view_of seat).joined ≡ (view_of seat).split }
    ensures { HasEachBelow result.count (view_of seat).list }
{
    let Claims { table } = claims;
    let ClaimSeat { seat } = seat;
    let closed = table.close_with(seat);
    let count = closed.word(0);
    closed.free();
    Draws {
        count: count as u32,
    }
}
