//! The search for signals of different groups that are in conflict.

ghost use Rattle.std.specs.Prelude.{◌≡◌, ◌<◌, length, All, IfOk, IfSome};
ghost use Rattle.stg_net.specs.declared.arc.NetArc.{NetArc};
ghost use Rattle.stg_partition.specs.inner.Joining as joining;
ghost use Rattle.stg_partition.specs.inner.Splits as lists;
ghost use Rattle.stg_partition.specs.inner.Splits.{AreLeastTakers, IsFound, with_lesser};

use crate::join::{no_takers, own_taker};
use std::alloc::Global;
use stg_net::{Net, NetArc, NoMemory};

/// Two signals of different groups, and a place from which transitions of both take.
#[derive(Clone, Copy, Debug)]
pub(crate) struct Split {
    pub x: u32,
    pub y: u32,
    pub place: u32,
}

fn lesser_taker(taker: Option<u32>, signal: u32) -> u32
    ensures { result ≡ lists.lesser_taker taker signal }
{
    match taker {
        Some(other) => other.min(signal),
        None => signal,
    }
}

fn take_arc(net: &Net, takers: &mut [Option<u32>], arc: NetArc)
    requires place { arc.place < length takers.old }
    requires trans { arc.trans < length net.now.trans }
    ensures { takers.new ≡ with_lesser (joining.own_taker net.now arc) arc.place takers.old }
{
    if let Some(signal) = own_taker(net, arc) {
        let place = arc.place as usize;
        takers[place] = Some(lesser_taker(takers[place], signal));
    }
}

fn take_arcs(net: &Net, takers: &mut [Option<u32>])
    requires long { length takers.old ≡ length net.now.tokens }
    requires none { All (λ taker. taker ≡ None) takers.old }
    ensures { AreLeastTakers net.now takers.new }
{
    let arcs = net.arcs();
    for i in (0..arcs.len()).rev() {
        take_arc(net, takers, arcs[i]);
    }
}

/// The least output or internal signal that takes from each place.
fn find_takers(alloc: Global, net: &Net) -> Result<Vec<Option<u32>>, NoMemory>
    ensures { IfOk result (λ takers. AreLeastTakers net.now takers.items) }
{
    let mut takers = no_takers(alloc, net.tokens().len())?;
    take_arcs(net, takers.as_mut_slice());
    Ok(takers)
}

fn is_lesser(c: Split, d: Split) -> bool
    ensures { result ≡ lists.is_lesser_split c d }
{
    c.x < d.x || c.x == d.x && (c.y < d.y || c.y == d.y && c.place < d.place)
}

fn least_of(one: Option<Split>, other: Option<Split>) -> Option<Split>
    ensures { result ≡ lists.lesser_split one other }
{
    match (one, other) {
        (Some(c), Some(d)) => Some(if is_lesser(d, c) { d } else { c }),
        (None, other) => other,
        (one, None) => one,
    }
}

fn split_of(
    numbers: &[Option<usize>],
    taker: Option<u32>,
    other: Option<u32>,
    place: u32,
) -> Option<Split>
    requires taker { IfSome taker (λ x. x < length numbers.now) }
    requires other { IfSome other (λ y. y < length numbers.now) }
    ensures { result ≡ lists.split_of numbers.now taker other place }
{
    match (taker, other) {
        (Some(x), Some(y)) => {
            if numbers[x as usize] == numbers[y as usize] {
                None
            } else {
                Some(Split { x, y, place })
            }
        }
        _ => None,
    }
}

fn split_at(
    net: &Net,
    numbers: &[Option<usize>],
    takers: &[Option<u32>],
    arc: NetArc,
) -> Option<Split>
    requires trans { arc.trans < length net.now.trans }
    requires place { arc.place < length takers.now }
    requires numbers { length numbers.now ≡ length net.now.signals }
    requires below { All (λ taker. IfSome taker (λ s. s < length net.now.signals)) takers.now }
    ensures { result ≡ lists.split_at net.now numbers.now takers.now arc }
{
    split_of(
        numbers,
        takers[arc.place as usize],
        own_taker(net, arc),
        arc.place,
    )
}

fn least_split(net: &Net, numbers: &[Option<usize>], takers: &[Option<u32>]) -> Option<Split>
    requires numbers { length numbers.now ≡ length net.now.signals }
    requires takers { AreLeastTakers net.now takers.now }
    ensures { result ≡ lists.least_split net.now numbers.now takers.now net.now.arcs }
{
    let arcs = net.arcs();
    let mut least = None;
    for i in (0..arcs.len()).rev() {
        least = least_of(split_at(net, numbers, takers, arcs[i]), least);
    }
    least
}

/// The least two signals of different numbers whose transitions take from one place, and the least
/// such place.
pub(crate) fn find_split(
    alloc: Global,
    net: &Net,
    numbers: &[Option<usize>],
) -> Result<Option<Split>, NoMemory>
    requires { length numbers.now ≡ length net.now.signals }
    ensures { IfOk result (λ split. IsFound net.now numbers.now split) }
{
    let takers = find_takers(alloc, net)?;
    Ok(least_split(net, numbers, takers.as_slice()))
}
