//! What a group has to know, whatever its own signals are.

ghost use Rattle.std.specs.Prelude.{◌≡◌, ◌≤◌, ◌<◌, ◌||◌, ◌==◌, length, IfOk};
ghost use Rattle.std.specs.List.{list_any};
ghost use Rattle.stg_net.specs.Component as lists;
ghost use Rattle.stg_net.specs.Ordered.{numbers_where};
ghost use Rattle.stg_laws.specs.Groups.{known_to};
ghost use Rattle.stg_partition.specs.inner.Marked as marked;
ghost use Rattle.stg_partition.specs.inner.Marked.{takes_by_arc, mark_at, shows_at, AreMarkedFurther, AreMarks};

use crate::join::signal_of;
use std::alloc::Global;
use stg_net::{Net, NetArc, NoMemory, Nums, Seq, is_one_of};

fn own_takes(net: &Net, own: &[u32], arc: NetArc) -> bool
    requires { arc.trans < length net.now.trans }
    ensures { result ≡ marked.own_takes net.now own.now arc }
{
    !arc.into && is_one_of(own, signal_of(net, arc) as usize)
}

fn mark(marks: &mut [bool], at: u32)
    requires { at < length marks.old }
    ensures long { length marks.new ≡ length marks.old }
    ensures marked { AreMarkedFurther (λ k. at == k) marks.old marks.new }
{
    marks[at as usize] = true;
}

fn mark_place(net: &Net, own: &[u32], marks: &mut [bool], arc: NetArc)
    requires trans { arc.trans < length net.now.trans }
    requires place { arc.place < length marks.old }
    ensures long { length marks.new ≡ length marks.old }
    ensures marked { AreMarkedFurther (λ p. takes_by_arc net.now own.now p arc) marks.old
        marks.new }
{
    if own_takes(net, own, arc) {
        mark(marks, arc.place);
    }
}

fn mark_places(net: &Net, own: &[u32], marks: &mut [bool])
    requires { length marks.old ≡ length net.now.tokens }
    ensures long { length marks.new ≡ length marks.old }
    ensures marked { AreMarkedFurther
        (λ p. list_any (takes_by_arc net.now own.now p) net.now.arcs) marks.old marks.new }
{
    for arc in net.arcs() {
        mark_place(net, own, marks, *arc);
    }
}

/// Marks the places from which an own transition takes.
fn taken_places(alloc: Global, net: &Net, own: &[u32]) -> Result<Vec<bool>, NoMemory>
    ensures long { IfOk result (λ marks. length marks.items ≡ length net.now.tokens) }
    ensures marks { IfOk result
        (λ marks. AreMarks (takes_by_arc net.now own.now) net.now.arcs marks.items) }
{
    let mut marks = vec![in alloc; false; net.tokens().len()]?;
    mark_places(net, own, marks.as_mut_slice());
    Ok(marks)
}

fn mark_signal(net: &Net, places: &[bool], marks: &mut [bool], arc: NetArc)
    requires trans { arc.trans < length net.now.trans }
    requires place { arc.place < length places.now }
    requires marks { length marks.old ≡ length net.now.signals }
    ensures long { length marks.new ≡ length marks.old }
    ensures marked { AreMarkedFurther (λ s. shows_at net.now places.now s arc) marks.old
        marks.new }
{
    if places[arc.place as usize] {
        mark(marks, signal_of(net, arc));
    }
}

fn mark_signals(net: &Net, places: &[bool], marks: &mut [bool])
    requires places { length places.now ≡ length net.now.tokens }
    requires marks { length marks.old ≡ length net.now.signals }
    ensures long { length marks.new ≡ length marks.old }
    ensures marked { AreMarkedFurther
        (λ s. list_any (shows_at net.now places.now s) net.now.arcs) marks.old marks.new }
{
    for arc in net.arcs() {
        mark_signal(net, places, marks, *arc);
    }
}

/// Marks the signals of the arcs at marked places.
fn seen_signals(alloc: Global, net: &Net, places: &[bool]) -> Result<Vec<bool>, NoMemory>
    requires { length places.now ≡ length net.now.tokens }
    ensures long { IfOk result (λ marks. length marks.items ≡ length net.now.signals) }
    ensures marks { IfOk result
        (λ marks. AreMarks (shows_at net.now places.now) net.now.arcs marks.items) }
{
    let mut marks = vec![in alloc; false; net.signals().len()]?;
    mark_signals(net, places, marks.as_mut_slice());
    Ok(marks)
}

fn knows(own: &[u32], marks: &[bool], s: u32) -> bool
    requires { s < length marks.now }
    ensures { result ≡ (lists.is_one_of own.now s || mark_at marks.now s) }
{
    is_one_of(own, s as usize) || marks[s as usize]
}

fn list_marked(alloc: Global, own: &[u32], marks: &[bool], count: u32) -> Result<Nums, NoMemory>
    requires { count ≤ length marks.now }
    ensures { IfOk result
        (λ known. known
        ≡ numbers_where (λ s. lists.is_one_of own.now s || mark_at marks.now s) count) }
{
    let mut known = Seq::new(alloc);
    for s in 0..count {
        if knows(own, marks, s) {
            known.push(s)?;
        }
    }
    Ok(known)
}

/// Lists the signals that a group of these own signals has to know.
pub(crate) fn list_known(alloc: Global, net: &Net, own: &[u32]) -> Result<Nums, NoMemory>
    ensures { IfOk result (λ known. known ≡ known_to net.now own.now) }
{
    let places = taken_places(alloc, net, own)?;
    let marks = seen_signals(alloc, net, places.as_slice())?;
    let count = net.signals().len() as u32;
    list_marked(alloc, own, marks.as_slice(), count)
}
