//! Markings of a net, one number for each place.

ghost use Rattle.std.specs.Prelude.{◌≡◌, [], ◌∷◌, ℕ, ◌+◌, ◌-◌, ◌<◌, ◌≤◌, ◌^◌, ◌↔◌, true, false, length, slice_index, All, IsTrue, IfOk};
ghost use Rattle.stg_net.specs.Graph.{tokens_at};
ghost use Rattle.stg_net.specs.Run.{IsEnabled, fired};
ghost use Rattle.stg_net.specs.Initial.{graph_of, weight_of};
ghost use Rattle.stg_net.specs.declared.arc.NetArc.{NetArc};
ghost use Rattle.stg_token.specs.inner.Pass.{connects_trans, is_held, with_taken, with_given};

use std::alloc::Global;
use stg_net::{Net, NetArc, NoMemory, Nums, Seq};

/// Makes the marking at which each run begins: the tokens of the net.
pub fn start(alloc: Global, net: &Net) -> Result<Nums, NoMemory>
    ensures value { IfOk result (λ m. m ≡ net.now.tokens) }
    ensures initial { IfOk result
        (λ m. (p : ℕ) → slice_index m p ≡ tokens_at (graph_of net.now) p) }
{
    Seq::from_slice(alloc, net.tokens())
}

fn connects_trans(arc: NetArc, t: u32, into: bool) -> bool
    ensures { result ≡ connects_trans t into arc }
{
    arc.trans == t && arc.into == into
}

fn tokens(m: &Nums, place: u32) -> u32
    ensures { result ≡ slice_index m.now place }
{
    m.get(place as usize).copied().unwrap_or(0)
}

fn holds(m: &Nums, t: u32, arc: NetArc) -> bool
    ensures { result ≡ is_held m.now t arc }
{
    !connects_trans(arc, t, false) || arc.weight <= tokens(m, arc.place)
}

/// Whether the transition of that number can fire at the marking.
pub fn enabled(net: &Net, m: &Nums, t: u32) -> bool
    requires in_range { t < length net.now.trans }
    requires marking { length m.now ≡ length net.now.tokens }
    ensures { IsTrue result ↔ IsEnabled (graph_of net.now) (slice_index m.now) t }
{
    net.arcs().iter().all(|arc| holds(m, t, *arc))
}

fn take(m: &mut Nums, t: u32, arc: NetArc)
    requires in_range { arc.place < length m.old }
    requires held { is_held m.old t arc ≡ true }
    ensures { m.new ≡ with_taken t arc m.old }
{
    if connects_trans(arc, t, false) {
        let place = arc.place as usize;
        m.set(place, m.as_slice()[place] - arc.weight);
    }
}

fn give(m: &mut Nums, t: u32, arc: NetArc)
    requires in_range { arc.place < length m.old }
    requires bounded { slice_index m.old arc.place
        + weight_of (arc ∷ []) true t arc.place < 2 ^ 32 }
    ensures { m.new ≡ with_given t arc m.old }
{
    if connects_trans(arc, t, true) {
        let place = arc.place as usize;
        m.set(place, m.as_slice()[place] + arc.weight);
    }
}

fn take_all(arcs: &[NetArc], m: &mut Nums, t: u32)
    requires places { All (λ (a : NetArc). a.place < length m.old) arcs.now }
    requires held { (p : ℕ) → weight_of arcs.now false t p ≤ slice_index m.old p }
    ensures tokens { (p : ℕ)
        → slice_index m.new p ≡ slice_index m.old p - weight_of arcs.now false t p }
    ensures kept { length m.new ≡ length m.old }
{
    for arc in arcs {
        take(m, t, *arc);
    }
}

fn give_all(arcs: &[NetArc], m: &mut Nums, t: u32)
    requires places { All (λ (a : NetArc). a.place < length m.old) arcs.now }
    requires bounded { (p : ℕ) → slice_index m.old p + weight_of arcs.now true t p < 2 ^ 32 }
    ensures tokens { (p : ℕ)
        → slice_index m.new p ≡ slice_index m.old p + weight_of arcs.now true t p }
    ensures kept { length m.new ≡ length m.old }
{
    for arc in arcs {
        give(m, t, *arc);
    }
}

/// Fires the transition of that number.
pub fn fire(net: &Net, m: &mut Nums, t: u32)
    requires marking { length m.old ≡ length net.now.tokens }
    requires enabled { IsEnabled (graph_of net.now) (slice_index m.old) t }
    requires bounded { (p : ℕ) → fired (graph_of net.now) (slice_index m.old) t p < 2 ^ 32 }
    ensures marking { (p : ℕ)
        → slice_index m.new p ≡ fired (graph_of net.now) (slice_index m.old) t p }
    ensures kept { length m.new ≡ length m.old }
{
    let arcs = net.arcs();
    take_all(arcs, m, t);
    give_all(arcs, m, t);
}
