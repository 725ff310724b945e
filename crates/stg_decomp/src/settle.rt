//! The parts are settled among each other: an internal signal that another part knows becomes an
//! output, and each net is put in order.

ghost use Rattle.std.specs.Prelude.{◌≡◌, ◌<◌, ◌^◌, length, map, All, IfOk};
ghost use Rattle.std.specs.List.{range_with_len};
ghost use Rattle.astg_write.specs.Writable.{IsWritable};
ghost use Rattle.stg_derive.specs.declared.part.Part.{Part as ThisPart};
ghost use Rattle.stg_crew.specs.Parts.{part_at};
ghost use Rattle.stg_decomp.specs.Settled as lists;
ghost use Rattle.stg_decomp.specs.inner.Settling.{parts_with_nets};

use std::alloc::Global;
use stg_derive::Part;
use stg_net::{Net, NoMemory, Nums, Seq, numbers_below, ordered};

/// Whether the net has a signal of that name.
fn has_name(name: &[u8], net: &Net) -> bool
    ensures { result ≡ lists.has_name name.now net.now }
{
    net.signals().iter().any(|s| s.name.as_slice() == name)
}

/// The net of the part of number i.
fn net_of(parts: &[Part], i: u32) -> &Net
    requires { i < length parts.now }
    ensures { result.now ≡ (part_at parts.now i).net }
{
    &parts[i as usize].net
}

/// Whether the part of number j is another than that of number i and knows the signal of that name.
fn knows_beside(parts: &[Part], i: u32, name: &[u8], j: u32) -> bool
    requires { j < length parts.now }
    ensures { result ≡ lists.knows_beside parts.now i name.now j }
{
    j != i && has_name(name, net_of(parts, j))
}

/// Whether another part than that of number i knows the signal of that name.
fn others_know(parts: &[Part], i: u32, name: &[u8]) -> bool
    requires { length parts.now < 2 ^ 32 }
    ensures { result ≡ lists.others_know parts.now i name.now }
{
    for j in 0..parts.len() as u32 {
        if knows_beside(parts, i, name, j) {
            return true;
        }
    }
    false
}

/// The signals of the part's net that other parts know.
fn list_shared(alloc: Global, parts: &[Part], i: u32) -> Result<Nums, NoMemory>
    requires few { length parts.now < 2 ^ 32 }
    requires there { i < length parts.now }
    ensures { IfOk result (λ shared. shared ≡ lists.shared_in parts.now i) }
{
    let mut shared = Seq::new(alloc);
    let signals = net_of(parts, i).signals();
    for s in 0..signals.len() as u32 {
        if others_know(parts, i, signals[s as usize].name.as_slice()) {
            shared.push(s)?;
        }
    }
    Ok(shared)
}

/// The net of the part, settled among the others.
fn settle(alloc: Global, parts: &[Part], i: u32) -> Result<Net, NoMemory>
    requires few { length parts.now < 2 ^ 32 }
    requires there { i < length parts.now }
    requires writable { All (λ (part : ThisPart). IsWritable part.net) parts.now }
    ensures value { IfOk result (λ n. n ≡ (lists.settled_part parts.now i).net) }
    ensures writable { IfOk result (λ n. IsWritable n) }
{
    let net = net_of(parts, i);
    let all = numbers_below(alloc, net.signals().len() as u32)?;
    let shared = list_shared(alloc, parts, i)?;
    let component = net.component(alloc, all.as_slice(), shared.as_slice())?;
    let settled = ordered(alloc, &component)?;
    Ok(settled)
}

/// The settled nets of all parts.
fn settle_nets(alloc: Global, parts: &[Part]) -> Result<Seq<Net>, NoMemory>
    requires few { length parts.now < 2 ^ 32 }
    requires writable { All (λ (part : ThisPart). IsWritable part.net) parts.now }
    ensures nets { IfOk result (λ nets. nets ≡
        map (λ i. (lists.settled_part parts.now i).net) (range_with_len 0 (length parts.now))) }
    ensures writable { IfOk result (λ nets. All IsWritable nets) }
{
    let mut nets = Seq::new(alloc);
    for i in 0..parts.len() as u32 {
        nets.push(settle(alloc, parts, i)?)?;
    }
    Ok(nets)
}

/// The parts with these nets in place of theirs.
fn replace_nets(alloc: Global, parts: Seq<Part>, nets: Seq<Net>) -> Result<Seq<Part>, NoMemory>
    requires { length nets ≡ length parts }
    ensures { IfOk result (λ all. all ≡ parts_with_nets parts nets) }
{
    let mut all = Seq::new(alloc);
    for (part, net) in parts.into_vec().into_iter().zip(nets.into_vec()) {
        all.push(Part { net, ..part })?;
    }
    Ok(all)
}

/// The parts with their settled nets.
pub fn settle_all(alloc: Global, derived: Seq<Part>) -> Result<Seq<Part>, NoMemory>
    requires few { length derived < 2 ^ 32 }
    requires writable { All (λ (part : ThisPart). IsWritable part.net) derived }
    ensures parts { IfOk result (λ parts. parts ≡ lists.settled_parts derived) }
    ensures writable { IfOk result (λ parts. All (λ (part : ThisPart). IsWritable part.net) parts) }
{
    let nets = settle_nets(alloc, derived.as_slice())?;
    let parts = replace_nets(alloc, derived, nets)?;
    Ok(parts)
}
