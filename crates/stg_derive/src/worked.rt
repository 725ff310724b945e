//! Specifications given by tables, and the derivations of their parts, for the tests.

ghost use Rattle.std.specs.Prelude.{◌≡◌, ◌<◌, true, map, length, All, IfOk};
ghost use Rattle.stg_laws.specs.Groups.{known_to};
ghost use Rattle.stg_contract.specs.inner.Worked as worked;
ghost use Rattle.stg_derive.specs.inner.Derivable.{is_derivable, unnamed};

use crate::{Part, derive};
use std::alloc::Global;
use stg_net::{Edge, Kind, Net, NetArc, NoMemory, PlaceName, Seq, Signal, Spec, TransName};
use stg_partition::Group;

fn make_signals(alloc: Global, names: &[&[u8]]) -> Result<Seq<Signal>, NoMemory>
    ensures { IfOk result (λ list. list ≡ map worked.input (worked.lent_texts names.now)) }
{
    let mut list = Seq::new(alloc);
    for name in names {
        list.push(Signal {
            name: Seq::from_slice(alloc, name)?,
            kind: Kind::Input,
        })?;
    }
    Ok(list)
}

fn make_trans(alloc: Global, table: &[(u32, Edge, u32)]) -> Result<Seq<TransName>, NoMemory>
    ensures { IfOk result (λ list. list ≡ map worked.named_trans table.now) }
{
    let mut list = Seq::new(alloc);
    for (signal, edge, index) in table {
        list.push(TransName {
            signal: *signal,
            edge: *edge,
            index: *index,
        })?;
    }
    Ok(list)
}

fn make_arcs(alloc: Global, table: &[(u32, u32, bool, u32)]) -> Result<Seq<NetArc>, NoMemory>
    ensures { IfOk result (λ list. list ≡ map worked.arc table.now) }
{
    let mut list = Seq::new(alloc);
    for (place, trans, into, weight) in table {
        list.push(NetArc {
            place: *place,
            trans: *trans,
            into: *into,
            weight: *weight,
        })?;
    }
    Ok(list)
}

/// A name for each place.
fn make_place_names(alloc: Global, tokens: &[u32]) -> Result<Seq<PlaceName>, NoMemory>
    ensures { IfOk result (λ list. list ≡ map unnamed tokens.now) }
{
    let mut list = Seq::new(alloc);
    for _k in tokens {
        list.push(PlaceName::Named(Seq::new(alloc)))?;
    }
    Ok(list)
}

/// The net of these tables.
fn make_net(
    alloc: Global,
    names: &[&[u8]],
    trans: &[(u32, Edge, u32)],
    tokens: &[u32],
    arcs: &[(u32, u32, bool, u32)],
) -> Result<Net, NoMemory>
    requires labels { worked.are_labels (worked.lent_texts names.now) trans.now ≡ true }
    requires arcs { worked.are_arcs (length trans.now) tokens.now arcs.now ≡ true }
    ensures { IfOk result (λ n. n ≡ worked.lent_net names.now trans.now tokens.now arcs.now) }
{
    Ok(Net::of(
        make_signals(alloc, names)?,
        make_trans(alloc, trans)?,
        Seq::from_slice(alloc, tokens)?,
        make_arcs(alloc, arcs)?,
    ))
}

/// The specification of these tables, whose signals are inputs.
fn make_spec(
    alloc: Global,
    names: &[&[u8]],
    trans: &[(u32, Edge, u32)],
    tokens: &[u32],
    arcs: &[(u32, u32, bool, u32)],
) -> Result<Spec, NoMemory>
    requires labels { worked.are_labels (worked.lent_texts names.now) trans.now ≡ true }
    requires arcs { worked.are_arcs (length trans.now) tokens.now arcs.now ≡ true }
    requires derivable { is_derivable (worked.lent_texts names.now) trans.now tokens.now arcs.now
        ≡ true }
    ensures { IfOk result
        (λ spec. spec.net ≡ worked.lent_net names.now trans.now tokens.now arcs.now) }
{
    let net = make_net(alloc, names, trans, tokens, arcs)?;
    let place_names = make_place_names(alloc, tokens)?;
    Ok(Spec::new(net, place_names))
}

/// Derives the part of a group in the specification of these tables.
pub fn derive_row(
    alloc: Global,
    names: &[&[u8]],
    trans: &[(u32, Edge, u32)],
    tokens: &[u32],
    arcs: &[(u32, u32, bool, u32)],
    own: &[u32],
    known: &[u32],
) -> Result<Part, NoMemory>
    requires labels { worked.are_labels (worked.lent_texts names.now) trans.now ≡ true }
    requires arcs { worked.are_arcs (length trans.now) tokens.now arcs.now ≡ true }
    requires derivable { is_derivable (worked.lent_texts names.now) trans.now tokens.now arcs.now
        ≡ true }
    requires own { All (λ s. s < length names.now) own.now }
    requires known { known.now
        ≡ known_to (worked.lent_net names.now trans.now tokens.now arcs.now) own.now }
{
    let spec = make_spec(alloc, names, trans, tokens, arcs)?;
    let group = Group {
        own: Seq::from_slice(alloc, own)?,
        known: Seq::from_slice(alloc, known)?,
    };
    derive(alloc, &spec, &group)
}
