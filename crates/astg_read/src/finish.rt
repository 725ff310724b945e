//! The specification of what the lines say.

ghost use Rattle.std.specs.Prelude.{◌≡◌, ◌+◌, ◌<◌, ◌≤◌, ◌^◌, [], length, map, true, false, All, IfOk, OnOk};
ghost use Rattle.std.specs.List.{list_all};
ghost use Rattle.stg_net.specs.declared.trans.TransName.{TransName};
ghost use Rattle.stg_net.specs.Building.{HasEnds, with_arc};
ghost use Rattle.astg_read.specs.ReadLimits.{AreLimits};
ghost use Rattle.astg_read.specs.inner.Construction.{IsBuilt, IsReady, AreReady, said_by, with_all_trans, with_all_tokens, with_all_arcs};
ghost use Rattle.astg_read.specs.Graphs.{PlaceAt};
ghost use Rattle.astg_read.specs.Graphs as graphs;
ghost use Rattle.astg_read.specs.inner.PlaceTokens as listed;
ghost use Rattle.astg_read.specs.inner.NoDummies.{without_dummies};
ghost use Rattle.astg_read.specs.Lists.{has_repeat};
ghost use Rattle.astg_read.specs.Nodes as nodes;
ghost use Rattle.astg_read.specs.Reading as readings;
ghost use Rattle.astg_read.specs.inner.WellFormed.{is_trans_in};
ghost use Rattle.astg_read.specs.inner.LineResult.{IsFaultless, said_of};
ghost use Rattle.stg_net.specs.Net.{IsWithin};
ghost use Rattle.astg_read.specs.inner.Views.{place_tokens_views, node_view, place_view, weighed_view};

use crate::marking::Marking;
use crate::nodes::Node;
use crate::place_tokens::{PlaceTokens, tokens_for};
use crate::reader::Reader;
use crate::signals::{Signals, only_memory};
use crate::text_graph::{Ends, GraphParts, TextGraph, TextPlace};
use indexmap::{IndexMap, IndexSet};
use std::alloc::Global;
use stg_net::{Limits, Net, NetArc, NetBuilder, NoMemory, PlaceName, Seq, Spec, TransName};

/// The number of a transition; 0 where it isn't there.
fn trans_number(trans: &IndexSet<TransName>, name: TransName) -> u32
    requires { length trans.now.keys < 2 ^ 32 }
    ensures { result ≡ graphs.trans_number trans.now.keys name }
{
    match trans.get_index_of(&name) {
        Some(at) => at as u32,
        None => 0,
    }
}

/// The number of a place; 0 where it isn't there.
fn place_number(places: &IndexSet<TextPlace<'_>>, place: &TextPlace<'_>) -> u32
    requires { length places.now.keys < 2 ^ 32 }
    ensures { result ≡ graphs.place_number (map place_view places.now.keys) (place_view place.now) }
{
    match places.get_index_of(place) {
        Some(at) => at as u32,
        None => 0,
    }
}

/// Adds transitions that differ.
fn add_trans(builder: &mut NetBuilder, trans: &[TransName]) -> Result<(), NoMemory>
    requires there { list_all (is_trans_in (length builder.old.lists.signals)) trans.now ≡ true }
    requires differ { has_repeat nodes.same_trans [] trans.now ≡ false }
    requires none { builder.old.lists.trans ≡ [] }
    requires room { length builder.old.lists.trans + length trans.now ≤ builder.old.limits.trans }
    ensures { OnOk result (builder.new ≡ with_all_trans builder.old trans.now) }
{
    for name in trans {
        match builder.add_trans(*name) {
            Ok(_) => {}
            Err(error) => return Err(only_memory(error)),
        }
    }
    Ok(())
}

fn add_arc(builder: &mut NetBuilder, arc: NetArc) -> Result<(), NoMemory>
    requires place { arc.place < length builder.old.lists.tokens }
    requires trans { arc.trans < length builder.old.lists.trans }
    requires least { 1 ≤ arc.weight }
    requires most { arc.weight ≤ builder.old.limits.weight }
    requires fresh { All (λ a. HasEnds arc a → ⊥) builder.old.lists.arcs }
    requires room { length builder.old.lists.arcs < builder.old.limits.arcs }
    ensures { OnOk result (builder.new ≡ with_arc builder.old arc) }
{
    match builder.add_arc(arc) {
        Ok(()) => Ok(()),
        Err(error) => Err(only_memory(error)),
    }
}

/// Adds places with their tokens.
fn add_places(
    builder: &mut NetBuilder,
    place_tokens: &[PlaceTokens<'_>],
    places: &[TextPlace<'_>],
) -> Result<(), NoMemory>
    requires most { (p : PlaceAt)
        → listed.tokens_for (place_tokens_views place_tokens.now) p ≤ builder.old.limits.weight }
    requires room { length builder.old.lists.tokens + length places.now
        ≤ builder.old.limits.places }
    ensures { OnOk result
        (builder.new
        ≡ with_all_tokens builder.old
        (map (listed.tokens_for (place_tokens_views place_tokens.now))
        (map place_view places.now))) }
{
    for place in places {
        match builder.add_place(tokens_for(place_tokens, place)) {
            Ok(_) => {}
            Err(error) => return Err(only_memory(error)),
        }
    }
    Ok(())
}

/// Adds the arc from a transition into a place.
fn add_into(
    builder: &mut NetBuilder,
    trans: &IndexSet<TransName>,
    places: &IndexSet<TextPlace<'_>>,
    from: TransName,
    to: &[u8],
    weight: Option<u32>,
) -> Result<(), NoMemory>
    requires { IsReady builder.old trans.now.keys (map place_view places.now.keys)
        (record { source = nodes.Trans from; target = nodes.Place to.now; weight = weight }) }
    ensures { OnOk result
        (builder.new
        ≡ with_all_arcs builder.old
        (graphs.arcs_of trans.now.keys (map place_view places.now.keys)
        (record { source = nodes.Trans from; target = nodes.Place to.now; weight = weight }))) }
{
    let arc = NetArc {
        place: place_number(places, &TextPlace::Named(to)),
        trans: trans_number(trans, from),
        into: true,
        weight: weight.unwrap_or(1),
    };
    add_arc(builder, arc)
}

/// Adds the arc out of a place to a transition.
fn add_out_of(
    builder: &mut NetBuilder,
    trans: &IndexSet<TransName>,
    places: &IndexSet<TextPlace<'_>>,
    from: &[u8],
    to: TransName,
    weight: Option<u32>,
) -> Result<(), NoMemory>
    requires { IsReady builder.old trans.now.keys (map place_view places.now.keys)
        (record { source = nodes.Place from.now; target = nodes.Trans to; weight = weight }) }
    ensures { OnOk result
        (builder.new
        ≡ with_all_arcs builder.old
        (graphs.arcs_of trans.now.keys (map place_view places.now.keys)
        (record { source = nodes.Place from.now; target = nodes.Trans to; weight = weight }))) }
{
    let arc = NetArc {
        place: place_number(places, &TextPlace::Named(from)),
        trans: trans_number(trans, to),
        into: false,
        weight: weight.unwrap_or(1),
    };
    add_arc(builder, arc)
}

/// Adds the two arcs of the place between two transitions.
fn add_both(
    builder: &mut NetBuilder,
    trans: &IndexSet<TransName>,
    places: &IndexSet<TextPlace<'_>>,
    from: TransName,
    to: TransName,
    weight: Option<u32>,
) -> Result<(), NoMemory>
    requires { IsReady builder.old trans.now.keys (map place_view places.now.keys)
        (record { source = nodes.Trans from; target = nodes.Trans to; weight = weight }) }
    ensures { OnOk result
        (builder.new
        ≡ with_all_arcs builder.old
        (graphs.arcs_of trans.now.keys (map place_view places.now.keys)
        (record { source = nodes.Trans from; target = nodes.Trans to; weight = weight }))) }
{
    let place = place_number(places, &TextPlace::Between(from, to));
    let into = NetArc {
        place,
        trans: trans_number(trans, from),
        into: true,
        weight: 1,
    };
    let out = NetArc {
        place,
        trans: trans_number(trans, to),
        into: false,
        weight: 1,
    };
    add_arc(builder, into)?;
    add_arc(builder, out)
}

/// Adds the arcs of a text arc. An arc between two places is none, and its line was refused.
fn add_text_arc(
    builder: &mut NetBuilder,
    trans: &IndexSet<TransName>,
    places: &IndexSet<TextPlace<'_>>,
    source: Node<'_>,
    target: Node<'_>,
    weight: Option<u32>,
) -> Result<(), NoMemory>
    requires { IsReady builder.old trans.now.keys (map place_view places.now.keys)
        (record { source = node_view source; target = node_view target; weight = weight }) }
    ensures { OnOk result
        (builder.new
        ≡ with_all_arcs builder.old
        (graphs.arcs_of trans.now.keys (map place_view places.now.keys)
        (record {
          source = node_view source.entry;
          target = node_view target.entry;
          weight = weight;
        }))) }
{
    match (source, target) {
        (Node::Trans(from), Node::Place(to)) => {
            add_into(builder, trans, places, from, to, weight)
        }
        (Node::Place(from), Node::Trans(to)) => {
            add_out_of(builder, trans, places, from, to, weight)
        }
        (Node::Trans(from), Node::Trans(to)) => {
            add_both(builder, trans, places, from, to, weight)
        }
        (Node::Place(_), Node::Place(_)) => Ok(()),
    }
}

/// Adds the arcs of all text arcs.
fn add_arcs(
    builder: &mut NetBuilder,
    trans: &IndexSet<TransName>,
    places: &IndexSet<TextPlace<'_>>,
    weights: IndexMap<Ends<'_>, Option<u32>>,
) -> Result<(), NoMemory>
    requires { AreReady builder.old trans.now.keys (map place_view places.now.keys)
        (map weighed_view weights.entries) }
    ensures { OnOk result
        (builder.new
        ≡ with_all_arcs builder.old
        (graphs.arcs trans.now.keys (map place_view places.now.keys)
        (map weighed_view weights.entry.entries))) }
{
    for (ends, weight) in weights {
        add_text_arc(builder, trans, places, ends.source, ends.target, weight)?;
    }
    Ok(())
}

/// The name of a place: its own, or the numbers of two transitions.
fn place_name(
    alloc: Global,
    trans: &IndexSet<TransName>,
    place: &TextPlace<'_>,
) -> Result<PlaceName, NoMemory>
    requires { length trans.now.keys < 2 ^ 32 }
    ensures { IfOk result
        (λ name. name ≡ readings.place_name trans.now.keys (place_view place.now)) }
{
    match place {
        TextPlace::Named(name) => Ok(PlaceName::Named(Seq::from_slice(alloc, name)?)),
        TextPlace::Between(from, to) => Ok(PlaceName::Between {
            from: trans_number(trans, *from),
            to: trans_number(trans, *to),
        }),
    }
}

/// The names of places, in their order.
fn place_names(
    alloc: Global,
    trans: &IndexSet<TransName>,
    places: &[TextPlace<'_>],
) -> Result<Seq<PlaceName>, NoMemory>
    requires { length trans.now.keys < 2 ^ 32 }
    ensures { IfOk result
        (λ names. names ≡ map (readings.place_name trans.now.keys) (map place_view places.now)) }
{
    let mut names = Seq::new(alloc);
    for place in places {
        names.push(place_name(alloc, trans, place)?)?;
    }
    Ok(names)
}

/// The net of signals, a graph, and the tokens of its places, with the names of the places.
fn net_of<'a>(
    alloc: Global,
    limits: &Limits,
    signals: Signals<'a>,
    graph: TextGraph<'a>,
    place_tokens: &[PlaceTokens<'a>],
) -> Result<(Net, Seq<PlaceName>), NoMemory>
    requires limits { AreLimits limits.now }
    requires faultless { IsFaultless limits.now (said_by signals graph) }
    requires tokens { (p : PlaceAt)
        → listed.tokens_for (place_tokens_views place_tokens.now) p ≤ limits.now.weight }
    ensures built { IfOk result
        (λ r. IsBuilt signals.entry graph.entry
        (map (listed.tokens_for (place_tokens_views place_tokens.now)) graph.entry.places)
        (record { net = r.0; place_names = r.1 })) }
    ensures within { IfOk result (λ r. IsWithin limits.now r.0) }
{
    let mut builder = NetBuilder::new(alloc, *limits);
    signals.add_to(&mut builder)?;
    let GraphParts {
        trans,
        places,
        weights,
    } = graph.into_parts();
    let names = place_names(alloc, &trans, places.as_slice())?;
    add_trans(&mut builder, trans.as_slice())?;
    add_places(&mut builder, place_tokens, places.as_slice())?;
    add_arcs(&mut builder, &trans, &places, weights)?;
    let net = builder.finish()?;
    Ok((net, names))
}

/// The specification of signals, a graph, and the tokens of its places.
fn build<'a>(
    alloc: Global,
    limits: &Limits,
    signals: Signals<'a>,
    graph: TextGraph<'a>,
    place_tokens: &[PlaceTokens<'a>],
) -> Result<Spec, NoMemory>
    requires limits { AreLimits limits.now }
    requires faultless { IsFaultless limits.now (said_by signals graph) }
    requires tokens { (p : PlaceAt)
        → listed.tokens_for (place_tokens_views place_tokens.now) p ≤ limits.now.weight }
    ensures value { IfOk result
        (λ s. IsBuilt signals.entry graph.entry
        (map (listed.tokens_for (place_tokens_views place_tokens.now)) graph.entry.places) s) }
    ensures within { IfOk result (λ s. IsWithin limits.now s.net) }
{
    let (net, names) = net_of(alloc, limits, signals, graph, place_tokens)?;
    Ok(Spec::new(net, names))
}

/// The places that a marking names with their tokens, and none where there is no marking.
fn place_tokens_in<'a>(
    alloc: Global,
    signals: &Signals<'_>,
    marking: &Option<Marking<'a>>,
) -> Result<Seq<PlaceTokens<'a>>, NoMemory>
    requires { length signals.now < 2 ^ 32 }
    ensures { IfOk result
        (λ place_tokens. (p : PlaceAt)
        → listed.tokens_for (place_tokens_views place_tokens) p
        ≡ readings.tokens_by (without_dummies signals.now) marking.now p) }
{
    match marking {
        None => Ok(Seq::new(alloc)),
        Some(marking) => {
            let place_tokens = marking.place_tokens(alloc, signals)?;
            Ok(place_tokens)
        }
    }
}

/// The specification of what the lines say.
pub fn finish<'a>(alloc: Global, limits: &Limits, reader: Reader<'a>) -> Result<Spec, NoMemory>
    requires limits { AreLimits limits.now }
    requires faultless { IsFaultless limits.now (said_of reader) }
    ensures spec { IfOk result
        (λ s. readings.IsSpecOf (readings.meaning_of (said_of reader.entry)) s) }
    ensures within { IfOk result (λ s. IsWithin limits.now s.net) }
{
    let Reader {
        alloc: _,
        has_graph: _,
        signals,
        graph,
        marking,
        settled: _,
    } = reader;
    let place_tokens = place_tokens_in(alloc, &signals, &marking)?;
    let spec = build(alloc, limits, signals, graph, place_tokens.as_slice())?;
    Ok(spec)
}
