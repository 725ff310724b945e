//! The arcs of the text, each from a source to one of its targets.

ghost use Rattle.std.specs.Prelude.{◌≡◌, ◌<◌, ◌^◌, length, filter_map, IfOk};
ghost use Rattle.std.specs.List.{list_any};
ghost use Rattle.astg_read.specs.inner.NoDummies.{without_dummies};
ghost use Rattle.astg_read.specs.Graphs as graphs;
ghost use Rattle.astg_read.specs.Nodes as nodes;
ghost use Rattle.astg_read.specs.inner.Views.{node_view, text_arc_view, text_arc_views, target_views};

use crate::nodes::{Node, node_of};
use crate::signals::Signals;
use crate::targets::{Target, group_weight};
use std::alloc::Global;
use stg_net::{NoMemory, Seq};

/// A source and one of its targets, with the weight after the target where there is one.
#[derive(Clone, Copy)]
pub struct TextArc<'a> {
    pub source: Node<'a>,
    pub target: Node<'a>,
    pub weight: Option<u32>,
}

/// The text arcs from a source to its targets.
pub fn text_arcs_of<'a>(
    alloc: Global,
    signals: &Signals<'_>,
    source: &'a [u8],
    targets: &[Target<'_, 'a>],
) -> Result<Seq<TextArc<'a>>, NoMemory>
    requires { length signals.now < 2 ^ 32 }
    ensures { IfOk result
        (λ text_arcs. text_arc_views text_arcs
        ≡ filter_map (graphs.text_arc_of (without_dummies signals.now) source.now)
        (target_views targets.now)) }
{
    let mut text_arcs = Seq::new(alloc);
    for target in targets {
        if let Some(word) = target.word {
            text_arcs.push(TextArc {
                source: node_of(signals, source),
                target: node_of(signals, word),
                weight: group_weight(target.group),
            })?;
        }
    }
    Ok(text_arcs)
}

fn is_place_node(node: &Node<'_>) -> bool
    ensures { result ≡ nodes.is_place_node (node_view node.now) }
{
    match node {
        Node::Trans(_) => false,
        Node::Place(_) => true,
    }
}

fn is_between_places(text_arc: &TextArc<'_>) -> bool
    ensures { result ≡ graphs.is_between_places (text_arc_view text_arc.now) }
{
    is_place_node(&text_arc.source) && is_place_node(&text_arc.target)
}

fn weighs_trans(text_arc: &TextArc<'_>) -> bool
    ensures { result ≡ graphs.weighs_trans (text_arc_view text_arc.now) }
{
    text_arc.weight.is_some()
        && !(is_place_node(&text_arc.source) || is_place_node(&text_arc.target))
}

/// Whether one of them goes from a place to a place.
pub fn any_between_places(text_arcs: &[TextArc<'_>]) -> bool
    ensures { result ≡ list_any graphs.is_between_places (text_arc_views text_arcs.now) }
{
    text_arcs.iter().any(|text_arc| is_between_places(text_arc))
}

/// Whether an arc between two transitions has a weight.
pub fn any_weighs_trans(text_arcs: &[TextArc<'_>]) -> bool
    ensures { result ≡ list_any graphs.weighs_trans (text_arc_views text_arcs.now) }
{
    text_arcs.iter().any(|text_arc| weighs_trans(text_arc))
}
