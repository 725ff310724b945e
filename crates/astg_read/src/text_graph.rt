//! The graph that the lines have built so far, its nodes and text arcs found by hash.

ghost use Rattle.std.specs.Prelude.{◌≡◌, ◌∷◌, [], ◌<◌, not, length, map, min, IfOk, OnOk, IsTrue, ◌-◌};
ghost use Rattle.std.specs.List.{list_any};
ghost use Rattle.astg_read.specs.Graphs.{same_text_arc, same_place, arcs};
ghost use Rattle.astg_read.specs.Graphs as graphs;
ghost use Rattle.astg_read.specs.inner.Growth.{with_node, with_between, with_text_arcs, with_targets, no_graph};
ghost use Rattle.astg_read.specs.inner.Views.{node_view, text_arc_view, text_arc_views, place_view, weighed_view};

use crate::nodes::Node;
use crate::text_arcs::TextArc;
use indexmap::{IndexMap, IndexSet};
use std::alloc::Global;
use std::marker::Model;
use stg_net::{NoMemory, TransName};

/// A place of the graph: by its name, or between two transitions.
#[derive(Clone, Copy, Debug, PartialEq, Eq, Hash)]
pub enum TextPlace<'a> {
    Named(&'a [u8]),
    Between(TransName, TransName),
}

/// The source and the target of a text arc.
#[derive(Clone, Copy, Debug, PartialEq, Eq, Hash)]
pub struct Ends<'a> {
    pub source: Node<'a>,
    pub target: Node<'a>,
}

/// The graph so far. Contracts see its transitions and places in order of first appearance, and its
/// text arcs in their order. `arc_total` counts the arcs of the text arcs, and stands still at its
/// last value.
#[derive(Drop)]
pub struct TextGraph<'a> {
    trans: IndexSet<TransName>,
    places: IndexSet<TextPlace<'a>>,
    weights: IndexMap<Ends<'a>, Option<u32>>,
    arc_total: u64,
}

impl<'a> Model for TextGraph<'a> {
    ghost use Rattle.std.specs.Prelude.{◌≡◌, map, length, min, []};
    ghost use Rattle.astg_read.specs.Graphs.{arcs};
    ghost use Rattle.astg_read.specs.inner.Growth.{GraphLists};
    ghost use Rattle.astg_read.specs.inner.Views.{place_view, weighed_view};

    ghost Value = { GraphLists };

    ghost view = { λ g. record {
      trans = g.trans.keys;
      places = map place_view g.places.keys;
      text_arcs = map weighed_view g.weights.entries;
    } };

    ghost invariant = { λ g. g.arc_total
        ≡ min (length (arcs [] [] (map weighed_view g.weights.entries))) 18446744073709551615 };
}

fn arcs_of(text_arc: &TextArc<'_>) -> u64
    ensures { result ≡ length (graphs.arcs_of [] [] (text_arc_view text_arc.now)) }
{
    match (text_arc.source, text_arc.target) {
        (Node::Trans(_), Node::Trans(_)) => 2,
        (Node::Place(_), Node::Place(_)) => 0,
        _ => 1,
    }
}

impl<'a> TextGraph<'a> {
    /// A graph without anything.
    pub fn new(alloc: Global) -> Self
        ensures { result ≡ no_graph }
    {
        TextGraph {
            trans: IndexSet::new(alloc),
            places: IndexSet::new(alloc),
            weights: IndexMap::new(alloc),
            arc_total: 0,
        }
    }

    /// How many transitions there are.
    pub fn trans_count(&self) -> usize
        ensures { result ≡ length self.now.trans }
    {
        self.trans.len()
    }

    /// How many places there are.
    pub fn place_count(&self) -> usize
        ensures { result ≡ length self.now.places }
    {
        self.places.len()
    }

    /// Whether a place is there.
    pub fn has_place(&self, place: &TextPlace<'_>) -> bool
        ensures { result ≡ list_any (same_place (place_view place.now)) self.now.places }
    {
        self.places.contains(place)
    }

    /// How many arcs there are, or the last number of 64 bits where there are more.
    pub fn arc_count(&self) -> u64
        ensures { result ≡ min (length (arcs [] [] self.now.text_arcs)) 18446744073709551615 }
    {
        self.arc_total
    }

    /// Adds a text arc last, and tells whether its source and target are new together.
    pub fn add_text_arc(&mut self, text_arc: &TextArc<'a>) -> Result<bool, NoMemory>
        ensures fresh { IfOk result
            (λ is_new. is_new
            ≡ not (list_any (same_text_arc (text_arc_view text_arc.now)) self.old.text_arcs)) }
        ensures ok { IfOk result
            (λ is_new. IsTrue is_new
            → self.new ≡ with_text_arcs self.old (text_arc_view text_arc.now ∷ [])) }
    {
        let ends = Ends {
            source: text_arc.source,
            target: text_arc.target,
        };
        match self.weights.get_index_of(&ends) {
            Some(_) => Ok(false),
            None => {
                self.weights.insert(ends, text_arc.weight)?;
                self.arc_total = self.arc_total.saturating_add(arcs_of(text_arc));
                Ok(true)
            }
        }
    }

    /// Adds a node where it isn't there.
    pub fn add_node(&mut self, node: &Node<'a>) -> Result<(), NoMemory>
        ensures { OnOk result (self.new ≡ with_node self.old (node_view node.now)) }
    {
        match node {
            Node::Trans(trans) => {
                self.trans.insert(*trans)?;
            }
            Node::Place(name) => {
                self.places.insert(TextPlace::Named(name))?;
            }
        }
        Ok(())
    }

    /// Adds the place between two transitions, where both are such.
    fn add_between(&mut self, source: &Node<'a>, target: &Node<'a>) -> Result<(), NoMemory>
        ensures { OnOk result
            (self.new ≡ with_between self.old (node_view source.now) (node_view target.now)) }
    {
        if let (Node::Trans(from), Node::Trans(to)) = (source, target) {
            self.places.insert(TextPlace::Between(*from, *to))?;
        }
        Ok(())
    }

    /// Adds the targets of these text arcs, and the places between transitions.
    pub fn add_targets(&mut self, text_arcs: &[TextArc<'a>]) -> Result<(), NoMemory>
        ensures { OnOk result (self.new ≡ with_targets self.old (text_arc_views text_arcs.now)) }
    {
        for text_arc in text_arcs {
            self.add_node(&text_arc.target)?;
            self.add_between(&text_arc.source, &text_arc.target)?;
        }
        Ok(())
    }

    /// The transitions, the places, and the weights of the text arcs.
    pub fn into_parts(self) -> GraphParts<'a>
        ensures trans { result.trans.keys ≡ self.entry.trans }
        ensures places { map place_view result.places.keys ≡ self.entry.places }
        ensures text_arcs { map weighed_view result.weights.entries ≡ self.entry.text_arcs }
    {
        let TextGraph {
            trans,
            places,
            weights,
            arc_total: _,
        } = self;
        GraphParts {
            trans,
            places,
            weights,
        }
    }
}

/// What a graph consists of.
#[derive(Drop)]
pub struct GraphParts<'a> {
    pub trans: IndexSet<TransName>,
    pub places: IndexSet<TextPlace<'a>>,
    pub weights: IndexMap<Ends<'a>, Option<u32>>,
}
