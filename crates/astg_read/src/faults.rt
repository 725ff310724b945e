//! The rules that the text arcs of a line, and the words of its nodes, break first.

ghost use Rattle.std.specs.Prelude.{◌≡◌, ◌∷◌, ◌<◌, ◌^◌, not, length, None, IfOk, IsTrue};
ghost use Rattle.astg_read.specs.Graphs.{same_text_arc};
ghost use Rattle.astg_read.specs.inner.GraphRules as rules;
ghost use Rattle.astg_read.specs.inner.NoDummies.{without_dummies};
ghost use Rattle.astg_read.specs.Lists.{has_repeat};
ghost use Rattle.astg_read.specs.inner.Views.{text_arc_views, target_views};
ghost use Rattle.astg_read.specs.inner.Growth.{with_text_arcs};
ghost use Rattle.astg_read.specs.Targets.{words_in};

use crate::Rule;
use crate::nodes::{is_node, is_signal, is_unknown};
use crate::signals::Signals;
use crate::targets::{Target, are_nodes, are_weighed, have_signal, have_unknown};
use crate::text_arcs::{TextArc, any_between_places, any_weighs_trans};
use crate::text_graph::TextGraph;
use stg_net::NoMemory;

/// Adds text arcs until one stands again, and tells whether all are new.
fn add_text_arcs<'a>(graph: &mut TextGraph<'a>, text_arcs: &[TextArc<'a>]) -> Result<bool, NoMemory>
    ensures fresh { IfOk result
        (λ all_new. all_new
        ≡ not (has_repeat same_text_arc graph.old.text_arcs (text_arc_views text_arcs.now))) }
    ensures ok { IfOk result
        (λ all_new. IsTrue all_new
        → graph.new ≡ with_text_arcs graph.old (text_arc_views text_arcs.now)) }
{
    for text_arc in text_arcs {
        if !graph.add_text_arc(text_arc)? {
            return Ok(false);
        }
    }
    Ok(true)
}

/// Adds the text arcs of a line, or tells the rule that they or their targets break first.
pub fn add_new_text_arcs<'a>(
    graph: &mut TextGraph<'a>,
    most: u32,
    targets: &[Target<'_, 'a>],
    text_arcs: &[TextArc<'a>],
) -> Result<Option<Rule>, NoMemory>
    ensures fault { IfOk result
        (λ fault. fault
        ≡ rules.text_arc_fault most graph.old.text_arcs (text_arc_views text_arcs.now)
        (target_views targets.now)) }
    ensures ok { IfOk result
        (λ fault. fault ≡ None
        → graph.new ≡ with_text_arcs graph.old (text_arc_views text_arcs.now)) }
{
    if any_between_places(text_arcs) {
        return Ok(Some(Rule::BadArc));
    }
    if !add_text_arcs(graph, text_arcs)? {
        return Ok(Some(Rule::RepeatedArc));
    }
    if !are_weighed(most, targets) || any_weighs_trans(text_arcs) {
        return Ok(Some(Rule::BadWeight));
    }
    Ok(None)
}

/// The rule that the words of a source and its targets break first.
pub fn name_fault(signals: &Signals<'_>, source: &[u8], targets: &[Target<'_, '_>]) -> Option<Rule>
    requires { length signals.now < 2 ^ 32 }
    ensures { result
        ≡ rules.name_fault (without_dummies signals.now)
        (source.now ∷ words_in (target_views targets.now)) }
{
    if !is_node(source) || !are_nodes(targets) {
        Some(Rule::BadName)
    } else if is_unknown(signals, source) || have_unknown(signals, targets) {
        Some(Rule::UnknownSignal)
    } else if is_signal(signals, source) || have_signal(signals, targets) {
        Some(Rule::NoEdge)
    } else {
        None
    }
}
