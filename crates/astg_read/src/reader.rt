//! What the lines say, line by line.

ghost use Rattle.std.specs.Prelude.{◌≡◌, ◌++◌, ◌∷◌, [], ◌<◌, ◌^◌, length, codes, true, false, drop, nat_lt, OnOk, ◌⊎◌};
ghost use Rattle.std.specs.List.{list_any};
ghost use Rattle.astg_read.specs.inner.NoDummies.{without_dummies};
ghost use Rattle.astg_read.specs.Graphs.{arcs};
ghost use Rattle.astg_read.specs.Markings.{before_close, is_bad_marking, is_closing, is_unfinished};
ghost use Rattle.astg_read.specs.Rows.{begins, begins_with_dot};
ghost use Rattle.astg_read.specs.inner.MarkingCheck.{IsSettled};
ghost use Rattle.astg_read.specs.inner.Views.{texts};
ghost use Rattle.astg_read.specs.inner.LineResult.{Says, Takes, ExtendsMarking, IsFaultless, IsSettledIn, nothing, said_of, directive, with_count};
ghost use Rattle.astg_read.specs.Rules as line_rules;

use crate::Rule;
use crate::faults::{add_new_text_arcs, name_fault};
use crate::kinds::{LineKind, kind_of};
use crate::line_error::LineError;
use crate::marking::Marking;
use crate::marking_check::MarkingCheck;
use crate::nodes::node_of;
use crate::signals::{Signals, add_names, are_names};
use crate::targets::targets_of;
use crate::text_arcs::text_arcs_of;
use crate::text_graph::TextGraph;
use astg_lex::Word;
use std::alloc::Global;
use stg_net::{Kind, Limits};

/// What the lines so far say, in a text without dummies.
#[derive(Drop)]
pub struct Reader<'a> {
    pub alloc: Global,
    pub has_graph: bool,
    pub signals: Signals<'a>,
    pub graph: TextGraph<'a>,
    pub marking: Option<Marking<'a>>,
    pub settled: MarkingCheck<'a>,
}

fn has_too_many_arcs(graph: &TextGraph<'_>, limits: &Limits) -> bool
    ensures { result
        ≡ nat_lt limits.now.arcs
        (length (arcs graph.now.trans graph.now.places graph.now.text_arcs)) }
{
    graph.arc_count() > limits.arcs as u64
}

fn is_end(words: &[Word<'_>]) -> bool
    ensures { result ≡ begins (codes ".end") (texts words.now) }
{
    match words {
        [] => false,
        [first, ..] => first.text == b".end".as_slice(),
    }
}

impl<'a> Reader<'a> {
    /// A reader before the first line.
    pub fn new(alloc: Global) -> Self
        ensures { said_of result ≡ nothing }
    {
        Reader {
            alloc,
            has_graph: false,
            signals: Signals::new(alloc),
            graph: TextGraph::new(alloc),
            marking: None,
            settled: MarkingCheck::new(alloc),
        }
    }

    /// Takes a title, which isn't kept.
    fn take_title(&mut self, most: u32, title: &[u8], words: &[Word<'a>]) -> Result<(), LineError>
        requires { (title.now ≡ codes ".model") ⊎ (title.now ≡ codes ".name") }
        ensures { Says most (said_of self.old) (title.now ∷ texts words.now) result
            (said_of self.new) }
    {
        if self.has_graph {
            return Err(LineError::Broken(Rule::OutOfOrder));
        }
        Ok(())
    }

    /// Takes a line that declares signals of a kind.
    fn take_names(&mut self, most: u32, kind: Kind, names: &[Word<'a>]) -> Result<(), LineError>
        ensures { Says most (said_of self.old) (directive kind ∷ texts names.now) result
            (said_of self.new) }
    {
        if self.has_graph {
            return Err(LineError::Broken(Rule::OutOfOrder));
        }
        if !are_names(names) {
            return Err(LineError::Broken(Rule::BadName));
        }
        if !add_names(&mut self.signals, kind, names)? {
            return Err(LineError::Broken(Rule::DeclaredTwice));
        }
        Ok(())
    }

    /// Takes `.graph`.
    fn take_graph(&mut self, most: u32, words: &[Word<'a>]) -> Result<(), LineError>
        ensures { Says most (said_of self.old) (codes ".graph" ∷ texts words.now) result
            (said_of self.new) }
    {
        if self.has_graph {
            return Err(LineError::Broken(Rule::OutOfOrder));
        }
        if !words.is_empty() {
            return Err(LineError::Broken(Rule::BadName));
        }
        self.has_graph = true;
        Ok(())
    }

    /// Takes a line of the graph.
    fn take_nodes(
        &mut self,
        most: u32,
        source: &'a [u8],
        words: &[Word<'a>],
    ) -> Result<(), LineError>
        requires bounded { length self.old.signals < 2 ^ 32 }
        requires nodes { begins_with_dot source.now ≡ false }
        ensures { Says most (said_of self.old) (source.now ∷ texts words.now) result
            (said_of self.new) }
    {
        if !self.has_graph || self.marking.is_some() {
            return Err(LineError::Broken(Rule::OutOfOrder));
        }
        let targets = targets_of(self.alloc, words)?;
        if let Some(rule) = name_fault(&self.signals, source, targets.as_slice()) {
            return Err(LineError::Broken(rule));
        }
        let text_arcs = text_arcs_of(self.alloc, &self.signals, source, targets.as_slice())?;
        if let Some(rule) = add_new_text_arcs(
            &mut self.graph,
            most,
            targets.as_slice(),
            text_arcs.as_slice(),
        )? {
            return Err(LineError::Broken(rule));
        }
        self.graph.add_node(&node_of(&self.signals, source))?;
        self.graph.add_targets(text_arcs.as_slice())?;
        Ok(())
    }

    /// Takes `.marking`.
    fn take_marking(&mut self, most: u32, words: &[Word<'a>]) -> Result<(), LineError>
        requires bounded { length self.old.signals < 2 ^ 32 }
        ensures { Says most (said_of self.old) (codes ".marking" ∷ texts words.now) result
            (said_of self.new) }
    {
        if !self.has_graph || self.marking.is_some() {
            return Err(LineError::Broken(Rule::OutOfOrder));
        }
        let mut marking = Marking::new(self.alloc);
        marking.extend(words)?;
        let mut settled = MarkingCheck::new(self.alloc);
        if marking.is_bad(most, &self.signals, &self.graph, &mut settled)? {
            return Err(LineError::Broken(Rule::BadMarking));
        }
        self.marking = Some(marking);
        Ok(())
    }

    /// Takes `.end`.
    fn take_end(&mut self, most: u32, words: &[Word<'a>]) -> Result<(), LineError>
        requires { is_unfinished (said_of self.old).marking ≡ false }
        ensures { Says most (said_of self.old) (codes ".end" ∷ texts words.now) result
            (said_of self.new) }
    {
        if !self.has_graph {
            return Err(LineError::Broken(Rule::NoGraph));
        }
        Ok(())
    }

    /// Whether there are too many of a kind.
    fn has_too_many(&self, limits: &Limits) -> bool
        ensures { result ≡ line_rules.has_too_many limits.now (said_of self.now) }
    {
        self.signals.len() > limits.signals as usize
            || self.graph.trans_count() > limits.trans as usize
            || self.graph.place_count() > limits.places as usize
            || has_too_many_arcs(&self.graph, limits)
    }

    fn count(&self, limits: &Limits, said: Result<(), LineError>) -> Result<(), LineError>
        ensures { result ≡ with_count (line_rules.has_too_many limits.now (said_of self.now)) said }
    {
        match said {
            Ok(()) => {
                if self.has_too_many(limits) {
                    Err(LineError::Broken(Rule::TooMany))
                } else {
                    Ok(())
                }
            }
            Err(error) => Err(error),
        }
    }

    /// Takes a line that declares dummies, which may have no names.
    fn take_dummies(&mut self, limits: &Limits, names: &[Word<'a>]) -> Result<(), LineError>
        requires { is_unfinished (said_of self.old).marking ≡ false }
        ensures { Takes limits.now (said_of self.old) (codes ".dummy" ∷ texts names.now) result
            (said_of self.new) }
    {
        if self.has_graph {
            return Err(LineError::Broken(Rule::OutOfOrder));
        }
        if !are_names(names) {
            return Err(LineError::Broken(Rule::BadName));
        }
        if names.is_empty() {
            return Ok(());
        }
        if !add_names(&mut self.signals, Kind::Internal, names)? {
            return Err(LineError::Broken(Rule::DeclaredTwice));
        }
        Err(LineError::Broken(Rule::HasDummy))
    }

    fn is_in_marking(&self) -> bool
        ensures { result ≡ is_unfinished (said_of self.now).marking }
    {
        match &self.marking {
            None => false,
            Some(marking) => !marking.is_closed(),
        }
    }

    /// Whether a line ends the text.
    pub fn ends_text(&self, words: &[Word<'_>]) -> bool
        ensures { result ≡ line_rules.ends_text (said_of self.now) (texts words.now) }
    {
        is_end(words) && !self.is_in_marking()
    }

    /// Takes a line inside a marking.
    fn take_in_marking(&mut self, limits: &Limits, words: &[Word<'a>]) -> Result<(), LineError>
        requires bounded { length self.old.signals < 2 ^ 32 }
        requires faultless { IsFaultless limits.now (said_of self.old) }
        requires inside { is_unfinished (said_of self.old).marking ≡ true }
        requires settled { IsSettledIn limits.now.weight self.old }
        ensures takes { Takes limits.now (said_of self.old) (texts words.now) result
            (said_of self.new) }
        ensures settled { OnOk result (IsSettledIn limits.now.weight self.new) }
    {
        if words.is_empty() {
            return Ok(());
        }
        match &mut self.marking {
            None => Ok(()),
            Some(marking) => extend_marking(
                limits.weight,
                &self.signals,
                &self.graph,
                &mut self.settled,
                marking,
                words,
            ),
        }
    }

    /// Takes a line outside a marking by its first word and the others.
    fn take_words(
        &mut self,
        limits: &Limits,
        first: &'a [u8],
        rest: &[Word<'a>],
    ) -> Result<(), LineError>
        requires bounded { length self.old.signals < 2 ^ 32 }
        requires outside { is_unfinished (said_of self.old).marking ≡ false }
        ensures { Takes limits.now (said_of self.old) (first.now ∷ texts rest.now) result
            (said_of self.new) }
    {
        let most = limits.weight;
        match kind_of(first) {
            LineKind::Dummies => self.take_dummies(limits, rest),
            LineKind::Title => {
                let said = self.take_title(most, first, rest);
                self.count(limits, said)
            }
            LineKind::Names(kind) => {
                let said = self.take_names(most, kind, rest);
                self.count(limits, said)
            }
            LineKind::Graph => {
                let said = self.take_graph(most, rest);
                self.count(limits, said)
            }
            LineKind::Marking => {
                let said = self.take_marking(most, rest);
                self.count(limits, said)
            }
            LineKind::End => {
                let said = self.take_end(most, rest);
                self.count(limits, said)
            }
            LineKind::Unknown => Err(LineError::Broken(Rule::UnknownDirective)),
            LineKind::Nodes => {
                let said = self.take_nodes(most, first, rest);
                self.count(limits, said)
            }
        }
    }

    /// Takes a line without words outside a marking.
    fn take_nothing(&mut self, limits: &Limits) -> Result<(), LineError>
        requires { is_unfinished (said_of self.old).marking ≡ false }
        ensures { Takes limits.now (said_of self.old) [] result (said_of self.new) }
    {
        self.count(limits, Ok(()))
    }

    /// Takes a line outside a marking.
    fn take_outside(&mut self, limits: &Limits, words: &[Word<'a>]) -> Result<(), LineError>
        requires bounded { length self.old.signals < 2 ^ 32 }
        requires outside { is_unfinished (said_of self.old).marking ≡ false }
        ensures { Takes limits.now (said_of self.old) (texts words.now) result (said_of self.new) }
    {
        match words {
            [] => self.take_nothing(limits),
            [first, rest @ ..] => self.take_words(limits, first.text, rest),
        }
    }

    /// Takes the next line, or tells the rule that it breaks first.
    pub fn take_line(&mut self, limits: &Limits, words: &[Word<'a>]) -> Result<(), LineError>
        requires bounded { limits.now.signals < 2 ^ 32 }
        requires faultless { IsFaultless limits.now (said_of self.old) }
        requires settled { IsSettledIn limits.now.weight self.old }
        ensures takes { Takes limits.now (said_of self.old) (texts words.now) result
            (said_of self.new) }
        ensures settled { OnOk result (IsSettledIn limits.now.weight self.new) }
    {
        if self.is_in_marking() {
            return self.take_in_marking(limits, words);
        }
        let taken = self.take_outside(limits, words);
        self.settled = MarkingCheck::new(self.alloc);
        taken
    }
}

/// Adds words to a marking.
fn extend_marking<'a>(
    most: u32,
    signals: &Signals<'a>,
    graph: &TextGraph<'a>,
    settled: &mut MarkingCheck<'a>,
    marking: &mut Marking<'a>,
    words: &[Word<'a>],
) -> Result<(), LineError>
    requires bounded { length signals.now < 2 ^ 32 }
    requires unfinished { list_any is_closing marking.old ≡ false }
    requires settled { IsSettled most (without_dummies signals.now) graph.now.places settled.old
        (before_close (drop 1 marking.old)) }
    ensures place_tokens { ExtendsMarking
        (is_bad_marking most (without_dummies signals.now) graph.now.places
        (marking.old ++ texts words.now)) (marking.old ++ texts words.now) result marking.new }
    ensures settled { OnOk result
        (IsSettled most (without_dummies signals.now) graph.now.places settled.new
        (before_close (drop 1 marking.new))) }
{
    marking.extend(words)?;
    if marking.is_bad(most, signals, graph, settled)? {
        return Err(LineError::Broken(Rule::BadMarking));
    }
    Ok(())
}
