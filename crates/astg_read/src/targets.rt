//! The targets of a graph line and their weight groups.

ghost use Rattle.std.specs.Prelude.{◌≡◌, ◌≤◌, ◌<◌, ◌^◌, [], ◌+◌, zero, length, IfOk};
ghost use Rattle.std.specs.List.{list_all, list_any};
ghost use Rattle.astg_read.specs.inner.NoDummies.{without_dummies};
ghost use Rattle.astg_read.specs.Nodes as nodes;
ghost use Rattle.astg_read.specs.inner.Views.{target_view, target_views, texts};
ghost use Rattle.astg_read.specs.inner.Fronts.{front_target, target_words};
ghost use Rattle.astg_read.specs.Targets.{targets_after, words_in};
ghost use Rattle.astg_read.specs.Targets as forms;

use crate::nodes::{is_node, is_signal, is_unknown};
use crate::signals::Signals;
use astg_lex::{Word, number};
use std::alloc::Global;
use stg_net::{NoMemory, Seq};

/// A target, and the weight group directly after it. A group that stands after no target is alone.
#[derive(Clone, Copy)]
pub struct Target<'w, 'a> {
    pub word: Option<&'a [u8]>,
    pub group: &'w [Word<'a>],
}

fn opens_group(word: &[u8]) -> bool
    ensures { result ≡ forms.opens_group word.now }
{
    word == b"(".as_slice()
}

fn closes_group(word: &[u8]) -> bool
    ensures { result ≡ forms.closes_group word.now }
{
    word == b")".as_slice()
}

/// A word `(` and up to two words after it.
fn group_at<'w, 'a>(words: &'w [Word<'a>]) -> &'w [Word<'a>]
    ensures group { texts result.now ≡ forms.group_at (texts words.now) }
    ensures most { length result.now ≤ length words.now }
{
    match words {
        [first, _, _, ..] if opens_group(first.text) => &words[..3],
        [first, ..] if opens_group(first.text) => words,
        _ => &words[..0],
    }
}

/// The target in front, and how many words it takes.
fn front<'w, 'a>(words: &'w [Word<'a>]) -> (Target<'w, 'a>, usize)
    requires { 0 < length words.now }
    ensures target { target_view result.0 ≡ front_target (texts words.now) }
    ensures count { result.1 ≡ target_words (texts words.now) }
    ensures least { 1 ≤ result.1 }
    ensures most { result.1 ≤ length words.now }
{
    if opens_group(words[0].text) {
        let group = group_at(words);
        (Target { word: None, group }, group.len())
    } else {
        let group = group_at(&words[1..]);
        let word = Some(words[0].text);
        (Target { word, group }, 1 + group.len())
    }
}

/// The targets of these words.
pub fn targets_of<'w, 'a>(
    alloc: Global,
    words: &'w [Word<'a>],
) -> Result<Seq<Target<'w, 'a>>, NoMemory>
    ensures { IfOk result (λ targets. target_views targets ≡ targets_after zero (texts words.now)) }
{
    let mut targets = Seq::new(alloc);
    let mut rest = words;
    while !rest.is_empty() {
        let (target, count) = front(rest);
        targets.push(target)?;
        rest = &rest[count..];
    }
    Ok(targets)
}

/// Whether each target is a node.
pub fn are_nodes(targets: &[Target<'_, '_>]) -> bool
    ensures { result
        ≡ list_all (nodes.is_node (without_dummies [])) (words_in (target_views targets.now)) }
{
    targets
        .iter()
        .filter_map(|t| t.word)
        .all(|word| is_node(word))
}

/// Whether a target has the form of a transition but stands for none.
pub fn have_unknown(signals: &Signals<'_>, targets: &[Target<'_, '_>]) -> bool
    requires { length signals.now < 2 ^ 32 }
    ensures { result
        ≡ list_any (nodes.is_unknown (without_dummies signals.now))
        (words_in (target_views targets.now)) }
{
    targets
        .iter()
        .filter_map(|t| t.word)
        .any(|word| is_unknown(signals, word))
}

/// Whether a target is the name of a signal.
pub fn have_signal(signals: &Signals<'_>, targets: &[Target<'_, '_>]) -> bool
    requires { length signals.now < 2 ^ 32 }
    ensures { result
        ≡ list_any (nodes.is_signal (without_dummies signals.now))
        (words_in (target_views targets.now)) }
{
    targets
        .iter()
        .filter_map(|t| t.word)
        .any(|word| is_signal(signals, word))
}

/// The number in a weight group.
pub fn group_weight(group: &[Word<'_>]) -> Option<u32>
    ensures { result ≡ forms.group_weight (texts group.now) }
{
    match group {
        [open, weight, close] if opens_group(open.text) && closes_group(close.text) => {
            number(weight.text)
        }
        _ => None,
    }
}

fn is_weight(most: u32, weight: Option<u32>) -> bool
    ensures { result ≡ forms.is_weight most weight }
{
    match weight {
        Some(weight) => 1 <= weight && weight <= most,
        None => false,
    }
}

fn is_good_group(most: u32, target: &Target<'_, '_>) -> bool
    ensures { result ≡ forms.is_good_group most (target_view target.now) }
{
    target.group.is_empty()
        || (target.word.is_some() && is_weight(most, group_weight(target.group)))
}

/// Whether each weight group stands after a target and holds a weight.
pub fn are_weighed(most: u32, targets: &[Target<'_, '_>]) -> bool
    ensures { result ≡ list_all (forms.is_good_group most) (target_views targets.now) }
{
    targets.iter().all(|target| is_good_group(most, target))
}
