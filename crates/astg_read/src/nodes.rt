//! The nodes of a graph.

ghost use Rattle.std.specs.Prelude.{◌≡◌, ◌<◌, ◌^◌, [], length};
ghost use Rattle.astg_read.specs.inner.NoDummies.{without_dummies};
ghost use Rattle.astg_read.specs.Nodes as nodes;
ghost use Rattle.astg_read.specs.inner.Views.{node_view};

use crate::names::{is_name, read_trans_word};
use crate::signals::Signals;
use stg_net::TransName;

/// A transition, or a place by its name.
#[derive(Clone, Copy, Debug, PartialEq, Eq, Hash)]
pub enum Node<'a> {
    Trans(TransName),
    Place(&'a [u8]),
}

/// Whether a word has the form of a transition.
pub fn is_trans_word(word: &[u8]) -> bool
    ensures { result ≡ nodes.is_trans_word (without_dummies []) word.now }
{
    read_trans_word(word).is_some()
}

/// Whether a word has the form of a transition or of a name.
pub fn is_node(word: &[u8]) -> bool
    ensures { result ≡ nodes.is_node (without_dummies []) word.now }
{
    is_trans_word(word) || is_name(word)
}

/// The transition of a declared signal for which a word stands.
pub fn trans_of_word(signals: &Signals<'_>, word: &[u8]) -> Option<TransName>
    requires { length signals.now < 2 ^ 32 }
    ensures { result ≡ nodes.trans_of_word (without_dummies signals.now) word.now }
{
    match read_trans_word(word) {
        Some(parts) => match signals.find(parts.name) {
            Some(signal) => Some(TransName {
                signal,
                edge: parts.edge,
                index: parts.index,
            }),
            None => None,
        },
        None => None,
    }
}

/// Whether a word has the form of a transition but stands for none.
pub fn is_unknown(signals: &Signals<'_>, word: &[u8]) -> bool
    requires { length signals.now < 2 ^ 32 }
    ensures { result ≡ nodes.is_unknown (without_dummies signals.now) word.now }
{
    read_trans_word(word).is_some() && trans_of_word(signals, word).is_none()
}

/// Whether a word is the name of a signal.
pub fn is_signal(signals: &Signals<'_>, word: &[u8]) -> bool
    requires { length signals.now < 2 ^ 32 }
    ensures { result ≡ nodes.is_signal (without_dummies signals.now) word.now }
{
    signals.find(word).is_some()
}

/// The node for which a word stands.
pub fn node_of<'a>(signals: &Signals<'_>, word: &'a [u8]) -> Node<'a>
    requires { length signals.now < 2 ^ 32 }
    ensures { node_view result ≡ nodes.node_of (without_dummies signals.now) word.now }
{
    match trans_of_word(signals, word) {
        Some(trans) => Node::Trans(trans),
        None => Node::Place(word),
    }
}
