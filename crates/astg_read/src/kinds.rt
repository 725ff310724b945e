//! The kinds of lines.

ghost use Rattle.std.specs.Prelude.{◌≡◌};
ghost use Rattle.astg_read.specs.Rows as rows;
ghost use Rattle.astg_read.specs.inner.LineResult.{IsKind};

use stg_net::Kind;

/// The kind of a line outside a marking, by its first word.
#[derive(Clone, Copy)]
pub enum LineKind {
    Title,
    Names(Kind),
    Dummies,
    Graph,
    Marking,
    End,
    Unknown,
    Nodes,
}

/// The kind of the line that begins with this word.
pub fn kind_of(word: &[u8]) -> LineKind
    ensures { IsKind word.now result }
{
    if word == b".model".as_slice() || word == b".name".as_slice() {
        LineKind::Title
    } else if word == b".inputs".as_slice() {
        LineKind::Names(Kind::Input)
    } else if word == b".outputs".as_slice() {
        LineKind::Names(Kind::Output)
    } else if word == b".internal".as_slice() {
        LineKind::Names(Kind::Internal)
    } else if word == b".dummy".as_slice() {
        LineKind::Dummies
    } else if word == b".graph".as_slice() {
        LineKind::Graph
    } else if word == b".marking".as_slice() {
        LineKind::Marking
    } else if word == b".end".as_slice() {
        LineKind::End
    } else if begins_with_dot(word) {
        LineKind::Unknown
    } else {
        LineKind::Nodes
    }
}

fn begins_with_dot(word: &[u8]) -> bool
    ensures { result ≡ rows.begins_with_dot word.now }
{
    match word {
        [] => false,
        [first, ..] => *first == b'.',
    }
}
