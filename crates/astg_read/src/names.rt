//! Names and transition words.

ghost use Rattle.std.specs.Prelude.{◌≡◌, ◌≤◌, ◌<◌, true, length, option_map, IfSome};
ghost use Rattle.std.specs.List.{list_all, prefix_len};
ghost use Rattle.stg_net.specs.Names as forms;
ghost use Rattle.astg_read.specs.Names as names;
ghost use Rattle.astg_read.specs.inner.Views.{trans_word_view};

use astg_lex::number;
use stg_net::Edge;

/// The parts of a transition word.
#[derive(Clone, Copy)]
pub struct TransWord<'a> {
    pub name: &'a [u8],
    pub edge: Edge,
    pub index: u32,
}

fn begins_name(c: u8) -> bool
    ensures { result ≡ forms.begins_name c }
{
    matches!(c, b'a'..=b'z' | b'A'..=b'Z' | b'0'..=b'9' | b'_')
}

fn is_in_name(c: u8) -> bool
    ensures { result ≡ forms.is_in_name c }
{
    begins_name(c) || matches!(c, b'.' | b'[' | b']')
}

fn all_in_name(bytes: &[u8]) -> bool
    ensures { result ≡ list_all forms.is_in_name bytes.now }
{
    bytes.iter().all(|c| is_in_name(*c))
}

/// Whether a word has the form of a name.
pub fn is_name(word: &[u8]) -> bool
    ensures { result ≡ forms.is_name word.now }
{
    match word {
        [] => false,
        [first, rest @ ..] => begins_name(*first) && rest.len() <= 99 && all_in_name(rest),
    }
}

fn edge_of(c: u8) -> Option<Edge>
    ensures { result ≡ names.edge_of c }
{
    match c {
        b'+' => Some(Edge::Rise),
        b'-' => Some(Edge::Fall),
        b'~' => Some(Edge::Toggle),
        _ => None,
    }
}

fn index_of(word: &[u8]) -> Option<u32>
    ensures value { result ≡ names.index_of word.now }
    ensures within { IfSome result (λ n. n < 1000000000) }
{
    match word {
        [] => Some(0),
        [b'/', digits @ ..] => number(digits),
        _ => None,
    }
}

fn change_of(word: &[u8]) -> Option<(Edge, u32)>
    ensures value { result ≡ names.change_of word.now }
    ensures within { IfSome result (λ c. c.1 < 1000000000) }
{
    let [first, rest @ ..] = word else {
        return None;
    };
    match (edge_of(*first), index_of(rest)) {
        (Some(edge), Some(index)) => Some((edge, index)),
        _ => None,
    }
}

fn name_length(word: &[u8]) -> usize
    ensures value { result ≡ prefix_len forms.is_in_name word.now }
    ensures most { result ≤ length word.now }
{
    word.iter().take_while(|c| is_in_name(**c)).count()
}

/// The parts of a transition word, where it is one.
pub fn read_trans_word(word: &[u8]) -> Option<TransWord<'_>>
    ensures value { option_map trans_word_view result ≡ names.read_trans_word word.now }
    ensures within { IfSome result (λ w. w.index < 1000000000) }
{
    let (name, rest) = word.split_at(name_length(word));
    if !is_name(name) {
        return None;
    }
    match change_of(rest) {
        Some((edge, index)) => Some(TransWord { name, edge, index }),
        None => None,
    }
}
