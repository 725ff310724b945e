//! The lines of the transitions and of the places.

ghost use Rattle.std.specs.Prelude.{◌≡◌, ◌+◌, ◌<◌, ◌^◌, ◌++◌, List, ℕ, length, All, OnOk};
ghost use Rattle.std.specs.List.{list_any};
ghost use Rattle.std.specs.List.Sorted.{IsNonDecreasingBy};
ghost use Rattle.stg_net.specs.declared.arc.NetArc.{NetArc};
ghost use Rattle.stg_net.specs.Words.{trans_word};
ghost use Rattle.stg_net.specs.Ordered.{listed_below};
ghost use Rattle.astg_write.specs.ComponentText.{comes_from, goes_into, goes_out_of, weight_group, given_text, trans_line, takers_of, is_only_given, place_line, graph_lines};

use crate::arcs::{arcs_by_trans, arcs_of_place, arcs_of_trans};
use crate::number::push_number;
use crate::place::push_place;
use std::alloc::Global;
use stg_net::{Net, NetArc, NoMemory, Text, trans_text};

fn comes_from(trans: u32, arc: &NetArc) -> bool
    ensures { result ≡ comes_from trans arc.now }
{
    arc.into && arc.trans == trans
}

fn goes_into(place: u32, arc: &NetArc) -> bool
    ensures { result ≡ goes_into place arc.now }
{
    arc.into && arc.place == place
}

fn goes_out_of(place: u32, arc: &NetArc) -> bool
    ensures { result ≡ goes_out_of place arc.now }
{
    !arc.into && arc.place == place
}

fn push_weight(text: &mut Text, weight: u32) -> Result<(), NoMemory>
    ensures { OnOk result (text.new ≡ text.old ++ weight_group weight) }
{
    if weight > 1 {
        text.push(b'(')?;
        push_number(text, weight)?;
        text.push(b')')?;
    }
    Ok(())
}

fn push_given(text: &mut Text, prefix: &[u8], trans: u32, arcs: &[NetArc]) -> Result<(), NoMemory>
    requires { All (λ (a : NetArc). a.place + 1 < 2 ^ 32) arcs.now }
    ensures { OnOk result (text.new ≡ text.old ++ given_text prefix.now trans arcs.now) }
{
    for arc in arcs {
        if comes_from(trans, arc) {
            text.push(b' ')?;
            push_place(text, prefix, arc.place)?;
            push_weight(text, arc.weight)?;
        }
    }
    Ok(())
}

fn push_trans(alloc: Global, text: &mut Text, net: &Net, trans: u32) -> Result<(), NoMemory>
    requires { trans < length net.now.trans }
    ensures { OnOk result (text.new ≡ text.old ++ trans_word net.now.signals net.now.trans trans) }
{
    let word = trans_text(alloc, net, trans)?;
    text.extend_from_slice(word.as_slice())
}

fn push_trans_line(
    alloc: Global,
    text: &mut Text,
    prefix: &[u8],
    net: &Net,
    arcs: &[NetArc],
    trans: u32,
) -> Result<(), NoMemory>
    requires in_range { trans < length net.now.trans }
    requires within { length net.now.trans < 2 ^ 32 }
    requires places { length net.now.tokens < 2 ^ 32 }
    requires rise { IsNonDecreasingBy (λ (a : NetArc). a.trans) arcs.now }
    requires given { (p : List ℕ) (t : ℕ) → given_text p t arcs.now ≡ given_text p t net.now.arcs }
    requires ends { All (λ (a : NetArc). a.place < length net.now.tokens) arcs.now }
    ensures { OnOk result (text.new ≡ text.old ++ trans_line prefix.now net.now trans) }
{
    push_trans(alloc, text, net, trans)?;
    push_given(text, prefix, trans, arcs_of_trans(arcs, trans))?;
    text.push(b'\n')
}

fn push_takers(
    alloc: Global,
    text: &mut Text,
    net: &Net,
    place: u32,
    arcs: &[NetArc],
) -> Result<(), NoMemory>
    requires { All (λ (a : NetArc). a.trans < length net.now.trans) arcs.now }
    ensures { OnOk result (text.new ≡ text.old ++ takers_of net.now place arcs.now) }
{
    for arc in arcs {
        if goes_out_of(place, arc) {
            text.push(b' ')?;
            push_trans(alloc, text, net, arc.trans)?;
            push_weight(text, arc.weight)?;
        }
    }
    Ok(())
}

fn is_given(arcs: &[NetArc], place: u32) -> bool
    ensures { result ≡ list_any (goes_into place) arcs.now }
{
    arcs.iter().any(|a| goes_into(place, a))
}

fn is_taken(arcs: &[NetArc], place: u32) -> bool
    ensures { result ≡ list_any (goes_out_of place) arcs.now }
{
    arcs.iter().any(|a| goes_out_of(place, a))
}

fn is_only_given(arcs: &[NetArc], place: u32) -> bool
    ensures { result ≡ is_only_given arcs.now place }
{
    is_given(arcs, place) && !is_taken(arcs, place)
}

fn push_place_line(
    alloc: Global,
    text: &mut Text,
    prefix: &[u8],
    net: &Net,
    place: u32,
) -> Result<(), NoMemory>
    requires { place + 1 < 2 ^ 32 }
    ensures { OnOk result (text.new ≡ text.old ++ place_line prefix.now net.now place) }
{
    let arcs = arcs_of_place(net, place);
    if !is_only_given(arcs, place) {
        push_place(text, prefix, place)?;
        push_takers(alloc, text, net, place, arcs)?;
        text.push(b'\n')?;
    }
    Ok(())
}

fn push_trans_lines(
    alloc: Global,
    text: &mut Text,
    prefix: &[u8],
    net: &Net,
) -> Result<(), NoMemory>
    requires places { length net.now.tokens < 2 ^ 32 }
    requires trans { length net.now.trans < 2 ^ 32 }
    ensures { OnOk result
        (text.new ≡ text.old
        ++ listed_below (trans_line prefix.now net.now) (length net.now.trans)) }
{
    let arcs = arcs_by_trans(alloc, net)?;
    for trans in 0..net.trans().len() as u32 {
        push_trans_line(alloc, text, prefix, net, arcs.as_slice(), trans)?;
    }
    Ok(())
}

fn push_place_lines(
    alloc: Global,
    text: &mut Text,
    prefix: &[u8],
    net: &Net,
) -> Result<(), NoMemory>
    requires { length net.now.tokens < 2 ^ 32 }
    ensures { OnOk result
        (text.new ≡ text.old
        ++ listed_below (place_line prefix.now net.now) (length net.now.tokens)) }
{
    for place in 0..net.tokens().len() as u32 {
        push_place_line(alloc, text, prefix, net, place)?;
    }
    Ok(())
}

pub(crate) fn push_graph(
    alloc: Global,
    text: &mut Text,
    prefix: &[u8],
    net: &Net,
) -> Result<(), NoMemory>
    requires places { length net.now.tokens < 2 ^ 32 }
    requires trans { length net.now.trans < 2 ^ 32 }
    ensures { OnOk result (text.new ≡ text.old ++ graph_lines prefix.now net.now) }
{
    text.extend_from_slice(b".graph\n")?;
    push_trans_lines(alloc, text, prefix, net)?;
    push_place_lines(alloc, text, prefix, net)
}
