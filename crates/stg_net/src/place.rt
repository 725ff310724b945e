//! How the places of a specification are written.

ghost use Rattle.std.specs.Prelude.{◌≡◌, ◌<◌, length, IfOk};
ghost use Rattle.stg_net.specs.PlaceWords.{between_word, place_word, word_of_place};
ghost use Rattle.stg_net.specs.Spec.{IsPlaceNameOf};

use crate::{Net, NoMemory, PlaceName, Seq, Spec, Text, trans_text};
use std::alloc::Global;

fn between_text(alloc: Global, net: &Net, from: u32, to: u32) -> Result<Text, NoMemory>
    requires from { from < length net.now.trans }
    requires to { to < length net.now.trans }
    ensures { IfOk result (λ text. text ≡ between_word net.now from to) }
{
    let mut text = Seq::new(alloc);
    text.push(b'<')?;
    text.extend_from_slice(trans_text(alloc, net, from)?.as_slice())?;
    text.push(b',')?;
    text.extend_from_slice(trans_text(alloc, net, to)?.as_slice())?;
    text.push(b'>')?;
    Ok(text)
}

fn name_text(alloc: Global, net: &Net, name: &PlaceName) -> Result<Text, NoMemory>
    requires { IsPlaceNameOf (length net.now.trans) name.now }
    ensures { IfOk result (λ text. text ≡ word_of_place net.now name.now) }
{
    match name {
        PlaceName::Named(name) => Seq::from_slice(alloc, name.as_slice()),
        PlaceName::Between { from, to } => between_text(alloc, net, *from, *to),
    }
}

/// Writes the place of that number: its own name, or `<a+,b->` where it stands between two
/// transitions.
pub fn place_text(alloc: Global, spec: &Spec, p: u32) -> Result<Text, NoMemory>
    requires { p < length spec.now.net.tokens }
    ensures value { IfOk result (λ text. text ≡ place_word spec.now p) }
{
    let names = spec.place_names();
    name_text(alloc, spec.net(), &names[p as usize])
}
