//! Places with their tokens, as the entries of a marking name them.

ghost use Rattle.std.specs.Prelude.{◌≡◌, ◌<◌, ◌^◌, length, IfOk};
ghost use Rattle.astg_read.specs.Graphs as graphs;
ghost use Rattle.astg_read.specs.inner.NoDummies.{without_dummies};
ghost use Rattle.astg_read.specs.inner.PlaceTokens as listed;
ghost use Rattle.astg_read.specs.inner.Views.{entry_views, place_tokens_views, place_view};

use crate::entries::{Entry, named_place, tokens_of};
use crate::signals::Signals;
use crate::text_graph::TextPlace;
use std::alloc::Global;
use stg_net::{NoMemory, Seq};

/// A place and its tokens.
#[derive(Clone, Copy)]
pub struct PlaceTokens<'a> {
    pub place: TextPlace<'a>,
    pub tokens: u32,
}

/// The places that entries name, with their tokens, in order.
pub fn place_tokens_of<'a>(
    alloc: Global,
    signals: &Signals<'_>,
    entries: &[Entry<'_, 'a>],
) -> Result<Seq<PlaceTokens<'a>>, NoMemory>
    requires { length signals.now < 2 ^ 32 }
    ensures { IfOk result
        (λ place_tokens. place_tokens_views place_tokens
        ≡ listed.place_tokens_of (without_dummies signals.now) (entry_views entries.now)) }
{
    let mut place_tokens = Seq::new(alloc);
    for entry in entries {
        if let Some(place) = named_place(signals, entry.place) {
            place_tokens.push(PlaceTokens {
                place,
                tokens: tokens_of(entry.tokens),
            })?;
        }
    }
    Ok(place_tokens)
}

fn same_place(a: &TextPlace<'_>, b: &TextPlace<'_>) -> bool
    ensures { result ≡ graphs.same_place (place_view a.now) (place_view b.now) }
{
    a == b
}

/// The tokens of a place: those with which it is named first, or none.
pub fn tokens_for(place_tokens: &[PlaceTokens<'_>], place: &TextPlace<'_>) -> u32
    ensures { result
        ≡ listed.tokens_for (place_tokens_views place_tokens.now) (place_view place.now) }
{
    for one in place_tokens {
        if same_place(place, &one.place) {
            return one.tokens;
        }
    }
    0
}
