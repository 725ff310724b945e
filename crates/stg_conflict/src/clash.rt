//! Clashes and their order.

ghost use Rattle.std.specs.Prelude.{◌≡◌};
ghost use Rattle.stg_conflict.specs.inner.Search.{is_lesser, lesser};

/// Two transitions of one label, and a place from which both take.
#[derive(Clone, Copy, Debug, PartialEq, Eq)]
pub struct Clash {
    /// The lesser transition.
    pub t1: u32,
    /// The greater transition.
    pub t2: u32,
    /// The place from which both take.
    pub place: u32,
}

fn is_lesser(c: Clash, d: Clash) -> bool
    ensures { result ≡ is_lesser c d }
{
    c.t1 < d.t1 || c.t1 == d.t1 && (c.t2 < d.t2 || c.t2 == d.t2 && c.place < d.place)
}

/// The lesser of two clashes, where there is one.
pub(crate) fn least_of(one: Option<Clash>, other: Option<Clash>) -> Option<Clash>
    ensures { result ≡ lesser one other }
{
    match (one, other) {
        (Some(c), Some(d)) => Some(if is_lesser(d, c) { d } else { c }),
        (None, other) => other,
        (one, None) => one,
    }
}
