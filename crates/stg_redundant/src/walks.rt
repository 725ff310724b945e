//! What walks tell.

ghost use Rattle.std.specs.Prelude.{◌≡◌, ◌<◌, ℕ, nat_le};
ghost use Rattle.std.specs.List.{list_all};
ghost use Rattle.std.specs.Option.{option_copied};
ghost use Rattle.stg_redundant.specs.inner.Tests as tests;

use stg_edit::Walk;

/// Whether both walks give the same numbers with the same weights.
pub fn are_same(one: Walk<'_>, mut other: Walk<'_>) -> bool
    ensures { result ≡ tests.are_same one.entry other.entry }
{
    for (number, weight) in one {
        match other.next() {
            None => return false,
            Some((also, same)) => {
                if number != also || weight != same {
                    return false;
                }
            }
        }
    }
    other.next().is_none()
}

/// The one number that the walk gives, where its weight is 1.
pub fn sole_of(mut walk: Walk<'_>) -> Option<u32>
    ensures { result ≡ tests.sole_of walk.entry }
{
    match walk.next() {
        None => None,
        Some((number, weight)) => match walk.next() {
            Some(_) => None,
            None => { if weight == 1 { Some(number) } else { None } }
        },
    }
}

/// The first number that the walk gives.
pub fn first_of(mut walk: Walk<'_>) -> Option<u32>
    ensures { result ≡ tests.first_of walk.entry }
{
    match walk.next() {
        None => None,
        Some((number, _)) => Some(number),
    }
}

/// Whether each weight of the walk is at most so much.
pub fn are_at_most(walk: Walk<'_>, most: u32) -> bool
    ensures { result ≡ list_all (λ x. nat_le x.1 most) walk.entry }
{
    for (_, weight) in walk {
        if weight > most {
            return false;
        }
    }
    true
}
