//! What the words of a line tell.

ghost use Rattle.std.specs.Prelude.{◌≡◌, ◌<◌, ◌^◌, ◌∷◌, [], length, IfSome};
ghost use Rattle.stg_steps.specs.inner.Reading as reading;
ghost use Rattle.stg_steps.specs.inner.Taking.{lent_words};

use crate::words::{TransWords, number_in};
use stg_contract::Verdict;
use stg_derive::{Restore, Secure, Step};
use stg_net::Net;
use stg_redundant::{DummyFound, DummyRule, PlaceFound, PlaceRule};

fn lone_verdict(word: &[u8]) -> Option<Verdict>
    ensures { result ≡ reading.lone_verdict word.now }
{
    if word == b"loop".as_slice() {
        Some(Verdict::Loop)
    } else if word == b"weight".as_slice() {
        Some(Verdict::Weight)
    } else if word == b"insecure".as_slice() {
        Some(Verdict::Insecure)
    } else if word == b"large".as_slice() {
        Some(Verdict::Large)
    } else {
        None
    }
}

fn verdict_in(words: &TransWords, row: &[&[u8]]) -> Option<Verdict>
    requires { length words.now < 2 ^ 32 }
    ensures { result ≡ reading.verdict_in words.now (lent_words row.now) }
{
    match row {
        [w] => lone_verdict(*w),
        [w, k] => {
            if *w == b"places".as_slice() {
                Some(Verdict::Places(number_in(*k)?))
            } else {
                None
            }
        }
        [w, t, u] => {
            if *w == b"clash".as_slice() {
                Some(Verdict::Clash(words.find(*t)?, words.find(*u)?))
            } else {
                None
            }
        }
        _ => None,
    }
}

/// The record that these words tell, behind the first word of a line.
pub(crate) fn restore_in(net: &Net, words: &TransWords, row: &[&[u8]]) -> Option<Restore>
    requires long { length words.now ≡ length net.now.trans }
    requires few { length words.now < 2 ^ 32 }
    ensures { result ≡ reading.restore_in net.now words.now (lent_words row.now) }
{
    match row {
        [] => None,
        [_] => None,
        [name, t, rest @ ..] => {
            let trans = words.find(*t)?;
            let verdict = verdict_in(words, rest)?;
            let signal = net.trans()[trans as usize].signal;
            if *name == net.signals()[signal as usize].name.as_slice() {
                Some(Restore {
                    signal,
                    trans,
                    verdict,
                })
            } else {
                None
            }
        }
    }
}

fn secure_in(word: &[u8]) -> Option<Secure>
    ensures { result ≡ reading.secure_in word.now }
{
    match word {
        b"type1" => Some(Secure::Type1),
        b"type2" => Some(Secure::Type2),
        _ => None,
    }
}

fn contract_in(words: &TransWords, row: &[&[u8]]) -> Option<Step>
    requires { length words.now < 2 ^ 32 }
    ensures { result ≡ reading.contract_in words.now (lent_words row.now) }
{
    match row {
        [t, kind, w, k] => {
            if *w == b"places".as_slice() {
                Some(Step::Contract {
                    trans: words.find(*t)?,
                    secure: secure_in(*kind)?,
                    places: number_in(*k)?,
                })
            } else {
                None
            }
        }
        _ => None,
    }
}

fn lone_place_rule(word: &[u8]) -> Option<PlaceRule>
    ensures { result ≡ reading.place_rule_in (word.now ∷ []) }
{
    if word == b"loop".as_slice() {
        Some(PlaceRule::Loop)
    } else if word == b"shortcut".as_slice() {
        Some(PlaceRule::Shortcut)
    } else {
        None
    }
}

fn place_rule_in(row: &[&[u8]]) -> Option<PlaceRule>
    ensures { result ≡ reading.place_rule_in (lent_words row.now) }
{
    match row {
        [w] => lone_place_rule(*w),
        [w, q] => {
            if *w == b"same".as_slice() {
                Some(PlaceRule::Same(number_in(*q)?))
            } else {
                None
            }
        }
        _ => None,
    }
}

fn dummy_rule_in(words: &TransWords, row: &[&[u8]]) -> Option<DummyRule>
    requires { length words.now < 2 ^ 32 }
    ensures { result ≡ reading.dummy_rule_in words.now (lent_words row.now) }
{
    match row {
        [w] => {
            if *w == b"loop".as_slice() {
                Some(DummyRule::Loop)
            } else {
                None
            }
        }
        [w, u] => {
            if *w == b"same".as_slice() {
                Some(DummyRule::Same(words.find(*u)?))
            } else {
                None
            }
        }
        _ => None,
    }
}

fn drop_in(words: &TransWords, row: &[&[u8]]) -> Option<Step>
    requires { length words.now < 2 ^ 32 }
    ensures { result ≡ reading.drop_in words.now (lent_words row.now) }
{
    match row {
        [] => None,
        [_] => None,
        [what, which, rest @ ..] => {
            if *what == b"place".as_slice() {
                Some(Step::DropPlace(PlaceFound {
                    place: number_in(*which)?,
                    rule: place_rule_in(rest)?,
                }))
            } else if *what == b"dummy".as_slice() {
                Some(Step::DropDummy(DummyFound {
                    trans: words.find(*which)?,
                    rule: dummy_rule_in(words, rest)?,
                }))
            } else {
                None
            }
        }
    }
}

/// The step that the words of a line tell.
pub(crate) fn step_in(words: &TransWords, row: &[&[u8]]) -> Option<Step>
    requires { length words.now < 2 ^ 32 }
    ensures { result ≡ reading.step_in words.now (lent_words row.now) }
{
    match row {
        [] => None,
        [w, rest @ ..] => {
            if *w == b"contract".as_slice() {
                contract_in(words, rest)
            } else if *w == b"drop".as_slice() {
                drop_in(words, rest)
            } else {
                None
            }
        }
    }
}
