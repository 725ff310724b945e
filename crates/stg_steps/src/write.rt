//! Writes the log of a part.

ghost use Rattle.std.specs.Prelude.{◌≡◌, ◌<◌, ◌++◌, ◌∷◌, [], decimal, length, All, IfOk, OnOk};
ghost use Rattle.stg_derive.specs.Loggable.{IsLoggable, IsLoggableVerdict, IsLoggableDummyRule, IsLoggableStep, IsLoggableRecord};
ghost use Rattle.stg_steps.specs.LogText as log_text;

use itoa::Buffer;
use std::alloc::Global;
use stg_contract::Verdict;
use stg_derive::{Part, Restore, Secure, Step};
use stg_net::{Net, NoMemory, Seq, Spec, Text, trans_text};
use stg_redundant::{DummyFound, DummyRule, PlaceFound, PlaceRule};

fn push_word(text: &mut Text, word: &[u8]) -> Result<(), NoMemory>
    ensures { OnOk result (text.new ≡ text.old ++ log_text.spaced (word.now ∷ [])) }
{
    text.push(b' ')?;
    text.extend_from_slice(word)
}

fn push_number(text: &mut Text, number: u32) -> Result<(), NoMemory>
    ensures { OnOk result (text.new ≡ text.old ++ log_text.spaced (decimal number ∷ [])) }
{
    push_word(text, Buffer::new().format(number).as_bytes())
}

fn push_trans(alloc: Global, text: &mut Text, net: &Net, t: u32) -> Result<(), NoMemory>
    requires { t < length net.now.trans }
    ensures { OnOk result
        (text.new ≡ text.old ++ log_text.spaced (log_text.word_at net.now t ∷ [])) }
{
    let word = trans_text(alloc, net, t)?;
    push_word(text, word.as_slice())
}

fn push_verdict(alloc: Global, text: &mut Text, net: &Net, verdict: Verdict) -> Result<(), NoMemory>
    requires { IsLoggableVerdict (length net.now.trans) verdict }
    ensures { OnOk result
        (text.new ≡ text.old ++ log_text.spaced (log_text.verdict_words net.now verdict)) }
{
    match verdict {
        Verdict::Type1 => push_word(text, b"type1"),
        Verdict::Type2 => push_word(text, b"type2"),
        Verdict::Loop => push_word(text, b"loop"),
        Verdict::Weight => push_word(text, b"weight"),
        Verdict::Insecure => push_word(text, b"insecure"),
        Verdict::Clash(t, u) => {
            push_word(text, b"clash")?;
            push_trans(alloc, text, net, t)?;
            push_trans(alloc, text, net, u)
        }
        Verdict::Places(k) => {
            push_word(text, b"places")?;
            push_number(text, k)
        }
        Verdict::Large => push_word(text, b"large"),
    }
}

fn push_restore(alloc: Global, text: &mut Text, net: &Net, restore: Restore) -> Result<(), NoMemory>
    requires { IsLoggableRecord net.now restore }
    ensures { OnOk result
        (text.new ≡ text.old ++ log_text.line_of (log_text.restore_words net.now restore)) }
{
    text.extend_from_slice(b"restore")?;
    push_word(text, net.signals()[restore.signal as usize].name.as_slice())?;
    push_trans(alloc, text, net, restore.trans)?;
    push_verdict(alloc, text, net, restore.verdict)?;
    text.push(b'\n')
}

fn push_contract(
    alloc: Global,
    text: &mut Text,
    net: &Net,
    t: u32,
    secure: Secure,
    places: u32,
) -> Result<(), NoMemory>
    requires { t < length net.now.trans }
    ensures { OnOk result
        (text.new
        ≡ text.old ++ log_text.line_of (log_text.contract_words net.now t secure places)) }
{
    text.extend_from_slice(b"contract")?;
    push_trans(alloc, text, net, t)?;
    match secure {
        Secure::Type1 => push_word(text, b"type1")?,
        Secure::Type2 => push_word(text, b"type2")?,
    }
    push_word(text, b"places")?;
    push_number(text, places)?;
    text.push(b'\n')
}

fn push_place_rule(text: &mut Text, rule: PlaceRule) -> Result<(), NoMemory>
    ensures { OnOk result
        (text.new ≡ text.old ++ log_text.spaced (log_text.place_rule_words rule)) }
{
    match rule {
        PlaceRule::Same(q) => {
            push_word(text, b"same")?;
            push_number(text, q)
        }
        PlaceRule::Loop => push_word(text, b"loop"),
        PlaceRule::Shortcut => push_word(text, b"shortcut"),
    }
}

fn push_drop_place(text: &mut Text, found: PlaceFound) -> Result<(), NoMemory>
    ensures { OnOk result
        (text.new ≡ text.old ++ log_text.line_of (log_text.drop_place_words found)) }
{
    text.extend_from_slice(b"drop place")?;
    push_number(text, found.place)?;
    push_place_rule(text, found.rule)?;
    text.push(b'\n')
}

fn push_dummy_rule(
    alloc: Global,
    text: &mut Text,
    net: &Net,
    rule: DummyRule,
) -> Result<(), NoMemory>
    requires { IsLoggableDummyRule (length net.now.trans) rule }
    ensures { OnOk result
        (text.new ≡ text.old ++ log_text.spaced (log_text.dummy_rule_words net.now rule)) }
{
    match rule {
        DummyRule::Loop => push_word(text, b"loop"),
        DummyRule::Same(u) => {
            push_word(text, b"same")?;
            push_trans(alloc, text, net, u)
        }
    }
}

fn push_drop_dummy(
    alloc: Global,
    text: &mut Text,
    net: &Net,
    found: DummyFound,
) -> Result<(), NoMemory>
    requires trans { found.trans < length net.now.trans }
    requires rule { IsLoggableDummyRule (length net.now.trans) found.rule }
    ensures { OnOk result
        (text.new ≡ text.old ++ log_text.line_of (log_text.drop_dummy_words net.now found)) }
{
    text.extend_from_slice(b"drop dummy")?;
    push_trans(alloc, text, net, found.trans)?;
    push_dummy_rule(alloc, text, net, found.rule)?;
    text.push(b'\n')
}

fn push_step(alloc: Global, text: &mut Text, net: &Net, step: Step) -> Result<(), NoMemory>
    requires { IsLoggableStep (length net.now.trans) step }
    ensures { OnOk result
        (text.new ≡ text.old ++ log_text.line_of (log_text.step_words net.now step)) }
{
    match step {
        Step::Contract {
            trans,
            secure,
            places,
        } => push_contract(alloc, text, net, trans, secure, places),
        Step::DropPlace(found) => push_drop_place(text, found),
        Step::DropDummy(found) => push_drop_dummy(alloc, text, net, found),
    }
}

fn push_restores(
    alloc: Global,
    text: &mut Text,
    net: &Net,
    restored: &[Restore],
) -> Result<(), NoMemory>
    requires { All (IsLoggableRecord net.now) restored.now }
    ensures { OnOk result (text.new ≡ text.old ++ log_text.restore_lines net.now restored.now) }
{
    for restore in restored {
        push_restore(alloc, text, net, *restore)?;
    }
    Ok(())
}

fn push_steps(alloc: Global, text: &mut Text, net: &Net, steps: &[Step]) -> Result<(), NoMemory>
    requires { All (IsLoggableStep (length net.now.trans)) steps.now }
    ensures { OnOk result (text.new ≡ text.old ++ log_text.step_lines net.now steps.now) }
{
    for step in steps {
        push_step(alloc, text, net, *step)?;
    }
    Ok(())
}

/// Writes the log of a part: a line for each record, one for each step, and `end`. Those of a part
/// that `derive` made can be logged.
pub fn write_steps(alloc: Global, spec: &Spec, part: &Part) -> Result<Text, NoMemory>
    requires { IsLoggable spec.now.net part.now }
    ensures { IfOk result
        (λ text. text
        ≡ log_text.log_text spec.now.net part.now.restored part.now.steps) }
{
    let net = spec.net();
    let mut text = Seq::new(alloc);
    push_restores(alloc, &mut text, net, part.restored.as_slice())?;
    push_steps(alloc, &mut text, net, part.steps.as_slice())?;
    text.extend_from_slice(b"end\n")?;
    Ok(text)
}
