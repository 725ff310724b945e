//! What the text of a project is made into.

ghost use Rattle.std.specs.Prelude.{◌≡◌, ◌<◌, ◌≤◌, All, length, IfOk, string_bytes};
ghost use Rattle.stg_net.specs.declared.limits.TheConstants.Limits.{SPEC, PART};
ghost use Rattle.stg_net.specs.Initial.{graph_of};
ghost use Rattle.stg_net.specs.Net.{IsWithin};
ghost use Rattle.stg_laws.specs.Conflict.{IsLeastClash};
ghost use Rattle.astg_read.specs.Refusals.{rule_text};
ghost use Rattle.astg_read.specs.Standing.{StandsFor};
ghost use Rattle.astg_write.specs.Writable.{IsWritable};
ghost use Rattle.stg_derive.specs.declared.part.Part.{Part};
ghost use Rattle.desk_http.specs.Making.{Makes, body_of_clash, texts_of_parts};
ghost use Rattle.desk_http.specs.Replies as texts;

use crate::bodies::{as_text, clash_body, rule_body};
use astg_read::{ReadError, Rule, read_spec};
use std::alloc::{AllocError, Global};
use std::thread::Threads;
use stg_conflict::Clash;
use stg_crew::OpenGate;
use stg_decomp::{Answer, DecompError, decompose, part_text};
use stg_net::{NoMemory, Seq, Spec, Text, place_text, trans_text};

/// What a text is made into.
#[derive(Debug, Drop)]
pub enum Made {
    /// The texts of its parts.
    Parts(Seq<Text>),
    /// The body of the reply that tells why there are none.
    Refused(Text),
}

// The word of a rule.
fn rule_word(alloc: Global, rule: Rule) -> Result<String, AllocError>
    ensures { IfOk result (λ s. string_bytes s ≡ rule_text rule) }
{
    format!(in alloc; "{rule}")
}

// The body that tells a rule and a line.
fn rule_refusal(alloc: Global, rule: Rule, line: u32) -> Result<Text, NoMemory>
    ensures { IfOk result (λ body. body ≡ texts.rule_body (rule_text rule) line) }
{
    let word = rule_word(alloc, rule)?;
    let body = rule_body(alloc, word.as_str(), line)?;
    Seq::from_slice(alloc, body.as_bytes())
}

// The body that tells a clash.
fn clash_refusal(alloc: Global, spec: &Spec, clash: Clash) -> Result<Text, NoMemory>
    requires first { clash.t1 < length spec.now.net.trans }
    requires second { clash.t2 < length spec.now.net.trans }
    requires place { clash.place < length spec.now.net.tokens }
    ensures { IfOk result (λ body. body ≡ body_of_clash spec.now clash) }
{
    let place = place_text(alloc, spec, clash.place)?;
    let first = trans_text(alloc, spec.net(), clash.t1)?;
    let second = trans_text(alloc, spec.net(), clash.t2)?;
    let body = clash_body(
        alloc,
        as_text(place.as_slice())?,
        as_text(first.as_slice())?,
        as_text(second.as_slice())?,
    )?;
    Seq::from_slice(alloc, body.as_bytes())
}

// The texts of the parts of an answer.
fn part_texts(alloc: Global, answer: &Answer) -> Result<Seq<Text>, NoMemory>
    requires few { length answer.now.parts ≤ PART.signals }
    requires writable { All (λ (part : Part). IsWritable part.net) answer.now.parts }
    ensures { IfOk result (λ all. all ≡ texts_of_parts answer.now.parts) }
{
    let mut all = Seq::new(alloc);
    for k in 0..answer.parts.len() as u32 {
        all.push(part_text(alloc, answer, k)?)?;
    }
    Ok(all)
}

// What the text of a specification is made into.
fn make_parts<R: Threads + Sync>(
    rt: &R,
    alloc: Global,
    text: &[u8],
    spec: &Spec,
    workers: u32,
) -> Result<Made, NoMemory>
    requires stands { StandsFor SPEC text.now spec.now }
    requires within { IsWithin SPEC spec.now.net }
    requires workers { (1 ≤ workers) × (workers ≤ 64) }
    ensures { IfOk result (λ m. Makes text.now m) }
{
    match decompose(rt, alloc, spec, None, workers, &OpenGate) {
        Ok(answer) => Ok(Made::Parts(part_texts(alloc, &answer)?)),
        Err(DecompError::Clash(clash)) => Ok(Made::Refused(clash_refusal(alloc, spec, clash)?)),
        Err(DecompError::Groups(_)) => unreachable!(),
        Err(DecompError::NoMemory) => Err(NoMemory),
    }
}

/// What a text is made into, by so many workers.
pub fn make<R: Threads + Sync>(
    rt: &R,
    alloc: Global,
    text: &[u8],
    workers: u32,
) -> Result<Made, NoMemory>
    requires { (1 ≤ workers) × (workers ≤ 64) }
    ensures { IfOk result (λ m. Makes text.now m) }
{
    match read_spec(alloc, text) {
        Ok(spec) => make_parts(rt, alloc, text, &spec, workers),
        Err(ReadError::Refused { rule, line }) => Ok(Made::Refused(rule_refusal(
            alloc, rule, line,
        )?)),
        Err(ReadError::NoMemory) => Err(NoMemory),
    }
}
