//! What the words of a decomposition call for, read and made.

ghost use Rattle.std.specs.Prelude.{◌≡◌, ◌+◌, ◌<◌, ◌≤◌, ℕ, List, All, length, IfOk, IfErr};
ghost use Rattle.std.specs.Option.{option_copied};
ghost use Rattle.stg_net.specs.Net.{IsWithin};
ghost use Rattle.stg_derive.specs.declared.part.Part.{Part};
ghost use Rattle.stg_derive.specs.Loggable.{IsLoggable};
ghost use Rattle.astg_write.specs.Writable.{IsWritable};
ghost use Rattle.desij.specs.Reading.{IsAccepted, inputs, named_files};
ghost use Rattle.desij.specs.inner.Taken.{TakesPartition, TakesSpec};
ghost use Rattle.desij.specs.inner.Unmade.{IsUnmade, IsUntaken, IsPartitionUnread, partition_count};

use crate::answer::{Unmade, accept_text, make_answer};
use crate::reading::read_text;
use io_shelf::Source;
use std::alloc::Global;
use std::thread::Threads;
use stg_decomp::Answer;
use stg_net::{Limits, Spec, Text};

/// A specification and its parts.
#[derive(Debug, Drop)]
pub struct Made {
    pub spec: Spec,
    pub answer: Answer,
}

// Reads the specification of that name.
fn take_spec<S: Source>(alloc: Global, source: &mut S, name: &str) -> Result<Spec, Unmade>
    requires { (S.seen source.old).selects < 8 }
    ensures taken { IfOk result
        (λ spec. TakesSpec name.now spec (S.seen source.old) (S.seen source.new)) }
    ensures within { IfOk result (λ spec. IsWithin Limits.SPEC spec.net) }
    ensures untaken { IfErr result
        (λ e. IsUntaken name.now e (S.seen source.old) (S.seen source.new)) }
    ensures selects { (S.seen source.new).selects ≡ (S.seen source.old).selects + 1 }
    ensures later { (S.seen source.old).faults ≤ (S.seen source.new).faults }
    ensures kept { (S.seen source.new).texts ≡ (S.seen source.old).texts }
{
    let text = read_text(alloc, source, name)?;
    accept_text(alloc, text.as_slice())
}

// Reads the partition, where one is named.
fn take_partition<S: Source>(
    alloc: Global,
    source: &mut S,
    file: Option<&str>,
) -> Result<Option<Text>, Unmade>
    requires { (S.seen source.old).selects < 8 }
    ensures taken { IfOk result (λ p.
        TakesPartition (option_copied file.entry) p (S.seen source.old) (S.seen source.new)) }
    ensures untaken { IfErr result (λ e.
        IsPartitionUnread (option_copied file.entry) e (S.seen source.old) (S.seen source.new)) }
    ensures selects { (S.seen source.new).selects
        ≡ (S.seen source.old).selects + partition_count (option_copied file.entry) }
    ensures kept { (S.seen source.new).texts ≡ (S.seen source.old).texts }
{
    match file {
        Some(name) => Ok(Some(read_text(alloc, source, name)?)),
        None => Ok(None),
    }
}

// The bytes of a text, where there is one.
fn bytes_of(text: &Option<Text>) -> Option<&[u8]>
    ensures { option_copied result ≡ text.now }
{
    match text {
        Some(text) => Some(text.as_slice()),
        None => None,
    }
}

/// Reads the specification and, where one is named, the partition, and makes the parts.
pub fn take_parts<R: Threads + Sync, S: Source>(
    rt: &R,
    alloc: Global,
    source: &mut S,
    name: &str,
    file: Option<&str>,
    workers: u32,
) -> Result<Made, Unmade>
    requires few { (S.seen source.old).selects + 2 < 8 }
    requires workers { (1 ≤ workers) × (workers ≤ 64) }
    ensures made { IfOk result (λ m. IsAccepted
        (inputs name.now (option_copied file.entry)) m.spec m.answer.parts
        (S.seen source.old) (S.seen source.new)) }
    ensures few { IfOk result (λ m. length m.answer.parts ≤ Limits.SPEC.signals) }
    ensures fit { IfOk result (λ m. All (λ (p : Part). IsWritable p.net) m.answer.parts) }
    ensures loggable { IfOk result (λ m. All (IsLoggable m.spec.net) m.answer.parts) }
    ensures unmade { IfErr result (λ e. IsUnmade
        (inputs name.now (option_copied file.entry)) e
        (S.seen source.old) (S.seen source.new)) }
    ensures selects { (S.seen source.new).selects
        ≤ (S.seen source.old).selects + named_files (inputs name.now (option_copied file.entry)) }
    ensures kept { (S.seen source.new).texts ≡ (S.seen source.old).texts }
{
    let spec = match take_spec(alloc, source, name) {
        Ok(spec) => spec,
        Err(why) => return Err(why),
    };
    let partition = match take_partition(alloc, source, file) {
        Ok(partition) => partition,
        Err(why) => return Err(why),
    };
    match make_answer(rt, alloc, &spec, bytes_of(&partition), workers) {
        Ok(answer) => Ok(Made { spec, answer }),
        Err(why) => Err(why),
    }
}
