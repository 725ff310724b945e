//! The parts of texts, or why there are none.

ghost use Rattle.std.specs.Prelude.{◌≡◌, ◌≤◌, Some, All, length, IfOk, IfErr};
ghost use Rattle.std.specs.Option.{option_copied};
ghost use Rattle.stg_net.specs.Initial.{graph_of};
ghost use Rattle.stg_net.specs.Net.{IsNet, IsWithin};
ghost use Rattle.stg_laws.specs.Conflict.{HasNoAutoConflict, IsLeastClash};
ghost use Rattle.stg_partition.specs.Partition.{IsRefusedPartition};
ghost use Rattle.stg_derive.specs.declared.part.Part.{Part};
ghost use Rattle.stg_derive.specs.Loggable.{IsLoggable};
ghost use Rattle.astg_write.specs.Writable.{IsWritable};
ghost use Rattle.astg_read.specs.Standing.{StandsFor, IsUnread};
ghost use Rattle.desij.specs.Answering.{Accepts, Decomposes};
ghost use Rattle.desij.specs.inner.Unmade.{IsTold, IsToldOf};

use crate::printing::{clash_text, groups_text, refusal_text};
use crate::reading::TextError;
use astg_read::{ReadError, Rule, read_spec};
use std::alloc::Global;
use std::thread::Threads;
use stg_conflict::{Clash, no_auto_conflict};
use stg_crew::OpenGate;
use stg_decomp::{Answer, DecompError, decompose};
use stg_net::{Limits, NoMemory, Spec, Text};
use stg_partition::GroupError;

/// Why there are no parts.
#[derive(Debug, Drop)]
pub enum Unmade {
    /// A text couldn't be read.
    Unread,
    /// A text is refused by this line.
    Refused(Text),
    /// Memory ran out.
    NoMemory,
}

impl From<NoMemory> for Unmade {
    ghost use Rattle.desij.specs.declared.answer.Unmade.TheVariants as unmade;

    ghost from_gives = { λ _ e. e ≡ unmade.NoMemory };

    fn from(_: NoMemory) -> Self {
        Unmade::NoMemory
    }
}

impl From<TextError> for Unmade {
    ghost use Rattle.desij.specs.inner.Unmade.{unmade_by};

    ghost from_gives = { λ e u. u ≡ unmade_by e };

    fn from(error: TextError) -> Self {
        match error {
            TextError::Failed | TextError::Missing => Unmade::Unread,
            TextError::NoMemory => Unmade::NoMemory,
        }
    }
}

// Refuses the text by the rule that its first bad line breaks.
fn refuse_by_rule(alloc: Global, text: &[u8], rule: Rule, line: u32) -> Unmade
    requires { IsUnread Limits.SPEC text.now rule line }
    ensures { IsTold text.now result }
{
    match refusal_text(alloc, rule, line) {
        Ok(line) => Unmade::Refused(line),
        Err(NoMemory) => Unmade::NoMemory,
    }
}

// Refuses the text by the least structural auto-conflict of its specification.
fn refuse_by_clash(alloc: Global, text: &[u8], spec: &Spec, clash: Clash) -> Unmade
    requires stands { StandsFor Limits.SPEC text.now spec.now }
    requires least { IsLeastClash (graph_of spec.now.net) clash.t1 clash.t2 clash.place }
    ensures { IsTold text.now result }
{
    match clash_text(alloc, spec, clash) {
        Ok(line) => Unmade::Refused(line),
        Err(NoMemory) => Unmade::NoMemory,
    }
}

// The specification, unless it has a structural auto-conflict.
fn refuse_clashes(alloc: Global, text: &[u8], spec: Spec) -> Result<Spec, Unmade>
    requires { StandsFor Limits.SPEC text.now spec }
    ensures accepted { IfOk result (λ s. Accepts text.now s) }
    ensures same { IfOk result (λ s. s ≡ spec) }
    ensures refused { IfErr result (λ e. IsTold text.now e) }
{
    match no_auto_conflict(spec.net()) {
        Ok(()) => Ok(spec),
        Err(clash) => Err(refuse_by_clash(alloc, text, &spec, clash)),
    }
}

/// The specification that a text stands for, which has no structural auto-conflict.
pub fn accept_text(alloc: Global, text: &[u8]) -> Result<Spec, Unmade>
    ensures accepted { IfOk result (λ s. Accepts text.now s) }
    ensures within { IfOk result (λ s. IsWithin Limits.SPEC s.net) }
    ensures refused { IfErr result (λ e. IsTold text.now e) }
{
    match read_spec(alloc, text) {
        Ok(spec) => refuse_clashes(alloc, text, spec),
        Err(ReadError::Refused { rule, line }) => Err(refuse_by_rule(alloc, text, rule, line)),
        Err(ReadError::NoMemory) => Err(Unmade::NoMemory),
    }
}

// Refuses the partition by why it names no feasible groups.
fn refuse_by_groups(alloc: Global, spec: &Spec, partition: &[u8], error: GroupError) -> Unmade
    requires { IsRefusedPartition spec.now.net partition.now error }
    ensures { IsToldOf spec.now (Some partition.now) result }
{
    let _net = spec.net();
    match groups_text(alloc, spec, error) {
        Ok(line) => Unmade::Refused(line),
        Err(NoMemory) => Unmade::NoMemory,
    }
}

/// The parts of a specification without structural auto-conflicts: those of its plain groups, or of
/// the groups that a partition names.
pub fn make_answer<R: Threads + Sync>(
    rt: &R,
    alloc: Global,
    spec: &Spec,
    partition: Option<&[u8]>,
    workers: u32,
) -> Result<Answer, Unmade>
    requires no_clash { HasNoAutoConflict (graph_of spec.now.net) }
    requires within { IsWithin Limits.SPEC spec.now.net }
    requires workers { (1 ≤ workers) × (workers ≤ 64) }
    ensures answer { IfOk result
        (λ a. Decomposes spec.now (option_copied partition.entry) a.parts) }
    ensures few { IfOk result (λ a. length a.parts ≤ Limits.SPEC.signals) }
    ensures fit { IfOk result (λ a. All (λ (p : Part). IsWritable p.net) a.parts) }
    ensures loggable { IfOk result (λ a. All (IsLoggable spec.now.net) a.parts) }
    ensures refused { IfErr result (λ e. IsToldOf spec.now (option_copied partition.entry) e) }
{
    match decompose(rt, alloc, spec, partition, workers, &OpenGate) {
        Ok(answer) => Ok(answer),
        Err(DecompError::Clash(_)) => unreachable!(),
        Err(DecompError::Groups(error)) => match partition {
            Some(text) => Err(refuse_by_groups(alloc, spec, text, error)),
            None => unreachable!(),
        },
        Err(DecompError::NoMemory) => Err(Unmade::NoMemory),
    }
}
