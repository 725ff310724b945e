//! One part for each group.

ghost use Rattle.std.specs.Prelude.{◌≡◌, ◌≤◌, ◌↔◌, ◌⊎◌, None, length, All, IfOk, IfErr, IfSome};
ghost use Rattle.std.specs.Option.{option_copied};
ghost use Rattle.stg_net.specs.declared.limits.TheConstants.Limits.{SPEC, PART};
ghost use Rattle.stg_net.specs.Net.{IsNet, IsWithin};
ghost use Rattle.stg_net.specs.Initial.{graph_of};
ghost use Rattle.stg_laws.specs.Conflict.{HasNoAutoConflict, IsLeastClash};
ghost use Rattle.stg_laws.specs.Faithful.{AreComponents};
ghost use Rattle.stg_laws.specs.PlainGroups.{AreFeasible, AreClosed};
ghost use Rattle.stg_decomp.specs.Telling.{clash_told, refusal_told, IsPartitionRefusedBy};
ghost use Rattle.stg_derive.specs.declared.part.Part.{Part as ThisPart};
ghost use Rattle.stg_crew.specs.Parts.{AreDerived};
ghost use Rattle.stg_derive.specs.Loggable.{IsLoggable};
ghost use Rattle.stg_decomp.specs.Parts.{AreGroupsOf, ArePartsOf, AreParts, nets_of};
ghost use Rattle.stg_decomp.specs.inner.Refusing.{refused_groups};
ghost use Rattle.astg_write.specs.Writable.{IsWritable};
ghost use Rattle.astg_write.specs.ReadsBack.{AreReadBack};

use crate::settle::settle_all;
use crate::{Answer, DecompError};
use std::alloc::Global;
use std::thread::Threads;
use stg_conflict::no_auto_conflict;
use stg_crew::{Gate, work};
use stg_derive::Part;
use stg_net::{NoMemory, Seq, Spec};
use stg_partition::{Group, GroupError, plain_groups, read_groups};

/// The parts of the groups, in their order, which the workers draw.
fn derive_all<R: Threads + Sync, G: Gate>(
    rt: &R,
    alloc: Global,
    spec: &Spec,
    groups: &[Group],
    workers: u32,
    gate: &G,
) -> Result<Seq<Part>, NoMemory>
    requires within { IsWithin SPEC spec.now.net }
    requires feasible { AreFeasible spec.now.net groups.now }
    requires closed { AreClosed spec.now.net groups.now }
    requires no_conflict { HasNoAutoConflict (graph_of spec.now.net) }
    requires workers { (1 ≤ workers) × (workers ≤ 64) }
    ensures derived { IfOk result (λ parts. AreDerived spec.now.net groups.now parts) }
    ensures nets { IfOk result (λ parts. All (λ (part : ThisPart). IsNet part.net) parts) }
    ensures writable { IfOk result (λ parts. All (λ (part : ThisPart). IsWritable part.net) parts) }
    ensures loggable { IfOk result (λ parts. All (IsLoggable spec.now.net) parts) }
{
    let worked = work(rt, alloc, spec, groups, workers, gate)?;
    Ok(worked.parts)
}

/// The groups that the text names, or the plain ones.
fn find_groups(
    alloc: Global,
    spec: &Spec,
    partition: Option<&[u8]>,
) -> Result<Seq<Group>, GroupError>
    ensures groups { IfOk result
        (λ groups. AreGroupsOf spec.now.net (option_copied partition.entry) groups) }
    ensures closed { IfOk result (λ groups. AreClosed spec.now.net groups) }
    ensures refused { IfErr result (λ e. (e ≡ GroupError.NoMemory)
        ⊎ IsPartitionRefusedBy spec.now.net (option_copied partition.entry) e) }
{
    match partition {
        None => match plain_groups(alloc, spec) {
            Ok(groups) => Ok(groups),
            Err(NoMemory) => Err(GroupError::NoMemory),
        },
        Some(text) => read_groups(alloc, spec, text),
    }
}

/// The settled parts of the groups of a specification without structural auto-conflicts.
fn make_answer<R: Threads + Sync, G: Gate>(
    rt: &R,
    alloc: Global,
    spec: &Spec,
    groups: &[Group],
    workers: u32,
    gate: &G,
) -> Result<Answer, NoMemory>
    requires workers { (1 ≤ workers) × (workers ≤ 64) }
    requires within { IsWithin SPEC spec.now.net }
    requires no_conflict { HasNoAutoConflict (graph_of spec.now.net) }
    requires feasible { AreFeasible spec.now.net groups.now }
    requires closed { AreClosed spec.now.net groups.now }
    ensures parts { IfOk result (λ answer. ArePartsOf spec.now.net groups.now answer.parts) }
    ensures few { IfOk result (λ answer. length answer.parts ≤ PART.signals) }
    ensures writable { IfOk result
        (λ answer. All (λ (part : ThisPart). IsWritable part.net) answer.parts) }
    ensures loggable { IfOk result (λ answer. All (IsLoggable spec.now.net) answer.parts) }
    ensures meaning { IfOk result (λ answer. AreComponents spec.now.net (nets_of answer.parts)) }
    ensures reads_back { IfOk result (λ answer. AreReadBack (nets_of answer.parts)) }
{
    let _net = spec.net();
    let derived = derive_all(rt, alloc, spec, groups, workers, gate)?;
    let parts = settle_all(alloc, derived)?;
    Ok(Answer { parts })
}

/// Why the groups weren't found, as the answer tells it.
fn refuse(error: GroupError) -> DecompError
    ensures { result ≡ refused_groups error }
{
    match error {
        GroupError::NoMemory => DecompError::NoMemory,
        refusal => DecompError::Groups(refusal),
    }
}

/// Decomposes a specification: one part for each group, in their order, which is that of the
/// group's plain derivation, settled among the others. The groups are those that the text names, or
/// without a text the plain ones. Each part's net has exactly the specification's traces on its
/// signals; together they are a correct decomposition of it, where it is deterministic. Each net
/// can be written and is read back from its text, and the records and steps of each part can be
/// logged. The workers, 1 to 64 of them, draw the groups, and the gate is entered before each is
/// derived; neither changes the parts.
///
/// A specification with a structural auto-conflict is answered by the least one, whatever the text
/// is; another one by the refusal of the text, where it is refused.
pub fn decompose<R: Threads + Sync, G: Gate>(
    rt: &R,
    alloc: Global,
    spec: &Spec,
    partition: Option<&[u8]>,
    workers: u32,
    gate: &G,
) -> Result<Answer, DecompError>
    requires within { IsWithin SPEC spec.now.net }
    requires workers { (1 ≤ workers) × (workers ≤ 64) }
    ensures parts { IfOk result
        (λ answer. AreParts spec.now.net (option_copied partition.entry) answer.parts) }
    ensures few { IfOk result (λ answer. length answer.parts ≤ PART.signals) }
    ensures writable { IfOk result
        (λ answer. All (λ (part : ThisPart). IsWritable part.net) answer.parts) }
    ensures loggable { IfOk result (λ answer. All (IsLoggable spec.now.net) answer.parts) }
    ensures meaning { IfOk result (λ answer. AreComponents spec.now.net (nets_of answer.parts)) }
    ensures reads_back { IfOk result (λ answer. AreReadBack (nets_of answer.parts)) }
    ensures clash { IfSome (clash_told result)
        (λ c. IsLeastClash (graph_of spec.now.net) c.t1 c.t2 c.place) }
    ensures none { clash_told result ≡ None ↔ HasNoAutoConflict (graph_of spec.now.net) }
    ensures groups { IfSome (refusal_told result)
        (IsPartitionRefusedBy spec.now.net (option_copied partition.entry)) }
{
    match no_auto_conflict(spec.net()) {
        Ok(()) => {}
        Err(clash) => return Err(DecompError::Clash(clash)),
    }
    let groups = match find_groups(alloc, spec, partition) {
        Ok(groups) => groups,
        Err(error) => return Err(refuse(error)),
    };
    match make_answer(rt, alloc, spec, groups.as_slice(), workers, gate) {
        Ok(answer) => Ok(answer),
        Err(NoMemory) => Err(DecompError::NoMemory),
    }
}
