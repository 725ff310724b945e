//! The parts of the plain groups of texts, written into logs and read back, for the tests.

ghost use Rattle.std.specs.Prelude.{◌<◌, length, IfOk};
ghost use Rattle.stg_net.specs.declared.limits.TheConstants.Limits.{SPEC};
ghost use Rattle.stg_net.specs.Net.{IsWithin};
ghost use Rattle.stg_net.specs.Initial.{graph_of};
ghost use Rattle.stg_laws.specs.Conflict.{HasNoAutoConflict};
ghost use Rattle.stg_laws.specs.PlainGroups.{ArePlainGroups, AreClosed};
ghost use Rattle.stg_derive.specs.Loggable.{IsLoggable};

use crate::{Log, StepError, read_steps, write_steps};
use astg_read::read_spec;
use std::alloc::Global;
use stg_conflict::no_auto_conflict;
use stg_derive::{Part, derive};
use stg_net::{NoMemory, Spec, Text};
use stg_partition::{Group, plain_groups};

/// Why there is no log.
#[derive(Clone, Copy, Debug)]
pub enum NoLog {
    /// The text isn't that of a specification.
    NoSpec,
    /// The specification has a structural auto-conflict.
    Clash,
    /// There is no plain group of that number.
    NoGroup,
    NoMemory,
}

impl From<NoMemory> for NoLog {
    fn from(_: NoMemory) -> Self {
        NoLog::NoMemory
    }
}

/// A specification, a part of it, and the part's log.
#[derive(Drop)]
pub struct Logged {
    pub spec: Spec,
    pub part: Part,
    pub log: Text,
}

/// Reads a specification within its limits.
pub fn spec_of(alloc: Global, text: &[u8]) -> Result<Spec, NoLog>
    ensures { IfOk result (λ spec. IsWithin SPEC spec.net) }
{
    match read_spec(alloc, text) {
        Ok(spec) => Ok(spec),
        Err(_) => Err(NoLog::NoSpec),
    }
}

/// Derives the part of a plain group.
fn derive_group(
    alloc: Global,
    spec: &Spec,
    groups: &[Group],
    group: usize,
) -> Result<Part, NoMemory>
    requires within { IsWithin SPEC spec.now.net }
    requires plain { ArePlainGroups spec.now.net groups.now }
    requires closed { AreClosed spec.now.net groups.now }
    requires no_conflict { HasNoAutoConflict (graph_of spec.now.net) }
    requires there { group < length groups.now }
    ensures { IfOk result (λ part. IsLoggable spec.now.net part) }
{
    let part = derive(alloc, spec, &groups[group])?;
    Ok(part)
}

/// Derives the part of the plain group of that number.
fn part_of(alloc: Global, spec: &Spec, group: usize) -> Result<Part, NoLog>
    requires { IsWithin SPEC spec.now.net }
    ensures { IfOk result (λ part. IsLoggable spec.now.net part) }
{
    match no_auto_conflict(spec.net()) {
        Ok(()) => {}
        Err(_) => return Err(NoLog::Clash),
    }
    let groups = plain_groups(alloc, spec)?;
    if groups.len() <= group {
        return Err(NoLog::NoGroup);
    }
    let part = derive_group(alloc, spec, groups.as_slice(), group)?;
    Ok(part)
}

/// Writes the log of the part of the plain group of that number.
pub fn write_log(alloc: Global, text: &[u8], group: usize) -> Result<Logged, NoLog> {
    let spec = spec_of(alloc, text)?;
    let part = part_of(alloc, &spec, group)?;
    let log = write_steps(alloc, &spec, &part)?;
    Ok(Logged { spec, part, log })
}

/// Reads a text of fewer than 1,000 bytes.
pub fn read_short(alloc: Global, spec: &Spec, text: &[u8]) -> Result<Log, StepError>
    requires { length text.now < 1000 }
{
    read_steps(alloc, spec, text)
}
