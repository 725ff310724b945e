//! The partition that a text names.

ghost use Rattle.std.specs.Prelude.{◌≡◌, ◌≤◌, ◌<◌, ◌⊎◌, ◌^◌, length, map, [], ◌∷◌, ◌++◌, IfOk, IfErr, OnOk};
ghost use Rattle.stg_net.specs.declared.limits.TheConstants.Limits.{PART};
ghost use Rattle.stg_net.specs.Ordered.{numbers_where};
ghost use Rattle.stg_laws.specs.PlainGroups.{AreFeasible, AreClosed};
ghost use Rattle.stg_partition.specs.Partition.{is_named_in, row_group, ArePartition, IsRefusedPartition};
ghost use Rattle.stg_partition.specs.inner.WordTexts.{texts_of, all_texts};
ghost use Rattle.stg_partition.specs.inner.Naming.{AreNamedGroups, AreRefusedBy};

use crate::known::list_known;
use crate::numbering::{find_unnumbered, number_signals};
use crate::reading::{is_among, read_rows};
use crate::splits::find_split;
use crate::{Group, GroupError};
use astg_lex::Word;
use std::alloc::Global;
use stg_net::{Net, NoMemory, Nums, Seq, Signal, Spec};

fn list_own(alloc: Global, signals: &[Signal], row: &[Word<'_>]) -> Result<Nums, NoMemory>
    requires { length signals.now < 2 ^ 32 }
    ensures { IfOk result
        (λ own. own
        ≡ numbers_where (is_named_in signals.now (texts_of row.now)) (length signals.now)) }
{
    let mut own = Seq::new(alloc);
    for s in 0..signals.len() as u32 {
        if is_among(row, signals[s as usize].name.as_slice()) {
            own.push(s)?;
        }
    }
    Ok(own)
}

fn make_group(alloc: Global, net: &Net, row: &[Word<'_>]) -> Result<Group, NoMemory>
    ensures { IfOk result (λ group. group ≡ row_group net.now (texts_of row.now)) }
{
    let own = list_own(alloc, net.signals(), row)?;
    let known = list_known(alloc, net, own.as_slice())?;
    Ok(Group { own, known })
}

fn push_group(
    alloc: Global,
    net: &Net,
    groups: &mut Seq<Group>,
    row: &Seq<Word<'_>>,
) -> Result<(), NoMemory>
    ensures { OnOk result
        (groups.new ≡ groups.old ++ row_group net.now (texts_of row.now) ∷ []) }
{
    groups.push(make_group(alloc, net, row.as_slice())?)?;
    Ok(())
}

fn make_groups(alloc: Global, net: &Net, rows: &[Seq<Word<'_>>]) -> Result<Seq<Group>, NoMemory>
    ensures { IfOk result (λ groups. groups ≡ map (row_group net.now) (all_texts rows.now)) }
{
    let mut groups = Seq::new(alloc);
    for row in rows {
        push_group(alloc, net, &mut groups, row)?;
    }
    Ok(groups)
}

/// Tests that the groups leave no signal out and split none in conflict.
fn test_groups(alloc: Global, net: &Net, groups: &[Group]) -> Result<(), GroupError>
    requires { AreNamedGroups net.now groups.now }
    ensures feasible { OnOk result (AreFeasible net.now groups.now) }
    ensures refused { IfErr result
        (λ e. (e ≡ GroupError.NoMemory) ⊎ AreRefusedBy net.now groups.now e) }
{
    let numbers = number_signals(alloc, net, groups)?;
    if let Some(signal) = find_unnumbered(net, numbers.as_slice()) {
        return Err(GroupError::OutputMissing { signal });
    }
    match find_split(alloc, net, numbers.as_slice())? {
        None => Ok(()),
        Some(split) => Err(GroupError::SplitConflict {
            x: split.x,
            y: split.y,
            place: split.place,
        }),
    }
}

/// Reads the groups of a specification's outputs and internal signals from a text that names those
/// of one group on each line. There are at most 250 groups. A text is refused exactly where a line
/// is bad, an output or internal signal is left out, or two in conflict are split.
pub fn read_groups(alloc: Global, spec: &Spec, text: &[u8]) -> Result<Seq<Group>, GroupError>
    ensures groups { IfOk result (λ groups. ArePartition spec.now.net text.now groups) }
    ensures closed { IfOk result (λ groups. AreClosed spec.now.net groups) }
    ensures few { IfOk result (λ groups. length groups ≤ PART.signals) }
    ensures refused { IfErr result
        (λ e. (e ≡ GroupError.NoMemory) ⊎ IsRefusedPartition spec.now.net text.now e) }
{
    let net = spec.net();
    let rows = match read_rows(alloc, net, text) {
        Ok(rows) => rows,
        Err(error) => return Err(error),
    };
    let groups = make_groups(alloc, net, rows.as_slice())?;
    match test_groups(alloc, net, groups.as_slice()) {
        Ok(()) => Ok(groups),
        Err(error) => Err(error),
    }
}
