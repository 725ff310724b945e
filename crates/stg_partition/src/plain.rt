//! The plain groups.

ghost use Rattle.std.specs.Prelude.{◌≡◌, ◌*◌, ◌<◌, ◌≤◌, ◌++◌, length, slice_index, IfOk, OnOk};
ghost use Rattle.stg_net.specs.Ordered.{numbers_with};
ghost use Rattle.stg_partition.specs.inner.Joining.{is_known_by, group_of, is_leader, groups_at, groups_below};
ghost use Rattle.stg_laws.specs.PlainGroups.{ArePlainGroups, AreClosed};

use crate::Group;
use crate::flags::{flag_all, flag_index};
use crate::join::{is_driven_at, join_signals};
use std::alloc::Global;
use stg_net::{Net, NoMemory, Nums, Seq, Spec};

fn list_own(alloc: Global, leaders: &[u32], leader: u32) -> Result<Nums, NoMemory>
    requires { length leaders.now ≤ 250 }
    ensures { IfOk result
        (λ own. own ≡ numbers_with (slice_index leaders.now) (length leaders.now) leader) }
{
    let mut own = Seq::new(alloc);
    for s in 0..leaders.len() as u32 {
        if leaders[s as usize] == leader {
            own.push(s)?;
        }
    }
    Ok(own)
}

fn knows(leaders: &[u32], flags: &[bool], leader: u32, s: u32) -> bool
    requires bounded { length leaders.now ≤ 250 }
    requires leader { leader < length leaders.now }
    requires signal { s < length leaders.now }
    requires flags { length flags.now ≡ length leaders.now * length leaders.now }
    ensures { result ≡ is_known_by leaders.now flags.now leader s }
{
    leaders[s as usize] == leader || flags[flag_index(leaders.len(), leader, s)]
}

fn list_known(alloc: Global, leaders: &[u32], flags: &[bool], leader: u32) -> Result<Nums, NoMemory>
    requires bounded { length leaders.now ≤ 250 }
    requires leader { leader < length leaders.now }
    requires flags { length flags.now ≡ length leaders.now * length leaders.now }
    ensures { IfOk result (λ known. known ≡ (group_of leaders.now flags.now leader).known) }
{
    let mut known = Seq::new(alloc);
    for s in 0..leaders.len() as u32 {
        if knows(leaders, flags, leader, s) {
            known.push(s)?;
        }
    }
    Ok(known)
}

fn make_group(
    alloc: Global,
    leaders: &[u32],
    flags: &[bool],
    leader: u32,
) -> Result<Group, NoMemory>
    requires bounded { length leaders.now ≤ 250 }
    requires leader { leader < length leaders.now }
    requires flags { length flags.now ≡ length leaders.now * length leaders.now }
    ensures { IfOk result (λ group. group ≡ group_of leaders.now flags.now leader) }
{
    let own = list_own(alloc, leaders, leader)?;
    let known = list_known(alloc, leaders, flags, leader)?;
    Ok(Group { own, known })
}

fn leads(net: &Net, leaders: &[u32], s: u32) -> bool
    requires signal { s < length net.now.signals }
    requires signals { length leaders.now ≡ length net.now.signals }
    ensures { result ≡ is_leader net.now leaders.now s }
{
    is_driven_at(net, s) && leaders[s as usize] == s
}

fn push_group(
    alloc: Global,
    net: &Net,
    leaders: &[u32],
    flags: &[bool],
    s: u32,
    groups: &mut Seq<Group>,
) -> Result<(), NoMemory>
    requires signals { length leaders.now ≡ length net.now.signals }
    requires bounded { length leaders.now ≤ 250 }
    requires signal { s < length leaders.now }
    requires flags { length flags.now ≡ length leaders.now * length leaders.now }
    ensures { OnOk result (groups.new ≡ groups.old ++ groups_at net.now leaders.now flags.now s) }
{
    if leads(net, leaders, s) {
        groups.push(make_group(alloc, leaders, flags, s)?)?;
    }
    Ok(())
}

fn list_groups(
    alloc: Global,
    net: &Net,
    leaders: &[u32],
    flags: &[bool],
) -> Result<Seq<Group>, NoMemory>
    requires signals { length leaders.now ≡ length net.now.signals }
    requires bounded { length leaders.now ≤ 250 }
    requires flags { length flags.now ≡ length leaders.now * length leaders.now }
    ensures { IfOk result
        (λ groups. groups ≡ groups_below net.now leaders.now flags.now (length leaders.now)) }
{
    let mut groups = Seq::new(alloc);
    for s in 0..leaders.len() as u32 {
        push_group(alloc, net, leaders, flags, s, &mut groups)?;
    }
    Ok(groups)
}

/// Groups the outputs and internal signals of a specification, so that those of one group are
/// linked by conflicts. A signal in conflict with no other one is a group of its own.
pub fn plain_groups(alloc: Global, spec: &Spec) -> Result<Seq<Group>, NoMemory>
    ensures groups { IfOk result (λ groups. ArePlainGroups spec.now.net groups) }
    ensures closed { IfOk result (λ groups. AreClosed spec.now.net groups) }
{
    let net = spec.net();
    let found = join_signals(alloc, net)?;
    let flags = flag_all(alloc, net, &found)?;
    list_groups(alloc, net, found.leaders.as_slice(), flags.as_slice())
}
