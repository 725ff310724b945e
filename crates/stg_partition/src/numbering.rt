//! The numbers of the groups in which signals stand.

ghost use Rattle.std.specs.Prelude.{◌≡◌, ◌<◌, length, IfOk, IfSome, MatchOption, ⊤};
ghost use Rattle.stg_partition.specs.inner.Numbers as lists;
ghost use Rattle.stg_partition.specs.inner.Numbers.{AreNumbers, AreAllNumbered, IsFirstUnnumbered};

use crate::Group;
use crate::join::is_driven_at;
use std::alloc::Global;
use stg_net::{Net, NoMemory, is_one_of};

fn group_number(groups: &[Group], s: u32) -> Option<usize>
    ensures { result ≡ lists.group_number groups.now s }
{
    groups
        .iter()
        .position(|group| is_one_of(group.own.as_slice(), s as usize))
}

/// For each signal the number of the group in which it stands, if it stands in one.
pub(crate) fn number_signals(
    alloc: Global,
    net: &Net,
    groups: &[Group],
) -> Result<Vec<Option<usize>>, NoMemory>
    ensures { IfOk result (λ numbers. AreNumbers net.now groups.now numbers.items) }
{
    let mut numbers = Vec::new(alloc);
    for s in 0..net.signals().len() as u32 {
        numbers.push(group_number(groups, s))?;
    }
    Ok(numbers)
}

fn is_unnumbered(net: &Net, numbers: &[Option<usize>], s: u32) -> bool
    requires signal { s < length net.now.signals }
    requires numbers { length numbers.now ≡ length net.now.signals }
    ensures { result ≡ lists.is_unnumbered net.now numbers.now s }
{
    is_driven_at(net, s) && numbers[s as usize].is_none()
}

/// The least output or internal signal without a number.
pub(crate) fn find_unnumbered(net: &Net, numbers: &[Option<usize>]) -> Option<u32>
    requires { length numbers.now ≡ length net.now.signals }
    ensures some { IfSome result (λ s. IsFirstUnnumbered net.now numbers.now s) }
    ensures none { MatchOption result (AreAllNumbered net.now numbers.now) (λ s. ⊤) }
{
    for s in 0..net.signals().len() as u32 {
        if is_unnumbered(net, numbers, s) {
            return Some(s);
        }
    }
    None
}
