//! A written text, read again.

ghost use Rattle.std.specs.Prelude.{◌≡◌, IfErr, IfOk};
ghost use Rattle.astg_read.specs.declared.rule.ReadError.TheVariants.{NoMemory as want};
ghost use Rattle.astg_write.specs.Writable.{IsWritable};
ghost use Rattle.stg_net.specs.Net.{NetLists};
ghost use Rattle.stg_net.specs.Ordered.{ordered};

use crate::component::write_net;
use astg_read::{ReadError, read_part};
use std::alloc::Global;
use stg_net::Net;

/// Writes the net as the component of that number, and reads it again. Where the net is in order
/// the same net comes, or want of memory. A net in another order may be refused, or come in order.
#[tactic(auto, using(crate::proofs::ReadAgain::net_read_back, crate::proofs::ReadAgain::never_unread))]
pub fn read_again(alloc: Global, net: &Net, part: u32) -> Result<Net, ReadError>
    requires writable { IsWritable net.now }
    ensures same { IfOk result (λ n. (whole : NetLists) → net.now ≡ ordered whole → n ≡ net.now) }
    ensures only { IfErr result (λ e. (whole : NetLists) → net.now ≡ ordered whole → e ≡ want) }
{
    let text = write_net(alloc, net, part)?;
    read_part(alloc, text.as_slice())
}
