//! Numbers as they are written.

ghost use Rattle.std.specs.Prelude.{◌≡◌, ◌++◌, OnOk, decimal};

use itoa::Buffer;
use stg_net::{NoMemory, Text};

pub(crate) fn push_number(text: &mut Text, number: u32) -> Result<(), NoMemory>
    ensures { OnOk result (text.new ≡ text.old ++ decimal number) }
{
    text.extend_from_slice(Buffer::new().format(number).as_bytes())
}
