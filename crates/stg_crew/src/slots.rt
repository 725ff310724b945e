//! A slot for the part of each group: parts come in the order in which they are done, and go out in
//! that of their groups.

ghost use Rattle.std.specs.Prelude.{◌≡◌, ◌<◌, ◌++◌, ◌∷◌, [], Some, None, IsSome, length, map, replicate, slice_set, All, IfOk};
ghost use Rattle.stg_derive.specs.declared.part.Part.{Part as ThisPart};
ghost use Rattle.stg_crew.specs.declared.worker.Drawn.{Drawn as ThisDrawn};
ghost use Rattle.stg_crew.specs.inner.Slots.{placed};

use crate::worker::Drawn;
use std::alloc::Global;
use stg_derive::Part;
use stg_net::{NoMemory, Seq};

/// That many empty slots.
pub fn make_slots(alloc: Global, count: usize) -> Result<Vec<Option<Part>>, NoMemory>
    ensures { IfOk result (λ slots. slots.items ≡ replicate count None) }
{
    let mut slots = Vec::new(alloc);
    for _group in 0..count {
        slots.push(None)?;
    }
    Ok(slots)
}

/// Puts the part into the slot of its group.
fn place(slots: &mut Vec<Option<Part>>, drawn: Drawn)
    requires { drawn.group < length slots.old.items }
    ensures { slots.new.items ≡ slice_set slots.old.items drawn.group (Some drawn.part) }
{
    let Drawn { group, part } = drawn;
    slots[group as usize] = Some(part);
}

/// Puts each part into the slot of its group.
pub fn place_all(slots: &mut Vec<Option<Part>>, all: Seq<Drawn>)
    requires { All (λ (d : ThisDrawn). d.group < length slots.old.items) all }
    ensures { slots.new.items ≡ placed slots.old.items all }
{
    for drawn in all.into_vec() {
        place(slots, drawn);
    }
}

/// The parts of slots of which none is empty, in their order.
pub fn take_parts(alloc: Global, slots: Vec<Option<Part>>) -> Result<Seq<Part>, NoMemory>
    requires { All IsSome slots.items }
    ensures { IfOk result (λ parts. map (λ (part : ThisPart). Some part) parts ≡ slots.items) }
{
    let mut parts = Seq::new(alloc);
    for slot in slots {
        parts.push(slot.unwrap())?;
    }
    Ok(parts)
}
