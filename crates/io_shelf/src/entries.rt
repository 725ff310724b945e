//! Lists of names with bytes, searched and changed by name.

ghost use Rattle.std.specs.Prelude.{◌≡◌, OnOk, OnErr, List, ℕ};
ghost use Rattle.io_shelf.specs.inner.EntryPlaces.{IsPlaceOf, put_at};
ghost use Rattle.io_shelf.specs.Entries.{put_entry};

use std::alloc::Global;
use stg_net::{NoMemory, Seq, Text};

/// The place of the first entry of that name.
pub fn place_of(entries: &[(Text, Text)], name: &[u8]) -> Option<usize>
    ensures place { IsPlaceOf name.now entries.now result }
    ensures put { (b : List ℕ)
        → put_entry name.now b entries.now ≡ put_at result (name.now, b) entries.now }
{
    for (i, entry) in entries.iter().enumerate() {
        if name == entry.0.as_slice() {
            return Some(i);
        }
    }
    None
}

/// Sets the bytes of that name.
pub fn put_in(
    alloc: Global,
    entries: &mut Vec<(Text, Text)>,
    name: &[u8],
    bytes: Text,
) -> Result<(), NoMemory>
    ensures ok { OnOk result (entries.new.items ≡ put_entry name.now bytes entries.old.items) }
    ensures err { OnErr result (entries.new.items ≡ entries.old.items) }
{
    let entry = (Seq::from_slice(alloc, name)?, bytes);
    match place_of(entries, name) {
        Some(i) => entries[i] = entry,
        None => entries.push(entry)?,
    }
    Ok(())
}
