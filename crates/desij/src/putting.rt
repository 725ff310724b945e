//! The files of an answer, put on a shelf.

ghost use Rattle.std.specs.Prelude.{◌≡◌, ℕ, ◌<◌, ◌≤◌, ◌∷◌, [], All, IfOk, length};
ghost use Rattle.std.specs.String.{string_bytes};
ghost use Rattle.astg_write.specs.Writable.{IsWritable};
ghost use Rattle.stg_decomp.specs.Parts.{nets_of};
ghost use Rattle.stg_crew.specs.Parts.{part_at};
ghost use Rattle.stg_derive.specs.declared.part.Part.{Part as ThisPart};
ghost use Rattle.stg_derive.specs.Loggable.{IsLoggable};
ghost use Rattle.io_shelf.specs.Outside.{HasPutCause};
ghost use Rattle.desij.specs.Files.{files_of_parts, log_bytes, log_name, logs_of, net_bytes, part_files, part_name};
ghost use Rattle.desij.specs.inner.Putting.{Puts};

use crate::taking::Made;
use io_shelf::{PutError, Shelf};
use std::alloc::{AllocError, Global};
use stg_decomp::part_text;
use stg_derive::Part;
use stg_net::Limits;
use stg_steps::write_steps;

/// Puts the files of each part, in order: its component text, and its log where logs are wanted.
pub fn put_parts<F: Shelf>(
    alloc: Global,
    made: &Made,
    steps: bool,
    shelf: &mut F,
) -> Result<(), PutError>
    requires few { length made.now.answer.parts ≤ Limits.SPEC.signals }
    requires fit { All (λ (p : ThisPart). IsWritable p.net) made.now.answer.parts }
    requires loggable { All (IsLoggable made.now.spec.net) made.now.answer.parts }
    ensures puts { Puts (files_of_parts made.now.spec.net steps made.now.answer.parts) result
        (F.seen shelf.old) (F.seen shelf.new) }
    ensures cause { HasPutCause (F.seen shelf.old).faults (F.seen shelf.new).faults result }
{
    for k in 0..made.answer.parts.len() as u32 {
        match put_part(alloc, made, steps, k, shelf) {
            Ok(()) => {}
            Err(error) => return Err(error),
        }
    }
    Ok(())
}

// Puts the files of the k-th part.
fn put_part<F: Shelf>(
    alloc: Global,
    made: &Made,
    steps: bool,
    k: u32,
    shelf: &mut F,
) -> Result<(), PutError>
    requires there { k < length made.now.answer.parts }
    requires few { length made.now.answer.parts ≤ Limits.SPEC.signals }
    requires fit { All (λ (p : ThisPart). IsWritable p.net) made.now.answer.parts }
    requires loggable { All (IsLoggable made.now.spec.net) made.now.answer.parts }
    ensures puts { Puts (part_files (nets_of made.now.answer.parts)
        (logs_of made.now.spec.net steps made.now.answer.parts) k) result
        (F.seen shelf.old) (F.seen shelf.new) }
    ensures cause { HasPutCause (F.seen shelf.old).faults (F.seen shelf.new).faults result }
{
    match put_net(alloc, made, k, shelf) {
        Ok(()) => {}
        Err(error) => return Err(error),
    }
    if steps {
        put_log(alloc, made, k, shelf)
    } else {
        Ok(())
    }
}

// Puts the component text of the k-th part.
#[tactic(auto, using(crate::proofs::PutLemmas::net_of_part))]
fn put_net<F: Shelf>(alloc: Global, made: &Made, k: u32, shelf: &mut F) -> Result<(), PutError>
    requires there { k < length made.now.answer.parts }
    requires few { length made.now.answer.parts ≤ Limits.SPEC.signals }
    requires fit { All (λ (p : ThisPart). IsWritable p.net) made.now.answer.parts }
    ensures puts { Puts ((part_name k, net_bytes (nets_of made.now.answer.parts) k) ∷ []) result
        (F.seen shelf.old) (F.seen shelf.new) }
    ensures cause { HasPutCause (F.seen shelf.old).faults (F.seen shelf.new).faults result }
{
    let text = part_text(alloc, &made.answer, k)?;
    let Ok(name) = part_file(alloc, k) else {
        return Err(PutError::NoMemory);
    };
    put_text(shelf, name.as_str(), text.as_slice())
}

// The k-th part.
fn part_of(made: &Made, k: u32) -> &Part
    requires { k < length made.now.answer.parts }
    ensures { result.now ≡ part_at made.now.answer.parts k }
{
    &made.answer.parts.as_slice()[k as usize]
}

// Puts the log of the k-th part.
fn put_log<F: Shelf>(alloc: Global, made: &Made, k: u32, shelf: &mut F) -> Result<(), PutError>
    requires there { k < length made.now.answer.parts }
    requires few { length made.now.answer.parts ≤ Limits.SPEC.signals }
    requires loggable { All (IsLoggable made.now.spec.net) made.now.answer.parts }
    ensures puts { Puts ((log_name k, log_bytes made.now.spec.net made.now.answer.parts k) ∷ [])
        result (F.seen shelf.old) (F.seen shelf.new) }
    ensures cause { HasPutCause (F.seen shelf.old).faults (F.seen shelf.new).faults result }
{
    let text = write_steps(alloc, &made.spec, part_of(made, k))?;
    let Ok(name) = log_file(alloc, k) else {
        return Err(PutError::NoMemory);
    };
    put_text(shelf, name.as_str(), text.as_slice())
}

// Puts one file.
fn put_text<F: Shelf>(shelf: &mut F, name: &str, bytes: &[u8]) -> Result<(), PutError>
    ensures puts { Puts ((name.now, bytes.now) ∷ []) result
        (F.seen shelf.old) (F.seen shelf.new) }
    ensures cause { HasPutCause (F.seen shelf.old).faults (F.seen shelf.new).faults result }
{
    shelf.put(name, bytes)
}

// The name of the k-th part's file counts the parts from 1.
fn part_file(alloc: Global, k: u32) -> Result<String, AllocError>
    ensures { IfOk result (λ name. string_bytes name ≡ part_name k) }
{
    let number = u64::from(k) + 1;
    format!(in alloc; "part{number}.g")
}

// And so does that of its log's file.
fn log_file(alloc: Global, k: u32) -> Result<String, AllocError>
    ensures { IfOk result (λ name. string_bytes name ≡ log_name k) }
{
    let number = u64::from(k) + 1;
    format!(in alloc; "part{number}.steps")
}
