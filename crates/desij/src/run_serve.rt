//! A run of the program that serves: the status tells how it ended.

ghost use Rattle.std.specs.Prelude.{◌≡◌, ◌≢◌, ◌⊎◌, false, None, Some, IsSome, IsSomeAnd, IfOk};
ghost use Rattle.desij.specs.Served.{LeavesUntold, CannotServe, ServesAndTells, NoFaultServing, LacksMemoryToServe, DeclinesToServe, seen_server, served_line};
ghost use Rattle.desij.specs.inner.Turns.{EndsServing};
ghost use Rattle.desij_words.specs.Serving.{serving_of, serving_told};

use crate::printing::{tell_usage, write_all};
use crate::serving::{ServeError, serve};
use crate::status::Status;
use desij_words::{Serving, read_serving};
use io_shelf::{Doors, Sink};
use itoa::Buffer;
use job_keeper::Vault;
use std::alloc::Global;
use std::thread::Threads;
use stg_net::{NoMemory, Seq, Text};

/// Serves what the words ask for. Where they aren't of the form, the usage is printed.
pub fn run_serve<R: Threads + Sync, D: Doors, V: Vault, K: Sink>(
    rt: &R,
    alloc: Global,
    words: &[String],
    doors: &mut D,
    vault: &mut V,
    sink: &mut K,
) -> Status
where
    V::K: Drop,
    requires doors { (D.seen doors.old).asked ≡ false }
    requires vault { (V.seen vault.old).asked ≡ false }
    ensures status { let form = serving_of words.now in
        let old = seen_server (D.seen doors.old) (V.seen vault.old) (K.seen sink.old) in
        let new = seen_server (D.seen doors.new) (V.seen vault.new) (K.seen sink.new) in
        record {
          -- what each status tells
          done : result ≡ Status.Done → IsSomeAnd form (λ s. ServesAndTells s old new);
          bad_words : result ≡ Status.BadWords → DeclinesToServe form old new;
          print_fault : result ≡ Status.PrintFault → LeavesUntold form old new;
          no_memory : result ≡ Status.NoMemory → LacksMemoryToServe form old new;
          serve_fault : result ≡ Status.ServeFault → IsSomeAnd form (λ s. CannotServe s old new);
          refused : result ≢ Status.Refused;
          read_fault : result ≢ Status.ReadFault;
          write_fault : result ≢ Status.WriteFault;
          -- where a status has to come
          without_form : form ≡ None → (result ≡ Status.BadWords) ⊎ (result ≡ Status.PrintFault);
          complete : NoFaultServing old new → IsSome form
              → (result ≡ Status.Done) ⊎ (result ≡ Status.NoMemory);
        } }
{
    match read_serving(alloc, words) {
        Ok(Some(asked)) => serve_asked(rt, alloc, asked, doors, vault, sink),
        Ok(None) => tell_usage(sink),
        Err(NoMemory) => Status::NoMemory,
    }
}

// Serves what was asked for, and tells how many connections were served.
fn serve_asked<R: Threads + Sync, D: Doors, V: Vault, K: Sink>(
    rt: &R,
    alloc: Global,
    asked: Serving<'_>,
    doors: &mut D,
    vault: &mut V,
    sink: &mut K,
) -> Status
where
    V::K: Drop,
    requires doors { (D.seen doors.old).asked ≡ false }
    requires vault { (V.seen vault.old).asked ≡ false }
    ensures { EndsServing (Some (serving_told asked.entry)) result
        (seen_server (D.seen doors.old) (V.seen vault.old) (K.seen sink.old))
        (seen_server (D.seen doors.new) (V.seen vault.new) (K.seen sink.new)) }
{
    match serve(rt, alloc, asked, doors, vault) {
        Ok(()) => {}
        Err(ServeError::Failed) => return Status::ServeFault,
        Err(ServeError::NoMemory) => return Status::NoMemory,
    }
    let Ok(line) = served_text(alloc, asked.count) else {
        return Status::NoMemory;
    };
    match write_all(sink, line.as_slice()) {
        Ok(()) => Status::Done,
        Err(_) => Status::PrintFault,
    }
}

// The line that tells how many connections were served.
fn served_text(alloc: Global, count: u32) -> Result<Text, NoMemory>
    ensures { IfOk result (λ line. line ≡ served_line count) }
{
    let mut line = Seq::from_slice(alloc, b"served ")?;
    line.extend_from_slice(Buffer::new().format(count).as_bytes())?;
    line.extend_from_slice(b"\n")?;
    Ok(line)
}
