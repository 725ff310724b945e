//! A run of the program: what the words say is done, and the status tells how it ended.

ghost use Rattle.std.specs.Prelude.{◌≡◌, ◌≢◌, ◌⊎◌, ◌≤◌, ◌∷◌, All, Bool, List, None, Some, IsSomeAnd, IfOk, IfErr, length};
ghost use Rattle.std.specs.Option.{option_copied};
ghost use Rattle.astg_write.specs.Writable.{IsWritable};
ghost use Rattle.stg_derive.specs.declared.part.Part.{Part};
ghost use Rattle.stg_derive.specs.Loggable.{IsLoggable};
ghost use Rattle.io_shelf.specs.Pipeline.{pipeline_text};
ghost use Rattle.desij.specs.inner.Ends.{Ends, EndsMeasure, EndsRefusal, EndsUnmade, Finishes};
ghost use Rattle.desij.specs.inner.Measured.{IsMeasured};
ghost use Rattle.desij.specs.inner.Unmade.{IsTold};
ghost use Rattle.desij.specs.Files.{files_of_parts};
ghost use Rattle.desij.specs.Printing.{measure_line, printed};
ghost use Rattle.desij.specs.Reading.{inputs, named_files};
ghost use Rattle.desij.specs.Run.{seen, files_named, NoneRose, TellsAccepted, TellsMissing, TellsRefused, TellsUsage, Completes, PutsComponents, Refuses, CannotPrint, CannotPut, CannotRead, RunsOut};
ghost use Rattle.desij_words.specs.Words.{Decompose, Measure, command_of};

use crate::answer::{Unmade, accept_text, make_answer};
use crate::printing::{measure_text, printed_text, tell_usage, write_all};
use crate::putting::put_parts;
use crate::status::Status;
use crate::taking::{Made, take_parts};
use desij_words::{Command, read_command};
use io_shelf::{PutError, Shelf, Sink, Source, pipeline};
use std::alloc::Global;
use std::thread::Threads;
use stg_net::{Limits, NoMemory, Text};

/// Does what the words say. Where they aren't of the form, the usage is printed.
pub fn run<R: Threads + Sync, S: Source, F: Shelf, K: Sink>(
    rt: &R,
    alloc: Global,
    words: &[String],
    source: &mut S,
    shelf: &mut F,
    sink: &mut K,
) -> Status
    requires { (S.seen source.old).selects ≡ 0 }
    ensures status { let form = command_of words.now in
        let old = seen (S.seen source.old) (F.seen shelf.old) (K.seen sink.old) in
        let new = seen (S.seen source.new) (F.seen shelf.new) (K.seen sink.new) in
        record {
          -- what each status tells
          done : result ≡ Status.Done → IsSomeAnd form (λ c. Completes c old new);
          -- what the files mean; it follows from done, whose parts have these nets
          components : result ≡ Status.Done → IsSomeAnd form (λ c. PutsComponents c old new);
          bad_words : result ≡ Status.BadWords → TellsUsage form old new;
          refused : result ≡ Status.Refused → IsSomeAnd form (λ c. Refuses c old new);
          read_fault : result ≡ Status.ReadFault → IsSomeAnd form (λ c. CannotRead c old new);
          write_fault : result ≡ Status.WriteFault → IsSomeAnd form (λ c. CannotPut c old new);
          print_fault : result ≡ Status.PrintFault → CannotPrint form old new;
          no_memory : result ≡ Status.NoMemory → IsSomeAnd form (λ c. RunsOut c old new);
          serve_fault : result ≢ Status.ServeFault;
          -- where a status has to come
          without_form : form ≡ None → (result ≡ Status.BadWords) ⊎ (result ≡ Status.PrintFault);
          not_accepted : NoneRose old new → IsSomeAnd form (λ c. TellsRefused c old.source)
              → (result ≡ Status.Refused) ⊎ (result ≡ Status.NoMemory);
          missing : IsSomeAnd form (λ c. TellsMissing c old.source)
              → (result ≡ Status.ReadFault) ⊎ (result ≡ Status.NoMemory);
          accepted : NoneRose old new → IsSomeAnd form (λ c. TellsAccepted c old.source)
              → (result ≡ Status.Done) ⊎ (result ≡ Status.NoMemory);
        } }
    ensures selects { (S.seen source.new).selects ≤ files_named (command_of words.now) }
    ensures kept { (S.seen source.new).texts ≡ (S.seen source.old).texts }
{
    match read_command(alloc, words) {
        Ok(
            Some(
                Command::Decompose {
                    spec,
                    workers,
                    partition,
                    steps,
                },
            ),
        ) => {
            let asked = Decomposition {
                spec,
                partition,
                steps,
                workers,
            };
            decompose(rt, alloc, asked, source, shelf, sink)
        }
        Ok(Some(Command::Measure { count, workers })) => measure(rt, alloc, count, workers, sink),
        Ok(None) => tell_usage(sink),
        Err(NoMemory) => Status::NoMemory,
    }
}

// What the words of a decomposition ask for.
#[derive(Clone, Copy)]
struct Decomposition<'a> {
    spec: &'a str,
    partition: Option<&'a str>,
    steps: bool,
    workers: u32,
}

// Decomposes the specification of that name.
fn decompose<R: Threads + Sync, S: Source, F: Shelf, K: Sink>(
    rt: &R,
    alloc: Global,
    asked: Decomposition<'_>,
    source: &mut S,
    shelf: &mut F,
    sink: &mut K,
) -> Status
    requires first { (S.seen source.old).selects ≡ 0 }
    requires workers { (1 ≤ asked.workers) × (asked.workers ≤ 64) }
    ensures ends { Ends (Some (Decompose asked.entry.spec.now asked.entry.workers
        (option_copied asked.entry.partition) asked.entry.steps)) result
        (seen (S.seen source.old) (F.seen shelf.old) (K.seen sink.old))
        (seen (S.seen source.new) (F.seen shelf.new) (K.seen sink.new)) }
    ensures selects { (S.seen source.new).selects
        ≤ named_files (inputs asked.entry.spec.now (option_copied asked.entry.partition)) }
    ensures kept { (S.seen source.new).texts ≡ (S.seen source.old).texts }
{
    match take_parts(
        rt,
        alloc,
        source,
        asked.spec,
        asked.partition,
        asked.workers,
    ) {
        Ok(made) => finish(alloc, &made, asked.steps, shelf, sink),
        Err(unmade) => stop(unmade, sink),
    }
}

// Puts the files of the parts and prints their lines.
fn finish<F: Shelf, K: Sink>(
    alloc: Global,
    made: &Made,
    steps: bool,
    shelf: &mut F,
    sink: &mut K,
) -> Status
    requires few { length made.now.answer.parts ≤ Limits.SPEC.signals }
    requires fit { All (λ (p : Part). IsWritable p.net) made.now.answer.parts }
    requires loggable { All (IsLoggable made.now.spec.net) made.now.answer.parts }
    ensures { Finishes (files_of_parts made.now.spec.net steps made.now.answer.parts)
        (printed made.now.answer.parts) result
        (F.seen shelf.old) (F.seen shelf.new) (K.seen sink.old) (K.seen sink.new) }
{
    let Ok(text) = printed_text(alloc, &made.answer) else {
        return Status::NoMemory;
    };
    match put_parts(alloc, made, steps, shelf) {
        Ok(()) => {}
        Err(PutError::Failed) => return Status::WriteFault,
        Err(PutError::NoMemory) => return Status::NoMemory,
    }
    match write_all(sink, text.as_slice()) {
        Ok(()) => Status::Done,
        Err(_) => Status::PrintFault,
    }
}

// Ends a run that has no parts.
fn stop<K: Sink>(unmade: Unmade, sink: &mut K) -> Status
    ensures { EndsUnmade unmade result (K.seen sink.old) (K.seen sink.new) }
{
    match unmade {
        Unmade::Unread => Status::ReadFault,
        Unmade::Refused(line) => refuse(line.as_slice(), sink),
        Unmade::NoMemory => Status::NoMemory,
    }
}

// Prints the refusal of a text.
fn refuse<K: Sink>(line: &[u8], sink: &mut K) -> Status
    ensures { EndsRefusal line.now result (K.seen sink.old) (K.seen sink.new) }
{
    match write_all(sink, line) {
        Ok(()) => Status::Refused,
        Err(_) => Status::PrintFault,
    }
}

// The line that sums up the parts of a pipeline.
fn measured_line<R: Threads + Sync>(
    rt: &R,
    alloc: Global,
    count: u32,
    workers: u32,
) -> Result<Text, Unmade>
    requires count { (1 ≤ count) × (count ≤ 248) }
    requires workers { (1 ≤ workers) × (workers ≤ 64) }
    ensures measured { IfOk result (λ line. IsMeasured count line) }
    ensures refused { IfErr result (λ e. IsTold (pipeline_text count) e) }
{
    let text = pipeline(alloc, count)?;
    let spec = accept_text(alloc, text.as_slice())?;
    let answer = make_answer(rt, alloc, &spec, None, workers)?;
    Ok(measure_text(alloc, count, &answer)?)
}

// Decomposes a pipeline, and prints what its parts sum to.
fn measure<R: Threads + Sync, K: Sink>(
    rt: &R,
    alloc: Global,
    count: u32,
    workers: u32,
    sink: &mut K,
) -> Status
    requires count { (1 ≤ count) × (count ≤ 248) }
    requires workers { (1 ≤ workers) × (workers ≤ 64) }
    ensures { EndsMeasure count result (K.seen sink.old) (K.seen sink.new) }
{
    match measured_line(rt, alloc, count, workers) {
        Ok(line) => match write_all(sink, line.as_slice()) {
            Ok(()) => Status::Done,
            Err(_) => Status::PrintFault,
        },
        Err(unmade) => stop(unmade, sink),
    }
}
