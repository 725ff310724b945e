//! Measures what a thousand contractions and undos, a thousand tests of dummies and a search for a
//! redundant place cost on the largest graphs within the limits.
#![tactic(auto)]

ghost use Rattle.std.specs.Prelude.{IfOk};
ghost use Rattle.stg_net.specs.declared.limits.TheConstants.Limits.{PART};
ghost use Rattle.stg_net.specs.Net.{IsWithin};

mod count;
mod measure;
mod text;
mod timed;
mod verdicts;

use astg_read::read_part;
use std::alloc::Global;
use std::io;
use std::process::ExitCode;
use std::time::CpuClock;
use stg_net::{Net, NoMemory};
use stg_redundant::PlaceFound;
use text::{Shape, largest};
use timed::{Edited, Looked, time_edits, time_looks};
use verdicts::Tally;

/// What is measured of the two nets.
#[derive(Drop)]
struct Measured {
    edited: Edited,
    many_takers: Looked,
    one_taker: Looked,
}

/// A largest net.
fn read_largest(alloc: Global, shape: Shape) -> Result<Net, NoMemory>
    ensures { IfOk result (λ n. IsWithin PART n) }
{
    let text = largest(alloc, shape)?;
    match read_part(alloc, text.as_slice()) {
        Ok(net) => Ok(net),
        Err(_) => Err(NoMemory),
    }
}

fn measure_one_taker(rt: &(impl CpuClock + AllocGlobal)) -> Result<Looked, NoMemory> {
    let net = read_largest(rt.alloc(), Shape::OneTaker)?;
    time_looks(rt, &net)
}

fn measure_all(rt: &(impl CpuClock + AllocGlobal)) -> Result<Measured, NoMemory> {
    let net = read_largest(rt.alloc(), Shape::ManyTakers)?;
    let edited = time_edits(rt, &net)?;
    let many_takers = time_looks(rt, &net)?;
    let one_taker = measure_one_taker(rt)?;
    Ok(Measured {
        edited,
        many_takers,
        one_taker,
    })
}

fn print_edited(rt: &(impl Print + Eprint), edited: &Edited) -> io::Result<()> {
    println!(rt;
        "{} contractions and undos on {} arcs: {} arcs round them, {} arcs made",
        edited.undone, edited.arcs, edited.touched.round, edited.touched.made
    )?;
    eprintln!(rt; "{} ms contractions and undos", edited.time.as_millis())
}

fn print_tally(rt: &impl Print, net: &str, tally: Tally) -> io::Result<()> {
    println!(rt;
        "{}: {} dummies secure, {} with a loop, {} insecure, {} too large, {} others",
        net, tally.secure, tally.looped, tally.insecure, tally.large, tally.others
    )
}

fn print_found(rt: &impl Print, net: &str, found: Option<PlaceFound>) -> io::Result<()> {
    match found {
        Some(found) => println!(rt; "{}: redundant place {}", net, found.place),
        None => println!(rt; "{}: no redundant place", net),
    }
}

fn print_looked(rt: &(impl Print + Eprint), net: &str, looked: &Looked) -> io::Result<()> {
    print_tally(rt, net, looked.tally)?;
    print_found(rt, net, looked.found)?;
    eprintln!(rt;
        "{}: {} ms tests, {} ms search",
        net,
        looked.tests.as_millis(),
        looked.search.as_millis()
    )
}

fn print_all(rt: &(impl Print + Eprint), measured: &Measured) -> io::Result<()> {
    print_edited(rt, &measured.edited)?;
    print_looked(rt, "many takers", &measured.many_takers)?;
    print_looked(rt, "one taker", &measured.one_taker)
}

/// Status 1 tells that memory ran out, that a text was refused or that its net has a structural
/// auto-conflict, status 2 that printing failed.
fn main(rt: HostRuntime) -> ExitCode {
    let Ok(measured) = measure_all(&rt) else {
        return ExitCode::from(1);
    };
    match print_all(&rt, &measured) {
        Ok(()) => ExitCode::SUCCESS,
        Err(_) => ExitCode::from(2),
    }
}
