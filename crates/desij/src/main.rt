//! Splits a signal transition graph into components, each written to a file of its own, or kept and
//! told over HTTP.
#![tactic(auto)]

mod answer;
mod printing;
mod putting;
mod reading;
mod run;
mod run_serve;
mod serving;
mod status;
mod taking;
#[cfg(test)]
mod tests;

use io_shelf::{FileSource, FolderShelf, StdSink, TcpDoors};
use job_keeper::RealVault;
use run::run;
use run_serve::run_serve;
use status::Status;
use std::env;
use std::env::Env;
use std::io::ErrorKind;
use std::process::ExitCode;
use stg_net::NoMemory;

// The words after the program's name. A word that isn't UTF-8 is in no form, and neither are no
// words.
fn all_words(rt: &(impl Env + AllocGlobal)) -> Result<Vec<String>, NoMemory> {
    let mut words = Vec::new(rt.alloc());
    match env::args(rt) {
        Ok(args) => {
            for word in args.skip(1) {
                words.push(word)?;
            }
        }
        Err(e) if e.kind() == ErrorKind::OutOfMemory => return Err(NoMemory),
        Err(_) => {}
    }
    Ok(words)
}

fn main(rt: HostRuntime) -> ExitCode {
    let Ok(words) = all_words(&rt) else {
        return ExitCode::from(Status::NoMemory.code());
    };
    let words = words.as_slice();
    let mut sink = StdSink::new(&rt);
    let status = match words {
        [first, ..] if first.as_str() == "serve" => {
            let mut doors = TcpDoors::new(&rt);
            let mut vault = RealVault::new(&rt);
            run_serve(&rt, rt.alloc(), words, &mut doors, &mut vault, &mut sink)
        }
        _ => {
            let mut source = FileSource::new(&rt);
            let mut shelf = FolderShelf::new(&rt);
            run(&rt, rt.alloc(), words, &mut source, &mut shelf, &mut sink)
        }
    };
    ExitCode::from(status.code())
}
