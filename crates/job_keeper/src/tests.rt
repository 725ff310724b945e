//! What keepers store, and which databases a vault refuses.

ghost use Rattle.std.specs.Prelude.{◌≡◌, IfOk, IsTrue};
ghost use Rattle.job_keeper.specs.Projects.{is_project_name};

mod refused;
mod stored;

use super::*;
use std::alloc::Global;
use std::fs;
use std::test::Fail;
use stg_net::{NoMemory, Seq, Text};

// A project with these parts.
fn project(alloc: Global, name: &[u8], text: &[u8], parts: &[&[u8]]) -> Result<Project, NoMemory>
    ensures { IfOk result (λ p. p.name ≡ name.now) }
{
    let mut copies = Seq::new(alloc);
    for part in parts {
        copies.push(Seq::from_slice(alloc, part)?)?;
    }
    Ok(Project {
        name: Seq::from_slice(alloc, name)?,
        text: Seq::from_slice(alloc, text)?,
        parts: copies,
    })
}

// Whether that project was found.
fn is_same(found: &Option<Project>, wanted: &Project) -> bool {
    match found {
        Some(found) => found.name == wanted.name
            && found.text == wanted.text
            && found.parts == wanted.parts,
        None => false,
    }
}

// The names that a keeper lists, each with a space after it.
fn listed<K: Keeper>(alloc: Global, keeper: &mut K) -> Result<Text, KeepError> {
    let names = keeper.list()?;
    let mut all = Seq::new(alloc);
    for name in names.as_slice() {
        all.extend_from_slice(name.as_slice())?;
        all.push(b' ')?;
    }
    Ok(all)
}

// A keeper over that file, or in memory.
fn open(rt: &HostRuntime, file: Option<&str>) -> Result<SqlKeeper, KeepError> {
    let mut vault = RealVault::new(rt);
    vault.keeper(file)
}

// Takes away a database's file and its log.
fn clear(rt: &HostRuntime, path: &str) -> Result<(), NoMemory> {
    let log = format!(in rt.alloc(); "{path}-wal")?;
    let _ = fs::remove_file(rt, path);
    let _ = fs::remove_file(rt, log.as_str());
    Ok(())
}
