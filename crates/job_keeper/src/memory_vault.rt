//! A vault in memory.

ghost use Rattle.std.specs.Prelude.{◌≡◌, ◌↔◌, [], true, false, IsErrOf, IfOk, OnOk};
ghost use Rattle.std.specs.Option.{option_copied};
ghost use Rattle.io_shelf.specs.Calls.{FailsNext, after_call, after_fault};
ghost use Rattle.job_keeper.specs.Projects.{AreProjects};
ghost use Rattle.job_keeper.specs.Keeping.{HasKeepCause, is_same_file, projects_under};
ghost use Rattle.job_keeper.specs.Memory.{fresh_keeper, fresh_vault, seen_vault};

use crate::keeper::KeepError;
use crate::memory_keeper::MemKeeper;
use crate::project::Project;
use crate::vault::Vault;
use io_shelf::Calls;
use std::alloc::Global;
use std::marker::Model;
use stg_net::{NoMemory, Nums, Seq, Text};

/// Projects in memory, under a file's name or under none.
#[derive(Debug, Drop)]
pub struct MemVault {
    alloc: Global,
    file: Option<Text>,
    projects: Seq<Project>,
    asked: bool,
    calls: Calls,
}

impl Model for MemVault {
    ghost use Rattle.job_keeper.specs.Projects.{AreProjects};
    ghost use Rattle.job_keeper.specs.Memory.{VaultState};

    ghost Value = { VaultState };

    ghost view = { λ v. record {
      stored = record { file = v.file; projects = v.projects };
      asked = v.asked;
      calls = v.calls;
    } };

    ghost invariant = { λ v. AreProjects v.projects };
}

impl MemVault {
    /// These projects under that file's name. The calls whose numbers are in `fails` fail.
    pub fn new(alloc: Global, file: Option<Text>, projects: Seq<Project>, fails: Nums) -> Self
        requires { AreProjects projects }
        ensures { result ≡ fresh_vault (record { file = file; projects = projects }) fails }
    {
        MemVault {
            alloc,
            file,
            projects,
            asked: false,
            calls: Calls::new(fails),
        }
    }
}

impl Vault for MemVault {
    type K = MemKeeper;

    ghost seen = { seen_vault };

    fn keeper(&mut self, file: Option<&str>) -> Result<MemKeeper, KeepError>
        requires { self.old.asked ≡ false }
        ensures ok { OnOk result (self.new ≡ record self.old {
          asked = true;
          calls = after_call self.old.calls;
        }) }
        ensures value { IfOk result (λ k.
            k ≡ fresh_keeper (projects_under (option_copied file.entry) self.old.stored) []) }
        ensures names { AreProjects self.new.stored.projects }
        ensures keeper_names { IfOk result (λ k. AreProjects k.projects) }
        ensures failed { IsErrOf result KeepError.Failed ↔ FailsNext self.old.calls }
        ensures fault { IsErrOf result KeepError.Failed → self.new ≡ record self.old {
          asked = true;
          calls = after_fault self.old.calls;
        } }
        ensures no_memory { IsErrOf result KeepError.NoMemory → self.new ≡ record self.old {
          asked = true;
          calls = after_call self.old.calls;
        } }
        ensures cause { HasKeepCause self.old.calls.faults self.new.calls.faults result }
    {
        self.asked = true;
        self.calls.begin()?;
        if !is_same_file(file, &self.file) {
            return Ok(MemKeeper::of(self.alloc, Vec::new(self.alloc)));
        }
        let projects = copied(self.alloc, self.projects.as_slice())?;
        Ok(MemKeeper::of(self.alloc, projects))
    }
}

// Whether both are the same file, or none.
fn is_same_file(file: Option<&str>, own: &Option<Text>) -> bool
    ensures { result ≡ is_same_file (option_copied file.entry) own.now }
{
    match (file, own) {
        (None, None) => true,
        (Some(name), Some(own)) => name.as_bytes() == own.as_slice(),
        _ => false,
    }
}

fn copied(alloc: Global, projects: &[Project]) -> Result<Vec<Project>, NoMemory>
    ensures { IfOk result (λ copies. copies.items ≡ projects.now) }
{
    let mut copies = Vec::with_capacity(alloc, projects.len())?;
    for project in projects {
        copies.push(project.copied(alloc)?)?;
    }
    Ok(copies)
}
