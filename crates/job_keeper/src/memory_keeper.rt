//! A keeper in memory.

ghost use Rattle.std.specs.Prelude.{◌≡◌, ◌↔◌, [], true, false, is_none, is_some, IsTrue, IsErrOf, IfOk, IfErr, OnOk};
ghost use Rattle.io_shelf.specs.Calls.{FailsNext, after_call, after_fault};
ghost use Rattle.job_keeper.specs.Projects.{is_project_name, project_of, project_names, with_project, without_project, AreProjects};
ghost use Rattle.job_keeper.specs.Keeping.{HasKeepCause, IsAsSure};
ghost use Rattle.job_keeper.specs.Memory.{fresh_keeper, seen_keeper};

use crate::keeper::{KeepError, Keeper};
use crate::project::Project;
use crate::project_list::{add_last, copy_of, leave_others, project_names, project_of};
use io_shelf::Calls;
use std::alloc::Global;
use std::marker::Model;
use stg_net::{Nums, Seq, Text};

/// Projects in memory.
#[derive(Debug, Drop)]
pub struct MemKeeper {
    alloc: Global,
    projects: Vec<Project>,
    calls: Calls,
}

impl Model for MemKeeper {
    ghost use Rattle.job_keeper.specs.Projects.{AreProjects};
    ghost use Rattle.job_keeper.specs.Memory.{IsSure, KeeperState};

    ghost Value = { KeeperState };

    ghost view = { λ k. record { projects = k.projects.items; calls = k.calls } };

    ghost invariant = { λ k. AreProjects k.projects.items × IsSure k.calls };
}

impl MemKeeper {
    /// No project. The calls whose numbers are in `fails` fail.
    pub fn new(alloc: Global, fails: Nums) -> Self
        ensures { result ≡ fresh_keeper [] fails }
    {
        MemKeeper {
            alloc,
            projects: Vec::new(alloc),
            calls: Calls::new(fails),
        }
    }

    /// These projects, and no call fails.
    pub(crate) fn of(alloc: Global, projects: Vec<Project>) -> Self
        requires { AreProjects projects.items }
        ensures { result ≡ fresh_keeper projects.items [] }
    {
        MemKeeper {
            alloc,
            projects,
            calls: Calls::new(Seq::new(alloc)),
        }
    }
}

impl Keeper for MemKeeper {
    ghost seen = { seen_keeper };

    fn get(&mut self, name: &[u8]) -> Result<Option<Project>, KeepError>
        requires { IsTrue (is_project_name name.now) }
        ensures ok { OnOk result (self.new ≡ record self.old {
          calls = after_call self.old.calls;
        }) }
        ensures value { IfOk result (λ found. found ≡ project_of name.now self.old.projects) }
        ensures failed { IsErrOf result KeepError.Failed ↔ FailsNext self.old.calls }
        ensures fault { IsErrOf result KeepError.Failed → self.new ≡ record self.old {
          calls = after_fault self.old.calls;
        } }
        ensures no_memory { IsErrOf result KeepError.NoMemory → self.new ≡ record self.old {
          calls = after_call self.old.calls;
        } }
        ensures names { AreProjects self.new.projects }
        ensures cause { HasKeepCause self.old.calls.faults self.new.calls.faults result }
        ensures sure { IsAsSure (seen_keeper self.old) (seen_keeper self.new) }
    {
        self.calls.begin()?;
        let found = copy_of(self.alloc, self.projects.as_slice(), name)?;
        Ok(found)
    }

    fn list(&mut self) -> Result<Seq<Text>, KeepError>
        ensures ok { OnOk result (self.new ≡ record self.old {
          calls = after_call self.old.calls;
        }) }
        ensures value { IfOk result (λ names. names ≡ project_names self.old.projects) }
        ensures failed { IsErrOf result KeepError.Failed ↔ FailsNext self.old.calls }
        ensures fault { IsErrOf result KeepError.Failed → self.new ≡ record self.old {
          calls = after_fault self.old.calls;
        } }
        ensures no_memory { IsErrOf result KeepError.NoMemory → self.new ≡ record self.old {
          calls = after_call self.old.calls;
        } }
        ensures names { AreProjects self.new.projects }
        ensures cause { HasKeepCause self.old.calls.faults self.new.calls.faults result }
        ensures sure { IsAsSure (seen_keeper self.old) (seen_keeper self.new) }
    {
        self.calls.begin()?;
        let names = project_names(self.alloc, self.projects.as_slice())?;
        Ok(names)
    }

    fn add(&mut self, project: Project) -> Result<bool, KeepError>
        requires { IsTrue (is_project_name project.name) }
        ensures value { IfOk result (λ b. b ≡ is_none (project_of project.name self.old.projects)) }
        ensures added { result ≡ Ok true → self.new ≡ record self.old {
          projects = with_project project self.old.projects;
          calls = after_call self.old.calls;
        } }
        ensures same { result ≡ Ok false → self.new ≡ record self.old {
          calls = after_call self.old.calls;
        } }
        ensures failed { IsErrOf result KeepError.Failed ↔ FailsNext self.old.calls }
        ensures fault { IsErrOf result KeepError.Failed → self.new ≡ record self.old {
          calls = after_fault self.old.calls;
        } }
        ensures no_memory { IsErrOf result KeepError.NoMemory → self.new ≡ record self.old {
          calls = after_call self.old.calls;
        } }
        ensures names { AreProjects self.new.projects }
        ensures cause { HasKeepCause self.old.calls.faults self.new.calls.faults result }
        ensures sure { IsAsSure (seen_keeper self.old) (seen_keeper self.new) }
    {
        self.calls.begin()?;
        if project_of(self.projects.as_slice(), project.name.as_slice()).is_some() {
            return Ok(false);
        }
        add_last(&mut self.projects, project)?;
        Ok(true)
    }

    fn remove(&mut self, name: &[u8]) -> Result<bool, KeepError>
        requires { IsTrue (is_project_name name.now) }
        ensures value { IfOk result (λ b. b ≡ is_some (project_of name.now self.old.projects)) }
        ensures removed { result ≡ Ok true → self.new ≡ record self.old {
          projects = without_project name.now self.old.projects;
          calls = after_call self.old.calls;
        } }
        ensures same { result ≡ Ok false → self.new ≡ record self.old {
          calls = after_call self.old.calls;
        } }
        ensures failed { IsErrOf result KeepError.Failed ↔ FailsNext self.old.calls }
        ensures fault { IsErrOf result KeepError.Failed → self.new ≡ record self.old {
          calls = after_fault self.old.calls;
        } }
        ensures only { IfErr result (λ e. e ≡ KeepError.Failed) }
        ensures names { AreProjects self.new.projects }
        ensures cause { HasKeepCause self.old.calls.faults self.new.calls.faults result }
        ensures sure { IsAsSure (seen_keeper self.old) (seen_keeper self.new) }
    {
        self.calls.begin()?;
        if project_of(self.projects.as_slice(), name).is_none() {
            return Ok(false);
        }
        leave_others(&mut self.projects, name);
        Ok(true)
    }
}
