//! What keeps projects, as a trait.

ghost use Rattle.std.specs.Prelude.{◌≡◌, true, false, None, IsTrue, IsSome, IfSome, IfOk, OnErr};
ghost use Rattle.job_keeper.specs.Projects.{is_project_name, project_of, project_names, AreProjects};
ghost use Rattle.job_keeper.specs.Keeping.{SeenKeeper, HasKeepCause, IsAsSure, with_last, with_others};

use crate::project::Project;
use io_shelf::Failed;
use stg_net::{NoMemory, Seq, Text};

/// Why a keeper or a vault didn't answer.
#[derive(Clone, Copy, Debug, PartialEq, Eq)]
pub enum KeepError {
    /// The call failed.
    Failed,
    /// Memory ran out.
    NoMemory,
}

impl From<Failed> for KeepError {
    ghost use Rattle.job_keeper.specs.declared.keeper.KeepError.TheVariants as keep_error;

    ghost from_gives = { λ _ e. e ≡ keep_error.Failed };

    fn from(_: Failed) -> Self {
        KeepError::Failed
    }
}

impl From<NoMemory> for KeepError {
    ghost use Rattle.job_keeper.specs.declared.keeper.KeepError.TheVariants as keep_error;

    ghost from_gives = { λ _ e. e ≡ keep_error.NoMemory };

    fn from(_: NoMemory) -> Self {
        KeepError::NoMemory
    }
}

/// A list of projects with different names. Each call can fail, and each can want memory; after
/// either the list is as before.
pub trait Keeper {
    ghost seen: { Self → SeenKeeper };

    /// The project of that name, none exactly where no project has it.
    fn get(&mut self, name: &[u8]) -> Result<Option<Project>, KeepError>
        requires { IsTrue (is_project_name name.now) }
        ensures value { IfOk result (λ found.
            IfSome (seen self.old).projects (λ ps. found ≡ project_of name.now ps)) }
        ensures kept { (seen self.new).projects ≡ (seen self.old).projects }
        ensures names { IfSome (seen self.new).projects AreProjects }
        ensures cause { HasKeepCause (seen self.old).faults (seen self.new).faults result }
        ensures sure { IsAsSure (seen self.old) (seen self.new) };

    /// The names in the order in which the projects were added.
    fn list(&mut self) -> Result<Seq<Text>, KeepError>
        ensures value { IfOk result (λ names.
            IfSome (seen self.old).projects (λ ps. names ≡ project_names ps)) }
        ensures kept { (seen self.new).projects ≡ (seen self.old).projects }
        ensures names { IfSome (seen self.new).projects AreProjects }
        ensures cause { HasKeepCause (seen self.old).faults (seen self.new).faults result }
        ensures sure { IsAsSure (seen self.old) (seen self.new) };

    /// Adds a project last, and tells whether it was added: not where its name stands already. A
    /// project that isn't added is gone.
    fn add(&mut self, project: Project) -> Result<bool, KeepError>
        requires { IsTrue (is_project_name project.name) }

        // With true no project had that name, and this one stands last.
        ensures new { result ≡ Ok true
            → IfSome (seen self.old).projects (λ ps. project_of project.name ps ≡ None) }
        ensures added { result ≡ Ok true
            → (seen self.new).projects ≡ with_last project (seen self.old).projects }

        // With false one has it, and nothing changes.
        ensures stands { result ≡ Ok false
            → IfSome (seen self.old).projects (λ ps. IsSome (project_of project.name ps)) }
        ensures same { result ≡ Ok false
            → (seen self.new).projects ≡ (seen self.old).projects }
        ensures err { OnErr result ((seen self.new).projects ≡ (seen self.old).projects) }
        ensures names { IfSome (seen self.new).projects AreProjects }
        ensures cause { HasKeepCause (seen self.old).faults (seen self.new).faults result }
        ensures sure { IsAsSure (seen self.old) (seen self.new) };

    /// Removes the project of that name, and tells whether there was one. The others keep their
    /// order.
    fn remove(&mut self, name: &[u8]) -> Result<bool, KeepError>
        requires { IsTrue (is_project_name name.now) }

        // With true a project had that name, and the others stay in their order.
        ensures found { result ≡ Ok true
            → IfSome (seen self.old).projects (λ ps. IsSome (project_of name.now ps)) }
        ensures removed { result ≡ Ok true
            → (seen self.new).projects ≡ with_others name.now (seen self.old).projects }

        // With false none has it, and nothing changes.
        ensures missing { result ≡ Ok false
            → IfSome (seen self.old).projects (λ ps. project_of name.now ps ≡ None) }
        ensures same { result ≡ Ok false
            → (seen self.new).projects ≡ (seen self.old).projects }
        ensures err { OnErr result ((seen self.new).projects ≡ (seen self.old).projects) }
        ensures names { IfSome (seen self.new).projects AreProjects }
        ensures cause { HasKeepCause (seen self.old).faults (seen self.new).faults result }
        ensures sure { IsAsSure (seen self.old) (seen self.new) };
}
