//! Projects in a list, found and changed by name.

ghost use Rattle.std.specs.Prelude.{◌≡◌, ◌↔◌, ◌&&◌, None, is_none, IfOk, IsTrue, OnOk, OnErr};
ghost use Rattle.std.specs.Option.{option_copied};
ghost use Rattle.job_keeper.specs.Projects.{is_project_name, project_of, project_names, with_project, without_project, AreProjects};
ghost use Rattle.job_keeper.specs.inner.Clear.{are_clear};

use crate::project::{Project, is_project_name};
use std::alloc::Global;
use stg_net::{NoMemory, Seq, Text};

/// The project of that name.
pub fn project_of<'a>(projects: &'a [Project], name: &[u8]) -> Option<&'a Project>
    ensures { option_copied result ≡ project_of name.now projects.now }
{
    projects
        .iter()
        .find(|project| name == project.name.as_slice())
}

/// A copy of the project of that name.
pub fn copy_of(
    alloc: Global,
    projects: &[Project],
    name: &[u8],
) -> Result<Option<Project>, NoMemory>
    ensures { IfOk result (λ found. found ≡ project_of name.now projects.now) }
{
    match project_of(projects, name) {
        Some(project) => Ok(Some(project.copied(alloc)?)),
        None => Ok(None),
    }
}

/// Whether projects have different names, each of its form.
#[tactic(auto, using(crate::proofs::ProjectTests::are_projects_is))]
pub fn are_projects(projects: &[Project]) -> bool
    ensures { IsTrue result ↔ AreProjects projects.now }
{
    are_clear(projects)
}

// Each name is of its form, and no later project has it.
fn are_clear(projects: &[Project]) -> bool
    ensures { result ≡ are_clear projects.now }
{
    for (i, project) in projects.iter().enumerate() {
        if !is_clear(project, &projects[i + 1..]) {
            return false;
        }
    }
    true
}

fn is_clear(project: &Project, later: &[Project]) -> bool
    ensures { result ≡ is_project_name project.now.name && is_none (project_of project.now.name later.now) }
{
    let name = project.name.as_slice();
    is_project_name(name) && project_of(later, name).is_none()
}

/// The names in order.
pub fn project_names(alloc: Global, projects: &[Project]) -> Result<Seq<Text>, NoMemory>
    ensures { IfOk result (λ names. names ≡ project_names projects.now) }
{
    let mut names = Seq::new(alloc);
    for project in projects {
        names.push(Seq::from_slice(alloc, project.name.as_slice())?)?;
    }
    Ok(names)
}

/// Adds a project of a new name last.
#[tactic(auto, using(crate::proofs::ProjectLemmas::added_are))]
pub fn add_last(projects: &mut Vec<Project>, project: Project) -> Result<(), NoMemory>
    requires are { AreProjects projects.old.items }
    requires named { IsTrue (is_project_name project.name) }
    requires new { project_of project.name projects.old.items ≡ None }
    ensures ok { OnOk result (projects.new.items ≡ with_project project projects.old.items) }
    ensures err { OnErr result (projects.new.items ≡ projects.old.items) }
    ensures are { AreProjects projects.new.items }
{
    match projects.push(project) {
        Ok(()) => Ok(()),
        Err(_) => Err(NoMemory),
    }
}

/// Leaves the projects of other names, in order.
pub fn leave_others(projects: &mut Vec<Project>, name: &[u8])
    requires { AreProjects projects.old.items }
    ensures ok { projects.new.items ≡ without_project name.now projects.old.items }
    ensures are { AreProjects projects.new.items }
{
    projects.retain(|project| name != project.name.as_slice());
}
