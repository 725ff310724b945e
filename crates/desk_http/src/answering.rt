//! What is answered over a keeper. Each reply is made before the keeper is changed.

ghost use Rattle.std.specs.Prelude.{◌≡◌, ◌≤◌, ◌⊎◌, IsTrue, List, codes, length, IfOk};
ghost use Rattle.std.specs.Option.{option_and_then};
ghost use Rattle.job_keeper.specs.Projects.{is_project_name, project_names, project_of, without_project};
ghost use Rattle.job_keeper.specs.declared.project.Project.{Project as ThisProject};
ghost use Rattle.desk_http.specs.Answering as answers;
ghost use Rattle.desk_http.specs.Answering.{IsGiven, NamesProject, is_by_bytes};
ghost use Rattle.desk_http.specs.Making.{Makes};
ghost use Rattle.desk_http.specs.Replies.{list_body};
ghost use Rattle.desk_http.specs.declared.making.Made.TheVariants as made;
ghost use Rattle.desk_http.specs.inner.Steps.{AnswersAll, GivesAnswer, IsCaused, IsFreeName, AddsAll};

use crate::asked::Asked;
use crate::making::{Made, make};
use crate::replies::{
    about, failure, found_part, found_project, gone, json, listed, missing_failure, not_allowed,
    standing,
};
use crate::reply::Reply;
use http::StatusCode;
use job_keeper::{KeepError, Keeper, Project};
use std::alloc::Global;
use std::thread::Threads;
use stg_net::Text;

#[tactic(auto, using(crate::proofs::GivenLemmas::given_list))]
fn list_projects<K: Keeper>(alloc: Global, keeper: &mut K) -> Result<Reply, KeepError>
    ensures gives { GivesAnswer (λ ps. (answers.json 200 (list_body (project_names ps)), ps))
        (K.seen keeper.old).projects (K.seen keeper.new).projects result }
    ensures given { IfOk result (λ reply. IsGiven Asked.List reply) }
    ensures cause { IsCaused (K.seen keeper.old) (K.seen keeper.new) result }
{
    let names = keeper.list()?;
    Ok(listed(alloc, names.as_slice())?)
}

#[tactic(auto, using(crate::proofs::GivenLemmas::given_project))]
fn get_project<K: Keeper>(alloc: Global, keeper: &mut K, name: &[u8]) -> Result<Reply, KeepError>
    requires { IsTrue (is_project_name name.now) }
    ensures gives { GivesAnswer
        (λ ps. (answers.found_project name.now (project_of name.now ps), ps))
        (K.seen keeper.old).projects (K.seen keeper.new).projects result }
    ensures given { IfOk result (λ reply. IsGiven (Asked.Get name.now) reply) }
    ensures cause { IsCaused (K.seen keeper.old) (K.seen keeper.new) result }
{
    let found = keeper.get(name)?;
    Ok(found_project(alloc, name, &found)?)
}

#[tactic(auto, using(crate::proofs::GivenLemmas::given_part))]
fn get_part<K: Keeper>(
    alloc: Global,
    keeper: &mut K,
    name: &[u8],
    number: u64,
) -> Result<Reply, KeepError>
    requires { IsTrue (is_project_name name.now) }
    ensures gives { GivesAnswer
        (λ ps. (
          answers.found_part
              (option_and_then (answers.part_of number) (project_of name.now ps)),
          ps,
        ))
        (K.seen keeper.old).projects (K.seen keeper.new).projects result }
    ensures given { IfOk result (λ reply. IsGiven (Asked.Part name.now number) reply) }
    ensures cause { IsCaused (K.seen keeper.old) (K.seen keeper.new) result }
{
    let found = keeper.get(name)?;
    Ok(found_part(alloc, &found, number)?)
}

fn delete_project<K: Keeper>(alloc: Global, keeper: &mut K, name: &[u8]) -> Result<Reply, KeepError>
    requires { IsTrue (is_project_name name.now) }
    ensures gives { GivesAnswer
        (λ ps. (answers.removed name.now (project_of name.now ps), without_project name.now ps))
        (K.seen keeper.old).projects (K.seen keeper.new).projects result }
    ensures given { IfOk result (λ reply. IsGiven (Asked.Delete name.now) reply) }
    ensures cause { IsCaused (K.seen keeper.old) (K.seen keeper.new) result }
{
    let done = gone(alloc, name)?;
    let none = missing_failure(alloc)?;
    if keeper.remove(name)? {
        Ok(done)
    } else {
        Ok(none)
    }
}

// Adds a project whose parts are made.
fn add_parts<K: Keeper>(alloc: Global, keeper: &mut K, project: Project) -> Result<Reply, KeepError>
    requires named { IsTrue (is_project_name project.name) }
    requires free { IsFreeName project.name (K.seen keeper.old).projects }
    ensures gives { GivesAnswer
        (answers.added project.name project.text (made.Parts project.parts))
        (K.seen keeper.old).projects (K.seen keeper.new).projects result }
    ensures given { IfOk result (λ reply.
        (reply ≡ answers.about 201 project.name (length project.parts))
        ⊎ (reply ≡ answers.failure 409 (codes "taken"))) }
    ensures cause { IsCaused (K.seen keeper.old) (K.seen keeper.new) result }
{
    let done = about(
        alloc,
        StatusCode::CREATED,
        project.name.as_slice(),
        project.parts.len(),
    )?;
    let taken = failure(alloc, StatusCode::CONFLICT, "taken")?;
    if keeper.add(project)? {
        Ok(done)
    } else {
        Ok(taken)
    }
}

// Makes the parts of a text, and adds its project under a name that none has.
fn add_text<R: Threads + Sync, K: Keeper>(
    rt: &R,
    alloc: Global,
    keeper: &mut K,
    workers: u32,
    name: Text,
    text: Text,
) -> Result<Reply, KeepError>
    requires workers { (1 ≤ workers) × (workers ≤ 64) }
    requires named { IsTrue (is_project_name name) }
    requires free { IsFreeName name (K.seen keeper.old).projects }
    ensures adds { AddsAll name text (K.seen keeper.old).projects (K.seen keeper.new).projects result }
    ensures given { IfOk result (λ reply. IsGiven (Asked.Put name text) reply) }
    ensures cause { IsCaused (K.seen keeper.old) (K.seen keeper.new) result }
{
    match make(rt, alloc, text.as_slice(), workers)? {
        Made::Parts(parts) => add_parts(alloc, keeper, Project { name, text, parts }),
        Made::Refused(body) => {
            Ok(json(alloc, StatusCode::UNPROCESSABLE_ENTITY, body.as_slice())?)
        }
    }
}

fn put_project<R: Threads + Sync, K: Keeper>(
    rt: &R,
    alloc: Global,
    keeper: &mut K,
    workers: u32,
    name: Text,
    text: Text,
) -> Result<Reply, KeepError>
    requires workers { (1 ≤ workers) × (workers ≤ 64) }
    requires named { IsTrue (is_project_name name) }
    ensures answers { AnswersAll (Asked.Put name text)
        (K.seen keeper.old).projects (K.seen keeper.new).projects result }
    ensures given { IfOk result (λ reply. IsGiven (Asked.Put name text) reply) }
    ensures cause { IsCaused (K.seen keeper.old) (K.seen keeper.new) result }
{
    match keeper.get(name.as_slice())? {
        Some(project) => Ok(standing(alloc, name.as_slice(), &project, text.as_slice())?),
        None => add_text(rt, alloc, keeper, workers, name, text),
    }
}

/// Answers what is asked.
pub fn answer<R: Threads + Sync, K: Keeper>(
    rt: &R,
    alloc: Global,
    keeper: &mut K,
    workers: u32,
    asked: Asked,
) -> Result<Reply, KeepError>
    requires workers { (1 ≤ workers) × (workers ≤ 64) }
    requires named { NamesProject asked }
    ensures answers { AnswersAll asked
        (K.seen keeper.old).projects (K.seen keeper.new).projects result }
    ensures given { IfOk result (λ reply. IsGiven asked reply) }
    ensures by_bytes { IsTrue (is_by_bytes asked)
        → (K.seen keeper.new).projects ≡ (K.seen keeper.old).projects }
    ensures cause { IsCaused (K.seen keeper.old) (K.seen keeper.new) result }
{
    match asked {
        Asked::BadRequest => Ok(failure(alloc, StatusCode::BAD_REQUEST, "request")?),
        Asked::NoPath => Ok(missing_failure(alloc)?),
        Asked::NoMethod(kind) => Ok(not_allowed(alloc, kind)?),
        Asked::NoLength => Ok(failure(alloc, StatusCode::LENGTH_REQUIRED, "length")?),
        Asked::TooLarge => Ok(failure(alloc, StatusCode::PAYLOAD_TOO_LARGE, "large")?),
        Asked::List => list_projects(alloc, keeper),
        Asked::Get(name) => get_project(alloc, keeper, name.as_slice()),
        Asked::Part(name, number) => get_part(alloc, keeper, name.as_slice(), number),
        Asked::Put(name, text) => put_project(rt, alloc, keeper, workers, name, text),
        Asked::Delete(name) => delete_project(alloc, keeper, name.as_slice()),
    }
}
