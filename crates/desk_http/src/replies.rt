//! Replies, made before the keeper is changed.

ghost use Rattle.std.specs.Prelude.{◌≡◌, IfOk, IsTrue, length, codes};
ghost use Rattle.std.specs.Option.{option_and_then, option_copied};
ghost use Rattle.job_keeper.specs.Projects.{is_project_name};
ghost use Rattle.desk_http.specs.Answering as answers;
ghost use Rattle.desk_http.specs.Replies as texts;

use crate::bodies::{error_body, list_body, name_text, project_body, removed_body};
use crate::reply::{Media, Reply, reply_text};
use crate::routes::Kind;
use http::StatusCode;
use job_keeper::Project;
use std::alloc::Global;
use stg_net::{NoMemory, Text};

fn whole(
    alloc: Global,
    status: StatusCode,
    media: Media,
    allow: Option<&[u8]>,
    body: &[u8],
) -> Result<Reply, NoMemory>
    ensures { IfOk result (λ r. r ≡ record {
      status = status;
      text = texts.reply_text status media (option_copied allow.entry) body.now;
    }) }
{
    Ok(Reply {
        status: status.as_u16(),
        text: reply_text(alloc, status, media, allow, body)?,
    })
}

/// A reply whose body is JSON.
pub fn json(alloc: Global, status: StatusCode, body: &[u8]) -> Result<Reply, NoMemory>
    ensures { IfOk result (λ r. r ≡ answers.json status body.now) }
{
    whole(alloc, status, Media::Json, None, body)
}

/// A reply that tells an error.
pub fn failure(alloc: Global, status: StatusCode, word: &str) -> Result<Reply, NoMemory>
    ensures { IfOk result (λ r. r ≡ answers.failure status word.now) }
{
    let body = error_body(alloc, word)?;
    let reply = json(alloc, status, body.as_bytes())?;
    Ok(reply)
}

/// The reply where nothing is there.
pub fn missing_failure(alloc: Global) -> Result<Reply, NoMemory>
    ensures { IfOk result (λ r. r ≡ answers.missing_failure) }
{
    failure(alloc, StatusCode::NOT_FOUND, "missing")
}

// The methods of paths of a kind.
fn methods_of(kind: Kind) -> &'static [u8]
    ensures { result.now ≡ answers.methods_of kind }
{
    match kind {
        Kind::Projects | Kind::Part => b"GET",
        Kind::Project => b"GET, PUT, DELETE",
    }
}

/// The reply where paths of the kind haven't the method.
pub fn not_allowed(alloc: Global, kind: Kind) -> Result<Reply, NoMemory>
    ensures { IfOk result (λ r. r ≡ answers.not_allowed kind) }
{
    let body = error_body(alloc, "method")?;
    let methods = methods_of(kind);
    whole(
        alloc,
        StatusCode::METHOD_NOT_ALLOWED,
        Media::Json,
        Some(methods),
        body.as_bytes(),
    )
}

/// The reply that tells a project and the number of its parts.
pub fn about(
    alloc: Global,
    status: StatusCode,
    name: &[u8],
    count: usize,
) -> Result<Reply, NoMemory>
    requires { IsTrue (is_project_name name.now) }
    ensures { IfOk result (λ r. r ≡ answers.about status name.now count) }
{
    let body = project_body(alloc, name_text(name), count as u64)?;
    let reply = json(alloc, status, body.as_bytes())?;
    Ok(reply)
}

/// The reply to a GET of a project.
pub fn found_project(alloc: Global, name: &[u8], found: &Option<Project>) -> Result<Reply, NoMemory>
    requires { IsTrue (is_project_name name.now) }
    ensures { IfOk result (λ r. r ≡ answers.found_project name.now found.now) }
{
    match found {
        Some(project) => about(alloc, StatusCode::OK, name, project.parts.len()),
        None => missing_failure(alloc),
    }
}

// The text of the part of that number, counted from 1.
fn part_of(project: &Project, number: u64) -> Option<&Text>
    ensures { option_copied result ≡ answers.part_of number project.now }
{
    if number == 0 {
        return None;
    }
    project.parts.as_slice().get((number - 1) as usize)
}

/// The reply to a GET of a part.
pub fn found_part(alloc: Global, found: &Option<Project>, number: u64) -> Result<Reply, NoMemory>
    ensures { IfOk result
        (λ r. r ≡ answers.found_part (option_and_then (answers.part_of number) found.now)) }
{
    let Some(project) = found else {
        return missing_failure(alloc);
    };
    match part_of(project, number) {
        Some(text) => whole(alloc, StatusCode::OK, Media::Text, None, text.as_slice()),
        None => missing_failure(alloc),
    }
}

/// The reply to a PUT of a name that a project has.
pub fn standing(
    alloc: Global,
    name: &[u8],
    project: &Project,
    text: &[u8],
) -> Result<Reply, NoMemory>
    requires { IsTrue (is_project_name name.now) }
    ensures { IfOk result (λ r. r ≡ answers.standing name.now project.now text.now) }
{
    if text == project.text.as_slice() {
        about(alloc, StatusCode::OK, name, project.parts.len())
    } else {
        failure(alloc, StatusCode::CONFLICT, "taken")
    }
}

/// The reply to a GET of all names.
pub fn listed(alloc: Global, names: &[Text]) -> Result<Reply, NoMemory>
    ensures { IfOk result (λ r. r ≡ answers.json 200 (texts.list_body names.now)) }
{
    let body = list_body(alloc, names)?;
    let reply = json(alloc, StatusCode::OK, body.as_bytes())?;
    Ok(reply)
}

/// The reply where a project is gone.
pub fn gone(alloc: Global, name: &[u8]) -> Result<Reply, NoMemory>
    requires { IsTrue (is_project_name name.now) }
    ensures { IfOk result (λ r. r ≡ answers.json 200 (texts.removed_body name.now)) }
{
    let body = removed_body(alloc, name_text(name))?;
    let reply = json(alloc, StatusCode::OK, body.as_bytes())?;
    Ok(reply)
}
