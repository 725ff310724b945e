//! The tables that keep projects, read and changed. Values are bound and never part of a text of SQL.

use crate::keeper::KeepError;
use crate::project::{Project, is_project_name};
use crate::values::{blob_at, number_at, text_at};
use sqlite::types::ValueRef;
use sqlite::{Alter, Connection, Transaction};
use std::alloc::Global;
use stg_net::{Seq, Text};

/// The project of that name.
pub fn get<S: Alter>(
    alloc: Global,
    conn: &mut Connection<S>,
    name: &[u8],
) -> Result<Option<Project>, KeepError> {
    let rows = conn.query_all(
        "SELECT id, body FROM projects WHERE name = ?1",
        &[ValueRef::Text(name)],
    )?;
    let Some(row) = rows.as_slice().first() else {
        return Ok(None);
    };
    Ok(Some(Project {
        name: Seq::from_slice(alloc, name)?,
        text: blob_at(alloc, row, 1)?,
        parts: parts_of(alloc, conn, number_at(row, 0)?)?,
    }))
}

// The parts of a project, whose numbers are 1, 2, 3 and so on.
fn parts_of<S: Alter>(
    alloc: Global,
    conn: &mut Connection<S>,
    id: i64,
) -> Result<Seq<Text>, KeepError> {
    let rows = conn.query_all(
        "SELECT k, body FROM parts WHERE project = ?1 ORDER BY k",
        &[ValueRef::Int(id)],
    )?;
    let mut parts = Seq::new(alloc);
    let mut last = 0;
    for row in rows.as_slice() {
        last = next_number(last)?;
        if number_at(row, 0)? != last {
            return Err(KeepError::Failed);
        }
        parts.push(blob_at(alloc, row, 1)?)?;
    }
    Ok(parts)
}

fn next_number(last: i64) -> Result<i64, KeepError> {
    last.checked_add(1).ok_or(KeepError::Failed)
}

/// The names in the order of adding.
pub fn list<S: Alter>(alloc: Global, conn: &mut Connection<S>) -> Result<Seq<Text>, KeepError> {
    let rows = conn.query_all("SELECT name FROM projects ORDER BY id", &[])?;
    let mut names = Seq::new(alloc);
    for row in rows.as_slice() {
        let name = text_at(alloc, row, 0)?;
        if !is_project_name(name.as_slice()) {
            return Err(KeepError::Failed);
        }
        names.push(name)?;
    }
    Ok(names)
}

/// Adds a project and its parts in one transaction, unless its name stands.
pub fn add<S: Alter>(conn: &mut Connection<S>, project: &Project) -> Result<bool, KeepError> {
    if stands(conn, project.name.as_slice())? {
        return Ok(false);
    }
    let mut change = begin(conn)?;
    insert(&mut change, project)?;
    change.commit()?;
    Ok(true)
}

/// Removes a project with its parts in one transaction, if its name stands.
pub fn remove<S: Alter>(conn: &mut Connection<S>, name: &[u8]) -> Result<bool, KeepError> {
    let mut change = begin(conn)?;
    let gone = change.execute(
        "DELETE FROM projects WHERE name = ?1",
        &[ValueRef::Text(name)],
    )?;
    change.commit()?;
    Ok(gone > 0)
}

/// Begins a transaction, which is undone where it is dropped before its commit.
pub fn begin<S: Alter>(conn: &mut Connection<S>) -> Result<Transaction<'_, S>, KeepError> {
    if !conn.is_autocommit() {
        return Err(KeepError::Failed);
    }
    Ok(conn.transaction())
}

fn stands<S: Alter>(conn: &mut Connection<S>, name: &[u8]) -> Result<bool, KeepError> {
    let row = conn.query_row(
        "SELECT count(*) FROM projects WHERE name = ?1",
        &[ValueRef::Text(name)],
    )?;
    Ok(number_at(&row, 0)? > 0)
}

fn insert<S: Alter>(change: &mut Transaction<'_, S>, project: &Project) -> Result<(), KeepError> {
    change.execute(
        "INSERT INTO projects (name, body) VALUES (?1, ?2)",
        &[
            ValueRef::Text(project.name.as_slice()),
            ValueRef::Blob(project.text.as_slice()),
        ],
    )?;
    let id = change.last_insert_rowid();
    let mut last = 0;
    for part in project.parts.as_slice() {
        last = next_number(last)?;
        insert_part(change, id, last, part.as_slice())?;
    }
    Ok(())
}

fn insert_part<S: Alter>(
    change: &mut Transaction<'_, S>,
    id: i64,
    k: i64,
    part: &[u8],
) -> Result<(), KeepError> {
    change.execute(
        "INSERT INTO parts (project, k, body) VALUES (?1, ?2, ?3)",
        &[ValueRef::Int(id), ValueRef::Int(k), ValueRef::Blob(part)],
    )?;
    Ok(())
}
