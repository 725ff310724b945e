//! The tables of version 1: made in an empty database, and told from every other one.

use crate::keeper::KeepError;
use crate::sql_words::has_same_words;
use crate::tables::begin;
use crate::values::{number_at, text_at};
use sqlite::{Alter, Connection, Row};
use std::alloc::Global;

const VERSION: i64 = 1;

/// The tables, each by the text that makes it.
const TABLES: [&str; 3] = [
    "CREATE TABLE meta (version INTEGER NOT NULL)",
    "CREATE TABLE projects (\
     id INTEGER PRIMARY KEY AUTOINCREMENT, \
     name TEXT NOT NULL UNIQUE, \
     body BLOB NOT NULL)",
    "CREATE TABLE parts (\
     project INTEGER NOT NULL REFERENCES projects(id) ON DELETE CASCADE, \
     k INTEGER NOT NULL, \
     body BLOB NOT NULL, \
     PRIMARY KEY (project, k))",
];

/// Makes the tables in an empty database. Any other one is left as it is, and has to have exactly
/// these tables and one row in `meta`, with this version.
pub fn prepare<S: Alter>(alloc: Global, conn: &mut Connection<S>) -> Result<(), KeepError> {
    let objects = conn.query_all("SELECT name, sql FROM sqlite_schema", &[])?;
    if objects.is_empty() {
        return make(conn);
    }
    if has_tables(alloc, objects.as_slice())? && has_version(conn)? {
        Ok(())
    } else {
        Err(KeepError::Failed)
    }
}

fn make<S: Alter>(conn: &mut Connection<S>) -> Result<(), KeepError> {
    let mut change = begin(conn)?;
    for table in TABLES.iter() {
        change.execute(table, &[])?;
    }
    change.execute("INSERT INTO meta (version) VALUES (1)", &[])?;
    change.commit()?;
    Ok(())
}

// Whether all objects are the three tables, but for those that SQLite makes by itself. Two objects
// never have one name, so three tables are all three.
fn has_tables(alloc: Global, objects: &[Row]) -> Result<bool, KeepError> {
    let mut tables = 0usize;
    for object in objects {
        if is_own(alloc, object)? {
            continue;
        }
        if !is_table(alloc, object)? {
            return Ok(false);
        }
        tables = tables.saturating_add(1);
    }
    Ok(tables == TABLES.len())
}

// Whether SQLite makes it by itself: its names alone begin so.
fn is_own(alloc: Global, object: &Row) -> Result<bool, KeepError> {
    let name = text_at(alloc, object, 0)?;
    Ok(name.as_slice().starts_with(b"sqlite_"))
}

fn is_table(alloc: Global, object: &Row) -> Result<bool, KeepError> {
    let text = text_at(alloc, object, 1)?;
    Ok(
        TABLES
            .iter()
            .any(|table| has_same_words(table.as_bytes(), text.as_slice())),
    )
}

fn has_version<S: Alter>(conn: &mut Connection<S>) -> Result<bool, KeepError> {
    let rows = conn.query_all("SELECT version FROM meta", &[])?;
    match rows.as_slice() {
        [row] => Ok(number_at(row, 0)? == VERSION),
        _ => Ok(false),
    }
}
