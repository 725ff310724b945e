//! Databases with the tables of version 1, opened or made.

use crate::keeper::KeepError;
use crate::version::prepare;
use sqlite::{Connection, File, FileStore, MemStore};
use std::alloc::{AllocError, Global};
use std::fs;
use std::io::{self, ErrorKind, Read};

/// The bytes that a file of SQLite begins with.
const MAGIC: [u8; 16] = *b"SQLite format 3\0";

impl From<AllocError> for KeepError {
    fn from(_: AllocError) -> Self {
        KeepError::NoMemory
    }
}

impl From<io::Error> for KeepError {
    fn from(error: io::Error) -> Self {
        match error.kind() {
            ErrorKind::OutOfMemory => KeepError::NoMemory,
            _ => KeepError::Failed,
        }
    }
}

/// A new database in memory.
pub fn open_memory(alloc: Global) -> Result<Connection<MemStore>, KeepError> {
    let mut conn = Connection::open_in_memory(alloc)?;
    prepare(alloc, &mut conn)?;
    Ok(conn)
}

/// The database in that file, which is made where there is none. A file that is no database of
/// version 1 is left as it is.
pub fn open_file(rt: &HostRuntime, path: &str) -> Result<Connection<FileStore<File>>, KeepError> {
    if !can_open(rt, path)? {
        return Err(KeepError::Failed);
    }
    let mut conn = Connection::open(rt, path)?;
    prepare(rt.alloc(), &mut conn)?;
    Ok(conn)
}

// Whether a file may be opened: a database, or what an opening that was cut off left, which begins
// with no byte or a zero and has its log beside it.
fn can_open(rt: &HostRuntime, path: &str) -> Result<bool, KeepError> {
    let Some(first) = first_bytes(rt, path)? else {
        return Ok(true);
    };
    match first.as_slice() {
        [] | [0, ..] => has_log(rt, path),
        bytes => Ok(bytes == MAGIC.as_slice()),
    }
}

// The first bytes of a file, as many as each database begins with; none where there is no such file.
fn first_bytes(rt: &HostRuntime, path: &str) -> Result<Option<Vec<u8>>, KeepError> {
    let file = match fs::open(rt, path) {
        Ok(file) => file,
        Err(error) if error.kind() == ErrorKind::NotFound => return Ok(None),
        Err(error) => return Err(error.into()),
    };
    let mut first = Vec::new(rt.alloc());
    file.take(MAGIC.len() as u64).read_to_end(&mut first)?;
    Ok(Some(first))
}

fn has_log(rt: &HostRuntime, path: &str) -> Result<bool, KeepError> {
    let log = format!(in rt.alloc(); "{path}-wal")?;
    Ok(fs::exists(rt, log.as_str())?)
}
