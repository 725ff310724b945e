//! The values of a row. One of another type than is asked for is a fault.

use crate::keeper::KeepError;
use sqlite::types::ValueRef;
use sqlite::{Error, ErrorCode, Row};
use std::alloc::Global;
use stg_net::{Seq, Text};

impl From<Error> for KeepError {
    fn from(error: Error) -> Self {
        match error {
            Error::SqliteFailure(ErrorCode::OutOfMemory) => KeepError::NoMemory,
            _ => KeepError::Failed,
        }
    }
}

/// The number in a column.
pub fn number_at(row: &Row, at: usize) -> Result<i64, KeepError> {
    match row.get_ref(at)? {
        ValueRef::Int(number) => Ok(number),
        _ => Err(KeepError::Failed),
    }
}

/// A copy of the text in a column.
pub fn text_at(alloc: Global, row: &Row, at: usize) -> Result<Text, KeepError> {
    match row.get_ref(at)? {
        ValueRef::Text(bytes) => Ok(Seq::from_slice(alloc, bytes)?),
        _ => Err(KeepError::Failed),
    }
}

/// A copy of the bytes in a column.
pub fn blob_at(alloc: Global, row: &Row, at: usize) -> Result<Text, KeepError> {
    match row.get_ref(at)? {
        ValueRef::Blob(bytes) => Ok(Seq::from_slice(alloc, bytes)?),
        _ => Err(KeepError::Failed),
    }
}
