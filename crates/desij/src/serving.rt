//! Connections that are served one after the other.

ghost use Rattle.std.specs.Prelude.{◌≡◌, ◌≤◌, ◌⊎◌, true, false, OnOk, IsErrOf};
ghost use Rattle.std.specs.Option.{option_copied};
ghost use Rattle.io_shelf.specs.Outside.{Rose};
ghost use Rattle.desij.specs.Served.{ServesAll, ServesSome};
ghost use Rattle.desij.specs.inner.Turns.{ServesNext, ServesTurns, StopsTurns};
ghost use Rattle.desij_words.specs.Serving.{serving_told};

use desij_words::Serving;
use desk_http::{Desk, serve_one};
use io_shelf::{Doors, Failed};
use job_keeper::{KeepError, Keeper, Vault};
use std::alloc::Global;
use std::thread::Threads;
use stg_net::NoMemory;

/// How many workers make the parts of a project.
const WORKERS: u32 = 1;

/// Why fewer connections were served.
#[derive(Clone, Copy, Debug, PartialEq, Eq)]
pub enum ServeError {
    /// A call of the vault or of the doors failed.
    Failed,
    /// Memory ran out.
    NoMemory,
}

impl From<Failed> for ServeError {
    ghost use Rattle.desij.specs.declared.serving.ServeError.TheVariants as serve_error;

    ghost from_gives = { λ _ e. e ≡ serve_error.Failed };

    fn from(_: Failed) -> Self {
        ServeError::Failed
    }
}

impl From<NoMemory> for ServeError {
    ghost use Rattle.desij.specs.declared.serving.ServeError.TheVariants as serve_error;

    ghost from_gives = { λ _ e. e ≡ serve_error.NoMemory };

    fn from(_: NoMemory) -> Self {
        ServeError::NoMemory
    }
}

// Serves the next connection.
fn serve_next<R: Threads + Sync, K: Keeper, D: Doors>(
    rt: &R,
    desk: &mut Desk<K>,
    doors: &mut D,
) -> Result<(), ServeError>
    requires { (D.seen doors.old).listening ≡ true }
    ensures ok { OnOk result (ServesNext (K.seen desk.old.0) (D.seen doors.old)
        (K.seen desk.new.0) (D.seen doors.new)) }
    ensures failed { IsErrOf result ServeError.Failed
        → Rose (D.seen doors.old).faults (D.seen doors.new).faults }
    ensures stopped { IsErrOf result ServeError.Failed
        → (D.seen doors.new).links ≡ (D.seen doors.old).links }
    ensures later { (D.seen doors.old).faults ≤ (D.seen doors.new).faults }
    ensures listening { (D.seen doors.new).listening ≡ true }
{
    let mut link = match doors.next() {
        Ok(link) => link,
        Err(_) => return Err(ServeError::Failed),
    };
    serve_one(rt, desk, &mut link);
    match doors.finish(link) {
        Ok(()) => Ok(()),
        Err(NoMemory) => Err(ServeError::NoMemory),
    }
}

// Serves so many connections.
fn serve_all<R: Threads + Sync, K: Keeper, D: Doors>(
    rt: &R,
    desk: &mut Desk<K>,
    doors: &mut D,
    count: u32,
) -> Result<(), ServeError>
    requires { (D.seen doors.old).listening ≡ true }
    ensures ok { OnOk result (ServesTurns count (K.seen desk.old.0) (D.seen doors.old)
        (K.seen desk.new.0) (D.seen doors.new)) }
    ensures failed { IsErrOf result ServeError.Failed
        → Rose (D.seen doors.old).faults (D.seen doors.new).faults }
    ensures stopped { IsErrOf result ServeError.Failed
        → StopsTurns count (K.seen desk.old.0) (D.seen doors.old) (D.seen doors.new) }
{
    for _turn in 0..count {
        match serve_next(rt, desk, doors) {
            Ok(()) => {}
            Err(error) => return Err(error),
        }
    }
    Ok(())
}

/// Serves the connections that were asked for, over the vault's projects under the database's file.
pub fn serve<R: Threads + Sync, D: Doors, V: Vault>(
    rt: &R,
    alloc: Global,
    asked: Serving<'_>,
    doors: &mut D,
    vault: &mut V,
) -> Result<(), ServeError>
where
    V::K: Drop,
    requires doors { (D.seen doors.old).asked ≡ false }
    requires vault { (V.seen vault.old).asked ≡ false }
    ensures ok { OnOk result (ServesAll (serving_told asked.entry) (V.seen vault.old)
        (D.seen doors.old) (D.seen doors.new)) }
    ensures failed { IsErrOf result ServeError.Failed
        → Rose (V.seen vault.old).faults (V.seen vault.new).faults
        ⊎ Rose (D.seen doors.old).faults (D.seen doors.new).faults }
    ensures stopped { IsErrOf result ServeError.Failed → ServesSome (serving_told asked.entry)
        (V.seen vault.old) (D.seen doors.old) (D.seen doors.new) }
{
    let keeper = match vault.keeper(asked.database) {
        Ok(keeper) => keeper,
        Err(KeepError::Failed) => return Err(ServeError::Failed),
        Err(KeepError::NoMemory) => return Err(ServeError::NoMemory),
    };
    match doors.listen(asked.addr) {
        Ok(()) => {}
        Err(_) => return Err(ServeError::Failed),
    }
    match Desk::new(alloc, keeper, WORKERS) {
        Ok(mut desk) => serve_all(rt, &mut desk, doors, asked.count),
        Err(NoMemory) => Err(ServeError::NoMemory),
    }
}
