//! A keeper over a database, in a file or in memory.

ghost use Rattle.std.specs.Prelude.{◌≡◌, None, true};

use crate::counting::counted;
use crate::keeper::{KeepError, Keeper};
use crate::project::Project;
use crate::tables;
use io_shelf::Faults;
use sqlite::{Connection, File, FileStore, MemStore};
use std::alloc::Global;
use stg_net::{Seq, Text};

/// A database that has its tables.
#[derive(Drop)]
pub(crate) enum Base {
    /// It is in memory.
    Memory(Connection<MemStore>),
    /// It is in a file and the log beside it.
    Filed(Connection<FileStore<File>>),
}

/// Projects in the tables of a database. What they hold isn't told.
#[derive(Drop)]
pub struct SqlKeeper {
    alloc: Global,
    base: Base,
    faults: Faults,
}

impl SqlKeeper {
    /// A keeper over that database, before any fault.
    pub(crate) fn over(alloc: Global, base: Base) -> Self
        ensures { (⟦<SqlKeeper as Keeper>⟧.seen result).faults ≡ 0 }
    {
        SqlKeeper {
            alloc,
            base,
            faults: Faults::new(),
        }
    }
}

impl Keeper for SqlKeeper {
    ghost seen = { λ k. record { projects = None; can_fail = true; faults = k.faults.number } };

    fn get(&mut self, name: &[u8]) -> Result<Option<Project>, KeepError> {
        let found = match &mut self.base {
            Base::Memory(conn) => tables::get(self.alloc, conn, name),
            Base::Filed(conn) => tables::get(self.alloc, conn, name),
        };
        counted(&mut self.faults, found)
    }

    fn list(&mut self) -> Result<Seq<Text>, KeepError> {
        let names = match &mut self.base {
            Base::Memory(conn) => tables::list(self.alloc, conn),
            Base::Filed(conn) => tables::list(self.alloc, conn),
        };
        counted(&mut self.faults, names)
    }

    fn add(&mut self, project: Project) -> Result<bool, KeepError> {
        let added = match &mut self.base {
            Base::Memory(conn) => tables::add(conn, &project),
            Base::Filed(conn) => tables::add(conn, &project),
        };
        counted(&mut self.faults, added)
    }

    fn remove(&mut self, name: &[u8]) -> Result<bool, KeepError> {
        let removed = match &mut self.base {
            Base::Memory(conn) => tables::remove(conn, name),
            Base::Filed(conn) => tables::remove(conn, name),
        };
        counted(&mut self.faults, removed)
    }
}
