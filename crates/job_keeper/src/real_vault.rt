//! Databases by the paths of their files, and one in memory.

ghost use Rattle.std.specs.Prelude.{◌≡◌, None, true, false, IfOk};

use crate::counting::counted;
use crate::keeper::{KeepError, Keeper};
use crate::open::{open_file, open_memory};
use crate::sql_keeper::{Base, SqlKeeper};
use crate::vault::Vault;
use io_shelf::Faults;

/// Databases by the paths of their files. Where no file is named, the database is in memory.
#[derive(Drop)]
pub struct RealVault<'a> {
    rt: &'a HostRuntime,
    asked: bool,
    faults: Faults,
}

impl<'a> RealVault<'a> {
    /// No keeper was asked for.
    pub fn new(rt: &'a HostRuntime) -> Self
        ensures asked { (⟦<RealVault<'a> as Vault>⟧.seen result).asked ≡ false }
        ensures faults { (⟦<RealVault<'a> as Vault>⟧.seen result).faults ≡ 0 }
    {
        RealVault {
            rt,
            asked: false,
            faults: Faults::new(),
        }
    }
}

impl Vault for RealVault<'_> {
    type K = SqlKeeper;

    ghost seen = { λ v. record {
      stored = None;
      keepers_fail = true;
      asked = v.asked;
      faults = v.faults.number;
    } };

    fn keeper(&mut self, file: Option<&str>) -> Result<SqlKeeper, KeepError> {
        self.asked = true;
        let opened = open_keeper(self.rt, file);
        counted(&mut self.faults, opened)
    }
}

fn open_keeper(rt: &HostRuntime, file: Option<&str>) -> Result<SqlKeeper, KeepError>
    ensures { IfOk result (λ k. (⟦<SqlKeeper as Keeper>⟧.seen k).faults ≡ 0) }
{
    let base = match file {
        Some(path) => Base::Filed(open_file(rt, path)?),
        None => Base::Memory(open_memory(rt.alloc())?),
    };
    Ok(SqlKeeper::over(rt.alloc(), base))
}
