//! Signals and who changes them.

ghost use Rattle.std.specs.Prelude.{◌≡◌, IfOk};

use crate::{NoMemory, Seq, Text};
use std::alloc::Global;

/// Who changes a signal.
#[derive(Clone, Copy, Debug, PartialEq, Eq)]
pub enum Kind {
    /// The environment.
    Input,
    /// The circuit, for the environment to see.
    Output,
    /// The circuit, for itself.
    Internal,
}

/// A signal.
#[derive(Debug, Drop)]
pub struct Signal {
    /// The name, which no other signal of its net has.
    pub name: Text,
    /// Who changes it.
    pub kind: Kind,
}

impl Signal {
    /// Copies the signal, with this kind.
    pub fn copy_as(&self, alloc: Global, kind: Kind) -> Result<Signal, NoMemory>
        ensures { IfOk result (λ s. s ≡ record self.now { kind = kind }) }
    {
        let name = Seq::from_slice(alloc, self.name.as_slice())?;
        Ok(Signal { name, kind })
    }
}
