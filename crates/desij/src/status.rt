//! How a run ends.

ghost use Rattle.std.specs.Prelude.{◌≡◌};
ghost use Rattle.desij.specs.Statuses.{exit_code};

/// How a run ends. The number is the exit status.
#[derive(Clone, Copy, Debug, PartialEq, Eq)]
pub enum Status {
    /// The files are put and the lines are printed, or a pipeline's sums.
    Done = 0,
    /// The words aren't of the form, and the usage is printed.
    BadWords = 2,
    /// A text is refused, and the refusal is printed.
    Refused = 3,
    /// A text couldn't be read.
    ReadFault = 4,
    /// A file couldn't be put.
    WriteFault = 5,
    /// The sink took no more.
    PrintFault = 6,
    /// Memory ran out.
    NoMemory = 7,
    /// `run` never ends so.
    ServeFault = 8,
}

impl Status {
    /// The exit status.
    pub fn code(self) -> u8
        ensures { result ≡ exit_code self }
    {
        self as u8
    }
}
