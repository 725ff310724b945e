//! Why a text isn't read.

ghost use Rattle.std.specs.Prelude.{◌≡◌, Some};
ghost use Rattle.astg_read.specs.declared.rule.ReadError.TheVariants.{NoMemory as want};
ghost use Rattle.astg_read.specs.Refusals.{rule_text};
ghost use Rattle.astg_read.specs.RuleNumbers.{rule_number};

use std::fmt;
use stg_net::NoMemory;

/// The rule that a text breaks, numbered in the order of docs/FORMATS.md.
#[derive(Clone, Copy, Debug, PartialEq, Eq)]
pub enum Rule {
    /// A byte outside a comment that may not stand there.
    BadByte = 1,
    /// Outside a marking, a first word that begins with `.` and is no directive.
    UnknownDirective = 2,
    /// A header line or `.graph` after `.graph`, or a graph line or `.marking` before `.graph` or
    /// after the marking.
    OutOfOrder = 3,
    /// A declared word that is no name, a word after `.graph`, or a
    /// source or target that is no node.
    BadName = 4,
    /// A name that was declared before.
    DeclaredTwice = 5,
    /// A transition, as a source or target, whose signal isn't declared.
    UnknownSignal = 6,
    /// A source or target that is the name of a signal.
    NoEdge = 7,
    /// A source and a target that are both places.
    BadArc = 8,
    /// A source and a target that stood together before.
    RepeatedArc = 9,
    /// A weight group of another form, at another place or between two transitions, or a weight
    /// that isn't from 1 to the limit.
    BadWeight = 10,
    /// A word that goes on no marking, a place that isn't there or was named before, or tokens
    /// above the limit.
    BadMarking = 11,
    /// `.end` before `.graph`, or a text that ends with neither.
    NoGraph = 12,
    /// A text that ends after `.graph` without `.end`.
    NoEnd = 13,
    /// A signal, transition, place or arc past its limit.
    TooMany = 14,
    /// `.dummy` with at least one name.
    HasDummy = 15,
    /// More bytes than the limit.
    TooLong = 16,
}

impl Rule {
    /// The number of the rule, from 1 to 16, in the order of docs/FORMATS.md.
    pub fn number(self) -> u8
        ensures { result ≡ rule_number self }
    {
        self as u8
    }
}

impl fmt::Display for Rule {
    ghost output = { λ r. Some (rule_text r) };

    fn fmt<W: fmt::Write>(&self, f: &mut fmt::Formatter<W>) -> fmt::Result {
        match self {
            Rule::BadByte => write!(f, "BadByte"),
            Rule::UnknownDirective => write!(f, "UnknownDirective"),
            Rule::OutOfOrder => write!(f, "OutOfOrder"),
            Rule::BadName => write!(f, "BadName"),
            Rule::DeclaredTwice => write!(f, "DeclaredTwice"),
            Rule::UnknownSignal => write!(f, "UnknownSignal"),
            Rule::NoEdge => write!(f, "NoEdge"),
            Rule::BadArc => write!(f, "BadArc"),
            Rule::RepeatedArc => write!(f, "RepeatedArc"),
            Rule::BadWeight => write!(f, "BadWeight"),
            Rule::BadMarking => write!(f, "BadMarking"),
            Rule::NoGraph => write!(f, "NoGraph"),
            Rule::NoEnd => write!(f, "NoEnd"),
            Rule::TooMany => write!(f, "TooMany"),
            Rule::HasDummy => write!(f, "HasDummy"),
            Rule::TooLong => write!(f, "TooLong"),
        }
    }
}

/// Why a text isn't read.
#[derive(Clone, Copy, Debug, PartialEq, Eq)]
pub enum ReadError {
    /// The first bad line, from 1, and the first rule that it breaks. Where the text ends too early
    /// the line is 1 plus the number of its LF bytes; with `TooLong` it is 0.
    Refused { rule: Rule, line: u32 },
    NoMemory,
}

impl From<NoMemory> for ReadError {
    ghost from_gives = { λ _ e. e ≡ want };

    fn from(_: NoMemory) -> Self {
        ReadError::NoMemory
    }
}
