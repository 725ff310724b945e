//! Parts: components with their records.

use crate::Step;
use stg_contract::Verdict;
use stg_edit::Wear;
use stg_net::{Net, Nums, Seq};

/// The record of a signal that was given back.
#[derive(Clone, Copy, Debug, PartialEq, Eq)]
pub struct Restore {
    /// The signal.
    pub signal: u32,
    /// The dummy for which it was given back, a transition of this signal.
    pub trans: u32,
    /// The verdict on this dummy.
    pub verdict: Verdict,
}

/// A component with its records. Signals, transitions and, in the steps, places have the numbers of
/// the specification, and new places the numbers after these; within `net` all have numbers of its
/// own.
#[derive(Debug, Drop)]
pub struct Part {
    /// The component's net.
    pub net: Net,
    /// The signals that it drives, as the group lists them.
    pub own: Nums,
    /// All signals that it knows, own and restored ones too; in ascending order where the group's
    /// are.
    pub known: Nums,
    /// The signals that were given back, in the order of the attempts.
    pub restored: Seq<Restore>,
    /// The steps of the last attempt.
    pub steps: Seq<Step>,
    /// As edits the number of the steps, and as undone the number of the steps of the earlier
    /// attempts that didn't stay, which stands still at the last number of 64 bits. Which editor of
    /// the derivation it is of isn't promised.
    pub wear: Wear,
}
