//! How many calls of a real form failed.

ghost use Rattle.std.specs.Prelude.{◌≡◌, ◌≤◌};
ghost use Rattle.io_shelf.specs.Outside.{Rose, one_more};

use crate::outside::Failed;

/// How many calls failed. The last number stays.
#[derive(Drop)]
pub struct Faults {
    pub number: u64,
}

impl Faults {
    /// None.
    pub fn new() -> Self
        ensures { result.number ≡ 0 }
    {
        Faults { number: 0 }
    }

    /// Counts a call that failed.
    pub fn count(&mut self) -> Failed
        ensures count { self.new.number ≡ one_more self.old.number }
        ensures later { self.old.number ≤ self.new.number }
        ensures cause { Rose self.old.number self.new.number }
    {
        self.number = self.number.saturating_add(1);
        Failed
    }
}
