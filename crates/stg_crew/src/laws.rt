//! The law of the claims, for all tables. Nothing here does work at run time.

ghost use Rattle.stg_crew.specs.Laws.{StartHasRule, SetKeepsRule, SplitKeepsRule, DrawKeepsRule, JoinKeepsRule};

/// The rule of the claims holds when a table is made, and each step keeps it, whichever seats take
/// it: the number of groups is set, a worker's seat is split off, a worker draws, a worker's seat
/// is taken in. So it holds between any two steps.
pub fn law_claims()
    ensures start { StartHasRule }
    ensures set { SetKeepsRule }
    ensures split { SplitKeepsRule }
    ensures draw { DrawKeepsRule }
    ensures join { JoinKeepsRule }
{}
