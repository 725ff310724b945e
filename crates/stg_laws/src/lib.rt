//! The laws of runs: what components mean, for all graphs. Nothing here does work at run time.
#![tactic(auto)]

ghost use Rattle.stg_laws.specs.Laws.{ConsistencyDetermines, CutTellsInputs, KnownCloses, HasOneGrouping, FaithfulPartsAreCorrect, OrderRenumbers, OrderDrivesTheSame};
ghost use Rattle.stg_laws.specs.Laws.{PlainGroupsAreFeasible, FeasibleGroupsAreClosed, FeasibleGroupsAreFew};
ghost use Rattle.stg_laws.specs.Laws.{ContractionFollows, ContractionAddsNoRun, ContractionKeepsNames, ContractionKeepsClean};
ghost use Rattle.stg_laws.specs.Laws.{StructuralDeletionKeepsRuns, RulesAreStructural, PlaceDeletionKeepsRuns, PlaceDeletionKeepsClean};
ghost use Rattle.stg_laws.specs.Laws.{DummyDeletionKeepsNames, TransDeletionAddsNoRun, TransDeletionKeepsClean};

/// Components that follow the specification, keep its traces and agree with it on their own
/// transitions are a correct decomposition of it, where it is deterministic.
pub fn law_decomposes()
    ensures { FaithfulPartsAreCorrect }
{}

/// A net in order is the same graph with other numbers, and drives the same signals.
pub fn law_ordered()
    ensures graph { OrderRenumbers }
    ensures signals { OrderDrivesTheSame }
{}

/// What the input places of a group's transitions hold is a function of the run's cut.
pub fn law_inputs()
    ensures { CutTellsInputs }
{}

/// What signals of a net have to know closes them, so that `law_inputs` holds of each group.
pub fn law_known()
    ensures { KnownCloses }
{}

/// A net has one list of plain groups.
pub fn law_one_grouping()
    ensures { HasOneGrouping }
{}

/// The plain groups are feasible. Feasible groups are closed, so that `law_inputs` holds of each,
/// and there are at most as many as signals.
pub fn law_feasible()
    ensures plain { PlainGroupsAreFeasible }
    ensures closed { FeasibleGroupsAreClosed }
    ensures few { FeasibleGroupsAreFew }
{}

/// A consistent graph without dummies, toggles and structural auto-conflicts is deterministic.
pub fn law_consistent()
    ensures { ConsistencyDetermines }
{}

/// What is left of a run without the contracted transition is a run of the contracted graph, where
/// the transition is pure and ordinary.
pub fn law_follows()
    ensures { ContractionFollows }
{}

/// The secure contraction of such a transition adds no run, and
/// that of a dummy keeps the name lists.
pub fn law_secure()
    ensures runs { ContractionAddsNoRun }
    ensures names { ContractionKeepsNames }
{}

/// The deletion of a redundant place keeps all runs, as each rule is a case of Berthelot's
/// condition; that of a redundant dummy keeps the name lists, and that of any transition adds no
/// run.
pub fn law_deletions()
    ensures structural { StructuralDeletionKeepsRuns }
    ensures rules { RulesAreStructural }
    ensures place { PlaceDeletionKeepsRuns }
    ensures names { DummyDeletionKeepsNames }
    ensures runs { TransDeletionAddsNoRun }
{}

/// A secure contraction that brings no structural auto-conflict keeps a clean graph clean, and so
/// do the deletion of a redundant place and that of any transition.
pub fn law_clean()
    ensures contraction { ContractionKeepsClean }
    ensures place { PlaceDeletionKeepsClean }
    ensures trans { TransDeletionKeepsClean }
{}
