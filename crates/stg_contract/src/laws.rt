//! The laws of verdicts, for all graphs. Nothing here does work at run time.

ghost use Rattle.stg_contract.specs.Laws.{VerdictIsOne, InitialIsCalm, ContractionIsCalm, PlaceDeletionKeepsCalm, TransDeletionKeepsCalm};

/// A dummy has one verdict.
pub fn law_one_verdict()
    ensures { VerdictIsOne }
{}

/// The initial component of a net without structural auto-conflicts is calm, and so is the graph
/// after a contraction that its verdict allows, and after a deletion in a calm graph.
pub fn law_calm()
    ensures initial { InitialIsCalm }
    ensures contraction { ContractionIsCalm }
    ensures place { PlaceDeletionKeepsCalm }
    ensures transition { TransDeletionKeepsCalm }
{}
