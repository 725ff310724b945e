//! The laws of derivations, for all nets. Nothing here does work at run time.

ghost use Rattle.stg_derive.specs.Laws.{StepIsOne, RestHasNoStep, AttemptIsOne, DerivationIsOne, NetIsOne, PartIsOne, WearIsOne};

/// A draft has at most one plain step, and none where it rests. At most one attempt begins with a
/// draft, and a net with some known signals has at most one derivation. So a group has at most one
/// part, and that at most one wear.
pub fn law_one_derivation()
    ensures step { StepIsOne }
    ensures rest { RestHasNoStep }
    ensures attempt { AttemptIsOne }
    ensures derivation { DerivationIsOne }
    ensures net { NetIsOne }
    ensures part { PartIsOne }
    ensures wear { WearIsOne }
{}
