//! What holds of all texts. Nothing here does work at run time.

ghost use Rattle.astg_read.specs.Laws.{AcceptedStands};

/// Each text that breaks no rule stands for exactly one specification.
pub fn law_accepted()
    ensures { AcceptedStands }
{}
