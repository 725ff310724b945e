//! What a seat of a table of claims has seen.

ghost use Rattle.std.specs.Prelude.{ℕ, List};
ghost use Rattle.std.specs.Borrow.{ftrue};
ghost use Rattle.stg_crew.specs.declared.kind.SeatKind.{SeatKind};

use std::marker::Model;

/// What a seat has seen, for clauses and proofs alone: what it is for, the numbers that it drew or
/// took in, how many seats it split off and took in, and the number of groups.
pub struct SeatView {
    pub ghost kind: { SeatKind },
    pub ghost list: { List ℕ },
    pub ghost split: { ℕ },
    pub ghost joined: { ℕ },
    pub ghost groups: { ℕ },
}

impl Model for SeatView {
    ghost also_owns = { λ _. ftrue };
}
