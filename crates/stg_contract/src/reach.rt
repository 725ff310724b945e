//! How far a verdict looks.

/// How far a verdict looks.
#[derive(Clone, Copy)]
pub enum Reach {
    /// At the places round the dummy and at their transitions, which is enough in a calm draft.
    Near,
    /// At all places.
    Far,
}
