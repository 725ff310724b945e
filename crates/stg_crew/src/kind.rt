//! What a seat is for.

/// What a seat is for.
pub enum SeatKind {
    /// It splits off the workers' seats, takes them in again and never draws.
    Collecting,
    /// It draws.
    Worker,
    /// It was taken in.
    Spent,
}
