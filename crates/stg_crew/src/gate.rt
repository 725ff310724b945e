//! What is told of each group before it is derived.

/// It is entered before each group is derived, by the worker that drew the group. An entry ends
/// before the derivation begins, so a gate can hold a worker up; it changes no part.
pub trait Gate: Sync {
    /// Lets the worker go on with the group of this number, counted from 0.
    fn enter(&self, group: u32);
}

/// A gate that holds nothing up.
pub struct OpenGate;

impl Gate for OpenGate {
    fn enter(&self, _group: u32) {}
}
