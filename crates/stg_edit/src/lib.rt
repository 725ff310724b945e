//! Graphs under work: edits that take no memory, and their exact undo.
#![tactic(auto)]

mod build;
mod compact;
mod edit_start;
mod editor;
mod pair_places;
mod round;
mod signals;
mod size;
#[cfg(test)]
mod tests;
mod wear;

pub use editor::Editor;
pub use stg_arena::Walk;
pub use wear::Wear;
