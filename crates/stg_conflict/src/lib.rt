//! Structural auto-conflicts of nets and of graphs under work.
#![tactic(auto)]

mod clash;
mod hidden;
mod labels;
mod noted;
mod search;

pub use clash::Clash;
pub use hidden::hidden_clash;
pub use noted::note_clashes;
pub use search::no_auto_conflict;
