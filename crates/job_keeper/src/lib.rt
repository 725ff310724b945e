//! Projects that are kept: in memory, and in the tables of a database.
#![tactic(auto)]

mod counting;
mod keeper;
mod memory_keeper;
mod memory_vault;
mod open;
mod project;
mod project_list;
mod real_vault;
mod sql_keeper;
mod sql_words;
mod tables;
#[cfg(test)]
mod tests;
mod values;
mod vault;
mod version;

pub use keeper::{KeepError, Keeper};
pub use memory_keeper::MemKeeper;
pub use memory_vault::MemVault;
pub use project::{Project, is_project_name};
pub use project_list::are_projects;
pub use real_vault::RealVault;
pub use sql_keeper::SqlKeeper;
pub use vault::Vault;
