//! Projects over HTTP: one request is read from a link, and one reply is written to it.
#![tactic(auto)]

mod answering;
mod asked;
mod asking;
mod bodies;
mod body;
mod desk;
mod fields;
mod head;
mod laws;
mod making;
mod path;
mod replies;
mod reply;
mod routes;
mod served;
#[cfg(test)]
mod tests;
mod writing;

pub use desk::{Desk, serve_one};
pub use laws::law_repeated;
pub use served::Served;
