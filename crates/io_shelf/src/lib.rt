//! The outside of the program: texts that are read, files that are put, bytes that are written,
//! peers that come, each with a form in memory and a real one; and specifications of any size, to
//! measure with.
#![tactic(auto)]

mod calls;
mod copying;
mod doors;
mod entries;
mod faults;
mod file_source;
mod folder_shelf;
mod generated;
mod memory_doors;
mod memory_link;
mod memory_shelf;
mod memory_sink;
mod memory_source;
mod outside;
mod std_sink;
mod tcp_doors;
mod tcp_link;
#[cfg(test)]
mod tests;

pub use calls::Calls;
pub use doors::{Doors, Link};
pub use faults::Faults;
pub use file_source::FileSource;
pub use folder_shelf::FolderShelf;
pub use generated::pipeline;
pub use memory_doors::MemDoors;
pub use memory_link::MemLink;
pub use memory_shelf::MemShelf;
pub use memory_sink::MemSink;
pub use memory_source::MemSource;
pub use outside::{Failed, PutError, Shelf, Sink, Source};
pub use std_sink::StdSink;
pub use tcp_doors::TcpDoors;
pub use tcp_link::TcpLink;
