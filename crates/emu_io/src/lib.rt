//! The base crate: lists and texts whose contracts are about plain lists, the error for want of
//! memory, and the outside as two traits, texts by name and a sink for printed bytes.
#![tactic(auto)]

mod calls;
mod files;
mod host_files;
mod host_sink;
mod list;
mod mem_files;
mod mem_sink;
mod no_memory;
mod sink;
mod text;

pub use files::{FetchFault, Files, StoreFault};
pub use host_files::HostFiles;
pub use host_sink::HostSink;
pub use list::List;
pub use mem_files::MemFiles;
pub use mem_sink::MemSink;
pub use no_memory::NoMemory;
pub use sink::Sink;
pub use text::{Text, Word};
