//! The outside of a run: a shelf of files, sinks of bytes and a gate, and reading, writing and
//! saving whole.
#![tactic(auto)]

mod count;
mod dir_shelf;
mod draft;
mod fault;
mod gate;
mod host;
mod host_files;
mod host_sink;
mod mem_file;
mod mem_shelf;
mod mem_sink;
mod read;
mod shelf;
mod sink;
mod spoken;
mod write;

pub use dir_shelf::DirShelf;
pub use fault::{Failed, ReadFault, WholeFault};
pub use gate::{Gate, OpenGate};
pub use host_sink::{ErrSink, HostSink, OutSink};
pub use mem_shelf::MemShelf;
pub use mem_sink::MemSink;
pub use read::read_whole;
pub use shelf::Shelf;
pub use sink::Sink;
pub use write::{save_whole, write_whole};
