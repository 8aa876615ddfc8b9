//! The outside as the shell sees it: sources, sinks and stores, and the lines that a source gives.
#![tactic(auto)]

mod device;
mod lines;
mod memory;
mod outside;
mod reader;
mod window;

pub use device::{Failed, FetchFault, KeepFault, Sink, Source, Store, write_all};
pub use lines::{LinesFault, lines_of};
pub use memory::{MemSink, MemSource, MemStore};
pub use outside::{DirStore, StdSink, StdSource};
pub use reader::{LineReader, Next};
