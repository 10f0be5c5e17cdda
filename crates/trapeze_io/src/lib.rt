//! Bytes, names and words, and the files and sinks that they are read from and written to: the system's, and forms in memory
//! that tell what they hold and fail where they are told to.
#![tactic(auto)]

mod bytes;
mod failures;
mod in_pieces;
mod laws;
mod memory_files;
mod memory_sink;
mod names;
mod plan;
mod real;
mod sizes;
mod streams;
mod whole;
mod words;

pub use bytes::Bytes;
pub use failures::{Failed, NoMemory};
pub use in_pieces::{say_pieces, write_pieces};
pub use laws::opens_add_up;
pub use memory_files::MemFiles;
pub use memory_sink::MemSink;
pub use names::Name;
pub use real::{RealFiles, RealSink};
pub use sizes::{LONGEST_KEY, LONGEST_NAME, LONGEST_VALUE};
pub use streams::{Files, Sink};
pub use whole::{ReadError, WriteError, read_whole, write_whole};
pub use words::Words;
