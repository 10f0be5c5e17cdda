//! How a call over a list of files goes on and ends: its files are opened in order, each once, and the call ends at the first one
//! that is refused, is too long or cannot be read.
#![tactic(auto)]

mod error;
mod read;
mod task_end;

pub use error::FileError;
pub use read::read_file;
pub use task_end::TaskEnd;

#[cfg(test)]
mod tests;
