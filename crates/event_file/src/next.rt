//! What a reader answers.

use crate::entry::Entry;
use crate::fault::LineError;

/// What a reader finds next.
#[derive(Drop)]
pub enum Next {
    /// The entry of a line.
    Entry(Entry),
    /// The first bad line. Every later answer is the same.
    Bad(LineError),
    /// No line is there that says anything.
    NoLine,
    /// A growth was refused, and the line stays to be read.
    NoMemory,
}
