//! How a call ends once its files are read.

/// How the task of a call ended, once the files before it were read. `A` tells where it ended that was done.
#[derive(Debug, Clone, Copy, PartialEq, Eq, Drop)]
pub enum TaskEnd<A> {
    /// The task was done, and its whole text written.
    Finished(A),
    /// The last file, which the task reads as it goes, could not be opened, or read further.
    Unread,
    /// The output failed.
    WriteFailed,
    /// Memory was refused.
    OutOfMemory,
}
