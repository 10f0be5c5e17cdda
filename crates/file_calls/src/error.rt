//! Why a call ends before its files are read.

/// Why a call ends before its files are read. A file is told by its place in the list of the call's files, from 0.
#[derive(Debug, Clone, Copy, PartialEq, Eq, Drop)]
pub enum FileError<R> {
    /// What the files up to this place say is refused.
    Refused { place: u32, refusal: R },
    /// The file at this place gave more bytes than its limit.
    TooLong { place: u32 },
    /// The file at this place could not be opened or read.
    Fault { place: u32 },
    /// Memory was refused.
    NoMemory,
}
