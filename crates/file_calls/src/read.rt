//! One file of a call.

ghost use Rattle.std.specs.Prelude.{◌≤◌, ◌∷◌, [], length, IfOk, IfErr};
ghost use Rattle.file_calls.specs.Steps.{Steps, one_file, IsNoRefusal};

use crate::error::FileError;
use std::alloc::Global;
use trapeze_io::{Bytes, Files, ReadError, read_whole};

/// Reads the file of this name whole, where it has at most so many bytes. Of the call's files it is the one at this place.
pub fn read_file<F: Files, R>(
    alloc: Global,
    files: &mut F,
    place: u32,
    name: &str,
    limit: u32,
) -> Result<Bytes, FileError<R>>
    ensures steps { Steps place (record { name = name.now; limit = limit } ∷ [])
        (one_file place (record { name = name.now; limit = limit })) (F.seen files.old) (F.seen files.new) result }
    ensures unrefused { IfErr result IsNoRefusal }
    ensures short { IfOk result (λ bytes. length bytes ≤ limit) }
{
    match read_whole(alloc, files, name, limit) {
        Ok(bytes) => Ok(bytes),
        Err(ReadError::Fault) => Err(FileError::Fault { place }),
        Err(ReadError::TooLong) => Err(FileError::TooLong { place }),
        Err(ReadError::NoMemory) => Err(FileError::NoMemory),
    }
}
