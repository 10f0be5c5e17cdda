//! A file as a call reads it.

use crate::{FileError, read_file};
use std::test::Fail;
use trapeze_io::MemFiles;

/// A name, a limit, and how many bytes are read of the files held; or the error, as a word.
static ROWS: [(&str, u32, &str); 4] = [
    ("greeting", 5, "read"),
    ("greeting", 4, "too long"),
    ("empty", 0, "read"),
    ("gone", 5, "fault"),
];

/// What comes of a read of the third file of a call.
fn comes(read: Result<trapeze_io::Bytes, FileError<u8>>) -> &'static str {
    match read {
        Ok(_) => "read",
        Err(FileError::Refused { .. }) => "refused",
        Err(FileError::TooLong { .. }) => "too long",
        Err(FileError::Fault { .. }) => "fault",
        Err(FileError::NoMemory) => "memory",
    }
}

#[test]
fn a_file_is_read_within_its_limit(rt: HostRuntime) -> Result<(), Fail> {
    let mut files = MemFiles::new(rt.alloc());
    files.hold("greeting", b"hello")?;
    files.hold("empty", b"")?;
    for (name, limit, wanted) in ROWS {
        let read = read_file(rt.alloc(), &mut files, 2, name, limit);
        assert_eq!(rt; comes(read), wanted);
    }
    Ok(())
}
