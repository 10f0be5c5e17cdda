//! The system's files, and standard output and error.

use std::fs;
use std::test::Fail;
use trapeze_io::{Files, ReadError, RealFiles, RealSink, read_whole, write_whole};

#[test]
fn the_systems_files_are_written_and_read(rt: HostRuntime) -> Result<(), Fail> {
    let name = "trapeze_io_test_file";
    let content = [7; 1000].repeat(rt.alloc(), 200)?;
    let mut sink = RealSink::new(fs::create(&rt, name)?);
    write_whole(&mut sink, content.as_slice())?;
    let mut files = RealFiles::new(&rt);
    let bytes = read_whole(rt.alloc(), &mut files, name, 200_000)?;
    assert!(rt; bytes.as_slice() == content.as_slice());
    let long = read_whole(rt.alloc(), &mut files, name, 199_999);
    assert_eq!(rt; long.err(), Some(ReadError::TooLong));
    fs::remove_file(&rt, name)?;
    let missing = read_whole(rt.alloc(), &mut files, name, 200_000);
    assert_eq!(rt; missing.err(), Some(ReadError::Fault));
    assert_eq!(rt; files.read(&mut [0; 4]), Ok(0));
    Ok(())
}

#[test]
fn standard_output_and_error_take_whole_pieces(rt: HostRuntime) {
    let mut out = RealSink::new(rt.stdout());
    let mut err = RealSink::new(rt.stderr());
    assert_eq!(rt; write_whole(&mut out, b"to standard output\n"), Ok(()));
    assert_eq!(rt; write_whole(&mut err, b"to standard error\n"), Ok(()));
}
