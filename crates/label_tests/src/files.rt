//! Bytes, names, and files and sinks in memory that fail in mid-stream.

use std::test::Fail;
use trapeze_io::{
    Bytes, Failed, Files, MemFiles, MemSink, Name, ReadError, Sink, WriteError, read_whole,
    write_whole,
};

#[test]
fn bytes_are_made_copied_and_grown(rt: HostRuntime) -> Result<(), Fail> {
    let mut bytes = Bytes::new(rt.alloc());
    bytes.append(b"tra")?;
    bytes.append(b"peze")?;
    assert_eq!(rt; bytes.as_slice(), b"trapeze".as_slice());
    let second = bytes.duplicate()?;
    bytes.append(b"!")?;
    assert_eq!(rt; second.as_slice(), b"trapeze".as_slice());
    let copy = Bytes::copy(rt.alloc(), second.as_slice())?;
    assert_eq!(rt; copy.as_slice(), b"trapeze".as_slice());
    let given = Bytes::from_vec([1, 2].to_vec(rt.alloc())?);
    assert_eq!(rt; given.as_slice(), [1, 2].as_slice());
    Ok(())
}

#[test]
fn names_are_told_from_other_bytes(rt: HostRuntime) {
    for text in ["a", "9", "z_-.0", "a.very-long_name"] {
        let name = Name::read(text.as_bytes()).expect(&rt, "a name");
        assert_eq!(rt; name.as_bytes(), text.as_bytes());
    }
    for text in ["", "-a", ".a", "_a", "A", "aB", "a b", "a/b", "a\n", "é"] {
        assert!(rt; Name::read(text.as_bytes()).is_none(), "no name: {text}");
    }
    assert!(rt; Name::read(&[b'a'; 64]).is_some());
    assert!(rt; Name::read(&[b'a'; 65]).is_none());
}

#[test]
fn a_read_that_fails_in_mid_file_loses_nothing(rt: HostRuntime) -> Result<(), Fail> {
    let mut files = MemFiles::new(rt.alloc());
    files.hold("greeting", b"hello")?;
    files.fail_at(3)?;
    files.step(2);
    let mut buffer = [0; 8];
    files.open("greeting")?;
    assert_eq!(rt; files.read(&mut buffer), Ok(2));
    assert_eq!(rt; files.read(&mut buffer), Err(Failed));
    assert_eq!(rt; files.read(&mut buffer), Ok(2));
    assert_eq!(rt; buffer[..2], b"ll"[..]);
    assert_eq!(rt; files.read(&mut buffer), Ok(1));
    assert_eq!(rt; files.read(&mut buffer), Ok(0));
    Ok(())
}

#[test]
fn the_file_held_last_is_opened_and_the_open_one_stays(rt: HostRuntime) -> Result<(), Fail> {
    let mut files = MemFiles::new(rt.alloc());
    files.hold("a", b"old")?;
    files.hold("b", b"other")?;
    files.open("a")?;
    files.hold("a", b"new and longer")?;
    let mut buffer = [0; 8];
    assert_eq!(rt; files.read(&mut buffer), Ok(3));
    assert_eq!(rt; buffer[..3], b"old"[..]);
    let bytes = read_whole(rt.alloc(), &mut files, "a", 100)?;
    assert_eq!(rt; bytes.as_slice(), b"new and longer".as_slice());
    Ok(())
}

#[test]
fn files_are_read_whole_up_to_the_limit(rt: HostRuntime) -> Result<(), Fail> {
    let mut files = MemFiles::new(rt.alloc());
    files.hold("five", b"hello")?;
    files.hold("none", b"")?;
    for most in [1, 2, 100] {
        files.step(most);
        let bytes = read_whole(rt.alloc(), &mut files, "five", 5)?;
        assert_eq!(rt; bytes.as_slice(), b"hello".as_slice());
        let long = read_whole(rt.alloc(), &mut files, "five", 4);
        assert_eq!(rt; long.err(), Some(ReadError::TooLong));
        let empty = read_whole(rt.alloc(), &mut files, "none", 0)?;
        assert!(rt; empty.as_slice().is_empty());
    }
    let missing = read_whole(rt.alloc(), &mut files, "missing", 5);
    assert_eq!(rt; missing.err(), Some(ReadError::Fault));
    Ok(())
}

#[test]
fn a_file_is_read_whole_after_each_failing_call(rt: HostRuntime) -> Result<(), Fail> {
    for call in 1..=4 {
        let mut files = MemFiles::new(rt.alloc());
        files.hold("five", b"hello")?;
        files.step(3);
        files.fail_at(call)?;
        let failed = read_whole(rt.alloc(), &mut files, "five", 5);
        assert_eq!(rt; failed.err(), Some(ReadError::Fault));
        let bytes = read_whole(rt.alloc(), &mut files, "five", 5)?;
        assert_eq!(rt; bytes.as_slice(), b"hello".as_slice());
    }
    Ok(())
}

#[test]
fn a_fault_one_call_past_the_last_changes_nothing(rt: HostRuntime) -> Result<(), Fail> {
    // An open, a read of all and one of nothing are three calls.
    let mut files = MemFiles::new(rt.alloc());
    files.hold("five", b"hello")?;
    files.fail_at(4)?;
    let bytes = read_whole(rt.alloc(), &mut files, "five", 5)?;
    assert_eq!(rt; bytes.as_slice(), b"hello".as_slice());
    // Writes of three bytes and of two are two calls.
    let mut sink = MemSink::new(rt.alloc());
    sink.step(3);
    sink.fail_at(3)?;
    assert_eq!(rt; write_whole(&mut sink, b"hello"), Ok(()));
    assert_eq!(rt; sink.written(), b"hello".as_slice());
    Ok(())
}

#[test]
fn a_write_that_fails_leaves_a_prefix(rt: HostRuntime) -> Result<(), Fail> {
    let mut sink = MemSink::new(rt.alloc());
    sink.step(3);
    sink.fail_at(2)?;
    assert_eq!(rt; write_whole(&mut sink, b"hello"), Err(WriteError::Fault));
    assert_eq!(rt; sink.written(), b"hel".as_slice());
    assert_eq!(rt; write_whole(&mut sink, b"lo!!"), Ok(()));
    assert_eq!(rt; sink.written(), b"hello!!".as_slice());
    sink.step(1);
    assert_eq!(rt; sink.write(b"??"), Ok(1));
    assert_eq!(rt; sink.write(b""), Ok(0));
    assert_eq!(rt; sink.written(), b"hello!!?".as_slice());
    Ok(())
}
