//! Integers of LEB128: published vectors, those of each fault, and the shortest spellings.

use wasm_leb::{LebError, read_s32, read_s64, read_u32, write_s32, write_s64, write_u32};

static UNSIGNED: [(&[u8], Result<(u32, usize), LebError>); 15] = [
    (b"\xe5\x8e\x26", Ok((624485, 3))),
    (b"\x00", Ok((0, 1))),
    (b"\x7f", Ok((127, 1))),
    (b"\x80\x01", Ok((128, 2))),
    (b"\xb9\x64", Ok((12857, 2))),
    (b"\x03\x80", Ok((3, 1))),
    (b"\x82\x80\x80\x80\x00", Ok((2, 5))),
    (b"\xff\xff\xff\xff\x0f", Ok((4294967295, 5))),
    (b"", Err(LebError::Short)),
    (b"\x80", Err(LebError::Short)),
    (b"\xff\xff\xff\xff", Err(LebError::Short)),
    (b"\xff\xff\xff\xff\x1f", Err(LebError::Long)),
    (b"\x82\x80\x80\x80\x10", Err(LebError::Long)),
    (b"\x82\x80\x80\x80\x80", Err(LebError::Long)),
    (b"\x82\x80\x80\x80\x80\x00", Err(LebError::Long)),
];

static SIGNED_32: [(&[u8], Result<(i32, usize), LebError>); 11] = [
    (b"\x7f", Ok((-1, 1))),
    (b"\x3f", Ok((63, 1))),
    (b"\x40", Ok((-64, 1))),
    (b"\xfe\xff\x7f", Ok((-2, 3))),
    (b"\xc0\xbb\x78", Ok((-123456, 3))),
    (b"\xff\xff\xff\xff\x07", Ok((2147483647, 5))),
    (b"\x80\x80\x80\x80\x78", Ok((-2147483648, 5))),
    (b"\xff\xff\xff\xff", Err(LebError::Short)),
    (b"\xff\xff\xff\xff\x0f", Err(LebError::Long)),
    (b"\x80\x80\x80\x80\x70", Err(LebError::Long)),
    (b"\xff\xff\xff\xff\xff", Err(LebError::Long)),
];

static SIGNED_64: [(&[u8], Result<(i64, usize), LebError>); 6] = [
    (b"\x80\x7f", Ok((-128, 2))),
    (
        b"\xff\xff\xff\xff\xff\xff\xff\xff\xff\x00",
        Ok((9223372036854775807, 10)),
    ),
    (
        b"\x80\x80\x80\x80\x80\x80\x80\x80\x80\x7f",
        Ok((-9223372036854775808, 10)),
    ),
    (
        b"\xff\xff\xff\xff\xff\xff\xff\xff\xff",
        Err(LebError::Short),
    ),
    (
        b"\x80\x80\x80\x80\x80\x80\x80\x80\x80\x7e",
        Err(LebError::Long),
    ),
    (
        b"\xff\xff\xff\xff\xff\xff\xff\xff\xff\x01",
        Err(LebError::Long),
    ),
];

static WRITTEN: [(u32, &[u8]); 5] = [
    (624485, b"\xe5\x8e\x26"),
    (0, b"\x00"),
    (127, b"\x7f"),
    (128, b"\x80\x01"),
    (4294967295, b"\xff\xff\xff\xff\x0f"),
];

static WRITTEN_32: [(i32, &[u8]); 8] = [
    (0, b"\x00"),
    (-1, b"\x7f"),
    (127, b"\xff\x00"),
    (-127, b"\x81\x7f"),
    (128, b"\x80\x01"),
    (-129, b"\xff\x7e"),
    (-123456, b"\xc0\xbb\x78"),
    (-2147483648, b"\x80\x80\x80\x80\x78"),
];

static WRITTEN_64: [(i64, &[u8]); 3] = [
    (-64, b"\x40"),
    (64, b"\xc0\x00"),
    (
        9223372036854775807,
        b"\xff\xff\xff\xff\xff\xff\xff\xff\xff\x00",
    ),
];

#[test]
fn unsigned_integers_are_read(rt: HostRuntime) {
    for (bytes, want) in &UNSIGNED {
        assert!(rt; read_u32(bytes) == *want);
    }
}

#[test]
fn signed_integers_of_32_bits_are_read(rt: HostRuntime) {
    for (bytes, want) in &SIGNED_32 {
        assert!(rt; read_s32(bytes) == *want);
    }
}

#[test]
fn signed_integers_of_64_bits_are_read(rt: HostRuntime) {
    for (bytes, want) in &SIGNED_64 {
        assert!(rt; read_s64(bytes) == *want);
    }
}

#[test]
fn the_shortest_spelling_is_written(rt: HostRuntime) {
    for (value, want) in &WRITTEN {
        assert!(rt; write_u32(*value).as_slice() == *want);
    }
}

#[test]
fn the_shortest_spelling_of_32_bits_is_written(rt: HostRuntime) {
    for (value, want) in &WRITTEN_32 {
        assert!(rt; write_s32(*value).as_slice() == *want);
    }
}

#[test]
fn the_shortest_spelling_of_64_bits_is_written(rt: HostRuntime) {
    for (value, want) in &WRITTEN_64 {
        assert!(rt; write_s64(*value).as_slice() == *want);
    }
}
