//! Bodies and expressions: where each ends, or its first fault.

use crate::played::joined;
use std::alloc::Global;
use std::test::Fail;
use wasm_ast::{Instr, ValType};
use wasm_code::{DecodeError, decode_code, decode_expr};

/// The offset behind the expression that begins these bytes, or its fault.
fn behind(alloc: Global, bytes: &[u8]) -> Result<u32, DecodeError> {
    let Ok(end) = u32::try_from(bytes.len()) else {
        return Err(DecodeError::NoMemory);
    };
    let (_, behind) = decode_expr(alloc, bytes, 0, end)?;
    Ok(behind)
}

static EXPRESSIONS: [(&[u8], Result<u32, DecodeError>); 36] = [
    // ends
    (b"\x0b", Ok(1)),
    (b"\x01\x0b\x0b", Ok(2)),
    (b"", Err(DecodeError::Malformed(0))),
    (b"\x01", Err(DecodeError::Malformed(1))),
    (b"\x02\x40\x0b", Err(DecodeError::Malformed(3))),
    // the second part of an if
    (b"\x04\x40\x05\x0b\x0b", Ok(5)),
    (b"\x05\x0b", Err(DecodeError::Malformed(0))),
    (b"\x02\x40\x05\x0b\x0b", Err(DecodeError::Malformed(2))),
    (b"\x03\x40\x05\x0b\x0b", Err(DecodeError::Malformed(2))),
    (b"\x04\x40\x05\x05\x0b\x0b", Err(DecodeError::Malformed(3))),
    // opcodes and types that there are not
    (b"\x01\x06\x0b", Err(DecodeError::Malformed(1))),
    (b"\xc5\x0b", Err(DecodeError::Malformed(0))),
    (b"\xff\x0b", Err(DecodeError::Malformed(0))),
    (b"\x02\x41\x0b\x0b", Err(DecodeError::Malformed(1))),
    // integers
    (b"\x10\x80\x80\x80\x80\x00\x0b", Ok(7)),
    (
        b"\x10\x80\x80\x80\x80\x80\x00\x0b",
        Err(DecodeError::Malformed(1)),
    ),
    (
        b"\x10\xff\xff\xff\xff\x1f\x0b",
        Err(DecodeError::Malformed(1)),
    ),
    (b"\x41\x80\x80\x80\x80\x78\x0b", Ok(7)),
    (
        b"\x41\x80\x80\x80\x80\x70\x0b",
        Err(DecodeError::Malformed(1)),
    ),
    (
        b"\x42\x80\x80\x80\x80\x80\x80\x80\x80\x80\x7e\x0b",
        Err(DecodeError::Malformed(1)),
    ),
    (b"\x28\x02\x80", Err(DecodeError::Malformed(2))),
    // raw bytes
    (b"\x43\x00\x00\x00\x00\x0b", Ok(6)),
    (b"\x43\x00\x00\x00", Err(DecodeError::Malformed(1))),
    (
        b"\x44\x00\x00\x00\x00\x00\x00\x00",
        Err(DecodeError::Malformed(1)),
    ),
    // bytes 00
    (b"\x3f\x00\x40\x00\x0b", Ok(5)),
    (b"\x3f\x01\x0b", Err(DecodeError::Malformed(1))),
    (b"\x11\x00\x01\x0b", Err(DecodeError::Malformed(2))),
    // labels of a table of branches, whose count says more than there are
    (b"\x0e\x01\x00\x01\x0b", Ok(5)),
    (b"\x0e\x02\x00\x01", Err(DecodeError::Malformed(4))),
    (
        b"\x0e\xff\xff\xff\xff\x0f\x00\x0b",
        Err(DecodeError::Malformed(8)),
    ),
    // the additions of Core 2.0
    (b"\xc0\xc4\x0b", Ok(3)),
    (b"\xfc\x0a\x00\x00\xfc\x0b\x00\x0b", Ok(8)),
    (b"\xfc\x8a\x00\x00\x00\x0b", Ok(6)),
    (b"\xfc\x0c\x00\x0b", Err(DecodeError::Malformed(1))),
    (b"\xfc\x0a\x00\x01\x0b", Err(DecodeError::Malformed(3))),
    (b"\xfc\x0b\x01\x0b", Err(DecodeError::Malformed(2))),
];

#[test]
fn expressions_end_or_have_a_fault(rt: HostRuntime) {
    for (bytes, want) in &EXPRESSIONS {
        assert!(rt; behind(rt.alloc(), bytes) == *want);
    }
}

/// How many locals the body numbered 7 declares that fills these bytes, or its fault.
fn locals(alloc: Global, bytes: &[u8]) -> Result<usize, DecodeError> {
    let Ok(end) = u32::try_from(bytes.len()) else {
        return Err(DecodeError::NoMemory);
    };
    Ok(decode_code(alloc, bytes, 0, end, 7)?.locals().len())
}

static BODIES: [(&[u8], Result<usize, DecodeError>); 13] = [
    (b"\x00\x0b", Ok(0)),
    (b"\x00", Err(DecodeError::Malformed(1))),
    (b"\x00\x01", Err(DecodeError::Malformed(2))),
    (b"\x00\x0b\x0b", Err(DecodeError::Malformed(2))),
    (b"\x01\x01\x41\x0b", Err(DecodeError::Malformed(2))),
    // 1,024 and 1,025 in one count
    (b"\x01\x80\x08\x7f\x0b", Ok(1024)),
    (b"\x01\x81\x08\x7f\x0b", Err(DecodeError::TooManyLocals(7))),
    (b"\x01\x81\x08", Err(DecodeError::TooManyLocals(7))),
    // and in two
    (b"\x02\xff\x07\x7f\x01\x7e\x0b", Ok(1024)),
    (
        b"\x02\x80\x08\x7f\x01\x7e\x0b",
        Err(DecodeError::TooManyLocals(7)),
    ),
    (b"\x02\x80\x08\x7f\x00\x7e\x0b", Ok(1024)),
    // counts that say more than there is
    (
        b"\xff\xff\xff\xff\x0f\x00\x7f\x0b",
        Err(DecodeError::Malformed(8)),
    ),
    (
        b"\x01\xff\xff\xff\xff\x0f\x7f\x0b",
        Err(DecodeError::TooManyLocals(7)),
    ),
];

#[test]
fn bodies_fill_their_range_and_have_few_locals(rt: HostRuntime) {
    for (bytes, want) in &BODIES {
        assert!(rt; locals(rt.alloc(), bytes) == *want);
    }
}

/// The offset behind so many blocks inside one another, or the fault.
fn behind_blocks(alloc: Global, count: usize) -> Result<Result<u32, DecodeError>, Fail> {
    let ends = count.wrapping_add(1);
    let bytes = joined(alloc, &[(b"\x02\x40", count), (b"\x0b", ends)])?;
    Ok(behind(alloc, bytes.as_slice()))
}

#[test]
fn blocks_are_512_deep_at_most(rt: HostRuntime) -> Result<(), Fail> {
    assert!(rt; behind_blocks(rt.alloc(), 512)? == Ok(1537));
    assert!(rt; behind_blocks(rt.alloc(), 513)? == Err(DecodeError::TooDeep(1024)));
    Ok(())
}

/// Whether the code is an `if` with both parts, and `drop`.
fn is_a_choice(code: &[Instr]) -> bool {
    let [Instr::If(Some(ValType::I32), first, second), Instr::Drop] = code else {
        return false;
    };
    matches!(first.items(), [Instr::Nop]) && matches!(second.items(), [Instr::I32Const(4294967295)])
}

static FILE: &[u8] = b"\xff\xff\xff\x01\x01\x7e\x04\x7f\x01\x05\x41\x7f\x0b\x1a\x0b\x06";

#[test]
fn a_range_of_a_file_is_read(rt: HostRuntime) -> Result<(), Fail> {
    let body = decode_code(rt.alloc(), FILE, 3, 15, 0)?;
    assert!(rt; body.locals() == [ValType::I64].as_slice());
    assert!(rt; is_a_choice(body.code().items()));
    let (code, behind) = decode_expr(rt.alloc(), FILE, 10, 16)?;
    assert!(rt; matches!(code.items(), [Instr::I32Const(4294967295)]) && behind == 13);
    let fault = decode_expr(rt.alloc(), FILE, 15, 16).err();
    assert!(rt; fault == Some(DecodeError::Malformed(15)));
    Ok(())
}
