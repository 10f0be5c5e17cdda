//! Operators of 64 bits: rows of the WebAssembly specification's test suite.

use wasm_num::{
    BinaryOp, CompareOp, ConvertOp, NumTrap, UnaryOp, binary, compare, convert, test, unary,
};

/// The least signed number, and -1.
const LEAST: u64 = 0x8000_0000_0000_0000;

const LAST: u64 = 0xffff_ffff_ffff_ffff;

static BINARY: [(BinaryOp, u64, u64, Result<u64, NumTrap>); 76] = [
    (BinaryOp::Add, 0, 1, Ok(1)),
    (BinaryOp::Add, 1, 0xffff_ffff_ffff_ffff, Ok(0)),
    (
        BinaryOp::Add,
        0x7fff_ffff_ffff_ffff,
        0x7fff_ffff_ffff_ffff,
        Ok(0xffff_ffff_ffff_fffe),
    ),
    (
        BinaryOp::Add,
        0x8000_0000_0000_0000,
        0xffff_ffff_ffff_ffff,
        Ok(0x7fff_ffff_ffff_ffff),
    ),
    (
        BinaryOp::Add,
        0xffff_ffff_ffff_ffff,
        0x8000_0000_0000_0000,
        Ok(0x7fff_ffff_ffff_ffff),
    ),
    (BinaryOp::Sub, 0, 1, Ok(0xffff_ffff_ffff_ffff)),
    (BinaryOp::Sub, 1, 0xffff_ffff_ffff_ffff, Ok(2)),
    (
        BinaryOp::Sub,
        0x7fff_ffff_ffff_ffff,
        0x7fff_ffff_ffff_ffff,
        Ok(0),
    ),
    (
        BinaryOp::Sub,
        0x8000_0000_0000_0000,
        0xffff_ffff_ffff_ffff,
        Ok(0x8000_0000_0000_0001),
    ),
    (
        BinaryOp::Sub,
        0xffff_ffff_ffff_ffff,
        0x8000_0000_0000_0000,
        Ok(0x7fff_ffff_ffff_ffff),
    ),
    (BinaryOp::Mul, 0, 1, Ok(0)),
    (
        BinaryOp::Mul,
        1,
        0xffff_ffff_ffff_ffff,
        Ok(0xffff_ffff_ffff_ffff),
    ),
    (
        BinaryOp::Mul,
        0x7fff_ffff_ffff_ffff,
        0x7fff_ffff_ffff_ffff,
        Ok(1),
    ),
    (
        BinaryOp::Mul,
        0x8000_0000_0000_0000,
        0xffff_ffff_ffff_ffff,
        Ok(0x8000_0000_0000_0000),
    ),
    (
        BinaryOp::Mul,
        0xffff_ffff_ffff_ffff,
        0x8000_0000_0000_0000,
        Ok(0x8000_0000_0000_0000),
    ),
    (BinaryOp::And, 0, 0xffff_ffff_ffff_ffff, Ok(0)),
    (BinaryOp::And, 1, 0x8000_0000_0000_0000, Ok(0)),
    (
        BinaryOp::And,
        0x7fff_ffff_ffff_ffff,
        0xffff_ffff_ffff_ffff,
        Ok(0x7fff_ffff_ffff_ffff),
    ),
    (BinaryOp::And, 0x5a5a, 0xff00, Ok(0x5a00)),
    (
        BinaryOp::Or,
        0,
        0xffff_ffff_ffff_ffff,
        Ok(0xffff_ffff_ffff_ffff),
    ),
    (
        BinaryOp::Or,
        1,
        0x8000_0000_0000_0000,
        Ok(0x8000_0000_0000_0001),
    ),
    (
        BinaryOp::Or,
        0x7fff_ffff_ffff_ffff,
        0xffff_ffff_ffff_ffff,
        Ok(0xffff_ffff_ffff_ffff),
    ),
    (BinaryOp::Or, 0x5a5a, 0xff00, Ok(0xff5a)),
    (
        BinaryOp::Xor,
        0,
        0xffff_ffff_ffff_ffff,
        Ok(0xffff_ffff_ffff_ffff),
    ),
    (
        BinaryOp::Xor,
        1,
        0x8000_0000_0000_0000,
        Ok(0x8000_0000_0000_0001),
    ),
    (
        BinaryOp::Xor,
        0x7fff_ffff_ffff_ffff,
        0xffff_ffff_ffff_ffff,
        Ok(0x8000_0000_0000_0000),
    ),
    (BinaryOp::Xor, 0x5a5a, 0xff00, Ok(0xa55a)),
    (
        BinaryOp::DivS,
        0x8000_0000_0000_0000,
        0xffff_ffff_ffff_ffff,
        Err(NumTrap::Overflow),
    ),
    (
        BinaryOp::DivS,
        0x8000_0000_0000_0000,
        0,
        Err(NumTrap::Divide),
    ),
    (
        BinaryOp::DivS,
        0xffff_ffff_ffff_fff9,
        2,
        Ok(0xffff_ffff_ffff_fffd),
    ),
    (
        BinaryOp::DivS,
        7,
        0xffff_ffff_ffff_fffe,
        Ok(0xffff_ffff_ffff_fffd),
    ),
    (
        BinaryOp::DivS,
        0xffff_ffff_ffff_ffff,
        0x8000_0000_0000_0000,
        Ok(0),
    ),
    (BinaryOp::DivS, 0, 1, Ok(0)),
    (
        BinaryOp::DivU,
        0x8000_0000_0000_0000,
        0xffff_ffff_ffff_ffff,
        Ok(0),
    ),
    (
        BinaryOp::DivU,
        0x8000_0000_0000_0000,
        0,
        Err(NumTrap::Divide),
    ),
    (
        BinaryOp::DivU,
        0xffff_ffff_ffff_fff9,
        2,
        Ok(0x7fff_ffff_ffff_fffc),
    ),
    (BinaryOp::DivU, 7, 0xffff_ffff_ffff_fffe, Ok(0)),
    (
        BinaryOp::DivU,
        0xffff_ffff_ffff_ffff,
        0x8000_0000_0000_0000,
        Ok(1),
    ),
    (BinaryOp::DivU, 0, 1, Ok(0)),
    (
        BinaryOp::RemS,
        0x8000_0000_0000_0000,
        0xffff_ffff_ffff_ffff,
        Ok(0),
    ),
    (
        BinaryOp::RemS,
        0x8000_0000_0000_0000,
        0,
        Err(NumTrap::Divide),
    ),
    (
        BinaryOp::RemS,
        0xffff_ffff_ffff_fff9,
        2,
        Ok(0xffff_ffff_ffff_ffff),
    ),
    (BinaryOp::RemS, 7, 0xffff_ffff_ffff_fffe, Ok(1)),
    (
        BinaryOp::RemS,
        0xffff_ffff_ffff_ffff,
        0x8000_0000_0000_0000,
        Ok(0xffff_ffff_ffff_ffff),
    ),
    (BinaryOp::RemS, 0, 1, Ok(0)),
    (
        BinaryOp::RemU,
        0x8000_0000_0000_0000,
        0xffff_ffff_ffff_ffff,
        Ok(0x8000_0000_0000_0000),
    ),
    (
        BinaryOp::RemU,
        0x8000_0000_0000_0000,
        0,
        Err(NumTrap::Divide),
    ),
    (BinaryOp::RemU, 0xffff_ffff_ffff_fff9, 2, Ok(1)),
    (BinaryOp::RemU, 7, 0xffff_ffff_ffff_fffe, Ok(7)),
    (
        BinaryOp::RemU,
        0xffff_ffff_ffff_ffff,
        0x8000_0000_0000_0000,
        Ok(0x7fff_ffff_ffff_ffff),
    ),
    (BinaryOp::RemU, 0, 1, Ok(0)),
    (BinaryOp::Shl, 0x8000_0000_0000_0006, 1, Ok(0xc)),
    (
        BinaryOp::Shl,
        0x8000_0000_0000_0006,
        0x21,
        Ok(0xc_0000_0000),
    ),
    (BinaryOp::Shl, 0x8000_0000_0000_0006, 0x3f, Ok(0)),
    (
        BinaryOp::Shl,
        0x8000_0000_0000_0006,
        0x40,
        Ok(0x8000_0000_0000_0006),
    ),
    (BinaryOp::Shl, 0x8000_0000_0000_0006, 0x41, Ok(0xc)),
    (
        BinaryOp::ShrS,
        0x8000_0000_0000_0006,
        1,
        Ok(0xc000_0000_0000_0003),
    ),
    (
        BinaryOp::ShrS,
        0x8000_0000_0000_0006,
        0x21,
        Ok(0xffff_ffff_c000_0000),
    ),
    (
        BinaryOp::ShrS,
        0x8000_0000_0000_0006,
        0x3f,
        Ok(0xffff_ffff_ffff_ffff),
    ),
    (
        BinaryOp::ShrS,
        0x8000_0000_0000_0006,
        0x40,
        Ok(0x8000_0000_0000_0006),
    ),
    (
        BinaryOp::ShrS,
        0x8000_0000_0000_0006,
        0x41,
        Ok(0xc000_0000_0000_0003),
    ),
    (
        BinaryOp::ShrU,
        0x8000_0000_0000_0006,
        1,
        Ok(0x4000_0000_0000_0003),
    ),
    (BinaryOp::ShrU, 0x8000_0000_0000_0006, 0x21, Ok(0x4000_0000)),
    (BinaryOp::ShrU, 0x8000_0000_0000_0006, 0x3f, Ok(1)),
    (
        BinaryOp::ShrU,
        0x8000_0000_0000_0006,
        0x40,
        Ok(0x8000_0000_0000_0006),
    ),
    (
        BinaryOp::ShrU,
        0x8000_0000_0000_0006,
        0x41,
        Ok(0x4000_0000_0000_0003),
    ),
    (BinaryOp::Rotl, 0x8000_0000_0000_0006, 1, Ok(0xd)),
    (
        BinaryOp::Rotl,
        0x8000_0000_0000_0006,
        0x21,
        Ok(0xd_0000_0000),
    ),
    (
        BinaryOp::Rotl,
        0x8000_0000_0000_0006,
        0x3f,
        Ok(0x4000_0000_0000_0003),
    ),
    (
        BinaryOp::Rotl,
        0x8000_0000_0000_0006,
        0x40,
        Ok(0x8000_0000_0000_0006),
    ),
    (BinaryOp::Rotl, 0x8000_0000_0000_0006, 0x41, Ok(0xd)),
    (
        BinaryOp::Rotr,
        0x8000_0000_0000_0006,
        1,
        Ok(0x4000_0000_0000_0003),
    ),
    (
        BinaryOp::Rotr,
        0x8000_0000_0000_0006,
        0x21,
        Ok(0x3_4000_0000),
    ),
    (BinaryOp::Rotr, 0x8000_0000_0000_0006, 0x3f, Ok(0xd)),
    (
        BinaryOp::Rotr,
        0x8000_0000_0000_0006,
        0x40,
        Ok(0x8000_0000_0000_0006),
    ),
    (
        BinaryOp::Rotr,
        0x8000_0000_0000_0006,
        0x41,
        Ok(0x4000_0000_0000_0003),
    ),
];

static UNARY: [(UnaryOp, u64, u64); 18] = [
    (UnaryOp::Clz, 0, 64),
    (UnaryOp::Clz, 1, 63),
    (UnaryOp::Clz, 0x7fff_ffff_ffff_ffff, 1),
    (UnaryOp::Clz, 0x8000_0000_0000_0000, 0),
    (UnaryOp::Clz, 0xffff_ffff_ffff_ffff, 0),
    (UnaryOp::Clz, 0x50, 57),
    (UnaryOp::Ctz, 0, 64),
    (UnaryOp::Ctz, 1, 0),
    (UnaryOp::Ctz, 0x7fff_ffff_ffff_ffff, 0),
    (UnaryOp::Ctz, 0x8000_0000_0000_0000, 63),
    (UnaryOp::Ctz, 0xffff_ffff_ffff_ffff, 0),
    (UnaryOp::Ctz, 0x50, 4),
    (UnaryOp::Popcnt, 0, 0),
    (UnaryOp::Popcnt, 1, 1),
    (UnaryOp::Popcnt, 0x7fff_ffff_ffff_ffff, 63),
    (UnaryOp::Popcnt, 0x8000_0000_0000_0000, 1),
    (UnaryOp::Popcnt, 0xffff_ffff_ffff_ffff, 64),
    (UnaryOp::Popcnt, 0x50, 2),
];

// of the least and the greatest signed number, of two equal ones, and of 0 and the least signed number
static COMPARE: [(CompareOp, bool, bool, bool); 10] = [
    (CompareOp::Eq, false, true, false),
    (CompareOp::Ne, true, false, true),
    (CompareOp::LtS, true, false, false),
    (CompareOp::LtU, false, false, true),
    (CompareOp::GtS, false, false, true),
    (CompareOp::GtU, true, false, false),
    (CompareOp::LeS, true, true, false),
    (CompareOp::LeU, false, true, true),
    (CompareOp::GeS, false, true, true),
    (CompareOp::GeU, true, true, false),
];

#[test]
fn operators_on_two_numbers_of_64_bits_follow_the_table(rt: HostRuntime) {
    for (op, a, b, want) in BINARY.iter() {
        assert!(rt; binary(*op, true, *a, *b) == *want);
    }
}

#[test]
fn operators_on_one_number_of_64_bits_follow_the_table(rt: HostRuntime) {
    for (op, a, want) in UNARY.iter() {
        assert!(rt; unary(*op, true, *a) == *want);
        assert!(rt; test(true, *a) == (*a == 0));
    }
}

#[test]
fn comparisons_of_64_bits_follow_the_table(rt: HostRuntime) {
    for (op, least, same, zero) in COMPARE.iter() {
        assert!(rt; compare(*op, true, LEAST, 0x7fff_ffff_ffff_ffff) == *least);
        assert!(rt; compare(*op, true, LAST, LAST) == *same);
        assert!(rt; compare(*op, true, 0, LEAST) == *zero);
    }
}

static CONVERT: [(ConvertOp, u64, u64); 8] = [
    (ConvertOp::Wrap, 0xffff_ffff_ffff_ffff, 0xffff_ffff),
    (ConvertOp::Wrap, 0x1_0000_0000, 0),
    (ConvertOp::Wrap, 0x8000_0000_0000_0005, 5),
    (ConvertOp::ExtendS, 0, 0),
    (ConvertOp::ExtendS, 0x7fff_ffff, 0x7fff_ffff),
    (ConvertOp::ExtendS, 0x8000_0000, 0xffff_ffff_8000_0000),
    (ConvertOp::ExtendS, 0xffff_ffff, 0xffff_ffff_ffff_ffff),
    (ConvertOp::ExtendU, 0xffff_ffff, 0xffff_ffff),
];

#[test]
fn conversions_follow_the_table(rt: HostRuntime) {
    for (op, a, want) in CONVERT.iter() {
        assert!(rt; convert(*op, *a) == *want);
    }
}
