//! Operators of 32 bits: rows of the WebAssembly specification's test suite.

use wasm_num::{BinaryOp, CompareOp, NumTrap, UnaryOp, binary, compare, test, unary};

static BINARY: [(BinaryOp, u32, u32, Result<u64, NumTrap>); 76] = [
    (BinaryOp::Add, 0, 1, Ok(1)),
    (BinaryOp::Add, 1, 0xffff_ffff, Ok(0)),
    (BinaryOp::Add, 0x7fff_ffff, 0x7fff_ffff, Ok(0xffff_fffe)),
    (BinaryOp::Add, 0x8000_0000, 0xffff_ffff, Ok(0x7fff_ffff)),
    (BinaryOp::Add, 0xffff_ffff, 0x8000_0000, Ok(0x7fff_ffff)),
    (BinaryOp::Sub, 0, 1, Ok(0xffff_ffff)),
    (BinaryOp::Sub, 1, 0xffff_ffff, Ok(2)),
    (BinaryOp::Sub, 0x7fff_ffff, 0x7fff_ffff, Ok(0)),
    (BinaryOp::Sub, 0x8000_0000, 0xffff_ffff, Ok(0x8000_0001)),
    (BinaryOp::Sub, 0xffff_ffff, 0x8000_0000, Ok(0x7fff_ffff)),
    (BinaryOp::Mul, 0, 1, Ok(0)),
    (BinaryOp::Mul, 1, 0xffff_ffff, Ok(0xffff_ffff)),
    (BinaryOp::Mul, 0x7fff_ffff, 0x7fff_ffff, Ok(1)),
    (BinaryOp::Mul, 0x8000_0000, 0xffff_ffff, Ok(0x8000_0000)),
    (BinaryOp::Mul, 0xffff_ffff, 0x8000_0000, Ok(0x8000_0000)),
    (BinaryOp::And, 0, 0xffff_ffff, Ok(0)),
    (BinaryOp::And, 1, 0x8000_0000, Ok(0)),
    (BinaryOp::And, 0x7fff_ffff, 0xffff_ffff, Ok(0x7fff_ffff)),
    (BinaryOp::And, 0x5a5a, 0xff00, Ok(0x5a00)),
    (BinaryOp::Or, 0, 0xffff_ffff, Ok(0xffff_ffff)),
    (BinaryOp::Or, 1, 0x8000_0000, Ok(0x8000_0001)),
    (BinaryOp::Or, 0x7fff_ffff, 0xffff_ffff, Ok(0xffff_ffff)),
    (BinaryOp::Or, 0x5a5a, 0xff00, Ok(0xff5a)),
    (BinaryOp::Xor, 0, 0xffff_ffff, Ok(0xffff_ffff)),
    (BinaryOp::Xor, 1, 0x8000_0000, Ok(0x8000_0001)),
    (BinaryOp::Xor, 0x7fff_ffff, 0xffff_ffff, Ok(0x8000_0000)),
    (BinaryOp::Xor, 0x5a5a, 0xff00, Ok(0xa55a)),
    (
        BinaryOp::DivS,
        0x8000_0000,
        0xffff_ffff,
        Err(NumTrap::Overflow),
    ),
    (BinaryOp::DivS, 0x8000_0000, 0, Err(NumTrap::Divide)),
    (BinaryOp::DivS, 0xffff_fff9, 2, Ok(0xffff_fffd)),
    (BinaryOp::DivS, 7, 0xffff_fffe, Ok(0xffff_fffd)),
    (BinaryOp::DivS, 0xffff_ffff, 0x8000_0000, Ok(0)),
    (BinaryOp::DivS, 0, 1, Ok(0)),
    (BinaryOp::DivU, 0x8000_0000, 0xffff_ffff, Ok(0)),
    (BinaryOp::DivU, 0x8000_0000, 0, Err(NumTrap::Divide)),
    (BinaryOp::DivU, 0xffff_fff9, 2, Ok(0x7fff_fffc)),
    (BinaryOp::DivU, 7, 0xffff_fffe, Ok(0)),
    (BinaryOp::DivU, 0xffff_ffff, 0x8000_0000, Ok(1)),
    (BinaryOp::DivU, 0, 1, Ok(0)),
    (BinaryOp::RemS, 0x8000_0000, 0xffff_ffff, Ok(0)),
    (BinaryOp::RemS, 0x8000_0000, 0, Err(NumTrap::Divide)),
    (BinaryOp::RemS, 0xffff_fff9, 2, Ok(0xffff_ffff)),
    (BinaryOp::RemS, 7, 0xffff_fffe, Ok(1)),
    (BinaryOp::RemS, 0xffff_ffff, 0x8000_0000, Ok(0xffff_ffff)),
    (BinaryOp::RemS, 0, 1, Ok(0)),
    (BinaryOp::RemU, 0x8000_0000, 0xffff_ffff, Ok(0x8000_0000)),
    (BinaryOp::RemU, 0x8000_0000, 0, Err(NumTrap::Divide)),
    (BinaryOp::RemU, 0xffff_fff9, 2, Ok(1)),
    (BinaryOp::RemU, 7, 0xffff_fffe, Ok(7)),
    (BinaryOp::RemU, 0xffff_ffff, 0x8000_0000, Ok(0x7fff_ffff)),
    (BinaryOp::RemU, 0, 1, Ok(0)),
    (BinaryOp::Shl, 0x8000_0006, 1, Ok(0xc)),
    (BinaryOp::Shl, 0x8000_0006, 0x1f, Ok(0)),
    (BinaryOp::Shl, 0x8000_0006, 0x20, Ok(0x8000_0006)),
    (BinaryOp::Shl, 0x8000_0006, 0x21, Ok(0xc)),
    (BinaryOp::Shl, 0x8000_0006, 0x40, Ok(0x8000_0006)),
    (BinaryOp::ShrS, 0x8000_0006, 1, Ok(0xc000_0003)),
    (BinaryOp::ShrS, 0x8000_0006, 0x1f, Ok(0xffff_ffff)),
    (BinaryOp::ShrS, 0x8000_0006, 0x20, Ok(0x8000_0006)),
    (BinaryOp::ShrS, 0x8000_0006, 0x21, Ok(0xc000_0003)),
    (BinaryOp::ShrS, 0x8000_0006, 0x40, Ok(0x8000_0006)),
    (BinaryOp::ShrU, 0x8000_0006, 1, Ok(0x4000_0003)),
    (BinaryOp::ShrU, 0x8000_0006, 0x1f, Ok(1)),
    (BinaryOp::ShrU, 0x8000_0006, 0x20, Ok(0x8000_0006)),
    (BinaryOp::ShrU, 0x8000_0006, 0x21, Ok(0x4000_0003)),
    (BinaryOp::ShrU, 0x8000_0006, 0x40, Ok(0x8000_0006)),
    (BinaryOp::Rotl, 0x8000_0006, 1, Ok(0xd)),
    (BinaryOp::Rotl, 0x8000_0006, 0x1f, Ok(0x4000_0003)),
    (BinaryOp::Rotl, 0x8000_0006, 0x20, Ok(0x8000_0006)),
    (BinaryOp::Rotl, 0x8000_0006, 0x21, Ok(0xd)),
    (BinaryOp::Rotl, 0x8000_0006, 0x40, Ok(0x8000_0006)),
    (BinaryOp::Rotr, 0x8000_0006, 1, Ok(0x4000_0003)),
    (BinaryOp::Rotr, 0x8000_0006, 0x1f, Ok(0xd)),
    (BinaryOp::Rotr, 0x8000_0006, 0x20, Ok(0x8000_0006)),
    (BinaryOp::Rotr, 0x8000_0006, 0x21, Ok(0x4000_0003)),
    (BinaryOp::Rotr, 0x8000_0006, 0x40, Ok(0x8000_0006)),
];

static UNARY: [(UnaryOp, u32, u64); 18] = [
    (UnaryOp::Clz, 0, 32),
    (UnaryOp::Clz, 1, 31),
    (UnaryOp::Clz, 0x7fff_ffff, 1),
    (UnaryOp::Clz, 0x8000_0000, 0),
    (UnaryOp::Clz, 0xffff_ffff, 0),
    (UnaryOp::Clz, 0x50, 25),
    (UnaryOp::Ctz, 0, 32),
    (UnaryOp::Ctz, 1, 0),
    (UnaryOp::Ctz, 0x7fff_ffff, 0),
    (UnaryOp::Ctz, 0x8000_0000, 31),
    (UnaryOp::Ctz, 0xffff_ffff, 0),
    (UnaryOp::Ctz, 0x50, 4),
    (UnaryOp::Popcnt, 0, 0),
    (UnaryOp::Popcnt, 1, 1),
    (UnaryOp::Popcnt, 0x7fff_ffff, 31),
    (UnaryOp::Popcnt, 0x8000_0000, 1),
    (UnaryOp::Popcnt, 0xffff_ffff, 32),
    (UnaryOp::Popcnt, 0x50, 2),
];

// of the least and the greatest signed number, of two equal ones, and of 0 and the least signed number
static COMPARE: [(CompareOp, bool, bool, bool); 10] = [
    (CompareOp::Eq, false, true, false),
    (CompareOp::Ne, true, false, true),
    (CompareOp::LtS, true, false, false),
    (CompareOp::LtU, false, false, true),
    (CompareOp::GtS, false, false, true),
    (CompareOp::GtU, true, false, false),
    (CompareOp::LeS, true, true, false),
    (CompareOp::LeU, false, true, true),
    (CompareOp::GeS, false, true, true),
    (CompareOp::GeU, true, true, false),
];

#[test]
fn operators_on_two_numbers_of_32_bits_follow_the_table(rt: HostRuntime) {
    for (op, a, b, want) in BINARY.iter() {
        assert!(rt; binary(*op, false, u64::from(*a), u64::from(*b)) == *want);
    }
}

#[test]
fn operators_on_one_number_of_32_bits_follow_the_table(rt: HostRuntime) {
    for (op, a, want) in UNARY.iter() {
        assert!(rt; unary(*op, false, u64::from(*a)) == *want);
        assert!(rt; test(false, u64::from(*a)) == (*a == 0));
    }
}

#[test]
fn comparisons_of_32_bits_follow_the_table(rt: HostRuntime) {
    for (op, least, same, zero) in COMPARE.iter() {
        assert!(rt; compare(*op, false, 0x8000_0000, 0x7fff_ffff) == *least);
        assert!(rt; compare(*op, false, 0xffff_ffff, 0xffff_ffff) == *same);
        assert!(rt; compare(*op, false, 0, 0x8000_0000) == *zero);
    }
}
