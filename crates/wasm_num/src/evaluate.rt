ghost use Rattle.std.specs.Prelude.{◌≡◌, ◌<◌, ◌^◌};
ghost use Rattle.wasm_num.specs.Num.{width, signed, source_width, num_unary, num_binary, num_test, num_compare, num_convert};

use crate::arithmetic::{add, mul, sub};
use crate::counts::{clz, ctz, popcnt};
use crate::division::{div_s, div_u, rem_s, rem_u};
use crate::operators::{BinaryOp, CompareOp, ConvertOp, NumTrap, UnaryOp};
use crate::shifts::{rotl, rotr, shl, shr_s, shr_u};

/// The value of an operator on one number of 64 bits, or of 32 where `wide` is false.
pub fn unary(op: UnaryOp, wide: bool, a: u64) -> u64
    requires { a < 2 ^ width wide }
    ensures { result ≡ num_unary op (width wide) a }
{
    match op {
        UnaryOp::Clz => clz(wide, a),
        UnaryOp::Ctz => ctz(wide, a),
        UnaryOp::Popcnt => popcnt(wide, a),
    }
}

/// The value of an operator on two numbers of 64 bits, or of 32 where `wide` is false.
///
/// # Errors
///
/// `Divide` for a division or a remainder by 0, and `Overflow` for the least signed number divided by -1.
pub fn binary(op: BinaryOp, wide: bool, a: u64, b: u64) -> Result<u64, NumTrap>
    requires left { a < 2 ^ width wide }
    requires right { b < 2 ^ width wide }
    ensures { result ≡ num_binary op (width wide) a b }
{
    match op {
        BinaryOp::Add => Ok(add(wide, a, b)),
        BinaryOp::Sub => Ok(sub(wide, a, b)),
        BinaryOp::Mul => Ok(mul(wide, a, b)),
        BinaryOp::DivS => div_s(wide, a, b),
        BinaryOp::DivU => div_u(a, b),
        BinaryOp::RemS => rem_s(wide, a, b),
        BinaryOp::RemU => rem_u(a, b),
        BinaryOp::And => Ok(a & b),
        BinaryOp::Or => Ok(a | b),
        BinaryOp::Xor => Ok(a ^ b),
        BinaryOp::Shl => Ok(shl(wide, a, b)),
        BinaryOp::ShrS => Ok(shr_s(wide, a, b)),
        BinaryOp::ShrU => Ok(shr_u(wide, a, b)),
        BinaryOp::Rotl => Ok(rotl(wide, a, b)),
        BinaryOp::Rotr => Ok(rotr(wide, a, b)),
    }
}

/// Whether a number of 64 bits, or of 32 where `wide` is false, is 0: `eqz`.
pub fn test(wide: bool, a: u64) -> bool
    requires { a < 2 ^ width wide }
    ensures { result ≡ num_test (width wide) a }
{
    a == 0
}

/// The signed reading.
fn signed(wide: bool, a: u64) -> i64
    requires { a < 2 ^ width wide }
    ensures { result ≡ signed (width wide) a }
{
    if wide {
        a.cast_signed()
    } else {
        i64::from((a as u32).cast_signed())
    }
}

/// Whether a comparison holds of two numbers of 64 bits, or of 32 where `wide` is false.
pub fn compare(op: CompareOp, wide: bool, a: u64, b: u64) -> bool
    requires left { a < 2 ^ width wide }
    requires right { b < 2 ^ width wide }
    ensures { result ≡ num_compare op (width wide) a b }
{
    match op {
        CompareOp::Eq => a == b,
        CompareOp::Ne => a != b,
        CompareOp::LtS => signed(wide, a) < signed(wide, b),
        CompareOp::LtU => a < b,
        CompareOp::GtS => signed(wide, a) > signed(wide, b),
        CompareOp::GtU => a > b,
        CompareOp::LeS => signed(wide, a) <= signed(wide, b),
        CompareOp::LeU => a <= b,
        CompareOp::GeS => signed(wide, a) >= signed(wide, b),
        CompareOp::GeU => a >= b,
    }
}

/// The value of a conversion: `Wrap` takes any number, the extensions one of 32 bits.
pub fn convert(op: ConvertOp, a: u64) -> u64
    requires { a < 2 ^ source_width op }
    ensures { result ≡ num_convert op a }
{
    match op {
        ConvertOp::Wrap => a & 0xffff_ffff,
        ConvertOp::ExtendS => i64::from((a as u32).cast_signed()).cast_unsigned(),
        ConvertOp::ExtendU => a,
    }
}
