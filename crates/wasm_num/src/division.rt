ghost use Rattle.std.specs.Prelude.{◌≡◌, ◌<◌, ◌^◌};
ghost use Rattle.wasm_num.specs.Num.{width, num_binary};

use crate::operators::{BinaryOp, NumTrap};

/// The unsigned quotient, rounded down.
pub(crate) fn div_u(a: u64, b: u64) -> Result<u64, NumTrap>
    ensures { result ≡ num_binary BinaryOp.DivU 64 a b }
{
    if b == 0 {
        Err(NumTrap::Divide)
    } else {
        Ok(a / b)
    }
}

/// The unsigned remainder.
pub(crate) fn rem_u(a: u64, b: u64) -> Result<u64, NumTrap>
    ensures { result ≡ num_binary BinaryOp.RemU 64 a b }
{
    if b == 0 {
        Err(NumTrap::Divide)
    } else {
        Ok(a % b)
    }
}

fn div_s32(a: u32, b: u32) -> Result<u64, NumTrap>
    ensures { result ≡ num_binary BinaryOp.DivS 32 a b }
{
    if b == 0 {
        return Err(NumTrap::Divide);
    }
    let a = a.cast_signed();
    let b = b.cast_signed();
    if a == i32::MIN && b == -1 {
        return Err(NumTrap::Overflow);
    }
    Ok(u64::from(a.wrapping_div(b).cast_unsigned()))
}

fn div_s64(a: u64, b: u64) -> Result<u64, NumTrap>
    ensures { result ≡ num_binary BinaryOp.DivS 64 a b }
{
    if b == 0 {
        return Err(NumTrap::Divide);
    }
    let a = a.cast_signed();
    let b = b.cast_signed();
    if a == i64::MIN && b == -1 {
        return Err(NumTrap::Overflow);
    }
    Ok(a.wrapping_div(b).cast_unsigned())
}

/// The signed quotient, rounded towards zero.
pub(crate) fn div_s(wide: bool, a: u64, b: u64) -> Result<u64, NumTrap>
    requires left { a < 2 ^ width wide }
    requires right { b < 2 ^ width wide }
    ensures { result ≡ num_binary BinaryOp.DivS (width wide) a b }
{
    if wide {
        div_s64(a, b)
    } else {
        div_s32(a as u32, b as u32)
    }
}

fn rem_s32(a: u32, b: u32) -> Result<u64, NumTrap>
    ensures { result ≡ num_binary BinaryOp.RemS 32 a b }
{
    if b == 0 {
        return Err(NumTrap::Divide);
    }
    let rest = a.cast_signed().wrapping_rem(b.cast_signed());
    Ok(u64::from(rest.cast_unsigned()))
}

fn rem_s64(a: u64, b: u64) -> Result<u64, NumTrap>
    ensures { result ≡ num_binary BinaryOp.RemS 64 a b }
{
    if b == 0 {
        return Err(NumTrap::Divide);
    }
    let rest = a.cast_signed().wrapping_rem(b.cast_signed());
    Ok(rest.cast_unsigned())
}

/// The signed remainder, with the sign of the dividend.
pub(crate) fn rem_s(wide: bool, a: u64, b: u64) -> Result<u64, NumTrap>
    requires left { a < 2 ^ width wide }
    requires right { b < 2 ^ width wide }
    ensures { result ≡ num_binary BinaryOp.RemS (width wide) a b }
{
    if wide {
        rem_s64(a, b)
    } else {
        rem_s32(a as u32, b as u32)
    }
}
