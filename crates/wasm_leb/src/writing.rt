ghost use Rattle.std.specs.Prelude.{ℕ, ◌≡◌, ◌≤◌, ◌<◌, ◌+◌, ◌-◌, ◌*◌, ◌^◌, List, ◌++◌, length, IfSome, IfNone, Ok, true, false};
ghost use Rattle.std.specs.Int.{w32, w64, cast_unsigned};
ghost use Rattle.wasm_leb.specs.Leb.{AddsShortest, NeedsMore, IsShortest, last, u32, s32, s64};

use crate::spelling::Leb;

/// The last byte of the shortest spelling, where one byte is enough.
fn only_byte(value: u64, top: u64, signed: bool) -> Option<u8>
    requires { value ≤ top }
    ensures found { IfSome result (λ byte. (byte < 128) × (last signed top byte ≡ Ok (value, 1))) }
    ensures none { IfNone result (NeedsMore signed top value) }
{
    if !signed {
        return if value < 128 { Some(value as u8) } else { None };
    }
    if value <= top / 2 {
        return if value < 64 { Some(value as u8) } else { None };
    }
    let from_top = top - value;
    if from_top < 64 {
        Some(127 - from_top as u8)
    } else {
        None
    }
}

/// Writes the shortest spelling at the end, at the width whose greatest number is `top`.
fn put(leb: &mut Leb, value: u64, top: u64, signed: bool)
    requires value { value ≤ top }
    requires room { (bits : ℕ) × (top + 1 ≡ 2 ^ bits) × (7 * length leb.old + bits ≤ 70) × (0 < bits) }
    ensures { AddsShortest signed top value leb.old leb.new }
{
    match only_byte(value, top, signed) {
        Some(byte) => leb.push(byte),
        None => {
            leb.push((value % 128) as u8 + 128);
            put(leb, value / 128, top / 128, signed);
        }
    }
}

/// The shortest spelling of an unsigned 32-bit integer.
pub fn write_u32(value: u32) -> Leb
    ensures shortest { IsShortest false (2 ^ 32 - 1) value result }
    ensures again { (rest : List ℕ) → u32 (result ++ rest) ≡ Ok (value, length result) }
{
    let mut leb = Leb::empty();
    put(&mut leb, u64::from(value), 0xffff_ffff, false);
    leb
}

/// The shortest spelling of a signed 32-bit integer.
pub fn write_s32(value: i32) -> Leb
    ensures shortest { IsShortest true (2 ^ 32 - 1) (cast_unsigned w32 value) result }
    ensures again { (rest : List ℕ) → s32 (result ++ rest) ≡ Ok (cast_unsigned w32 value, length result) }
{
    let mut leb = Leb::empty();
    put(
        &mut leb,
        u64::from(value.cast_unsigned()),
        0xffff_ffff,
        true,
    );
    leb
}

/// The shortest spelling of a signed 64-bit integer.
pub fn write_s64(value: i64) -> Leb
    ensures shortest { IsShortest true (2 ^ 64 - 1) (cast_unsigned w64 value) result }
    ensures again { (rest : List ℕ) → s64 (result ++ rest) ≡ Ok (cast_unsigned w64 value, length result) }
{
    let mut leb = Leb::empty();
    put(&mut leb, value.cast_unsigned(), 0xffff_ffff_ffff_ffff, true);
    leb
}
