ghost use Rattle.std.specs.Prelude.{◌≡◌, ◌≤◌, ◌<◌, ◌↔◌, length, IfOk, Ok};
ghost use Rattle.std.specs.Int.{w32, w64};
ghost use Rattle.wasm_leb.specs.Leb.{IsTop, leb, last, u32, s32, s64, signed_of, bits_of, IsCutOff, IsLong, ends_u32, ends_s32, ends_s64};

use crate::error::LebError;

/// The number that the last byte, whose top bit is clear, stands for.
fn read_last(byte: u8, top: u64, signed: bool) -> Result<(u64, usize), LebError>
    requires { byte < 128 }
    ensures exact { result ≡ last signed top byte }
    ensures below { IfOk result (λ found. found.0 ≤ top) }
{
    let rest = 127 - byte;
    let byte = u64::from(byte);
    if !signed {
        return if byte > top {
            Err(LebError::Long)
        } else {
            Ok((byte, 1))
        };
    }
    if byte < 64 {
        return if byte > top / 2 {
            Err(LebError::Long)
        } else {
            Ok((byte, 1))
        };
    }
    if u64::from(rest) > top / 2 {
        return Err(LebError::Long);
    }
    Ok((top - u64::from(rest), 1))
}

/// The number at the front, at the width whose greatest number is `top`, and the bytes used.
#[tactic(auto, unfolding(crate::specs::Leb::leb), using(crate::proofs::Tops::narrower))]
fn read_number(bytes: &[u8], top: u64, signed: bool) -> Result<(u64, usize), LebError>
    requires { IsTop top }
    ensures exact { result ≡ leb signed top bytes.now }
    ensures below { IfOk result (λ found. found.0 ≤ top) }
    ensures within { IfOk result (λ found. found.1 ≤ length bytes.now) }
{
    let [byte, rest @ ..] = bytes else {
        return Err(LebError::Short);
    };
    let byte = *byte;
    if byte < 128 {
        return read_last(byte, top, signed);
    }
    if top <= 127 {
        return Err(LebError::Long);
    }
    let (high, used) = read_number(rest, top / 128, signed)?;
    Ok((u64::from(byte - 128) + 128 * high, used + 1))
}

/// The unsigned 32-bit integer at the front, and the bytes used, at most 5.
#[tactic(auto, using(crate::proofs::Tops::top32))]
pub fn read_u32(bytes: &[u8]) -> Result<(u32, usize), LebError>
    ensures exact { result ≡ u32 bytes.now }
    ensures short { (result ≡ Err LebError.Short) ↔ IsCutOff 5 bytes.now }
    ensures long { (result ≡ Err LebError.Long) ↔ IsLong ends_u32 4 bytes.now }
    ensures within { IfOk result (λ found. found.1 ≤ length bytes.now) }
{
    match read_number(bytes, 0xffff_ffff, false) {
        Ok((value, used)) => Ok((value as u32, used)),
        Err(error) => Err(error),
    }
}

/// The signed 32-bit integer at the front, and the bytes used, at most 5.
#[tactic(auto, using(crate::proofs::Tops::top32, crate::proofs::Tops::bits32))]
pub fn read_s32(bytes: &[u8]) -> Result<(i32, usize), LebError>
    ensures exact { result ≡ signed_of w32 (s32 bytes.now) }
    ensures bits { bits_of w32 result ≡ s32 bytes.now }
    ensures short { (result ≡ Err LebError.Short) ↔ IsCutOff 5 bytes.now }
    ensures long { (result ≡ Err LebError.Long) ↔ IsLong ends_s32 4 bytes.now }
    ensures within { IfOk result (λ found. found.1 ≤ length bytes.now) }
{
    match read_number(bytes, 0xffff_ffff, true) {
        Ok((value, used)) => Ok(((value as u32).cast_signed(), used)),
        Err(error) => Err(error),
    }
}

/// The signed 64-bit integer at the front, and the bytes used, at most 10.
#[tactic(auto, using(crate::proofs::Tops::top64, crate::proofs::Tops::bits64))]
pub fn read_s64(bytes: &[u8]) -> Result<(i64, usize), LebError>
    ensures exact { result ≡ signed_of w64 (s64 bytes.now) }
    ensures bits { bits_of w64 result ≡ s64 bytes.now }
    ensures short { (result ≡ Err LebError.Short) ↔ IsCutOff 10 bytes.now }
    ensures long { (result ≡ Err LebError.Long) ↔ IsLong ends_s64 9 bytes.now }
    ensures within { IfOk result (λ found. found.1 ≤ length bytes.now) }
{
    match read_number(bytes, 0xffff_ffff_ffff_ffff, true) {
        Ok((value, used)) => Ok((value.cast_signed(), used)),
        Err(error) => Err(error),
    }
}
