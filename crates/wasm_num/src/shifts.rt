ghost use Rattle.std.specs.Prelude.{◌≡◌, ◌-◌, ◌*◌, ◌/◌, ◌%◌, ◌<◌, ◌^◌, pos};
ghost use Rattle.std.specs.Int.{int_div_euclid};
ghost use Rattle.wasm_num.specs.Num.{width, signed, wrap, rotate};

/// The count of a shift or a rotation, modulo the width.
fn count_of(wide: bool, b: u64) -> u32
    ensures value { result ≡ b % width wide }
    ensures below { result < width wide }
{
    if wide {
        (b % 64) as u32
    } else {
        (b % 32) as u32
    }
}

/// Moved up, filled with zeros.
pub(crate) fn shl(wide: bool, a: u64, b: u64) -> u64
    requires { a < 2 ^ width wide }
    ensures { result ≡ (a * 2 ^ (b % width wide)) % 2 ^ width wide }
{
    let count = count_of(wide, b);
    if wide {
        a << count
    } else {
        u64::from((a as u32) << count)
    }
}

/// Moved down, filled with zeros.
pub(crate) fn shr_u(wide: bool, a: u64, b: u64) -> u64
    requires { a < 2 ^ width wide }
    ensures { result ≡ a / 2 ^ (b % width wide) }
{
    a >> count_of(wide, b)
}

/// Moved down, filled with the sign.
pub(crate) fn shr_s(wide: bool, a: u64, b: u64) -> u64
    requires { a < 2 ^ width wide }
    ensures { result ≡ wrap (width wide) (int_div_euclid (signed (width wide) a) (pos (2 ^ (b % width wide)))) }
{
    let count = count_of(wide, b);
    if wide {
        (a.cast_signed() >> count).cast_unsigned()
    } else {
        u64::from(((a as u32).cast_signed() >> count).cast_unsigned())
    }
}

/// Moved up; what leaves at the top enters at the bottom.
pub(crate) fn rotl(wide: bool, a: u64, b: u64) -> u64
    requires { a < 2 ^ width wide }
    ensures { result ≡ rotate (width wide) a (b % width wide) }
{
    let count = count_of(wide, b);
    if wide {
        a.rotate_left(count)
    } else {
        u64::from((a as u32).rotate_left(count))
    }
}

/// Moved down; what leaves at the bottom enters at the top.
pub(crate) fn rotr(wide: bool, a: u64, b: u64) -> u64
    requires { a < 2 ^ width wide }
    ensures { result ≡ rotate (width wide) a (width wide - b % width wide) }
{
    let count = count_of(wide, b);
    if wide {
        a.rotate_right(count)
    } else {
        u64::from((a as u32).rotate_right(count))
    }
}
