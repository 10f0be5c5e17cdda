ghost use Rattle.std.specs.Prelude.{◌≡◌, ◌+◌, ◌*◌, ◌%◌, ◌<◌, ◌^◌, pos, ◌-ℤ◌};
ghost use Rattle.wasm_num.specs.Num.{width, wrap};

/// The sum modulo 2^w.
pub(crate) fn add(wide: bool, a: u64, b: u64) -> u64
    requires left { a < 2 ^ width wide }
    requires right { b < 2 ^ width wide }
    ensures { result ≡ (a + b) % 2 ^ width wide }
{
    if wide {
        a.wrapping_add(b)
    } else {
        u64::from((a as u32).wrapping_add(b as u32))
    }
}

/// The difference modulo 2^w.
pub(crate) fn sub(wide: bool, a: u64, b: u64) -> u64
    requires left { a < 2 ^ width wide }
    requires right { b < 2 ^ width wide }
    ensures { result ≡ wrap (width wide) (pos a -ℤ pos b) }
{
    if wide {
        a.wrapping_sub(b)
    } else {
        u64::from((a as u32).wrapping_sub(b as u32))
    }
}

/// The product modulo 2^w.
pub(crate) fn mul(wide: bool, a: u64, b: u64) -> u64
    requires left { a < 2 ^ width wide }
    requires right { b < 2 ^ width wide }
    ensures { result ≡ (a * b) % 2 ^ width wide }
{
    if wide {
        a.wrapping_mul(b)
    } else {
        u64::from((a as u32).wrapping_mul(b as u32))
    }
}
