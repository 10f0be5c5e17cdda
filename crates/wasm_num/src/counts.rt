ghost use Rattle.std.specs.Prelude.{◌≡◌, ◌<◌, ◌^◌};
ghost use Rattle.std.specs.Int.Count.{count_leading_zeros, count_trailing_zeros};
ghost use Rattle.wasm_num.specs.Num.{width, set_bits};

/// How many zero bits stand above the highest bit that is set.
pub(crate) fn clz(wide: bool, a: u64) -> u64
    requires { a < 2 ^ width wide }
    ensures { result ≡ count_leading_zeros (width wide) a }
{
    if wide {
        u64::from(a.leading_zeros())
    } else {
        u64::from((a as u32).leading_zeros())
    }
}

/// How many zero bits stand below the lowest bit that is set.
pub(crate) fn ctz(wide: bool, a: u64) -> u64
    requires { a < 2 ^ width wide }
    ensures { result ≡ count_trailing_zeros (width wide) a }
{
    if wide {
        u64::from(a.trailing_zeros())
    } else {
        u64::from((a as u32).trailing_zeros())
    }
}

/// How many bits are set.
#[tactic(auto, using(crate::proofs::Bounds::set_bits_is))]
pub(crate) fn popcnt(wide: bool, a: u64) -> u64
    requires { a < 2 ^ width wide }
    ensures { result ≡ set_bits (width wide) a }
{
    u64::from(a.count_ones())
}
