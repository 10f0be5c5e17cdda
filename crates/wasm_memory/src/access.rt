//! Numbers of one, two, four and eight bytes in a list of bytes, the least significant byte first.

ghost use Rattle.std.specs.Prelude.{◌≡◌, ◌+◌, ◌<◌, ◌≤◌, ◌↔◌, IsTrue, length, if◌then◌else◌};
ghost use Rattle.wasm_ast.specs.Bytes.{stored};
ghost use Rattle.wasm_ast.specs.Memory.{memory_load};

/// The byte at this place.
#[inline(always)]
pub(crate) fn load1(m: &[u8], at: usize) -> Option<u64>
    requires { at < 8589934592 }
    ensures { result ≡ memory_load m.now at 1 }
{
    if at + 1 > m.len() {
        return None;
    }
    Some(u64::from(m[at]))
}

/// Two bytes from this place on.
#[inline(always)]
pub(crate) fn load2(m: &[u8], at: usize) -> Option<u64>
    requires { at < 8589934592 }
    ensures { result ≡ memory_load m.now at 2 }
{
    if at + 2 > m.len() {
        return None;
    }
    Some(u64::from(u16::from_le_bytes([m[at], m[at + 1]])))
}

/// Four bytes.
#[inline(always)]
pub(crate) fn load4(m: &[u8], at: usize) -> Option<u64>
    requires { at < 8589934592 }
    ensures { result ≡ memory_load m.now at 4 }
{
    if at + 4 > m.len() {
        return None;
    }
    Some(u64::from(u32::from_le_bytes([m[at], m[at + 1], m[at + 2], m[at + 3]])))
}

/// Eight bytes.
#[inline(always)]
pub(crate) fn load8(m: &[u8], at: usize) -> Option<u64>
    requires { at < 8589934592 }
    ensures { result ≡ memory_load m.now at 8 }
{
    if at + 8 > m.len() {
        return None;
    }
    Some(u64::from_le_bytes([
        m[at],
        m[at + 1],
        m[at + 2],
        m[at + 3],
        m[at + 4],
        m[at + 5],
        m[at + 6],
        m[at + 7],
    ]))
}

/// The low byte put at this place.
#[inline(always)]
pub(crate) fn store1(m: &mut [u8], at: usize, value: u64)
    requires inside { at + 1 ≤ length m.old }
    ensures { m.new ≡ stored m.old at 1 value }
{
    m[at] = (value % 256) as u8;
}

/// The two low bytes put in their place from here on.
#[inline(always)]
pub(crate) fn store2(m: &mut [u8], at: usize, value: u64)
    requires inside { at + 2 ≤ length m.old }
    ensures { m.new ≡ stored m.old at 2 value }
{
    m[at] = (value % 256) as u8;
    m[at + 1] = (value / 256 % 256) as u8;
}

/// The four low bytes.
#[inline(always)]
pub(crate) fn store4(m: &mut [u8], at: usize, value: u64)
    requires inside { at + 4 ≤ length m.old }
    ensures { m.new ≡ stored m.old at 4 value }
{
    m[at] = (value % 256) as u8;
    m[at + 1] = (value / 256 % 256) as u8;
    m[at + 2] = (value / 256 / 256 % 256) as u8;
    m[at + 3] = (value / 256 / 256 / 256 % 256) as u8;
}

/// The eight bytes.
#[inline(always)]
pub(crate) fn store8(m: &mut [u8], at: usize, value: u64)
    requires inside { at + 8 ≤ length m.old }
    ensures { m.new ≡ stored m.old at 8 value }
{
    m[at] = (value % 256) as u8;
    m[at + 1] = (value / 256 % 256) as u8;
    m[at + 2] = (value / 256 / 256 % 256) as u8;
    m[at + 3] = (value / 256 / 256 / 256 % 256) as u8;
    m[at + 4] = (value / 256 / 256 / 256 / 256 % 256) as u8;
    m[at + 5] = (value / 256 / 256 / 256 / 256 / 256 % 256) as u8;
    m[at + 6] = (value / 256 / 256 / 256 / 256 / 256 / 256 % 256) as u8;
    m[at + 7] = (value / 256 / 256 / 256 / 256 / 256 / 256 / 256 % 256) as u8;
}
