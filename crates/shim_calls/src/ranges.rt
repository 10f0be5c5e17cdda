//! The source ranges of a host call.

ghost use Rattle.std.specs.Prelude.{◌≡◌, ◌≤◌, length, IfOk};
ghost use Rattle.trapeze_io.specs.Answers.{Answers};
ghost use Rattle.sandbox.specs.Threads.{memory_of};
ghost use Rattle.host_rules.specs.Ranges.{source, name_at};
ghost use Rattle.shim_calls.specs.Wished.{fault_of};

use crate::effect::ShimTrap;
use crate::wish::Refused;
use sandbox::Suspended;
use std::alloc::Global;
use std::marker::Model;
use trapeze_io::Bytes;

/// A source: the bytes of a range, which has at most so many.
pub(crate) fn source(
    alloc: Global,
    suspended: &Suspended,
    limit: usize,
    at: u32,
    len: u32,
) -> Result<Bytes, Refused>
    ensures bytes { Answers fault_of (source limit (memory_of suspended.now) at len) result }
    ensures few { IfOk result (λ bytes. length bytes ≤ limit) }
{
    if len as usize > limit {
        return Err(Refused::Trapped(ShimTrap::Size));
    }
    let Ok(mut bytes) = vec![in alloc; 0; len as usize] else {
        return Err(Refused::NoMemory);
    };
    match suspended.fetch(at, bytes.as_mut_slice()) {
        Ok(()) => Ok(Bytes::from_vec(bytes)),
        Err(_) => Err(Refused::Trapped(ShimTrap::Memory)),
    }
}

/// A source that may be a name, kept in place.
#[derive(Drop)]
pub(crate) struct NameBytes {
    bytes: [u8; 64],
    len: usize,
}

impl Model for NameBytes {
    ghost use Rattle.std.specs.Prelude.{◌≤◌, List, ℕ, take};

    ghost Value = { List ℕ };

    ghost view = { λ n. take n.len n.bytes };

    ghost invariant = { λ n. n.len ≤ 64 };
}

impl NameBytes {
    /// The bytes of a range.
    pub(crate) fn fetch(suspended: &Suspended, at: u32, len: u32) -> Result<NameBytes, Refused>
        ensures { Answers fault_of (name_at (memory_of suspended.now) at len) result }
    {
        if len > 64 {
            return Err(Refused::Trapped(ShimTrap::Size));
        }
        let mut bytes = [0; 64];
        let len = len as usize;
        match suspended.fetch(at, &mut bytes[..len]) {
            Ok(()) => Ok(NameBytes { bytes, len }),
            Err(_) => Err(Refused::Trapped(ShimTrap::Memory)),
        }
    }

    /// The bytes.
    pub(crate) fn as_slice(&self) -> &[u8]
        ensures { result.now ≡ self.now }
    {
        &self.bytes[..self.len]
    }
}
