//! How a call fails.

ghost use Rattle.std.specs.Prelude.{◌≡◌, ◌≤◌};
ghost use Rattle.trapeze_io.specs.Causes.{one_more};

use std::alloc::AllocError;

/// Memory was refused.
#[derive(Debug, Clone, Copy, PartialEq, Eq, Drop)]
pub struct NoMemory;

impl From<AllocError> for NoMemory {
    fn from(_error: AllocError) -> NoMemory {
        NoMemory
    }
}

/// A call of a source or a sink failed, and counted a fault.
#[derive(Debug, Clone, Copy, PartialEq, Eq, Drop)]
pub struct Failed;

/// Counts one more fault.
pub(crate) fn count_fault(faults: &mut u64) -> Failed
    ensures counted { faults.new ≡ one_more faults.old }
    ensures later { faults.old ≤ faults.new }
{
    *faults = faults.saturating_add(1);
    Failed
}
