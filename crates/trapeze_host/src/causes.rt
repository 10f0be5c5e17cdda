//! Why an activation is stopped.

ghost use Rattle.std.specs.Prelude.{◌≡◌};
ghost use Rattle.host_rules.specs.Modules.{cause_of};
ghost use Rattle.shim_calls.specs.Performing.{cause_of_call as cause_of_call};

use sandbox::Trap;
use shim_calls::ShimTrap;
use trapeze_lines::Cause;

/// The cause of a trap in a unit.
pub(crate) fn cause_of_unit(trap: Trap) -> Cause
    ensures { result ≡ cause_of trap }
{
    match trap {
        Trap::Unreachable => Cause::Unreachable,
        Trap::Memory => Cause::Memory,
        Trap::Divide => Cause::Divide,
        Trap::Overflow => Cause::Overflow,
        Trap::Table => Cause::Table,
        Trap::Empty => Cause::Empty,
        Trap::TypeDiffers => Cause::TypeDiffers,
        Trap::Stack => Cause::Stack,
    }
}

/// The cause of a trap in a host call.
pub(crate) fn cause_of_call(trap: ShimTrap) -> Cause
    ensures { result ≡ cause_of_call trap }
{
    match trap {
        ShimTrap::Memory => Cause::Memory,
        ShimTrap::Size => Cause::Size,
        ShimTrap::Unknown => Cause::Unknown,
    }
}
