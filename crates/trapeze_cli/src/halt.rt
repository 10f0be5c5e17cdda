//! Why a step of a play halts.

ghost use Rattle.std.specs.Prelude.{◌≡◌};

use trapeze_io::{NoMemory, WriteError};

/// Why a step of a play halted.
#[derive(Debug, Clone, Copy, PartialEq, Eq, Drop)]
pub(crate) enum Halt {
    /// The output failed.
    Write,
    /// Memory was refused.
    NoMemory,
}

impl From<NoMemory> for Halt {
    ghost use Rattle.trapeze_cli.specs.declared.halt.Halt.TheVariants.{NoMemory as no_memory};

    ghost from_gives = { λ _ e. e ≡ no_memory };

    fn from(_refused: NoMemory) -> Halt {
        Halt::NoMemory
    }
}

impl From<WriteError> for Halt {
    ghost use Rattle.trapeze_cli.specs.declared.halt.Halt.TheVariants.{Write as write_fault};

    ghost from_gives = { λ _ e. e ≡ write_fault };

    fn from(_failed: WriteError) -> Halt {
        Halt::Write
    }
}
