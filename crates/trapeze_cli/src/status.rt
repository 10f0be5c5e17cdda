//! How a call of the program ends.

ghost use Rattle.std.specs.Prelude.{◌≡◌};
ghost use Rattle.trapeze_cli.specs.Statuses.{code_of};

use event_file::LineError;
pub use fault_texts::ModuleFault;
use policy_toml::PolicyError;

/// A file that a call reads.
#[derive(Debug, Clone, Copy, PartialEq, Eq, Drop)]
pub enum Input {
    /// The policy.
    Policy,
    /// The file of the function with this number.
    Module(u32),
    /// The file of events.
    Events,
}

/// How a call of the program ended.
#[derive(Debug, Clone, Copy, PartialEq, Eq, Drop)]
pub enum Status {
    /// All was done, and its whole text was written.
    Done,
    /// The words have no form that the program knows, or name a label that is none.
    Usage,
    /// The policy is refused, with this first fault.
    Policy(PolicyError),
    /// The module of a function is refused, with this first fault.
    Module { function: u32, fault: ModuleFault },
    /// The event file has this first bad line.
    Events(LineError),
    /// A file could not be opened or read.
    ReadFault(Input),
    /// The output could not be written whole.
    WriteFault,
    /// Memory was refused.
    NoMemory,
    /// A file gave more bytes than its limit.
    TooLong(Input),
}

impl Status {
    /// The exit status of the program.
    pub fn code(&self) -> u8
        ensures { result ≡ code_of self.now }
    {
        match self {
            Status::Done => 0,
            Status::Usage => 1,
            Status::Policy(_) => 2,
            Status::Module { .. } => 3,
            Status::Events(_) => 4,
            Status::ReadFault(_) => 5,
            Status::WriteFault => 6,
            Status::NoMemory => 7,
            Status::TooLong(_) => 8,
        }
    }
}
