//! What a run comes to.

ghost use Rattle.std.specs.Prelude.{◌≡◌};
ghost use Rattle.wasm_exec.specs.Stopped.{call_in};

use wasm_ast::HostName;
use wasm_semantics::Trap;

/// A host call, with its arguments; places that are not used are 0.
#[derive(Clone, Copy, Debug)]
pub struct Asked {
    pub name: HostName,
    pub args: [u32; 4],
}

/// Why a run stopped.
#[derive(Clone, Copy, Debug)]
pub enum Stop {
    /// All units that were given are used, and the thread goes on.
    Spent,
    /// The thread has ended.
    Done,
    /// It trapped.
    Trapped(Trap),
    /// It asks the host, and waits for the answer.
    Call(Asked),
    /// Out of memory: the machine is not run again.
    NoMemory,
}

impl Stop {
    /// The host call, where it asks the host.
    pub(crate) fn call(self) -> Option<HostName>
        ensures { result ≡ call_in self }
    {
        match self {
            Stop::Call(asked) => Some(asked.name),
            Stop::Spent | Stop::Done | Stop::Trapped(_) | Stop::NoMemory => None,
        }
    }
}

/// How many units a run used, and why it stopped.
#[derive(Clone, Copy, Debug)]
pub struct Ran {
    pub used: u64,
    pub stop: Stop,
}
