//! What the calls of a sandbox come to.

use crate::sandboxes::Sandbox;
use crate::suspended::Suspended;
use wasm_exec::Trap;

/// A sandbox that is begun.
#[derive(Drop)]
pub enum Begun {
    Ready(Sandbox),
    /// The memory has more pages at least than it may have.
    Pages,
}

/// What a run of units came to.
#[derive(Drop)]
pub enum Going {
    /// All units that were given are used, and it goes on.
    Spent(Sandbox),
    /// It has ended.
    Done,
    /// It trapped.
    Trapped(Trap),
    /// It asks the host, and waits for the answer.
    Asks(Suspended),
    /// Out of memory: the sandbox is gone.
    NoMemory,
}

/// How many units were used, and what the run came to.
#[derive(Drop)]
pub struct Went {
    pub used: u64,
    pub going: Going,
}
