//! Answers of a unit.

use crate::active::Active;
use wasm_ast::HostName;
use wasm_semantics::Trap;

/// What a unit came to.
#[derive(Clone, Copy)]
pub enum Turn<'m> {
    /// It goes on with this frame, and has no more frames and open blocks than before.
    Goes(Active<'m>),
    /// It goes on with this frame, and may have more than before.
    Grew(Active<'m>),
    /// It traps.
    Trapped(Trap),
    /// The last frame has ended.
    Done,
    /// It asks the host, and this frame waits for the answer. The arguments lie in the array, the first of them where the frame's
    /// free places begin.
    Asks(HostName, Active<'m>),
    /// The array has no place for what the unit leaves, and nothing has changed.
    Full,
    /// The frame below is one of an earlier run, whose code is not at hand, and nothing has changed.
    Cold,
    /// Out of memory: the stacks are of no use any more.
    NoMemory,
}
