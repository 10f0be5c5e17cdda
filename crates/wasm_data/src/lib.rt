//! What the instructions of WebAssembly that only move data do to the running frame of a machine, whose frames lie in one array
//! of values.
#![tactic(auto)]

mod frames;
mod instructions;
mod marks;
mod memories;
mod moved;
mod opcodes;
mod operators;
mod places;
mod plainly;

pub use frames::{hand, open_frame};
pub use instructions::data;
pub use marks::{Marks, keep, local, put, set_local, top};
pub use moved::Moved;
