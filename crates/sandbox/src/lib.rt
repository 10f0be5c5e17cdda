//! An activation of a function: a machine that runs, or that waits for the answer of the host, as two types. Each is spent by the
//! call that makes the other of it.
#![tactic(auto)]

mod going;
mod sandboxes;
mod suspended;

pub use going::{Begun, Going, Went};
pub use sandboxes::Sandbox;
pub use suspended::Suspended;
pub use wasm_exec::{Asked, Trap};
pub use wasm_memory::{OutOfBounds, StoreError};
