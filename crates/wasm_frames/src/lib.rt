//! Frames of a machine: calls, returns, and branches that may end a frame.
#![tactic(auto)]

mod active;
mod callees;
mod calls;
mod returns;
mod turns;

pub use active::{Active, Place};
pub use callees::{Callee, Entry, Runs};
pub use calls::{call, call_through, with_sp};
pub use returns::{finish, jump};
pub use turns::Turn;
