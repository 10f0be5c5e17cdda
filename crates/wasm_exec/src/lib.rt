//! A machine that runs a module: units of its thread, up to a number of them, calls of the host and their answers.
#![tactic(auto)]

mod answering;
mod asking;
mod beginnings;
mod callees;
mod codes;
mod machine;
mod resting;
mod rounds;
mod runs;
mod starting;
mod stops;

pub use machine::Machine;
pub use stops::{Asked, Ran, Stop};
pub use wasm_semantics::Trap;
