//! The binary format of WebAssembly modules: what bytes spell a module, and where the reading from the left fails; and the
//! reading itself.
#![tactic(auto)]

mod laws;
mod members;
mod modules;
mod sections;

pub use laws::{finds_faults, reads_modules, reads_what_is_spelled, spells_or_fails};
pub use modules::decode;
pub use wasm_code::DecodeError;
