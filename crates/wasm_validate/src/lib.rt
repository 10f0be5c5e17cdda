//! Which modules are valid: floats, imports, structure, the entry point, segments, and the typing of each body.
#![tactic(auto)]

mod floats;
mod hosts;
mod invalid;
mod modules;
mod names;
mod structure;

pub use hosts::host_call;
pub use invalid::Invalid;
pub use modules::{ValidModule, validate};
pub use wasm_ast::{FloatPlace, HostName, SegmentPlace};
