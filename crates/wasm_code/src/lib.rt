//! The binary format of instruction trees and function bodies, with its fields: what spells what, and where the reading from
//! the left fails; and the reading itself.
#![tactic(auto)]

mod bodies;
mod error;
mod fields;
mod frames;
mod indices;
mod input;
mod instructions;
mod laws;
mod reader;

pub use bodies::{decode_code, decode_expr, filled_body};
pub use error::DecodeError;
pub use input::Input;
pub use laws::{finds_faults, opcodes_agree, reads_an_endless_loop, reads_what_is_spelled};
pub use reader::expr;
