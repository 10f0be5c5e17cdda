//! The integer operators of WebAssembly (Core 1.0, section 4.3.2), at 32 and 64 bits. No call takes memory.
#![tactic(auto)]

mod arithmetic;
mod counts;
mod division;
mod evaluate;
mod laws;
mod operators;
mod shifts;

pub use evaluate::{binary, compare, convert, test, unary};
pub use laws::{least_by_minus_one, results_below};
pub use operators::{BinaryOp, CompareOp, ConvertOp, NumTrap, UnaryOp};
