//! The typing of function bodies: whether the code of a body leaves what its function returns, and look-ups in the index
//! spaces of a module.
#![tactic(auto)]

mod bodies;
mod opcodes;
mod operands;
mod scopes;
mod spaces;

pub use bodies::is_typed;
pub use spaces::{function_type, imported_type_of, memory_in, own_type_at, table_in};
