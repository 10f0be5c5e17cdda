//! The memory of a running module: one flat list of bytes that is read, written, copied, filled and made larger. Each call is
//! exactly a function on that list, and a fault comes exactly where a range is not inside.
#![tactic(auto)]

mod access;
mod errors;
mod fresh;
mod memory;
mod ranges;

pub use errors::{OutOfBounds, StoreError};
pub use memory::Memory;
