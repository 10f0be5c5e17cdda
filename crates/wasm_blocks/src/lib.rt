//! The open blocks of a frame that runs: what entering, leaving and branching do to them, and that numbers alone say where it stands.
#![tactic(auto)]

mod blocks;
mod hot;
mod open;

pub use blocks::{branch_to, enter_block, leave_block};
pub use hot::Hot;
pub use open::Open;
