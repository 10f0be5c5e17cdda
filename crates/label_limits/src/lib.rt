//! The limits of a label: how much its activations may run, wait and keep.
#![tactic(auto)]

mod limits;
mod meter;

pub use limits::{LimitError, Limits};
pub use meter::{Count, Meter};
