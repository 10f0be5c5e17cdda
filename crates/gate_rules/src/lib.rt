//! Gates: what may leave a label for one that it does not flow to, and how much of it.
#![tactic(auto)]

mod filter;
mod gate;
mod gates;

pub use filter::Filter;
pub use gate::Gate;
pub use gates::{Gates, Passage};
