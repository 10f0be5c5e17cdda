//! The nine calls of the host, over any store: what a guest asks for is read and tested, and then granted.
#![tactic(auto)]

mod copying;
mod effect;
mod performing;
mod ranges;
mod storing;
mod wish;
mod wishes;

pub use effect::{Effect, Performed, ShimTrap};
pub use performing::perform;
