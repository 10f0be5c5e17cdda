//! One unit of a thread of several frames, and the limits of a thread.
#![tactic(auto)]

mod ends;
mod enters;
mod jumps;
mod moves;
mod units;

pub use units::{step, unit};
