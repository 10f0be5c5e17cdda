//! The table of channels: each has a name, a label and the function that its messages start.
#![tactic(auto)]

mod channels;

pub use channels::{Channels, Delivery};
