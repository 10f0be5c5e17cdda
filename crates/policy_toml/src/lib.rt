//! The policy of a host, read from TOML: labels and their order, limits, functions, channels, clients and gates, or
//! the first fault in a fixed order.
#![tactic(auto)]

mod channels;
mod clients;
mod document;
mod error;
mod functions;
mod gates;
mod labels;
mod limits;
mod place;
mod policy;
mod read;
mod tables;

pub use error::PolicyError;
pub use place::{Part, Place};
pub use policy::Policy;
pub use read::read_policy;
