//! The order of labels: which label may flow to which, from a list of names and a list of pairs that make a lattice.
#![tactic(auto)]

mod ascending;
mod error;
mod label;
mod lattice;
mod laws;
mod names;
mod search;
mod table;

pub use ascending::number_among;
pub use error::LatticeError;
pub use label::Label;
pub use lattice::Lattice;
pub use laws::{law_of_faults, law_of_flows, law_of_joins};
