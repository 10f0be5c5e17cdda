//! The exercise: events that are made from a number, and the policy and the modules that they are played on.
#![tactic(auto)]

mod bytes;
mod events;
mod modules;
mod policy;

pub use events::generate;
pub use modules::{Modules, built_in_modules};
pub use policy::built_in_policy;
