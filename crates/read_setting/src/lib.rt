//! What a host is set up with, from files: its policy, and the module of each function of the policy.
#![tactic(auto)]

mod modules;
mod policies;
mod refusal;

pub use modules::read_modules;
pub use policies::{find_label, read_policy_file};
pub use refusal::Refusal;

#[cfg(test)]
mod tests;
