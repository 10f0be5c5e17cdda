//! The texts of what is wrong with a policy, a module or an event file.
#![tactic(auto)]

mod events;
mod modules;
mod policies;
#[cfg(test)]
mod tests;

pub use events::{line_fault_text, report_bad_line};
pub use modules::{ModuleFault, report_decode, report_module};
pub use policies::report_policy;
