//! A checker of traces: whether the flows that labelled lines tell are allowed by a policy, whoever told the lines.
#![tactic(auto)]

mod check;
mod checker;
mod compare;
mod last;
mod note;
mod rules;
#[cfg(test)]
mod tests;
mod turns;
mod verdict;

pub use check::check_lines;
pub use checker::Checker;
pub use verdict::{Rule, Verdict};
