//! The rows of a list of labelled writes in an ordered map: each key's last write at each label, in the order in which they were made.
//! There is no limit here; a store with limits and a checker of lines stand on it.
#![tactic(auto)]

mod member;
mod next;
mod put;
mod row;
mod rows;
mod walk;

pub use rows::FacetRows;
