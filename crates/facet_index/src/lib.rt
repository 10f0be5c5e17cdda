//! A store of labelled facets with an index: an ordered map from keys to rows, each with one facet a label, and the counts of each
//! label kept. Its speed does not depend on how many writes were made.
#![tactic(auto)]

mod index;
mod sizes;
mod steps;

pub use index::FacetIndex;
pub use steps::{Answers, StoreAnswer, StoreStep, play_steps};
