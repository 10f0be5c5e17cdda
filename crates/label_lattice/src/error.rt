//! What is wrong with names and pairs that make no lattice.

use crate::label::Label;
use thiserror::Error;

/// Why names and pairs make no lattice. Positions of names and of pairs count from 0.
#[derive(Debug, Clone, Copy, PartialEq, Eq, Drop, Error)]
pub enum LatticeError {
    /// There is no name.
    #[error("there are no labels")]
    NoLabels,
    /// There are more than 64 names.
    #[error("there are more than 64 labels")]
    TooMany,
    /// What stands at this position is no name.
    #[error("label {0} is no name")]
    BadName(u64),
    /// An earlier position has the name at this position.
    #[error("label {0} is repeated")]
    Repeated(u64),
    /// An end of the pair at this position is no label.
    #[error("pair {0} has an unknown label")]
    UnknownLabel(u64),
    /// These two labels flow to each other.
    #[error("labels {} and {} flow to each other", .0.number(), .1.number())]
    Cycle(Label, Label),
    /// There is no least label that both flow to.
    #[error("labels {} and {} have no join", .0.number(), .1.number())]
    NoJoin(Label, Label),
    /// There is no greatest label that flows to both.
    #[error("labels {} and {} have no meet", .0.number(), .1.number())]
    NoMeet(Label, Label),
    /// A growth was refused.
    #[error("out of memory")]
    NoMemory,
}
