//! One gate.

use crate::filter::Filter;
use label_lattice::Label;

/// What may be released from a label to another: labels that flow to the source release bytes into an activation of the function at
/// the target, as the filter lets them through.
#[derive(Debug, Clone, Copy, PartialEq, Eq, Drop)]
pub struct Gate {
    pub source: Label,
    pub target: Label,
    /// The function's number.
    pub function: u32,
    pub filter: Filter,
}
