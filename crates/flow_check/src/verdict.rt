//! What a check answers.

/// The rule that a line does not pass.
#[derive(Debug, Clone, Copy, PartialEq, Eq, Drop)]
pub enum Rule {
    /// A read gives the latest write that its label sees.
    Read,
    /// A reply goes to a client with its label for a clearance, and tells what the line before answers.
    Reply,
    /// A start comes from a label that flows to its own, or through a gate.
    Start,
    /// A message that arrives does so on the next line.
    Send,
    /// The turns of a label are numbered one after the other.
    Turn,
    /// A facet tells the last write of its key at its label.
    Facet,
}

/// Whether each line passes its rule, or the number of the first that does not, from 1.
#[derive(Debug, Clone, Copy, PartialEq, Eq, Drop)]
pub enum Verdict {
    Sound,
    Unsound { line: u64, rule: Rule },
}
