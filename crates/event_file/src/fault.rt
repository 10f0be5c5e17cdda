//! What is wrong with a line.

/// The rule that a line breaks, in the order in which the rules are tested. The words after the first three rules are
/// read from the left, and the first bad one is told.
#[derive(Debug, Clone, Copy, PartialEq, Eq, Drop)]
pub enum LineFault {
    /// The line has more than 140,000 bytes without its end.
    LineTooLong,
    /// The first word is none of `put`, `ask` and `turn`.
    Word,
    /// The line has more or fewer words than its first one asks for.
    Count,
    /// No label has the name.
    UnknownLabel,
    /// No client has the name.
    UnknownClient,
    /// No function has the name.
    UnknownFunction,
    /// The id is no name.
    BadId,
    /// The word is no `x` followed by pairs of hexadecimal digits.
    BadHex,
    /// There are more bytes than a key, a value or a body may have.
    TooBig,
    /// The word is not 1 to 7 decimal digits with a value from 1 to 1,000,000.
    BadNumber,
}

/// A bad line, by its number, and what is wrong with it.
#[derive(Debug, Clone, Copy, PartialEq, Eq, Drop)]
pub struct LineError {
    /// The line's number, from 1.
    pub line: u64,
    pub fault: LineFault,
}
