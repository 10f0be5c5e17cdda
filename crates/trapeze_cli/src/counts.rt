//! How many lines of each kind there are.

ghost use Rattle.std.specs.Prelude.{◌≡◌, ℕ, ◌+◌, ◌^◌, []};

use trapeze_lines::{Kind, Line};

/// How many lines there are of each kind that a run prints. A count has room for those of many lists.
#[derive(Debug, Clone, Copy, Drop)]
pub(crate) struct Counts {
    pub(crate) replies: u128,
    pub(crate) turns: u128,
    pub(crate) idle: u128,
    pub(crate) dropped: u128,
    pub(crate) full: u128,
    pub(crate) facets: u128,
}

impl Counts {
    ghost use Rattle.trapeze_cli.specs.Counts.{counts_of, counted_with, AtMost};
    ghost use Rattle.trapeze_cli.specs.Counted.{TakesIn};

    /// The counts of no lines.
    pub(crate) fn none() -> Counts
        ensures counts { result ≡ counts_of [] }
        ensures most { AtMost 0 result }
    {
        Counts {
            replies: 0,
            turns: 0,
            idle: 0,
            dropped: 0,
            full: 0,
            facets: 0,
        }
    }

    /// Counts the lines of one more list.
    pub(crate) fn count(&mut self, lines: &[Line])
        requires { AtMost (2 ^ 80) self.old }
        ensures counts { TakesIn lines.now self.old self.new }
        ensures most { (most : ℕ) → AtMost most self.old → AtMost (most + 2 ^ 64) self.new }
    {
        'lines: for line in lines {
            self.count_kind(&line.kind);
        }
    }

    /// Counts one more line.
    fn count_kind(&mut self, kind: &Kind)
        requires { AtMost (2 ^ 80 + 2 ^ 64) self.old }
        ensures { self.new ≡ counted_with self.old kind.now }
    {
        match kind {
            Kind::Reply { .. } => self.replies += 1,
            Kind::Turn { .. } => self.turns += 1,
            Kind::Idle { .. } => self.idle += 1,
            Kind::Dropped { .. } => self.dropped += 1,
            Kind::Full { .. } => self.full += 1,
            Kind::Facet { .. } => self.facets += 1,
            Kind::Write { .. }
            | Kind::Read { .. }
            | Kind::Send { .. }
            | Kind::Answer { .. }
            | Kind::Start { .. } => {}
        }
    }
}
