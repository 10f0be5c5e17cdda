//! Which lines of a run are shown.

ghost use Rattle.std.specs.Prelude.{◌≡◌};

use label_lattice::{Label, Lattice};
use trapeze_lines::{Kind, Line};

/// Which lines of a run are shown.
#[derive(Debug, Clone, Copy, Drop)]
pub(crate) enum Shown {
    /// Those of the kinds that a run prints.
    RunKinds,
    /// All.
    AllKinds,
    /// Those of the kinds that a run prints that flow to this label.
    VisibleTo(Label),
}

impl Shown {
    ghost use Rattle.label_lattice.specs.Order.{count};
    ghost use Rattle.label_lattice.specs.Reach.{flows};
    ghost use Rattle.trapeze_lines.specs.Lines.{IsLabelled};
    ghost use Rattle.trapeze_cli.specs.Runs.{IsShownTo};
    ghost use Rattle.trapeze_cli.specs.Shows.{shows};

    /// Whether a line is shown.
    pub(crate) fn shows(&self, lattice: &Lattice, line: &Line) -> bool
        requires line { IsLabelled (count lattice.now) line.now }
        requires to { IsShownTo (count lattice.now) self.now }
        ensures { result ≡ shows (flows lattice.now) self.now line.now }
    {
        match self {
            Shown::RunKinds => is_of_run(&line.kind),
            Shown::AllKinds => true,
            Shown::VisibleTo(label) => {
                is_of_run(&line.kind) && lattice.flows(line.label, *label)
            }
        }
    }
}

ghost use Rattle.trapeze_lines.specs.Lines.{is_of_run};

/// Whether a run prints lines of this kind.
fn is_of_run(kind: &Kind) -> bool
    ensures { result ≡ is_of_run kind.now }
{
    match kind {
        Kind::Reply { .. }
        | Kind::Turn { .. }
        | Kind::Idle { .. }
        | Kind::Dropped { .. }
        | Kind::Full { .. }
        | Kind::Facet { .. } => true,
        Kind::Write { .. }
        | Kind::Read { .. }
        | Kind::Send { .. }
        | Kind::Answer { .. }
        | Kind::Start { .. } => false,
    }
}
