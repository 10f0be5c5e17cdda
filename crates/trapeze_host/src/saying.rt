//! Lines, one at a time.

ghost use Rattle.std.specs.Prelude.{◌≡◌, ◌++◌, ◌∷◌, [], OnOk, OnErr};
ghost use Rattle.label_lattice.specs.Order.{count};
ghost use Rattle.trapeze_lines.specs.Lines.{IsLabelled, line_at};
ghost use Rattle.trapeze_host.specs.Adding.{KeepsLabelled};

use crate::lent::Lent;
use label_lattice::Label;
use trapeze_io::NoMemory;
use trapeze_lines::{Kind, Line, Lines};

/// Appends a line of a label.
pub(crate) fn say(lent: &Lent, label: Label, kind: Kind, lines: &mut Lines) -> Result<(), NoMemory>
    requires { IsLabelled (count lent.now.policy.lattice) (line_at label.number kind) }
    ensures ok { OnOk result (lines.new ≡ lines.old ++ line_at label.number kind ∷ []) }
    ensures err { OnErr result (lines.new ≡ lines.old) }
    ensures labelled { KeepsLabelled (count lent.now.policy.lattice) lines.old lines.new }
{
    let _lent = lent;
    lines.push(Line { label, kind })
}
