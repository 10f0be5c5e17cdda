//! The lines that an observer sees.

ghost use Rattle.std.specs.Prelude.{◌≡◌, ◌<◌, All, IfOk};
ghost use Rattle.label_lattice.specs.Order.{count};
ghost use Rattle.label_lattice.specs.Reach.{flows};
ghost use Rattle.policy_toml.specs.Parts.{Parts};
ghost use Rattle.trapeze_lines.specs.Lines.{IsLabelled, visible};
ghost use Rattle.host_rules.specs.Policies.{rules_of};
ghost use Rattle.host_rules.specs.Views.{visible as visible_by};

use crate::copies::copy_line;
use label_lattice::{Label, Lattice};
use std::alloc::Global;
use trapeze_io::NoMemory;
use trapeze_lines::Lines;

/// The lines that the observer `o` sees, which are those whose label flows to `o`, in order. They are copies, and memory is taken
/// for them alone: a line that is not seen takes none.
pub fn view_of(alloc: Global, lines: &Lines, lattice: &Lattice, o: Label) -> Result<Lines, NoMemory>
    requires labelled { All (IsLabelled (count lattice.now)) lines.now }
    requires observer { o.number < count lattice.now }
    ensures seen { IfOk result (λ seen. seen ≡ visible (flows lattice.now) o.number lines.now) }
    // By the rules of every policy with this lattice.
    ensures ruled { IfOk result (λ seen. (parts : Parts) → parts.lattice ≡ lattice.now →
        seen ≡ visible_by (rules_of parts) o.number lines.now) }
{
    let mut seen = Lines::new(alloc);
    'lines: for line in lines.as_slice() {
        if lattice.flows(line.label, o) {
            seen.push(copy_line(line)?)?;
        }
    }
    Ok(seen)
}
