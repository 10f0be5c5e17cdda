//! The labels of the tests, and lines at them.

ghost use Rattle.std.specs.Prelude.{All, IfOk};
ghost use Rattle.label_lattice.specs.Order.{count};
ghost use Rattle.trapeze_lines.specs.Lines.{IsLabelled};

use label_lattice::Lattice;
use policy_toml::{Policy, read_policy};
use std::alloc::Global;
use std::test::Fail;
use trapeze_lines::{Lines, ReadLine, read_text};

/// The labels low, alice, bob and top, in which alice and bob stand beside each other.
const FOUR: &str = "labels = ['low', 'alice', 'bob', 'top']
flows = [['low', 'alice'], ['low', 'bob'], ['alice', 'top'], ['bob', 'top']]
";

/// The policy of the four labels.
pub(crate) fn four_labels(alloc: Global) -> Result<Policy, Fail> {
    Ok(read_policy(alloc, FOUR.as_bytes())?)
}

/// The lines of these texts.
pub(crate) fn lines_of(alloc: Global, lattice: &Lattice, texts: &[&str]) -> Result<Lines, Fail>
    ensures { IfOk result (λ lines. All (IsLabelled (count lattice.now)) lines) }
{
    let mut lines = Lines::new(alloc);
    'texts: for text in texts {
        match read_text(alloc, lattice, text.as_bytes()) {
            ReadLine::Line(line) => lines.push(line)?,
            ReadLine::NotALine => return Err("not a line")?,
            ReadLine::NoMemory => return Err("out of memory")?,
        }
    }
    Ok(lines)
}
