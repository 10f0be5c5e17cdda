//! The lines of the facets in the end.

ghost use Rattle.std.specs.Prelude.{◌≡◌, length, map, IfOk};
ghost use Rattle.std.specs.Option.{option_copied};
ghost use Rattle.label_lattice.specs.Order.{count};
ghost use Rattle.facet_list.specs.Rows.{facets_in};
ghost use Rattle.host_rules.specs.Stores.{facet_line};
ghost use Rattle.trapeze_host.specs.Adding.{Adds, KeepsLabelled};

use facet_list::Facets;
use label_lattice::Label;
use std::alloc::Global;
use trapeze_io::{Bytes, NoMemory};
use trapeze_lines::{Kind, Line, Lines};

/// Appends the line of each live facet, by key in byte order and then by label.
pub(crate) fn add_facets<F: Facets>(
    alloc: Global,
    facets: &F,
    lines: &mut Lines,
) -> Result<(), NoMemory>
    ensures added { Adds result (map facet_line (facets_in (F.rows facets.now))) lines.old lines.new }
    ensures labelled { KeepsLabelled (length (F.limits facets.now)) lines.old lines.new }
{
    let mut after = None;
    'facets: while let Some((key, label, value)) = facets.next_facet(after) {
        let Ok(line) = line_of(alloc, key.as_slice(), label, value) else {
            return Err(NoMemory);
        };
        let Ok(()) = lines.push(line) else {
            return Err(NoMemory);
        };
        after = Some((key, label));
    }
    Ok(())
}

/// The line of a live facet.
fn line_of(alloc: Global, key: &[u8], label: Label, value: Option<&[u8]>) -> Result<Line, NoMemory>
    ensures { IfOk result (λ line. line ≡ facet_line ((key.now, label.number), option_copied value.entry)) }
{
    let key = Bytes::copy(alloc, key)?;
    let value = match value {
        Some(value) => Some(Bytes::copy(alloc, value)?),
        None => None,
    };
    let kind = Kind::Facet { key, value };
    Ok(Line { label, kind })
}
