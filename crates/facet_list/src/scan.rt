//! The next facet of a list of writes.

ghost use Rattle.std.specs.Prelude.{◌≡◌, ◌∷◌, ◌++◌, [], List, option_map};
ghost use Rattle.facet_list.specs.Store.{Write as Written};
ghost use Rattle.facet_list.specs.Rows.{rows_of};
ghost use Rattle.facet_list.specs.Walk.{slot_after};
ghost use Rattle.facet_list.specs.Kept.{is_chosen, chosen, facet_of, IsLeast};

use crate::write::Write;
use label_lattice::Label;

/// The write of the least facet that is greater than `after`, of all facets or of those at a label.
pub(crate) fn next<'a>(
    writes: &'a [Write],
    only: Option<Label>,
    after: Option<(&Vec<u8>, Label)>,
) -> Option<&'a Write>
    ensures { IsLeast (rows_of (chosen only writes.now)) (slot_after after.entry) (option_map facet_of result) }
{
    let mut least = None;
    'writes: for write in writes {
        least = lesser(write, only, after, least);
    }
    least
}

/// The write, where it comes before the least one so far or takes its place.
fn lesser<'a>(
    write: &'a Write,
    only: Option<Label>,
    after: Option<(&Vec<u8>, Label)>,
    least: Option<&'a Write>,
) -> Option<&'a Write>
    ensures { (w : List Written) → IsLeast (rows_of (chosen only w)) (slot_after after.entry) (option_map facet_of least.entry)
        → IsLeast (rows_of (chosen only (w ++ write.now ∷ []))) (slot_after after.entry) (option_map facet_of result) }
{
    if !is_at(write, only) || !write.is_after(after) {
        return least;
    }
    match least {
        Some(other) if !write.is_no_greater(other) => least,
        _ => Some(write),
    }
}

/// Whether the write is at the label, where one is given.
fn is_at(write: &Write, only: Option<Label>) -> bool
    ensures { result ≡ is_chosen only write.now }
{
    match only {
        Some(label) => write.label().number() == label.number(),
        None => true,
    }
}
