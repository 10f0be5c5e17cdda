//! The walk over the facets of the rows, by key in byte order and then by label.

ghost use Rattle.std.specs.Prelude.{option_map};
ghost use Rattle.facet_list.specs.Walk.{slot_after, facet_lent};
ghost use Rattle.facet_list.specs.Kept.{IsLeast};
ghost use Rattle.facet_rows.specs.Rows.{entry_rows, row_lent, IsRest, IsFirst};

use crate::next::{first_row, next_row};
use crate::row::Row;
use label_lattice::Label;
use std::collections::BTreeMap;

/// The least facet that is greater than one, or the least of all.
pub(crate) fn least_after<'a>(
    rows: &'a BTreeMap<Vec<u8>, Row>,
    after: Option<(&Vec<u8>, Label)>,
) -> Option<(&'a Vec<u8>, Label, Option<&'a [u8]>)>
    ensures { IsLeast (entry_rows rows.now.entries) (slot_after after.entry) (option_map facet_lent result) }
{
    let Some((key, label)) = after else {
        return first_of(first_row(rows));
    };
    match rest_of(rows, key, label) {
        Some(found) => Some(found),
        None => first_of(next_row(rows, key)),
    }
}

/// The facet of a key at the least label after one.
fn rest_of<'a>(
    rows: &'a BTreeMap<Vec<u8>, Row>,
    key: &Vec<u8>,
    label: Label,
) -> Option<(&'a Vec<u8>, Label, Option<&'a [u8]>)>
    ensures { IsRest (entry_rows rows.now.entries) key.now.items label.number (option_map facet_lent result) }
{
    let Some((key, row)) = rows.get_key_value(key.as_slice()) else {
        return None;
    };
    let Some(member) = row.first_after(Some(label)) else {
        return None;
    };
    Some((key, member.label(), member.value()))
}

/// The facet of the least label of a row.
fn first_of<'a>(
    row: Option<(&'a Vec<u8>, &'a Row)>,
) -> Option<(&'a Vec<u8>, Label, Option<&'a [u8]>)>
    ensures { IsFirst (option_map row_lent row.entry) (option_map facet_lent result) }
{
    let Some((key, row)) = row else {
        return None;
    };
    let Some(member) = row.first_after(None) else {
        return None;
    };
    Some((key, member.label(), member.value()))
}
