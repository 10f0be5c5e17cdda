//! The next row of an ordered map.

ghost use Rattle.std.specs.Prelude.{None, Some, option_map};
ghost use Rattle.facet_rows.specs.Rows.{entry_rows, row_lent, IsNextRow};

use crate::row::Row;
use std::collections::BTreeMap;
use std::ops::Bound;

/// The first row.
pub(crate) fn first_row(rows: &BTreeMap<Vec<u8>, Row>) -> Option<(&Vec<u8>, &Row)>
    ensures { IsNextRow (entry_rows rows.now.entries) None (option_map row_lent result) }
{
    rows.iter().next()
}

/// The row of the least key after one.
pub(crate) fn next_row<'a>(
    rows: &'a BTreeMap<Vec<u8>, Row>,
    key: &Vec<u8>,
) -> Option<(&'a Vec<u8>, &'a Row)>
    ensures { IsNextRow (entry_rows rows.now.entries) (Some key.now.items) (option_map row_lent result) }
{
    rows.range((Bound::Excluded(key), Bound::Unbounded)).next()
}
