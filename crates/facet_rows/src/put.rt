//! A facet that is put into the rows.

ghost use Rattle.std.specs.Prelude.{◌≡◌, OnOk, OnErr};
ghost use Rattle.std.specs.Option.{option_copied};
ghost use Rattle.facet_list.specs.Store.{written};
ghost use Rattle.facet_list.specs.Rows.{rows_after};
ghost use Rattle.facet_rows.specs.Rows.{entry_rows};

use crate::member::Member;
use crate::row::Row;
use label_lattice::Label;
use std::alloc::Global;
use std::collections::BTreeMap;
use trapeze_io::NoMemory;

/// Puts a facet into the row of its key, at the end.
pub(crate) fn put(
    alloc: Global,
    rows: &mut BTreeMap<Vec<u8>, Row>,
    at: Label,
    key: &[u8],
    value: Option<&[u8]>,
) -> Result<(), NoMemory>
    ensures ok { OnOk result (entry_rows rows.new.entries
        ≡ rows_after (entry_rows rows.old.entries) (written at.number key.now (option_copied value.entry))) }
    ensures err { OnErr result (entry_rows rows.new.entries ≡ entry_rows rows.old.entries) }
{
    let Ok(member) = Member::of(alloc, at, value) else {
        return Err(NoMemory);
    };
    if let Some(row) = rows.get_mut(key) {
        return match row.put(member) {
            Ok(()) => Ok(()),
            Err(_) => Err(NoMemory),
        };
    }
    let Ok(row) = Row::of(alloc, member) else {
        return Err(NoMemory);
    };
    let Ok(key) = Vec::from_slice(alloc, key) else {
        return Err(NoMemory);
    };
    let Ok(_) = rows.insert(key, row) else {
        return Err(NoMemory);
    };
    Ok(())
}
