//! The rows of a list of writes.

ghost use Rattle.std.specs.Prelude.{◌≡◌, ◌<◌, OnOk, OnErr, option_map};
ghost use Rattle.std.specs.FinMap as finite;
ghost use Rattle.std.specs.Option.{option_copied};
ghost use Rattle.label_lattice.specs.Order.{count};
ghost use Rattle.label_lattice.specs.Reach.{flows};
ghost use Rattle.facet_list.specs.Store.{written};
ghost use Rattle.facet_list.specs.Rows.{AreBelow, row_of, rows_after, read_row, facet_at};
ghost use Rattle.facet_list.specs.Walk.{slot_after, facet_lent};
ghost use Rattle.facet_list.specs.Kept.{IsLeast};
ghost use Rattle.facet_rows.specs.Rows.{rows_in};

use crate::put::put;
use crate::row::Row;
use crate::walk::least_after;
use label_lattice::{Label, Lattice};
use std::alloc::Global;
use std::collections::BTreeMap;
use std::marker::Model;
use trapeze_io::NoMemory;

/// For each key that was written the last write of each label, the latest last. What a step costs grows with the logarithm of the
/// number of keys and with the labels of its key's row, not with how many writes were made.
#[derive(Drop)]
pub struct FacetRows {
    rows: BTreeMap<Vec<u8>, Row>,
    alloc: Global,
}

impl Model for FacetRows {
    ghost use Rattle.std.specs.Prelude.{List, ℕ, map};
    ghost use Rattle.facet_list.specs.Rows.{Row as Seen};
    ghost use Rattle.facet_rows.specs.Rows.{keyed};

    ghost Value = { List (List ℕ × Seen) };

    ghost view = { λ r. map keyed r.rows.entries };
}

impl FacetRows {
    /// The rows of no write.
    pub fn new(alloc: Global) -> FacetRows
        ensures { rows_in result ≡ finite.empty }
    {
        FacetRows {
            rows: BTreeMap::new(alloc),
            alloc,
        }
    }

    /// The value of the last write to the key whose label flows to `at`, None where there is none or where it is absent.
    pub fn read(&self, lattice: &Lattice, at: Label, key: &[u8]) -> Option<&[u8]>
        requires at { at.number < count lattice.now }
        requires labels { AreBelow (count lattice.now) (rows_in self.now) }
        ensures { option_copied result ≡ read_row (flows lattice.now) at.number (row_of (rows_in self.now) key.now) }
    {
        match self.rows.get(key) {
            Some(row) => row.read(lattice, at),
            None => None,
        }
    }

    /// The value of the last write to the key at exactly this label, None where there is none.
    pub fn last(&self, at: Label, key: &[u8]) -> Option<Option<&[u8]>>
        ensures { option_map option_copied result ≡ facet_at (rows_in self.now) (key.now, at.number) }
    {
        let Some(row) = self.rows.get(key) else {
            return None;
        };
        let Some(member) = row.find(at) else {
            return None;
        };
        Some(member.value())
    }

    /// One write more, None for absent. A refusal changes nothing.
    pub fn write(&mut self, at: Label, key: &[u8], value: Option<&[u8]>) -> Result<(), NoMemory>
        ensures ok { OnOk result (rows_in self.new
            ≡ rows_after (rows_in self.old) (written at.number key.now (option_copied value.entry))) }
        ensures err { OnErr result (rows_in self.new ≡ rows_in self.old) }
    {
        put(self.alloc, &mut self.rows, at, key, value)
    }

    /// The least facet, by key in byte order and then by label, that is greater than `after`, or the least of all.
    pub fn next_facet(
        &self,
        after: Option<(&Vec<u8>, Label)>,
    ) -> Option<(&Vec<u8>, Label, Option<&[u8]>)>
        ensures { IsLeast (rows_in self.now) (slot_after after.entry) (option_map facet_lent result) }
    {
        least_after(&self.rows, after)
    }
}
