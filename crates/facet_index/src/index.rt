//! The rows of a store, and what is counted of them.

ghost use Rattle.std.specs.Prelude.{◌≡◌, length, IfOk};
ghost use Rattle.std.specs.FinMap as finite;
ghost use Rattle.facet_list.specs.Rows.{AreStoreRows};
ghost use Rattle.facet_rows.specs.Rows.{rows_in};
ghost use Rattle.facet_index.specs.Rows.{IsMetered};

use crate::sizes::{size_at, size_of};
use facet_list::{Facets, Wrote};
use facet_rows::FacetRows;
use label_lattice::{Label, Lattice};
use label_limits::{Limits, Meter};
use std::alloc::Global;
use trapeze_io::NoMemory;

/// The rows by their keys, and the counts of each label. A read looks its key up and goes through its row, and so does a write; a
/// walk finds the next facet from the last.
#[derive(Drop)]
pub struct FacetIndex {
    rows: FacetRows,
    meter: Meter,
    ghost sound: { AreStoreRows (length meter.limits) (rows_in rows) },
    ghost metered: { IsMetered meter (rows_in rows) },
}

impl FacetIndex {
    /// A store without a facet, for these limits of its labels.
    pub fn new(alloc: Global, limits: &[Limits]) -> Result<FacetIndex, NoMemory>
        ensures rows { IfOk result (λ store. ⟦<FacetIndex as Facets>⟧.rows store ≡ finite.empty) }
        ensures limits { IfOk result (λ store. ⟦<FacetIndex as Facets>⟧.limits store ≡ limits.now) }
    {
        let meter = Meter::new(alloc, limits)?;
        Ok(FacetIndex {
            rows: FacetRows::new(alloc),
            meter,
        })
    }
}

impl Facets for FacetIndex {
    ghost rows = { λ s. rows_in s.rows };

    ghost limits = { λ s. s.meter.limits };

    ghost store = { λ s. s.sound };

    fn read(&self, lattice: &Lattice, at: Label, key: &[u8]) -> Option<&[u8]> {
        self.rows.read(lattice, at, key)
    }

    fn write(&mut self, at: Label, key: &[u8], value: Option<&[u8]>) -> Result<Wrote, NoMemory> {
        let old = size_at(&self.rows, at, key);
        let new = size_of(key, value);
        if !self.meter.fits(at, old, new) {
            return Ok(Wrote::Full);
        }
        let Ok(()) = self.rows.write(at, key, value) else {
            return Err(NoMemory);
        };
        self.meter.charge(at, old, new);
        Ok(Wrote::Done)
    }

    fn next_facet(
        &self,
        after: Option<(&Vec<u8>, Label)>,
    ) -> Option<(&Vec<u8>, Label, Option<&[u8]>)> {
        self.rows.next_facet(after)
    }
}
