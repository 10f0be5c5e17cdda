//! The list of writes.

ghost use Rattle.std.specs.Prelude.{◌≡◌, length, IfOk};
ghost use Rattle.std.specs.FinMap as finite;
ghost use Rattle.facet_list.specs.Rows.{rows_of, AreStoreRows};

use crate::facets::{Facets, Wrote};
use crate::room::fits;
use crate::scan::next;
use crate::write::Write;
use label_lattice::{Label, Lattice};
use label_limits::Limits;
use std::alloc::Global;
use trapeze_io::NoMemory;

/// All writes, in order. A read and a walk go through the whole list, and a write goes through it once for each live facet of its
/// label.
#[derive(Drop)]
pub struct FacetList {
    writes: Vec<Write>,
    limits: Vec<Limits>,
    alloc: Global,
    ghost sound: { AreStoreRows (length limits.items) (rows_of writes.items) },
}

impl FacetList {
    /// A store without a write, for these limits of its labels.
    pub fn new(alloc: Global, limits: &[Limits]) -> Result<FacetList, NoMemory>
        ensures rows { IfOk result (λ store. ⟦<FacetList as Facets>⟧.rows store ≡ finite.empty) }
        ensures limits { IfOk result (λ store. ⟦<FacetList as Facets>⟧.limits store ≡ limits.now) }
    {
        let Ok(limits) = Vec::from_slice(alloc, limits) else {
            return Err(NoMemory);
        };
        Ok(FacetList {
            writes: Vec::new(alloc),
            limits,
            alloc,
        })
    }
}

impl Facets for FacetList {
    ghost rows = { λ s. rows_of s.writes.items };

    ghost limits = { λ s. s.limits.items };

    ghost store = { λ s. s.sound };

    fn read(&self, lattice: &Lattice, at: Label, key: &[u8]) -> Option<&[u8]> {
        let mut found = None;
        'writes: for write in &self.writes {
            if write.is_seen(lattice, at, key) {
                found = write.value();
            }
        }
        found
    }

    fn write(&mut self, at: Label, key: &[u8], value: Option<&[u8]>) -> Result<Wrote, NoMemory> {
        let limits = self.limits[at.number() as usize];
        if !fits(&self.writes, limits, at, key, value) {
            return Ok(Wrote::Full);
        }
        let Ok(write) = Write::of(self.alloc, at, key, value) else {
            return Err(NoMemory);
        };
        let Ok(()) = self.writes.push(write) else {
            return Err(NoMemory);
        };
        Ok(Wrote::Done)
    }

    fn next_facet(
        &self,
        after: Option<(&Vec<u8>, Label)>,
    ) -> Option<(&Vec<u8>, Label, Option<&[u8]>)> {
        match next(&self.writes, None, after) {
            Some(write) => Some((write.key(), write.label(), write.value())),
            None => None,
        }
    }
}
