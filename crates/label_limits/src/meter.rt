//! What is counted of the live facets of each label.

ghost use Rattle.std.specs.Prelude.{◌≡◌, ◌<◌, length, map, slice_set, IfOk, IsTrue, if◌then◌else◌};
ghost use Rattle.label_limits.specs.Counting.{nothing, charged, has_room, fits, count_of, IsCounted};

use crate::limits::Limits;
use label_lattice::Label;
use std::alloc::{AllocError, Global};
use std::marker::Model;
use trapeze_io::NoMemory;

/// How many live facets a label has, and the sum of their sizes.
#[derive(Debug, Clone, Copy, PartialEq, Eq, Drop)]
pub struct Count {
    /// The facets.
    pub facets: u32,
    /// Their sizes summed.
    pub bytes: u32,
}

/// The count of each label, beside its limits.
#[derive(Drop)]
pub struct Meter {
    limits: Vec<Limits>,
    counts: Vec<Count>,
}

impl Model for Meter {
    ghost use Rattle.std.specs.Prelude.{◌≡◌, length};
    ghost use Rattle.label_limits.specs.Counting.{Metered};

    ghost Value = { Metered };

    ghost view = { λ m. record { limits = m.limits.items; counts = m.counts.items } };

    ghost invariant = { λ m. length m.counts.items ≡ length m.limits.items };
}

impl Meter {
    /// A meter for these limits of labels, with nothing counted.
    pub fn new(alloc: Global, limits: &[Limits]) -> Result<Meter, NoMemory>
        ensures limits { IfOk result (λ meter. meter.limits ≡ limits.now) }
        ensures counts { IfOk result (λ meter. meter.counts ≡ map (λ l. nothing) limits.now) }
    {
        let Ok(counts) = no_counts(alloc, limits) else {
            return Err(NoMemory);
        };
        let Ok(limits) = Vec::from_slice(alloc, limits) else {
            return Err(NoMemory);
        };
        Ok(Meter { limits, counts })
    }

    /// Whether the count of a label stays within its limits where a facet of size `new` takes the place of one of size `old`,
    /// or is added.
    pub fn fits(&self, at: Label, old: Option<u32>, new: u32) -> bool
        requires { at.number < length self.now.limits }
        ensures { result ≡ fits self.now at.number old new }
    {
        let i = at.number() as usize;
        charged(self.counts[i], self.limits[i], old, new).is_some()
    }

    /// Counts a facet of size `new` in the place of one of size `old`, or as one more. The other counts and all limits stay.
    pub fn charge(&mut self, at: Label, old: Option<u32>, new: u32)
        requires at { at.number < length self.old.limits }
        requires fits { IsTrue (fits self.old at.number old new) }
        requires counted { IsCounted old (count_of self.old at.number) }
        ensures counts { self.new.counts ≡ slice_set self.old.counts at.number (charged old new (count_of self.old at.number)) }
        ensures limits { self.new.limits ≡ self.old.limits }
    {
        let i = at.number() as usize;
        let Some(count) = charged(self.counts[i], self.limits[i], old, new) else {
            unreachable!()
        };
        self.counts[i] = count;
    }
}

/// A count of nothing for each label.
fn no_counts(alloc: Global, limits: &[Limits]) -> Result<Vec<Count>, AllocError>
    ensures { IfOk result (λ counts. counts.items ≡ map (λ l. nothing) limits.now) }
{
    limits
        .iter()
        .map(|_| Count {
            facets: 0,
            bytes: 0,
        })
        .collect(alloc)
}

/// The count once a facet of size `new` takes the place of one of size `old`, or is added, where it is within the limits.
fn charged(count: Count, limits: Limits, old: Option<u32>, new: u32) -> Option<Count>
    ensures { result ≡ (if has_room (Some limits) (charged old new count) then Some (charged old new count) else None) }
{
    let added = count.bytes as u64 + new as u64;
    let (facets, bytes) = match old {
        Some(old) => (count.facets as u64, added.saturating_sub(old as u64)),
        None => (count.facets as u64 + 1, added),
    };
    if facets <= limits.facets as u64 && bytes <= limits.bytes as u64 {
        Some(Count {
            facets: facets as u32,
            bytes: bytes as u32,
        })
    } else {
        None
    }
}
