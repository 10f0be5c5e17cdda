//! What a store of facets is.

ghost use Rattle.std.specs.Prelude.{◌≡◌, ◌<◌, Ok, List, length, option_map, IfOk, OnErr, IfSome, if◌then◌else◌};
ghost use Rattle.std.specs.Option.{option_copied};
ghost use Rattle.label_lattice.specs.Order.{count};
ghost use Rattle.label_lattice.specs.Reach.{flows};
ghost use Rattle.label_limits.specs.declared.limits.Limits.{Limits as LabelLimits};
ghost use Rattle.facet_list.specs.Store.{written};
ghost use Rattle.facet_list.specs.Rows.{Rows, row_of, rows_after, read_row, IsSized, AreStoreRows};
ghost use Rattle.trapeze_io.specs.Sizes.{IsKey, IsValue};
ghost use Rattle.facet_list.specs.Room.{fits_in};
ghost use Rattle.facet_list.specs.Walk.{slot_after, facet_lent, IsNext};

use label_lattice::{Label, Lattice};
use trapeze_io::NoMemory;

/// How a write ended.
#[derive(Debug, Clone, Copy, PartialEq, Eq, Drop)]
pub enum Wrote {
    /// The write was made.
    Done,
    /// The write does not fit the limits of its label, and nothing changed.
    Full,
}

/// A store of facets: for each key a row of its live facets, one a label, in the order in which they were last written. A key has
/// at most 1,024 bytes, and a value at most 65,536.
pub trait Facets: Drop {
    /// The row of each key.
    ghost rows: { Self → Rows };

    /// The limits of each label.
    ghost limits: { Self → List LabelLimits };

    /// The latest visible facet: the value of the last write to the key whose label flows to `at`, None where there is none or
    /// where it is absent.
    fn read(&self, lattice: &Lattice, at: Label, key: &[u8]) -> Option<&[u8]>
        requires at { at.number < count lattice.now }
        requires labels { count lattice.now ≡ length (limits self.now) }
        ensures value { option_copied result ≡ read_row (flows lattice.now) at.number (row_of (rows self.now) key.now) }
        ensures sized { IsValue (option_copied result) };

    /// Writes the key at a label, None for absent. `Full` for all but a write that fits: for one after which the
    /// live facets at the label would number more than its `facets`, or their sizes sum to more than its `bytes`.
    fn write(&mut self, at: Label, key: &[u8], value: Option<&[u8]>) -> Result<Wrote, NoMemory>
        requires at { at.number < length (limits self.old) }
        requires key { IsKey key.now }
        requires value { IsValue (option_copied value) }
        ensures fits { IfOk result (λ wrote.
            wrote ≡ (if fits_in (limits self.old) (rows self.old) (written at.number key.now (option_copied value.entry))
            then Wrote.Done else Wrote.Full)) }
        ensures done { result ≡ Ok Wrote.Done →
            rows self.new ≡ rows_after (rows self.old) (written at.number key.now (option_copied value.entry)) }
        ensures full { result ≡ Ok Wrote.Full → rows self.new ≡ rows self.old }
        ensures no_memory { OnErr result (rows self.new ≡ rows self.old) }
        ensures limits { limits self.new ≡ limits self.old };

    /// The least facet, by key in byte order and then by label, that is greater than `after`, or the least of all.
    fn next_facet(
        &self,
        after: Option<(&Vec<u8>, Label)>,
    ) -> Option<(&Vec<u8>, Label, Option<&[u8]>)>
        ensures next { IsNext (rows self.now) (slot_after after.entry) (option_map facet_lent result) }
        ensures sized { IfSome result (λ f. IsSized f.0.now.items (option_copied f.2)) }
        ensures label { IfSome result (λ f. f.1.number < length (limits self.now)) };

    /// Keys and values are within their sizes, a row has at most one facet of a label, and each label has its limits.
    ghost store: { (s : Self) → AreStoreRows (length (limits s)) (rows s) };
}
