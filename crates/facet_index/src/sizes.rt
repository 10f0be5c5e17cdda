//! The sizes of facets.

ghost use Rattle.std.specs.Prelude.{◌≡◌, ◌+◌, All, option_map};
ghost use Rattle.std.specs.Option.{option_copied};
ghost use Rattle.trapeze_io.specs.Sizes.{IsKey, IsValue};
ghost use Rattle.facet_list.specs.Rows.{row_of, facet_at, IsSized};
ghost use Rattle.facet_list.specs.Room.{size};
ghost use Rattle.facet_rows.specs.Rows.{rows_in};

use facet_rows::FacetRows;
use label_lattice::Label;

/// The size of the facet of a key at a label, where there is one.
pub fn size_at(rows: &FacetRows, at: Label, key: &[u8]) -> Option<u32>
    requires key { IsKey key.now }
    requires sized { All (λ m. IsSized key.now m.1) (row_of (rows_in rows.now) key.now) }
    ensures { result ≡ option_map (λ v. size ((key.now, at.number), v)) (facet_at (rows_in rows.now) (key.now, at.number)) }
{
    match rows.last(at, key) {
        Some(value) => Some(size_of(key, value)),
        None => None,
    }
}

/// The size of a facet: the length of its key and that of its value, 0 if absent.
pub fn size_of(key: &[u8], value: Option<&[u8]>) -> u32
    requires key { IsKey key.now }
    requires value { IsValue (option_copied value) }
    ensures { result ≡ size ((key.now, 0), option_copied value.entry) }
{
    let value = match value {
        Some(value) => value.len() as u32,
        None => 0,
    };
    key.len() as u32 + value
}
