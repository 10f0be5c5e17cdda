//! Whether a write fits.

ghost use Rattle.std.specs.Prelude.{◌≡◌, ◌-◌, ◌^◌, ◌&&◌, ℕ, Some, min, nat_le};
ghost use Rattle.std.specs.Option.{option_copied};
ghost use Rattle.facet_list.specs.Store.{written};
ghost use Rattle.facet_list.specs.Rows.{rows_of, rows_after};
ghost use Rattle.facet_list.specs.Room.{live_in, are_within};

use crate::scan::next;
use crate::write::{Write, size_of};
use label_lattice::Label;
use label_limits::Limits;

/// Whether the live facets at a label are within its limits after a write.
pub(crate) fn fits(
    writes: &[Write],
    limits: Limits,
    at: Label,
    key: &[u8],
    value: Option<&[u8]>,
) -> bool
    ensures { result ≡ are_within (Some limits) (live_in at.number
        (rows_after (rows_of writes.now) (written at.number key.now (option_copied value.entry)))) }
{
    let mut count: u64 = 1;
    let mut bytes = size_of(key, value);
    let mut after = None;
    'facets: while let Some(write) = next(writes, Some(at), after) {
        if !write.is_of(at, key) {
            count = count.saturating_add(1);
            bytes = bytes.saturating_add(write.size());
        }
        after = Some((write.key(), write.label()));
    }
    is_room(limits, count, bytes)
}

/// Whether so many facets of so many bytes are within the limits; both may be cut at the greatest number of 64 bits.
fn is_room(limits: Limits, count: u64, bytes: u64) -> bool
    ensures { (n sum : ℕ) → count ≡ min n (2 ^ 64 - 1) → bytes ≡ min sum (2 ^ 64 - 1) →
        result ≡ (nat_le n limits.facets && nat_le sum limits.bytes) }
{
    count <= limits.facets as u64 && bytes <= limits.bytes as u64
}
