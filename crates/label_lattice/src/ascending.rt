//! Names in byte order, told by their numbers.

ghost use Rattle.std.specs.Prelude.{◌≡◌, ◌<◌, ◌^◌, length, IfSome};
ghost use Rattle.std.specs.Cmp.Lexicographic.{slice_cmp};
ghost use Rattle.std.specs.Ordering.{nat_cmp};
ghost use Rattle.trapeze_io.specs.Names.{Ascend};
ghost use Rattle.label_lattice.specs.Order.{place_of};

use std::cmp::Ordering;
use trapeze_io::Name;

/// The number, from 0, of the name among names in byte order, if it is one of them. It goes by halves.
pub fn number_among(names: &[Name], name: &[u8]) -> Option<u32>
    requires ascend { Ascend names.now }
    requires few { length names.now < 2 ^ 32 }
    ensures place { result ≡ place_of name.now names.now }
    ensures within { IfSome result (λ number. number < length names.now) }
{
    let found = names.binary_search_by(
        |other: &Name| -> Ordering
            ensures { result ≡ slice_cmp nat_cmp other.now name.entry.now }
        { other.as_bytes().cmp(name) },
    );
    match found {
        Ok(number) => Some(number as u32),
        Err(_) => None,
    }
}
