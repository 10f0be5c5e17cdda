//! Steps that are made one after the other on a store, and what comes of each.

ghost use Rattle.std.specs.Prelude.{◌≡◌, length};
ghost use Rattle.label_lattice.specs.Order.{count};

use facet_index::FacetIndex;
use facet_list::{FacetList, Facets, Wrote};
use label_lattice::{Label, Lattice};
use label_limits::Limits;
use policy_toml::read_policy;
use std::alloc::Global;
use std::test::Fail;
use trapeze_io::NoMemory;

/// The labels 0, 1, 2 and 3: low, alice and bob beside each other, and top.
pub const FOUR: &[u8] = b"labels = ['low', 'alice', 'bob', 'top']
flows = [['low', 'alice'], ['low', 'bob'], ['alice', 'top'], ['bob', 'top']]";

/// How many facets and how many bytes each label may have.
pub type Room = [(u32, u32); 4];

/// Room for all that a test writes.
pub const AMPLE: Room = [(10, 100); 4];

/// A label, a key, what is done there, and what comes of it: `done` or `full` of a write, and of a read the value or `-`.
pub type Step = (u8, &'static [u8], Deed, &'static [u8]);

/// What is done with a key at a label.
#[derive(Clone, Copy, Drop)]
pub enum Deed {
    /// The value is written.
    Put(&'static [u8]),
    /// Absent is written.
    Clear,
    /// The key is read.
    Get,
}

/// A facet: its key, its label, and its value, None for absent.
pub type Facet = (&'static [u8], u8, Option<&'static [u8]>);

/// Whether the steps come to what stands beside them on both stores, begun empty, and leave these facets, by key and then by label.
pub fn plays(alloc: Global, room: Room, steps: &[Step], facets: &[Facet]) -> Result<bool, Fail> {
    let policy = read_policy(alloc, FOUR)?;
    let lattice = policy.lattice();
    if lattice.count() != 4 {
        return Ok(false);
    }
    let limits = room.map(with_room);
    let mut list = FacetList::new(alloc, &limits)?;
    let mut index = FacetIndex::new(alloc, &limits)?;
    let both = come(&mut list, lattice, steps)? && come(&mut index, lattice, steps)?;
    Ok(both && are_left(&list, facets) && are_left(&index, facets))
}

/// The usual limits, with this room.
fn with_room(room: (u32, u32)) -> Limits {
    let mut limits = Limits::usual();
    limits.facets = room.0;
    limits.bytes = room.1;
    limits
}

/// Whether each step comes to what stands beside it.
fn come<F: Facets>(store: &mut F, lattice: &Lattice, steps: &[Step]) -> Result<bool, NoMemory>
    requires lattice { count lattice.now ≡ 4 }
    requires store { length (F.limits store.old) ≡ 4 }
    ensures { length (F.limits store.new) ≡ 4 }
{
    let mut all = true;
    'steps: for step in steps {
        let came = comes(store, lattice, *step)?;
        all = all && came;
    }
    Ok(all)
}

/// Whether the step comes to what stands beside it.
fn comes<F: Facets>(store: &mut F, lattice: &Lattice, step: Step) -> Result<bool, NoMemory>
    requires lattice { count lattice.now ≡ 4 }
    requires store { length (F.limits store.old) ≡ 4 }
    ensures { F.limits store.new ≡ F.limits store.old }
{
    let (at, key, deed, want) = step;
    if at > 3 || key.len() > 1_024 {
        return Ok(false);
    }
    let at = Label::numbered(at);
    match deed {
        Deed::Put(value) if value.len() > 65_536 => Ok(false),
        Deed::Put(value) => Ok(said(store.write(at, key, Some(value))?) == want),
        Deed::Clear => Ok(said(store.write(at, key, None)?) == want),
        Deed::Get => Ok(store.read(lattice, at, key).unwrap_or(b"-") == want),
    }
}

fn said(wrote: Wrote) -> &'static [u8] {
    match wrote {
        Wrote::Done => b"done",
        Wrote::Full => b"full",
    }
}

/// Whether these are the facets of the store, by key and then by label.
fn are_left<F: Facets>(store: &F, want: &[Facet]) -> bool {
    let mut after = None;
    for facet in want {
        let Some((key, label, value)) = store.next_facet(after) else {
            return false;
        };
        if key.as_slice() != facet.0 || label.number() != facet.1 || value != facet.2 {
            return false;
        }
        after = Some((key, label));
    }
    store.next_facet(after).is_none()
}
