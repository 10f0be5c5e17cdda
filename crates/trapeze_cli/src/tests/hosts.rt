//! The same events on both stores, and on stores that are out of memory at each of their writes.

ghost use Rattle.std.specs.Prelude.{◌≡◌};
ghost use Rattle.std.specs.FinMap as finite;
ghost use Rattle.trapeze_exercise.specs.BuiltIn.{built_in};

use crate::play::Scene;
use crate::shown::Shown;
use crate::status::Status;
use crate::stream::play_stream;
use facet_index::FacetIndex;
use facet_list::{FacetList, Facets, Wrote};
use label_lattice::{Label, Lattice};
use policy_toml::Policy;
use std::alloc::Global;
use std::process::Abort;
use std::test::Fail;
use trapeze_exercise::{built_in_modules, built_in_policy};
use trapeze_host::Host;
use trapeze_io::{Files, MemFiles, MemSink, NoMemory};

/// Two puts, and a write by a function, which takes nine units: one more than a turn has.
const EVENTS: &str =
    "put low x61 x01\nput low x62 x02\nask alice ann store r1 x0a\nturn alice 2\nturn bob\n";

/// What both stores are told of all these events.
const TEXT: &str = "write low x61 x01\nwrite low x62 x02\nstart alice alice store r1\n\
    write alice x6b x0a\nturn alice 1 store r1 waits\nturn alice 2 store r1 ended\nidle bob 1\n\
    facet low x61 x01\nfacet low x62 x02\nfacet alice x6b x0a\n";

/// A store that is out of memory once so many writes were made.
#[derive(Drop)]
struct Exhausted<F: Facets> {
    store: F,
    left: u32,
}

impl<F: Facets> Facets for Exhausted<F> {
    ghost rows = { λ s. F.rows s.store };

    ghost limits = { λ s. F.limits s.store };

    ghost store = { λ s. F.store s.store };

    fn read(&self, lattice: &Lattice, at: Label, key: &[u8]) -> Option<&[u8]> {
        self.store.read(lattice, at, key)
    }

    fn write(&mut self, at: Label, key: &[u8], value: Option<&[u8]>) -> Result<Wrote, NoMemory> {
        if self.left == 0 {
            return Err(NoMemory);
        }
        self.left -= 1;
        self.store.write(at, key, value)
    }

    fn next_facet(
        &self,
        after: Option<(&Vec<u8>, Label)>,
    ) -> Option<(&Vec<u8>, Label, Option<&[u8]>)> {
        self.store.next_facet(after)
    }
}

/// The events are played on a store without a facet, up to this end: so many were played, and all their lines were written.
fn ends_with<F: Facets>(
    rt: &impl Abort,
    alloc: Global,
    policy: &Policy,
    store: F,
    status: Status,
    played: u64,
    text: &str,
) -> Result<(), Fail>
    requires policy { policy.now ≡ built_in }
    requires rows { F.rows store ≡ finite.empty }
    requires limits { F.limits store ≡ policy.now.limits }
{
    let modules = built_in_modules(alloc)?;
    let mut host = Host::start(alloc, policy, modules.as_slice(), store)?;
    let mut files = MemFiles::new(alloc);
    files.hold("e.txt", EVENTS.as_bytes())?;
    assert!(rt; files.open("e.txt").is_ok());
    let scene = Scene {
        policy,
        shown: Shown::AllKinds,
    };
    let mut out = MemSink::new(alloc);
    let ended = play_stream(alloc, &mut files, &scene, &mut host, &mut out);
    assert!(rt; ended == status);
    assert!(rt; host.played() == played);
    assert!(rt; host.spent() == (status == Status::NoMemory));
    assert!(rt; out.written() == text.as_bytes());
    Ok(())
}

#[test]
fn both_stores_give_the_same_lines(rt: HostRuntime) -> Result<(), Fail> {
    let alloc = rt.alloc();
    let policy = built_in_policy(alloc)?;
    let list = FacetList::new(alloc, policy.limits())?;
    ends_with(&rt, alloc, &policy, list, Status::Done, 6, TEXT)?;
    let index = FacetIndex::new(alloc, policy.limits())?;
    ends_with(&rt, alloc, &policy, index, Status::Done, 6, TEXT)
}

/// Both stores end out of memory after so many writes: so many events were played, and their lines were written.
fn end_after(
    rt: &impl Abort,
    alloc: Global,
    policy: &Policy,
    left: u32,
    played: u64,
    text: &str,
) -> Result<(), Fail>
    requires policy { policy.now ≡ built_in }
{
    let store = FacetList::new(alloc, policy.limits())?;
    let list = Exhausted { store, left };
    ends_with(rt, alloc, policy, list, Status::NoMemory, played, text)?;
    let store = FacetIndex::new(alloc, policy.limits())?;
    let index = Exhausted { store, left };
    ends_with(rt, alloc, policy, index, Status::NoMemory, played, text)?;
    assert!(rt; TEXT.as_bytes().starts_with(text.as_bytes()));
    Ok(())
}

#[test]
fn a_write_without_memory_leaves_the_first_lines_and_a_spent_host(
    rt: HostRuntime,
) -> Result<(), Fail> {
    let alloc = rt.alloc();
    let policy = built_in_policy(alloc)?;
    end_after(&rt, alloc, &policy, 0, 0, "")?;
    end_after(&rt, alloc, &policy, 1, 1, "write low x61 x01\n")?;
    let text = "write low x61 x01\nwrite low x62 x02\nstart alice alice store r1\n";
    end_after(&rt, alloc, &policy, 2, 3, text)
}
