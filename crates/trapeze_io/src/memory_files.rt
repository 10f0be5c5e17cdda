//! Files in memory, which tell what they hold and fail where they are told to.

ghost use Rattle.std.specs.Prelude.{◌≡◌, ◌∷◌, ◌++◌, ◌⊎◌, ◌↔◌, [], length, max, min, OnOk, OnErr, IfOk, IfSome, IsErr, IsNone, None, Some};
ghost use Rattle.std.specs.Prelude.{◌<◌, ◌≤◌, ◌+◌, reverse, slice_get};
ghost use Rattle.std.specs.Option.{option_map};
ghost use Rattle.trapeze_io.specs.Places.{IsOpenAt, IsOther, bytes_at, name_of, open_at};
ghost use Rattle.trapeze_io.specs.Memory.{file_held};
ghost use Rattle.trapeze_io.specs.Plan.{FailsNext, after_call, no_plan};

use crate::failures::{Failed, NoMemory, count_fault};
use crate::plan::Plan;
use crate::streams::Files;
use std::alloc::Global;
use std::marker::Model;

#[derive(Drop)]
struct HeldFile {
    name: String,
    bytes: Vec<u8>,
}

impl Model for HeldFile {
    ghost use Rattle.std.specs.Prelude.{string_bytes};
    ghost use Rattle.trapeze_io.specs.Memory.{File};

    ghost Value = { File };

    ghost view = { λ f. record { name = string_bytes f.name; bytes = f.bytes.items } };
}

/// What is kept of the name that was opened last.
#[derive(Drop)]
enum LastName {
    /// Nothing: there was no open, or no memory for a name that is not held.
    Untold,
    /// The place of the file of this name.
    Held(usize),
    /// A name that is not held.
    Other(String),
}

/// Files in memory.
///
/// They tell the files held, the open one, the number of opens, and the last name: always where a file of that name is
/// held, and otherwise where the memory to keep it was found. An open fails only where its name is not held, or where
/// `fail_at` names it.
#[derive(Drop)]
pub struct MemFiles {
    alloc: Global,
    held: Vec<HeldFile>,
    current: Option<usize>,
    at: usize,
    opens: u64,
    last_name: LastName,
    faults: u64,
    mark: u64,
    plan: Plan,
}

impl Model for MemFiles {
    ghost use Rattle.std.specs.Prelude.{reverse};
    ghost use Rattle.trapeze_io.specs.Memory.{FilesState};
    ghost use Rattle.trapeze_io.specs.Places.{open_at, last_name_in, IsOpenAt, IsNamedIn};

    ghost Value = { FilesState };

    ghost view = { λ s. record {
      held = reverse s.held.items;
      current = open_at s.held.items s.current s.at;
      opens = s.opens;
      last_name = last_name_in s.held.items s.last_name;
      faults = s.faults;
      mark = s.mark;
      plan = s.plan;
    } };

    ghost invariant = { λ s. IsOpenAt s.held.items s.current s.at × IsNamedIn s.held.items s.last_name };
}

impl MemFiles {
    /// No files.
    pub fn new(alloc: Global) -> MemFiles
        ensures held { result.held ≡ [] }
        ensures current { result.current ≡ record { given = []; rest = [] } }
        ensures counts { (result.opens ≡ 0) × (result.faults ≡ 0) × (result.mark ≡ 0) }
        ensures name { result.last_name ≡ None }
        ensures plan { result.plan ≡ no_plan usize.MAX }
    {
        MemFiles {
            alloc,
            held: Vec::new(alloc),
            current: None,
            at: 0,
            opens: 0,
            last_name: LastName::Untold,
            faults: 0,
            mark: 0,
            plan: Plan::new(alloc),
        }
    }

    /// Holds the bytes under the name, in place of any before. The open file stays as it was opened.
    #[tactic(auto, using(crate::proofs::Held::open_grown, crate::proofs::Held::bytes_grown, crate::proofs::Held::last_name_grown, crate::proofs::Held::named_grown, crate::proofs::Held::reverse_more))]
    pub fn hold(&mut self, name: &str, bytes: &[u8]) -> Result<(), NoMemory>
        ensures ok { OnOk result (self.new ≡ record self.old { held = record { name = name.now; bytes = bytes.now } ∷ self.old.held }) }
        ensures err { OnErr result (self.new ≡ self.old) }
    {
        let file = HeldFile {
            name: String::from_str(self.alloc, name)?,
            bytes: Vec::from_slice(self.alloc, bytes)?,
        };
        match self.held.push(file) {
            Ok(()) => Ok(()),
            Err(_) => Err(NoMemory),
        }
    }

    /// Lets the call with this number fail, counting opens and reads from 1.
    pub fn fail_at(&mut self, call: u32) -> Result<(), NoMemory>
        ensures ok { OnOk result (self.new
            ≡ record self.old { plan = record self.old.plan { failing = self.old.plan.failing ++ call ∷ [] } }) }
        ensures err { OnErr result (self.new ≡ self.old) }
    {
        self.plan.fail_at(call)
    }

    /// Lets a read give at most that many bytes, and at least 1.
    pub fn step(&mut self, most: u32)
        ensures { self.new ≡ record self.old { plan = record self.old.plan { most = max most 1 } } }
    {
        self.plan.step(most);
    }
}

/// The place of the file of this name that was held last.
fn latest(held: &[HeldFile], name: &str) -> Option<usize>
    ensures held { IfSome result (λ place. (place < length held.now) × (name_of (slice_get held.now place) ≡ name.now)) }
    ensures bytes { option_map (λ place. bytes_at held.now (Some place)) result ≡ file_held (reverse held.now) name.now }
{
    let mut found = None;
    for (place, file) in held.iter().enumerate() {
        if file.name.as_str() == name {
            found = Some(place);
        }
    }
    found
}

/// What is left of the file at this place, of which so many bytes were given.
fn left(held: &[HeldFile], current: Option<usize>, given: usize) -> &[u8]
    requires { IsOpenAt held.now current given }
    ensures rest { result.now ≡ (open_at held.now current given).rest }
    ensures fits { given + length result.now ≤ usize.MAX }
{
    match current {
        Some(place) => {
            let file = &held[place];
            &file.bytes[given..]
        }
        None => &[],
    }
}

/// The name that is opened, by the place of its file where it is held.
fn kept_name(alloc: Global, place: Option<usize>, name: &str) -> LastName
    ensures held { IfSome place (λ place. result ≡ LastName.Held place) }
    ensures other { place ≡ None → IsOther result name.now }
{
    match place {
        Some(place) => LastName::Held(place),
        None => match String::from_str(alloc, name) {
            Ok(name) => LastName::Other(name),
            Err(_) => LastName::Untold,
        },
    }
}

impl Files for MemFiles {
    ghost use Rattle.std.specs.Prelude.{refl, IsSome};
    ghost use Rattle.std.specs.Io.{ReadsAtMost};
    ghost use Rattle.trapeze_io.specs.Causes.{Rose, one_more};
    ghost use Rattle.trapeze_io.specs.Memory.{seen_of};
    ghost use Rattle.trapeze_io.specs.Seen.{Opens, OpensOne, OpensNone, Reads};

    ghost seen = { seen_of };

    ghost tells = { λ s _. refl };

    fn open(&mut self, name: &str) -> Result<(), Failed>
        ensures one { OpensOne (seen_of self.old) name.now (seen_of self.new) }
        ensures bytes { Opens (seen_of self.old) name.now (seen_of self.new) result }
        ensures cause { OnErr result (Rose self.old.faults self.new.faults) }
        ensures held { self.new.held ≡ self.old.held }
        ensures name { IsSome (file_held self.old.held name.now) → self.new.last_name ≡ Some name.now }
        ensures plan { self.new.plan ≡ after_call self.old.plan }
        ensures planned { FailsNext self.old.plan → IsErr result }
        ensures opened { OnOk result (self.new.faults ≡ self.old.faults) }
        ensures failed { OnErr result (self.new.faults ≡ one_more self.old.faults) }
        ensures refused { OnErr result (FailsNext self.old.plan ⊎ (file_held self.old.held name.now ≡ None)) }
    {
        let place = latest(&self.held, name);
        self.mark = self.faults;
        self.opens = self.opens.saturating_add(1);
        self.last_name = kept_name(self.alloc, place, name);
        self.current = None;
        self.at = 0;
        if self.plan.next_fails() {
            return Err(count_fault(&mut self.faults));
        }
        let Some(place) = place else {
            return Err(count_fault(&mut self.faults));
        };
        self.current = Some(place);
        Ok(())
    }

    fn read(&mut self, buf: &mut [u8]) -> Result<usize, Failed>
        ensures none { OpensNone (seen_of self.old) (seen_of self.new) }
        ensures bound { ReadsAtMost result buf.new }
        ensures bytes { Reads (seen_of self.old) (seen_of self.new) result buf.new }
        ensures cause { OnErr result (Rose self.old.faults self.new.faults) }
        ensures held { self.new.held ≡ self.old.held }
        ensures plan { self.new.plan ≡ after_call self.old.plan }
        ensures planned { IsErr result ↔ FailsNext self.old.plan }
        ensures step { IfOk result (λ n. n ≡ min (length self.old.current.rest) (min (length buf.new) self.old.plan.most)) }
        ensures given { OnOk result (self.new.faults ≡ self.old.faults) }
        ensures failed { OnErr result (self.new.faults ≡ one_more self.old.faults) }
    {
        if self.plan.next_fails() {
            return Err(count_fault(&mut self.faults));
        }
        let rest = left(&self.held, self.current, self.at);
        let count = rest.len().min(buf.len()).min(self.plan.most());
        buf[..count].copy_from_slice(&rest[..count]);
        self.at += count;
        Ok(count)
    }
}
