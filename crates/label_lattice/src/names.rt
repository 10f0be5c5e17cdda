//! The names of labels.

ghost use Rattle.std.specs.Prelude.{◌≡◌, ◌<◌, ◌≤◌, Some, length, slice_get, IfOk, IfSome};
ghost use Rattle.label_lattice.specs.Order.{place_of};
ghost use Rattle.label_lattice.specs.Joins.{labels};
ghost use Rattle.label_lattice.specs.Faults.{Passes, first_of, name_fault};
ghost use Rattle.label_lattice.specs.Sound.{AreNames};

use crate::error::LatticeError;
use indexmap::IndexSet;
use std::alloc::Global;
use std::marker::Model;
use trapeze_io::{Bytes, Name};

/// 1 to 64 different names, by position.
#[derive(Drop)]
pub struct Names {
    set: IndexSet<Name>,
}

impl Model for Names {
    ghost use Rattle.std.specs.Prelude.{List, ℕ};
    ghost use Rattle.label_lattice.specs.Sound.{AreNames};

    ghost Value = { List (List ℕ) };

    ghost view = { λ n. n.set.keys };

    ghost invariant = { λ n. AreNames n.set.keys };
}

impl Names {
    /// The names that the bytes are.
    pub fn read(alloc: Global, names: &[Bytes]) -> Result<Names, LatticeError>
        requires some { 0 < length names.now }
        requires few { length names.now ≤ 64 }
        ensures fault { Passes (first_of (name_fault names.now) (labels (length names.now))) result }
        ensures names { IfOk result (λ read. read ≡ names.now) }
    {
        let mut set = IndexSet::new(alloc);
        'names: for (i, bytes) in names.iter().enumerate() {
            let Some(name) = Name::read(bytes.as_slice()) else {
                return Err(LatticeError::BadName(i as u64));
            };
            match set.insert(name) {
                Ok(true) => {}
                Ok(false) => return Err(LatticeError::Repeated(i as u64)),
                Err(_) => return Err(LatticeError::NoMemory),
            }
        }
        Ok(Names { set })
    }

    /// How many names there are.
    pub fn count(&self) -> u8
        ensures count { result ≡ length self.now }
        ensures names { AreNames self.now }
    {
        self.set.len() as u8
    }

    /// Where the name stands, if it is one of them.
    pub fn find(&self, name: &[u8]) -> Option<u8>
        ensures place { result ≡ place_of name.now self.now }
        ensures within { IfSome result (λ at. at < length self.now) }
    {
        let names = &self.set;
        let name = Name::read(name)?;
        let at = names.get_index_of(&name)?;
        Some(at as u8)
    }

    /// The name at a position.
    pub fn name(&self, at: u8) -> Name
        requires { at < length self.now }
        ensures { slice_get self.now at ≡ Some result }
    {
        self.set[at as usize]
    }
}
