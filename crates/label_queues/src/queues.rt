//! A list of items for each label, all of them in one slab.

ghost use Rattle.std.specs.Prelude.{◌≡◌, ◌≤◌, ◌<◌, ◌++◌, ◌∷◌, [], Err, length, map, drop, take, replicate, slice_get, IfOk, IfErr, OnOk, ◌↔◌};
ghost use Rattle.std.specs.Option.{option_copied_mut};
ghost use Rattle.std.specs.Borrow.{sem};
ghost use Rattle.label_queues.specs.Lists.{list_of, limit_of, with_list};

use crate::keys::KeyLists;
use label_lattice::Label;
use label_limits::Limits;
use slab::Slab;
use std::alloc::Global;
use std::marker::Model;
use trapeze_io::NoMemory;

/// Why an item is not taken.
#[derive(Debug, Clone, Copy, PartialEq, Eq, Drop)]
pub enum Refused {
    /// The list has as many items as its label may have.
    Full,
    /// Memory was refused.
    NoMemory,
}

/// A list of items for each label, with a limit of its own. The items of all lists stand in one slab.
#[derive(Drop)]
pub struct Queues<T> {
    items: Slab<T>,
    keys: KeyLists,
    limits: Vec<u32>,
}

impl<T> Model for Queues<T> {
    ghost use Rattle.std.specs.Prelude.{◌≡◌, length, map};
    ghost use Rattle.label_queues.specs.Lists.{Lists, lists_code};

    ghost Value = { Lists T };

    ghost coded = { lists_code T.code };

    ghost use Rattle.label_queues.specs.Keys.{items_at, AreKeys, AreWithinLimits};

    ghost view = { λ q. record { lists = map (items_at q.items.slots) q.keys; limits = q.limits.items } };

    ghost invariant = { λ q. AreKeys q.items.slots q.keys × (length q.keys ≡ length q.limits.items) × AreWithinLimits q.keys q.limits.items };
}

impl<T> Queues<T> {
    ghost use Rattle.label_queues.specs.Lending.{LendsFront};

    /// An empty list for each of these limits, which may have as many items as the limit `queue` says.
    pub fn new(alloc: Global, limits: &[Limits]) -> Result<Queues<T>, NoMemory>
        ensures { IfOk result (λ queues. queues
            ≡ record { lists = replicate (length limits.now) []; limits = map (λ l. l.queue) limits.now }) }
    {
        let keys = KeyLists::new(alloc, limits.len())?;
        let limits = queue_limits(alloc, limits)?;
        let items = Slab::new(alloc);
        Ok(Queues {
            items,
            keys,
            limits,
        })
    }

    /// Takes an item to the back of a label's list. A refusal hands the item back and changes nothing.
    pub fn arrive(&mut self, at: Label, item: T) -> Result<(), (T, Refused)>
        requires { at.number < length self.old.limits }
        ensures ok { OnOk result (self.new ≡ with_list self.old at.number (list_of self.old at.number ++ item ∷ [])) }
        ensures full { (result ≡ Err (item, Refused.Full)) ↔ (length (list_of self.old at.number) ≡ limit_of self.old at.number) }
        ensures err { IfErr result (λ e. (e.0 ≡ item) × (self.new ≡ self.old)) }
        ensures limits { self.new.limits ≡ self.old.limits }
    {
        let place = at.number() as usize;
        if self.keys.len(place) >= self.limits[place] as usize {
            return Err((item, Refused::Full));
        }
        let Ok(()) = self.items.reserve(1) else {
            return Err((item, Refused::NoMemory));
        };
        let key = self.items.vacant_key();
        let Ok(()) = self.keys.push(place, key) else {
            return Err((item, Refused::NoMemory));
        };
        self.items.insert_reserved(item);
        Ok(())
    }

    /// The front of a label's list, which stays a member of it while it is worked on.
    pub fn front(&mut self, at: Label) -> Option<&mut T>
        requires { at.number < length self.old.limits }
        ensures* writes_back { sem 𝓛 (LendsFront T.row self.entry at.number result) }
        ensures value { option_copied_mut result ≡ slice_get (list_of self.old at.number) 0 }
    {
        let key = self.keys.front(at.number() as usize)?;
        self.items.get_mut(key)
    }

    /// Moves the front of a label's list, which has one, to the back.
    pub fn rotate(&mut self, at: Label)
        requires label { at.number < length self.old.limits }
        requires some { 0 < length (list_of self.old at.number) }
        ensures { self.new ≡ with_list self.old at.number (drop 1 (list_of self.old at.number) ++ take 1 (list_of self.old at.number)) }
    {
        self.keys.rotate(at.number() as usize);
    }

    /// Takes the front of a label's list out.
    pub fn leave(&mut self, at: Label) -> Option<T>
        requires { at.number < length self.old.limits }
        ensures front { result ≡ slice_get (list_of self.old at.number) 0 }
        ensures rest { self.new ≡ with_list self.old at.number (drop 1 (list_of self.old at.number)) }
    {
        match self.keys.pop(at.number() as usize) {
            Some(key) => Some(self.items.remove(key)),
            None => None,
        }
    }

    /// How many items a label's list has.
    pub fn len(&self, at: Label) -> u32
        requires { at.number < length self.now.limits }
        ensures len { result ≡ length (list_of self.now at.number) }
        ensures within { result ≤ limit_of self.now at.number }
        ensures lists { length self.now.lists ≡ length self.now.limits }
    {
        self.keys.len(at.number() as usize) as u32
    }
}

/// How many items each label may have.
fn queue_limits(alloc: Global, limits: &[Limits]) -> Result<Vec<u32>, NoMemory>
    ensures { IfOk result (λ all. all.items ≡ map (λ l. l.queue) limits.now) }
{
    match limits.iter().map(|limits| limits.queue).collect(alloc) {
        Ok(all) => Ok(all),
        Err(_) => Err(NoMemory),
    }
}
