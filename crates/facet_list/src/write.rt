//! A write as the list keeps it.

ghost use Rattle.std.specs.Prelude.{◌≡◌, ◌≢◌, ◌<◌, ◌&&◌, nat_eq, IfOk, MatchBool};
ghost use Rattle.std.specs.Option.{option_copied};
ghost use Rattle.std.specs.Cmp.Lexicographic.{pointwise};
ghost use Rattle.std.specs.declared.cmp.Ordering.TheVariants.{Less};
ghost use Rattle.label_lattice.specs.Order.{count};
ghost use Rattle.label_lattice.specs.Reach.{flows};
ghost use Rattle.std.specs.Ordering.{is_eq};
ghost use Rattle.facet_list.specs.Store.{slot_cmp, written};
ghost use Rattle.facet_list.specs.Room.{size};
ghost use Rattle.facet_list.specs.Walk.{slot_after, is_after};

use label_lattice::{Label, Lattice};
use std::alloc::{AllocError, Global};
use std::cmp::Ordering;
use std::marker::Model;

/// A write at a label.
#[derive(Drop)]
pub struct Write {
    label: Label,
    key: Vec<u8>,
    value: Option<Vec<u8>>,
}

impl Model for Write {
    ghost use Rattle.std.specs.Prelude.{option_map};
    ghost use Rattle.facet_list.specs.Store.{Write as Written};

    ghost Value = { Written };

    ghost view = { λ w. record { label = w.label.number; key = w.key.items; value = option_map (λ v. v.items) w.value } };
}

impl Write {
    /// A copy of a key and a value.
    pub fn of(
        alloc: Global,
        label: Label,
        key: &[u8],
        value: Option<&[u8]>,
    ) -> Result<Write, AllocError>
        ensures { IfOk result (λ w. w ≡ written label.number key.now (option_copied value.entry)) }
    {
        let key = Vec::from_slice(alloc, key)?;
        let value = match value {
            Some(value) => Some(Vec::from_slice(alloc, value)?),
            None => None,
        };
        Ok(Write { label, key, value })
    }

    /// The label.
    pub fn label(&self) -> Label
        ensures { result.number ≡ self.now.label }
    {
        self.label
    }

    /// The key.
    pub fn key(&self) -> &Vec<u8>
        ensures { result.now.items ≡ self.now.key }
    {
        &self.key
    }

    /// The value, None for absent.
    pub fn value(&self) -> Option<&[u8]>
        ensures { option_copied result ≡ self.now.value }
    {
        match &self.value {
            Some(value) => Some(value.as_slice()),
            None => None,
        }
    }

    /// The size of the write's facet.
    pub fn size(&self) -> u64
        ensures { result ≡ size ((self.now.key, self.now.label), self.now.value) }
    {
        size_of(&self.key, self.value())
    }

    /// Whether the write is of the key at the label.
    pub fn is_of(&self, at: Label, key: &[u8]) -> bool
        ensures { result ≡ is_eq (slot_cmp (key.now, at.number) (self.now.key, self.now.label)) }
    {
        compare(key, at, &self.key, self.label) == Ordering::Equal
    }

    /// Whether a read of the key at a label sees the write.
    pub fn is_seen(&self, lattice: &Lattice, at: Label, key: &[u8]) -> bool
        requires label { self.now.label < count lattice.now }
        requires at { at.number < count lattice.now }
        ensures { result ≡ (pointwise nat_eq key.now self.now.key && flows lattice.now self.now.label at.number) }
    {
        key == self.key.as_slice() && lattice.flows(self.label, at)
    }

    /// Whether the write's facet is greater than one.
    pub fn is_after(&self, after: Option<(&Vec<u8>, Label)>) -> bool
        ensures { result ≡ is_after (slot_after after.entry) (self.now.key, self.now.label) }
    {
        match after {
            Some((key, label)) => { compare(key, label, &self.key, self.label) == Ordering::Less }
            None => true,
        }
    }

    /// Whether the write's facet is that of the other or less.
    pub fn is_no_greater(&self, other: &Write) -> bool
        ensures { MatchBool result
            (slot_cmp (other.now.key, other.now.label) (self.now.key, self.now.label) ≢ Less)
            (slot_cmp (other.now.key, other.now.label) (self.now.key, self.now.label) ≡ Less) }
    {
        compare(&other.key, other.label, &self.key, self.label) != Ordering::Less
    }
}

/// The order of facets: by key in byte order, then by label.
fn compare(a: &[u8], at: Label, b: &[u8], bt: Label) -> Ordering
    ensures { result ≡ slot_cmp (a.now, at.number) (b.now, bt.number) }
{
    a.cmp(b).then(at.number().cmp(&bt.number()))
}

/// The size of a facet: the length of its key and that of its value, 0 if absent.
pub fn size_of(key: &[u8], value: Option<&[u8]>) -> u64
    ensures { result ≡ size ((key.now, 0), option_copied value.entry) }
{
    let value = match value {
        Some(value) => value.len() as u64,
        None => 0,
    };
    key.len() as u64 + value
}
