//! A lattice of labels.

ghost use Rattle.std.specs.Prelude.{◌≡◌, ◌<◌, ◌≤◌, Some, slice_get, length, IfOk, IfSome, option_map};
ghost use Rattle.label_lattice.specs.Order.{count, place_of};
ghost use Rattle.label_lattice.specs.Rows.{ArePairs, IsClosure};
ghost use Rattle.label_lattice.specs.Joins.{IsJoin, join};
ghost use Rattle.label_lattice.specs.Reach.{pairs_numbered, order_of, flows};
ghost use Rattle.label_lattice.specs.Faults.{Passes, first_fault, end_fault};
ghost use Rattle.label_lattice.specs.Sound.{IsSound, HasTop};

use crate::error::LatticeError;
use crate::label::Label;
use crate::names::Names;
use crate::search::check;
use crate::table::Table;
use std::alloc::Global;
use std::marker::Model;
use trapeze_io::{Bytes, Name};

/// A lattice of 1 to 64 labels with different names.
#[derive(Drop)]
pub struct Lattice {
    names: Names,
    pairs: Vec<(u8, u8)>,
    table: Table,
}

impl Model for Lattice {
    ghost use Rattle.std.specs.Prelude.{length};
    ghost use Rattle.label_lattice.specs.Order.{Order};
    ghost use Rattle.label_lattice.specs.Rows.{ArePairs, IsClosure};
    ghost use Rattle.label_lattice.specs.Sound.{IsSound};

    ghost Value = { Order };

    ghost view = { λ l. record { names = l.names; pairs = l.pairs.items } };

    ghost invariant = { λ l. IsSound (record { names = l.names; pairs = l.pairs.items })
        × ArePairs (length l.names) l.pairs.items × IsClosure (length l.names) l.pairs.items l.table };
}

impl Lattice {
    /// The lattice of these names in which a label flows to itself and to what it reaches by the pairs, which are of
    /// names. Where they make none, the first fault is the answer, in the order of the variants, with two exceptions:
    /// the names are taken position by position, so a repeated name stands before a bad one at a later position; and a
    /// cycle, a missing join or a missing meet is that of the first two labels in the order of the first, and then of
    /// the second.
    pub fn build(
        alloc: Global,
        names: &[Bytes],
        flows: &[(Bytes, Bytes)],
    ) -> Result<Lattice, LatticeError>
        ensures fault { Passes (first_fault names.now flows.now) result }
        ensures order { IfOk result (λ lattice. lattice ≡ order_of names.now flows.now) }
    {
        if names.is_empty() {
            return Err(LatticeError::NoLabels);
        }
        if names.len() > 64 {
            return Err(LatticeError::TooMany);
        }
        let names = Names::read(alloc, names)?;
        let pairs = pairs_numbered(alloc, &names, flows)?;
        let count = names.count();
        let table = closure(count, &pairs);
        check(&table, count)?;
        Ok(Lattice {
            names,
            pairs,
            table,
        })
    }

    /// Whether a flows to b.
    pub fn flows(&self, a: Label, b: Label) -> bool
        requires from { a.number < count self.now }
        requires to { b.number < count self.now }
        ensures { result ≡ flows self.now a.number b.number }
    {
        self.table.flows(a.number, b.number)
    }

    /// The least label that both flow to.
    pub fn join(&self, a: Label, b: Label) -> Label
        requires left { a.number < count self.now }
        requires right { b.number < count self.now }
        ensures join { result.number ≡ join (count self.now) (flows self.now) a.number b.number }
        ensures within { result.number < count self.now }
        ensures least { IsJoin (count self.now) (flows self.now) a.number b.number result.number }
    {
        match self.table.join(self.names.count(), a.number, b.number) {
            Some(number) => Label { number },
            None => unreachable!(),
        }
    }

    /// The label with this name, if there is one.
    pub fn find(&self, name: &[u8]) -> Option<Label>
        ensures place { option_map (λ label. label.number) result ≡ place_of name.now self.now.names }
        ensures within { IfSome result (λ label. label.number < count self.now) }
    {
        match self.names.find(name) {
            Some(number) => Some(Label { number }),
            None => None,
        }
    }

    /// The name of a label.
    pub fn name(&self, a: Label) -> Name
        requires { a.number < count self.now }
        ensures { slice_get self.now.names a.number ≡ Some result }
    {
        self.names.name(a.number)
    }

    /// How many labels there are.
    pub fn count(&self) -> u8
        ensures count { result ≡ count self.now }
        ensures some { 0 < count self.now }
        ensures few { count self.now ≤ 64 }
        ensures sound { IsSound self.now }
        ensures top { HasTop self.now }
    {
        self.names.count()
    }
}

/// The pairs by number.
fn pairs_numbered(
    alloc: Global,
    names: &Names,
    flows: &[(Bytes, Bytes)],
) -> Result<Vec<(u8, u8)>, LatticeError>
    ensures fault { Passes (end_fault names.now flows.now) result }
    ensures pairs { IfOk result (λ pairs. pairs.items ≡ pairs_numbered names.now flows.now) }
{
    let mut pairs = Vec::new(alloc);
    'flows: for (j, (from, to)) in flows.iter().enumerate() {
        let Some(from) = names.find(from.as_slice()) else {
            return Err(LatticeError::UnknownLabel(j as u64));
        };
        let Some(to) = names.find(to.as_slice()) else {
            return Err(LatticeError::UnknownLabel(j as u64));
        };
        let Ok(()) = pairs.push((from, to)) else {
            return Err(LatticeError::NoMemory);
        };
    }
    Ok(pairs)
}

/// Which label flows to which.
fn closure(count: u8, pairs: &[(u8, u8)]) -> Table
    requires few { count ≤ 64 }
    requires within { ArePairs count pairs.now }
    ensures { IsClosure count pairs.now result }
{
    let mut table = Table::new(count);
    'pairs: for &(from, to) in pairs.iter() {
        table.add(from, to);
    }
    table
}
