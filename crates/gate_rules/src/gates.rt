//! Gates by their names.

ghost use Rattle.std.specs.Prelude.{◌≡◌, ◌<◌, ◌≤◌, ◌++◌, ◌∷◌, [], None, length, take, IfOk, OnOk, OnErr, IsTrue};
ghost use Rattle.trapeze_io.specs.Sizes.{longest_value};
ghost use Rattle.label_lattice.specs.Order.{count};
ghost use Rattle.gate_rules.specs.Gates.{gate_of, filtered, has, leads, passed, is_pass, AreFromLabels, AreNamedApart, AreUnderNames};

use crate::filter::Filter;
use crate::gate::Gate;
use indexmap::IndexMap;
use label_lattice::{Label, Lattice};
use std::alloc::Global;
use std::marker::Model;
use trapeze_io::{Bytes, Name, NoMemory};

/// What becomes of bytes that are released through a gate.
#[derive(Drop)]
pub enum Passage {
    /// They pass the gate, filtered.
    Pass { gate: Gate, bytes: Bytes },
    /// The releaser's label does not flow to the gate's source.
    Vanishes,
    /// No gate has the name.
    Unknown,
}

/// The table of gates.
#[derive(Drop)]
pub struct Gates {
    gates: IndexMap<Name, Gate>,
    alloc: Global,
}

impl Model for Gates {
    ghost use Rattle.std.specs.Prelude.{List, ℕ};
    ghost use Rattle.gate_rules.specs.declared.gate.Gate.{Gate};
    ghost use Rattle.gate_rules.specs.Gates.{AreNamedApart, AreUnderNames};

    ghost Value = { List (List ℕ × Gate) };

    ghost view = { λ g. g.gates.entries };

    ghost invariant = { λ g. AreNamedApart g.gates.entries × AreUnderNames g.gates.entries };
}

impl Gates {
    /// A table without gates.
    pub fn new(alloc: Global) -> Gates
        ensures { result ≡ [] }
    {
        Gates {
            gates: IndexMap::new(alloc),
            alloc,
        }
    }

    /// Adds a gate whose name is new. A refusal changes nothing.
    pub fn add(&mut self, name: Name, gate: Gate) -> Result<(), NoMemory>
        requires fresh { gate_of name self.old ≡ None }
        ensures ok { OnOk result (self.new ≡ self.old ++ (name, gate) ∷ []) }
        ensures err { OnErr result (self.new ≡ self.old) }
    {
        // Its bytes tell that it is a name.
        let _bytes = name.as_bytes();
        match self.gates.insert(name, gate) {
            Ok(_) => Ok(()),
            Err(_) => Err(NoMemory),
        }
    }

    /// What becomes of at most 65,536 bytes that are released from a label through the gate with this name.
    pub fn pass(
        &self,
        lattice: &Lattice,
        at: Label,
        name: &[u8],
        bytes: &[u8],
    ) -> Result<Passage, NoMemory>
        requires from { at.number < count lattice.now }
        requires labels { AreFromLabels (count lattice.now) self.now }
        requires few { length bytes.now ≤ longest_value }
        ensures passed { IfOk result (λ passage. passage ≡ passed lattice.now at.number bytes.now (gate_of name.now self.now)) }
        ensures refused { OnErr result (IsTrue (is_pass (passed lattice.now at.number bytes.now (gate_of name.now self.now)))) }
        ensures apart { AreNamedApart self.now }
        ensures named { AreUnderNames self.now }
    {
        let Some(gate) = self.gate_of(name) else {
            return Ok(Passage::Unknown);
        };
        if lattice.flows(at, gate.source) {
            let bytes = filtered(self.alloc, gate.filter, bytes)?;
            Ok(Passage::Pass { gate, bytes })
        } else {
            Ok(Passage::Vanishes)
        }
    }

    /// The gate with this name, if there is one.
    fn gate_of(&self, name: &[u8]) -> Option<Gate>
        ensures gate { result ≡ gate_of name.now self.now }
        ensures apart { AreNamedApart self.now }
        ensures named { AreUnderNames self.now }
    {
        let gates = &self.gates;
        let name = Name::read(name)?;
        gates.get(&name).copied()
    }

    /// Whether some gate leads from the source to the target, into the function.
    pub fn has(&self, source: Label, target: Label, function: u32) -> bool
        ensures has { result ≡ has source target function self.now }
        ensures apart { AreNamedApart self.now }
    {
        self.gates
            .values()
            .any(|gate| leads(gate, source, target, function))
    }
}

/// What the filter lets through of the bytes.
fn filtered(alloc: Global, filter: Filter, bytes: &[u8]) -> Result<Bytes, NoMemory>
    requires { length bytes.now ≤ longest_value }
    ensures { IfOk result (λ copy. copy ≡ filtered filter bytes.now) }
{
    match filter {
        Filter::All => Bytes::copy(alloc, bytes),
        Filter::Length => Bytes::copy(alloc, &(bytes.len() as u32).to_le_bytes()),
        Filter::First(count) => Bytes::copy(alloc, first(bytes, count as usize)),
    }
}

/// The first bytes, at most so many.
fn first(bytes: &[u8], count: usize) -> &[u8]
    ensures { result.now ≡ take count bytes.now }
{
    if count < bytes.len() {
        &bytes[..count]
    } else {
        bytes
    }
}

/// Whether the gate leads from the source to the target, into the function.
fn leads(gate: &Gate, source: Label, target: Label, function: u32) -> bool
    ensures { result ≡ leads source target function gate.now }
{
    gate.source == source && gate.target == target && gate.function == function
}
