//! A policy.

ghost use Rattle.std.specs.Prelude.{◌≡◌, ◌<◌, Some, length, slice_get};
ghost use Rattle.label_lattice.specs.Order.{count};
ghost use Rattle.policy_toml.specs.Parts.{IsPolicy, parts_of};

use gate_rules::Gates;
use label_lattice::{Label, Lattice};
use label_limits::Limits;
use labelled_channel::Channels;
use std::marker::Model;
use trapeze_io::Name;

/// The labels of a host with their order and limits, its functions, channels, clients and gates. Functions and clients are
/// numbered from 0 in byte order of their names.
#[derive(Drop)]
pub struct Policy {
    lattice: Lattice,
    limits: Vec<Limits>,
    channels: Channels,
    functions: Vec<Name>,
    files: Vec<String>,
    clients: Vec<Name>,
    clearances: Vec<Label>,
    gates: Gates,
}

impl Model for Policy {
    ghost use Rattle.policy_toml.specs.Parts.{Parts};

    ghost Value = { Parts };

    ghost use Rattle.policy_toml.specs.Kept.{kept_parts, IsSound};

    ghost view = { kept_parts };

    ghost invariant = { IsSound };
}

impl Policy {
    /// The policy that has these parts: a row of limits for each label, the names of functions and of clients in byte
    /// order, a file name of 1 to 255 bytes for each function, a clearance for each client, and no number past a count.
    pub fn from_parts(
        lattice: Lattice,
        limits: Vec<Limits>,
        channels: Channels,
        functions: Vec<Name>,
        files: Vec<String>,
        clients: Vec<Name>,
        clearances: Vec<Label>,
        gates: Gates,
    ) -> Policy
        requires { IsPolicy (parts_of lattice limits.items channels functions.items files.items clients.items clearances.items gates) }
        ensures { result ≡ parts_of lattice limits.items channels functions.items files.items clients.items clearances.items gates }
    {
        Policy {
            lattice,
            limits,
            channels,
            functions,
            files,
            clients,
            clearances,
            gates,
        }
    }

    /// The labels and their order.
    pub fn lattice(&self) -> &Lattice
        ensures lattice { result.now ≡ self.now.lattice }
        ensures policy { IsPolicy self.now }
    {
        &self.lattice
    }

    /// The limits of each label, by its number.
    pub fn limits(&self) -> &[Limits]
        ensures limits { result.now ≡ self.now.limits }
        ensures policy { IsPolicy self.now }
    {
        self.limits.as_slice()
    }

    /// The channels.
    pub fn channels(&self) -> &Channels
        ensures channels { result.now ≡ self.now.channels }
        ensures policy { IsPolicy self.now }
    {
        &self.channels
    }

    /// The names of the functions, by number.
    pub fn functions(&self) -> &[Name]
        ensures functions { result.now ≡ self.now.functions }
        ensures policy { IsPolicy self.now }
    {
        self.functions.as_slice()
    }

    /// The file name of a function.
    pub fn function_file(&self, f: u32) -> &str
        requires { f < length self.now.functions }
        ensures { slice_get self.now.files f ≡ Some result.now }
    {
        self.files[f as usize].as_str()
    }

    /// The names of the clients, by number.
    pub fn clients(&self) -> &[Name]
        ensures clients { result.now ≡ self.now.clients }
        ensures policy { IsPolicy self.now }
    {
        self.clients.as_slice()
    }

    /// The clearance of a client: the label to which a reply has to flow so that the client gets it.
    pub fn clearance(&self, client: u32) -> Label
        requires { client < length self.now.clients }
        ensures clearance { slice_get self.now.clearances client ≡ Some result.number }
        ensures within { result.number < count self.now.lattice }
    {
        self.clearances[client as usize]
    }

    /// The gates.
    pub fn gates(&self) -> &Gates
        ensures gates { result.now ≡ self.now.gates }
        ensures policy { IsPolicy self.now }
    {
        &self.gates
    }
}
