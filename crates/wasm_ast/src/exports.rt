//! Exports.

ghost use Rattle.std.specs.Prelude.{◌≡◌};

use crate::octets::Octets;

/// What is exported. WebAssembly 1.0, 2.5.10.
#[derive(Clone, Copy, Debug, PartialEq, Eq)]
pub enum ExportKind {
    Function,
    Table,
    Memory,
    Global,
}

/// An export: its name, its kind, and its index among those of its kind.
#[derive(Debug, Drop)]
pub struct Export {
    pub name: Octets,
    pub kind: ExportKind,
    pub index: u32,
}

impl Export {
    pub fn new(name: Octets, kind: ExportKind, index: u32) -> Export
        ensures { result ≡ record { name = name; kind = kind; index = index } }
    {
        Export { name, kind, index }
    }

    pub fn name(&self) -> &Octets
        ensures { result.now ≡ self.now.name }
    {
        &self.name
    }

    pub fn kind(&self) -> &ExportKind
        ensures { result.now ≡ self.now.kind }
    {
        &self.kind
    }

    pub fn index(&self) -> u32
        ensures { result ≡ self.now.index }
    {
        self.index
    }
}
