//! Imports.

ghost use Rattle.std.specs.Prelude.{◌≡◌};

use crate::memory_types::MemoryType;
use crate::octets::Octets;
use crate::tables::Table;
use crate::val_types::ValType;

/// What is imported. WebAssembly 1.0, 2.5.11.
#[derive(Clone, Copy, Debug, PartialEq, Eq)]
pub enum ImportKind {
    /// The index of the function's type.
    Function(u32),
    Table(Table),
    Memory(MemoryType),
    /// The type, and whether the global can be set.
    Global(ValType, bool),
}

/// An import: the name of the module that it is from, its name there, and what it is.
#[derive(Debug, Drop)]
pub struct Import {
    pub module: Octets,
    pub name: Octets,
    pub kind: ImportKind,
}

impl Import {
    pub fn new(module: Octets, name: Octets, kind: ImportKind) -> Import
        ensures { result ≡ record { «module» = «module»; name = name; kind = kind } }
    {
        Import { module, name, kind }
    }

    pub fn module(&self) -> &Octets
        ensures { result.now ≡ self.now.module }
    {
        &self.module
    }

    pub fn name(&self) -> &Octets
        ensures { result.now ≡ self.now.name }
    {
        &self.name
    }

    pub fn kind(&self) -> &ImportKind
        ensures { result.now ≡ self.now.kind }
    {
        &self.kind
    }
}
