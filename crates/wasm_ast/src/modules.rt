//! Modules.

ghost use Rattle.std.specs.Prelude.{◌≡◌};

use crate::bodies::Body;
use crate::elements::Element;
use crate::exports::Export;
use crate::func_types::FuncType;
use crate::global_vars::GlobalVar;
use crate::imports::Import;
use crate::memory_types::MemoryType;
use crate::pieces::Piece;
use crate::tables::Table;
use sqlite_items::Items;

/// A module. WebAssembly 1.0, 2.5.
///
/// The functions are the indices of their types, and the bodies stand in the same order. The pieces are the data segments.
/// Custom sections are not kept.
#[derive(Debug, Drop)]
pub struct Module {
    pub types: Items<FuncType>,
    pub imports: Items<Import>,
    pub functions: Items<u32>,
    pub tables: Items<Table>,
    pub memories: Items<MemoryType>,
    pub globals: Items<GlobalVar>,
    pub exports: Items<Export>,
    pub start: Option<u32>,
    pub elements: Items<Element>,
    pub pieces: Items<Piece>,
    pub bodies: Items<Body>,
}

impl Module {
    pub fn new(
        types: Vec<FuncType>,
        imports: Vec<Import>,
        functions: Vec<u32>,
        tables: Vec<Table>,
        memories: Vec<MemoryType>,
        globals: Vec<GlobalVar>,
        exports: Vec<Export>,
        start: Option<u32>,
        elements: Vec<Element>,
        pieces: Vec<Piece>,
        bodies: Vec<Body>,
    ) -> Module
        ensures { result ≡ record {
          types = types.items;
          imports = imports.items;
          functions = functions.items;
          tables = tables.items;
          memories = memories.items;
          globals = globals.items;
          exports = exports.items;
          start = start;
          elements = elements.items;
          pieces = pieces.items;
          bodies = bodies.items;
        } }
    {
        Module {
            types: Items::from_vec(types),
            imports: Items::from_vec(imports),
            functions: Items::from_vec(functions),
            tables: Items::from_vec(tables),
            memories: Items::from_vec(memories),
            globals: Items::from_vec(globals),
            exports: Items::from_vec(exports),
            start,
            elements: Items::from_vec(elements),
            pieces: Items::from_vec(pieces),
            bodies: Items::from_vec(bodies),
        }
    }

    pub fn types(&self) -> &[FuncType]
        ensures { result.now ≡ self.now.types }
    {
        self.types.as_slice()
    }

    pub fn imports(&self) -> &[Import]
        ensures { result.now ≡ self.now.imports }
    {
        self.imports.as_slice()
    }

    pub fn functions(&self) -> &[u32]
        ensures { result.now ≡ self.now.functions }
    {
        self.functions.as_slice()
    }

    pub fn tables(&self) -> &[Table]
        ensures { result.now ≡ self.now.tables }
    {
        self.tables.as_slice()
    }

    pub fn memories(&self) -> &[MemoryType]
        ensures { result.now ≡ self.now.memories }
    {
        self.memories.as_slice()
    }

    pub fn globals(&self) -> &[GlobalVar]
        ensures { result.now ≡ self.now.globals }
    {
        self.globals.as_slice()
    }

    pub fn exports(&self) -> &[Export]
        ensures { result.now ≡ self.now.exports }
    {
        self.exports.as_slice()
    }

    pub fn start(&self) -> Option<u32>
        ensures { result ≡ self.now.start }
    {
        self.start
    }

    pub fn elements(&self) -> &[Element]
        ensures { result.now ≡ self.now.elements }
    {
        self.elements.as_slice()
    }

    pub fn pieces(&self) -> &[Piece]
        ensures { result.now ≡ self.now.pieces }
    {
        self.pieces.as_slice()
    }

    pub fn bodies(&self) -> &[Body]
        ensures { result.now ≡ self.now.bodies }
    {
        self.bodies.as_slice()
    }
}
