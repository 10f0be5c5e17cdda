//! The rules of structure.

ghost use Rattle.std.specs.Prelude.{◌≡◌, ◌<◌, ◌^◌, ◌+◌, ◌&&◌, not, nat_le, nat_lt, length, option_map, position, find, IfSome};
ghost use Rattle.std.specs.Option.{option_copied};
ghost use Rattle.std.specs.List.{list_all};
ghost use Rattle.wasm_ast.specs.declared.func_types.FuncType.{FuncType};
ghost use Rattle.wasm_ast.specs.declared.exports.Export.{Export};
ghost use Rattle.wasm_ast.specs.Structure.{constant, constant_value as value_of_code, is_constant_of};
ghost use Rattle.wasm_ast.specs.Structure.{is_at_most, is_table, is_memory, has_most_pages, is_global, space, names_differ};
ghost use Rattle.wasm_ast.specs.Structure.{is_entry_type, is_start, is_element, is_piece, is_handle, rules};
ghost use Rattle.wasm_ast.specs.Spaces.{function_count, table_size, first_pages, type_of};
ghost use Rattle.wasm_ast.specs.Validity.{handle_of, is_element_past, is_piece_past, segment_place};

use crate::hosts::has_type;
use wasm_ast::{
    Element, Export, ExportKind, GlobalVar, Instr, MemoryType, Module, Piece, SegmentPlace, Table,
    ValType, constant_of, constant_value,
};
use wasm_typing::{function_type, memory_in, table_in};

fn at_most(n: u32, most: Option<u32>) -> bool
    ensures { result ≡ is_at_most n most }
{
    match most {
        Some(most) => n <= most,
        None => true,
    }
}

fn one_result(module: &Module) -> bool
    ensures { result ≡ list_all (λ (t : FuncType). nat_le (length t.results) 1) module.now.types }
{
    module.types().iter().all(|t| t.results().len() <= 1)
}

fn types_in_range(module: &Module) -> bool
    ensures { result ≡ list_all (λ k. nat_lt k (length module.now.types)) module.now.functions }
{
    let count = module.types().len();
    module.functions().iter().all(|k| (*k as usize) < count)
}

fn table_limits(table: &Table) -> bool
    ensures { result ≡ is_table table.now }
{
    at_most(table.minimum(), table.maximum()) && table.minimum() <= 65536
}

fn each_table_fits(module: &Module) -> bool
    ensures { result ≡ list_all is_table module.now.tables }
{
    module.tables().iter().all(|t| table_limits(t))
}

fn tables_fit(module: &Module) -> bool
    ensures { result ≡ (nat_le (length module.now.tables) 1 && list_all is_table module.now.tables) }
{
    module.tables().len() <= 1 && each_table_fits(module)
}

fn memory_limits(memory: &MemoryType) -> bool
    ensures { result ≡ is_memory memory.now }
{
    if !at_most(memory.minimum(), memory.maximum()) {
        return false;
    }
    if memory.minimum() > 65536 {
        return false;
    }
    match memory.maximum() {
        Some(most) => most <= 65536,
        None => true,
    }
}

fn each_memory_fits(module: &Module) -> bool
    ensures { result ≡ list_all is_memory module.now.memories }
{
    module.memories().iter().all(|t| memory_limits(t))
}

fn memories_fit(module: &Module) -> bool
    ensures { result ≡ (nat_le (length module.now.memories) 1 && list_all is_memory module.now.memories) }
{
    module.memories().len() <= 1 && each_memory_fits(module)
}

fn is_constant(wanted: ValType, code: &[Instr]) -> bool
    ensures { result ≡ is_constant_of wanted (constant code.now) }
{
    match constant_of(code) {
        Some((found, _)) => found == wanted,
        None => false,
    }
}

fn globals_fit(module: &Module) -> bool
    ensures { result ≡ list_all is_global module.now.globals }
{
    module
        .globals()
        .iter()
        .all(|g| is_constant(g.val_type(), g.initial().items()))
}

fn is_exported(module: &Module, export: &Export) -> bool
    requires { function_count module.now < 2 ^ 64 }
    ensures { result ≡ nat_lt export.now.index (space module.now export.now.kind) }
{
    let index = export.index() as usize;
    match export.kind() {
        ExportKind::Function => index < module.imports().len() + module.functions().len(),
        ExportKind::Table => index < module.tables().len(),
        ExportKind::Memory => index < module.memories().len(),
        ExportKind::Global => index < module.globals().len(),
    }
}

fn exports_in_range(module: &Module) -> bool
    requires { function_count module.now < 2 ^ 64 }
    ensures { result ≡ list_all (λ (e : Export). nat_lt e.index (space module.now e.kind)) module.now.exports }
{
    module.exports().iter().all(|e| is_exported(module, e))
}

fn is_entry(module: &Module, index: u32) -> bool
    ensures { result ≡ is_entry_type (type_of module.now index) }
{
    match function_type(module, index) {
        Some(signature) => has_type(signature, &[], &[]),
        None => false,
    }
}

fn start_fits(module: &Module) -> bool
    ensures { result ≡ is_start module.now module.now.start }
{
    match module.start() {
        Some(index) => is_entry(module, index),
        None => true,
    }
}

fn each_below(members: &[u32], count: usize) -> bool
    ensures { result ≡ list_all (λ x. nat_lt x count) members.now }
{
    members.iter().all(|x| (*x as usize) < count)
}

fn element_fits(module: &Module, element: &Element) -> bool
    requires { function_count module.now < 2 ^ 64 }
    ensures { result ≡ is_element module.now element.now }
{
    let count = module.imports().len() + module.functions().len();
    element.index() == 0
        && !module.tables().is_empty()
        && is_constant(ValType::I32, element.offset().items())
        && each_below(element.members().items(), count)
}

fn elements_fit(module: &Module) -> bool
    requires { function_count module.now < 2 ^ 64 }
    ensures { result ≡ list_all (is_element module.now) module.now.elements }
{
    module.elements().iter().all(|e| element_fits(module, e))
}

fn piece_fits(module: &Module, piece: &Piece) -> bool
    ensures { result ≡ is_piece module.now piece.now }
{
    piece.index() == 0
        && !module.memories().is_empty()
        && is_constant(ValType::I32, piece.offset().items())
}

fn pieces_fit(module: &Module) -> bool
    ensures { result ≡ list_all (is_piece module.now) module.now.pieces }
{
    module.pieces().iter().all(|p| piece_fits(module, p))
}

fn is_entry_point(module: &Module, export: &Export) -> bool
    ensures { result ≡ is_handle module.now export.now }
{
    *export.kind() == ExportKind::Function
        && export.name().as_slice() == b"handle".as_slice()
        && is_entry(module, export.index())
}

fn find_handle(module: &Module) -> Option<&Export>
    ensures { option_copied result ≡ find (is_handle module.now) module.now.exports }
{
    module.exports().iter().find(|e| is_entry_point(module, e))
}

/// The function that is the entry point.
#[tactic(auto, unfolding(wasm_ast::specs::Validity::handle_of))]
pub fn entry_point(module: &Module) -> Option<u32>
    ensures { result ≡ handle_of module.now }
{
    match find_handle(module) {
        Some(export) => Some(export.index()),
        None => None,
    }
}

/// Whether so many more than the value are more than the size.
fn is_past(size: u64, value: u64, count: usize) -> bool
    ensures { result ≡ nat_lt size (value + count) }
{
    value > size || count as u64 > size - value
}

fn element_past(module: &Module, element: &Element) -> bool
    ensures { result ≡ is_element_past module.now element.now }
{
    let size = match table_in(module) {
        Some(table) => table.minimum(),
        None => 0,
    };
    is_past(
        u64::from(size),
        constant_value(element.offset().items()),
        element.members().items().len(),
    )
}

fn piece_past(module: &Module, piece: &Piece) -> bool
    ensures { result ≡ is_piece_past module.now piece.now }
{
    let pages = match memory_in(module) {
        Some(memory) => memory.minimum(),
        None => 0,
    };
    is_past(
        u64::from(pages) * 65536,
        constant_value(piece.offset().items()),
        piece.bytes().as_slice().len(),
    )
}

pub fn past_element(module: &Module) -> Option<usize>
    ensures place { result ≡ position (is_element_past module.now) module.now.elements }
    ensures below { IfSome result (λ k. k < length module.now.elements) }
{
    module
        .elements()
        .iter()
        .position(|e| element_past(module, e))
}

pub fn past_piece(module: &Module) -> Option<usize>
    ensures place { result ≡ position (is_piece_past module.now) module.now.pieces }
    ensures below { IfSome result (λ k. k < length module.now.pieces) }
{
    module.pieces().iter().position(|p| piece_past(module, p))
}

/// The first segment that ends past what it fills, elements before data.
pub fn past_segment(module: &Module) -> Option<SegmentPlace>
    requires elements { length module.now.elements < 2 ^ 32 }
    requires pieces { length module.now.pieces < 2 ^ 32 }
    ensures { result ≡ segment_place module.now }
{
    if let Some(k) = past_element(module) {
        return Some(SegmentPlace::Element(k as u32));
    }
    if let Some(k) = past_piece(module) {
        return Some(SegmentPlace::Data(k as u32));
    }
    None
}

/// The first rule of structure that fails, counted from 0, where it is known whether names of exports differ.
pub fn failed_rule(module: &Module, names: bool) -> Option<usize>
    requires names { names ≡ names_differ module.now.exports }
    requires count { function_count module.now < 2 ^ 64 }
    ensures place { result ≡ position not (rules module.now) }
    ensures below { IfSome result (λ k. k < 10) }
{
    let holding = [
        one_result(module),
        types_in_range(module),
        tables_fit(module),
        memories_fit(module),
        globals_fit(module),
        exports_in_range(module),
        names,
        start_fits(module),
        elements_fit(module),
        pieces_fit(module),
    ];
    holding.iter().position(|holds| !*holds)
}
