//! The members of sections, and vectors of them.

ghost use Rattle.std.specs.Prelude.{◌≡◌, ◌<◌, ◌^◌, length, IfOk, Ok};
ghost use Rattle.wasm_code.specs.Answers.{place, ReadsAs};
ghost use Rattle.wasm_code.specs.Fields.{one_of, times, vector};
ghost use Rattle.wasm_decode.specs.Parts as parts;

use std::alloc::Global;
use wasm_ast::{
    Element, Export, ExportKind, FuncType, GlobalVar, Import, ImportKind, Indices, MemoryType,
    Octets, Piece, Table, ValType,
};
use wasm_code::{DecodeError, Input, expr};

/// What can be a member of a vector.
pub trait Member: Drop {
    ghost use Rattle.wasm_code.specs.Places.{Place, Reading};

    ghost read: { Place → Reading Self };

    /// The member that begins here, and what is behind it.
    fn read(alloc: Global, input: Input) -> Result<(Self, Input), DecodeError>
        ensures { ReadsAs (λ x. (x.0, place x.1)) result (read (place input.entry)) };
}

impl Member for u32 {
    ghost use Rattle.wasm_code.specs.Fields.{u32};

    ghost read = { u32 };

    fn read(_alloc: Global, input: Input) -> Result<(u32, Input), DecodeError> {
        input.u32()
    }
}

impl Member for ValType {
    ghost use Rattle.wasm_code.specs.Fields.{val_type};

    ghost read = { val_type };

    fn read(_alloc: Global, input: Input) -> Result<(ValType, Input), DecodeError> {
        input.val_type()
    }
}

/// So many members, one behind the other. Memory is taken for those that are there, whatever the count says.
pub fn times<T: Member>(
    alloc: Global,
    count: u32,
    input: Input,
) -> Result<(Vec<T>, Input), DecodeError>
    ensures { ReadsAs (λ x. (x.0.items, place x.1)) result (times T.read count (place input.entry)) }
{
    let mut found = Vec::new(alloc);
    let mut left = input;
    'members: for _ in 0..count {
        let (member, after) = T::read(alloc, left)?;
        found.push(member)?;
        left = after;
    }
    Ok((found, left))
}

/// A vector: the count, and so many members.
#[tactic(auto, unfolding(wasm_code::specs::Fields::vector))]
pub fn vector<T: Member>(alloc: Global, input: Input) -> Result<(Vec<T>, Input), DecodeError>
    ensures read { ReadsAs (λ x. (x.0.items, place x.1)) result (vector T.read (place input.entry)) }
    ensures few { IfOk result (λ x. length x.0.items < 2 ^ 32) }
{
    let (count, after) = input.u32()?;
    times(alloc, count, after)
}

impl Member for FuncType {
    ghost use Rattle.wasm_decode.specs.Parts.{func_type};

    ghost read = { func_type };

    #[tactic(auto, unfolding(crate::specs::Parts::func_type))]
    fn read(alloc: Global, input: Input) -> Result<(FuncType, Input), DecodeError> {
        let after = input.tag(0x60)?;
        let (params, after) = vector(alloc, after)?;
        let (results, after) = vector(alloc, after)?;
        Ok((FuncType::new(params, results), after))
    }
}

/// The byte 00 or 01.
fn flag(input: Input) -> Result<(bool, Input), DecodeError>
    ensures { ReadsAs (λ x. (x.0, place x.1)) result (one_of parts.flag_of (place input.entry)) }
{
    let (first, after) = input.byte()?;
    match first {
        0x00 => Ok((false, after)),
        0x01 => Ok((true, after)),
        _ => Err(DecodeError::Malformed(input.at)),
    }
}

/// Limits: a minimum, and a maximum where there is one.
#[tactic(auto, unfolding(crate::specs::Parts::limits))]
fn limits(input: Input) -> Result<((u32, Option<u32>), Input), DecodeError>
    ensures { ReadsAs (λ x. (x.0, place x.1)) result (parts.limits (place input.entry)) }
{
    let (bounded, after) = flag(input)?;
    let (minimum, after) = after.u32()?;
    if !bounded {
        return Ok(((minimum, None), after));
    }
    let (maximum, after) = after.u32()?;
    Ok(((minimum, Some(maximum)), after))
}

impl Member for MemoryType {
    ghost use Rattle.wasm_decode.specs.Parts.{memory_type};

    ghost read = { memory_type };

    #[tactic(auto, unfolding(crate::specs::Parts::memory_type))]
    fn read(_alloc: Global, input: Input) -> Result<(MemoryType, Input), DecodeError> {
        let ((minimum, maximum), after) = limits(input)?;
        Ok((MemoryType::new(minimum, maximum), after))
    }
}

impl Member for Table {
    ghost use Rattle.wasm_decode.specs.Parts.{table};

    ghost read = { table };

    #[tactic(auto, unfolding(crate::specs::Parts::table))]
    fn read(_alloc: Global, input: Input) -> Result<(Table, Input), DecodeError> {
        let after = input.tag(0x70)?;
        let ((minimum, maximum), after) = limits(after)?;
        Ok((Table::new(minimum, maximum), after))
    }
}

/// A global's value type, and whether it can be set.
#[tactic(auto, unfolding(crate::specs::Parts::global_type))]
fn global_type(input: Input) -> Result<((ValType, bool), Input), DecodeError>
    ensures { ReadsAs (λ x. (x.0, place x.1)) result (parts.global_type (place input.entry)) }
{
    let (val_type, after) = input.val_type()?;
    let (mutable, after) = flag(after)?;
    Ok(((val_type, mutable), after))
}

/// What is imported.
#[tactic(auto, unfolding(crate::specs::Parts::import_kind))]
fn import_kind(alloc: Global, input: Input) -> Result<(ImportKind, Input), DecodeError>
    ensures { ReadsAs (λ x. (x.0, place x.1)) result (parts.import_kind (place input.entry)) }
{
    let (first, after) = input.byte()?;
    match first {
        0x00 => {
            let (index, after) = after.u32()?;
            Ok((ImportKind::Function(index), after))
        }
        0x01 => {
            let (table, after) = Table::read(alloc, after)?;
            Ok((ImportKind::Table(table), after))
        }
        0x02 => {
            let (memory, after) = MemoryType::read(alloc, after)?;
            Ok((ImportKind::Memory(memory), after))
        }
        0x03 => {
            let ((val_type, mutable), after) = global_type(after)?;
            Ok((ImportKind::Global(val_type, mutable), after))
        }
        _ => Err(DecodeError::Malformed(input.at)),
    }
}

impl Member for Import {
    ghost use Rattle.wasm_decode.specs.Parts.{import};

    ghost read = { import };

    #[tactic(auto, unfolding(crate::specs::Parts::import))]
    fn read(alloc: Global, input: Input) -> Result<(Import, Input), DecodeError> {
        let (from, after) = input.name()?;
        let (name, after) = after.name()?;
        let (kind, after) = import_kind(alloc, after)?;
        let from = Octets::copy(alloc, from)?;
        let name = Octets::copy(alloc, name)?;
        Ok((Import::new(from, name, kind), after))
    }
}

impl Member for GlobalVar {
    ghost use Rattle.wasm_decode.specs.Parts.{global};

    ghost read = { global };

    #[tactic(auto, unfolding(crate::specs::Parts::global))]
    fn read(alloc: Global, input: Input) -> Result<(GlobalVar, Input), DecodeError> {
        let ((val_type, mutable), after) = global_type(input)?;
        let (initial, after) = expr(alloc, after)?;
        Ok((GlobalVar::new(val_type, mutable, initial), after))
    }
}

/// What is exported.
fn export_kind(input: Input) -> Result<(ExportKind, Input), DecodeError>
    ensures { ReadsAs (λ x. (x.0, place x.1)) result (one_of parts.export_kind_of (place input.entry)) }
{
    let (first, after) = input.byte()?;
    let kind = match first {
        0x00 => ExportKind::Function,
        0x01 => ExportKind::Table,
        0x02 => ExportKind::Memory,
        0x03 => ExportKind::Global,
        _ => return Err(DecodeError::Malformed(input.at)),
    };
    Ok((kind, after))
}

impl Member for Export {
    ghost use Rattle.wasm_decode.specs.Parts.{export};

    ghost read = { export };

    #[tactic(auto, unfolding(crate::specs::Parts::export))]
    fn read(alloc: Global, input: Input) -> Result<(Export, Input), DecodeError> {
        let (name, after) = input.name()?;
        let (kind, after) = export_kind(after)?;
        let (index, after) = after.u32()?;
        Ok((Export::new(Octets::copy(alloc, name)?, kind, index), after))
    }
}

impl Member for Element {
    ghost use Rattle.wasm_decode.specs.Parts.{element};

    ghost read = { element };

    #[tactic(auto, unfolding(crate::specs::Parts::element))]
    fn read(alloc: Global, input: Input) -> Result<(Element, Input), DecodeError> {
        let (index, after) = input.u32()?;
        let (offset, after) = expr(alloc, after)?;
        let (members, after) = vector(alloc, after)?;
        Ok((Element::new(index, offset, Indices::new(members)), after))
    }
}

impl Member for Piece {
    ghost use Rattle.wasm_decode.specs.Parts.{piece};

    ghost read = { piece };

    #[tactic(auto, unfolding(crate::specs::Parts::piece))]
    fn read(alloc: Global, input: Input) -> Result<(Piece, Input), DecodeError> {
        let (index, after) = input.u32()?;
        let (offset, after) = expr(alloc, after)?;
        let (content, after) = after.bytes()?;
        Ok((
            Piece::new(index, offset, Octets::copy(alloc, content)?),
            after,
        ))
    }
}
