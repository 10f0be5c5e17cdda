//! Modules.

ghost use Rattle.std.specs.Prelude.{◌≡◌, ◌≤◌, ◌⊎◌, ℕ, List, length, IfOk, IfErr, Ok, Err};
ghost use Rattle.wasm_ast.specs.declared.modules.Module.{Module};
ghost use Rattle.wasm_ast.specs.Validity.{IsSmall};
ghost use Rattle.wasm_code.specs.declared.error.DecodeError.{DecodeError};
ghost use Rattle.wasm_code.specs.declared.error.DecodeError.TheVariants.{NoMemory};
ghost use Rattle.wasm_code.specs.Answers.{place, ReadsAs, OrNoMemory};
ghost use Rattle.wasm_decode.specs.Grammar.{Spells};
ghost use Rattle.wasm_decode.specs.Sections.{Fails};
ghost use Rattle.wasm_decode.specs.Sections as reading;

use crate::sections::{
    code_section, data_section, ended, is_counted, number_section, vector_section,
};
use std::alloc::Global;
use wasm_ast::Module;
use wasm_code::{DecodeError, Input};

/// These bytes, as one field.
fn exactly<'a>(input: Input<'a>, front: &[u8]) -> Result<Input<'a>, DecodeError>
    ensures { ReadsAs place result (reading.exactly front.now (place input.entry)) }
{
    if !input.rest.starts_with(front) {
        return Err(DecodeError::Malformed(input.at));
    }
    Ok(input.past(front.len()))
}

/// The sections of a module, in their order, up to the end of the file.
#[tactic(auto, unfolding(crate::specs::Sections::sections))]
fn sections(alloc: Global, input: Input) -> Result<Module, DecodeError>
    ensures read { ReadsAs (λ x. x) result (reading.sections (place input.entry)) }
    ensures small { IfOk result IsSmall }
{
    let (types, input) = vector_section(alloc, 1, input)?;
    let (imports, input) = vector_section(alloc, 2, input)?;
    let (functions, input) = vector_section(alloc, 3, input)?;
    let (tables, input) = vector_section(alloc, 4, input)?;
    let (memories, input) = vector_section(alloc, 5, input)?;
    let (globals, input) = vector_section(alloc, 6, input)?;
    let (exports, input) = vector_section(alloc, 7, input)?;
    let (start, input) = number_section(8, input)?;
    let (elements, input) = vector_section(alloc, 9, input)?;
    let (counted, input) = number_section(12, input)?;
    let (bodies, input) = code_section(alloc, functions.len(), input)?;
    let (pieces, input) = data_section(alloc, counted, input)?;
    let input = ended(input)?;
    if bodies.len() != functions.len() || !is_counted(counted, pieces.len()) {
        return Err(DecodeError::Malformed(input.at));
    }
    Ok(Module::new(
        types, imports, functions, tables, memories, globals, exports, start, elements, pieces,
        bodies,
    ))
}

/// The header, and the sections behind it.
fn file(alloc: Global, bytes: &[u8]) -> Result<Module, DecodeError>
    requires { length bytes.now ≤ 4194304 }
    ensures read { ReadsAs (λ x. x) result (reading.module_of bytes.now) }
    ensures small { IfOk result IsSmall }
{
    let input = Input { rest: bytes, at: 0 };
    let input = exactly(input, &[0x00, 0x61, 0x73, 0x6d])?;
    let input = exactly(input, &[0x01, 0x00, 0x00, 0x00])?;
    sections(alloc, input)
}

/// The module that the bytes spell.
///
/// # Errors
///
/// The first fault, or out of memory.
pub fn decode(alloc: Global, bytes: &[u8]) -> Result<Module, DecodeError>
    requires { length bytes.now ≤ 4194304 }
    ensures found { IfOk result (λ m. Spells m bytes.now) }
    ensures small { IfOk result IsSmall }
    ensures only { (m : Module) → Spells m bytes.now → OrNoMemory result (Ok m) }
    ensures fault { IfErr result (λ e. (e ≡ NoMemory) ⊎ Fails bytes.now e) }
    ensures first { (e : DecodeError) → Fails bytes.now e → OrNoMemory result (Err e) }
{
    file(alloc, bytes)
}
