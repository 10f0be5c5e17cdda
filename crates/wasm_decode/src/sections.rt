//! Sections, each behind custom ones.

ghost use Rattle.std.specs.Option.{option_map};
ghost use Rattle.std.specs.Prelude.{◌≡◌, ◌<◌, ◌^◌, [], length, IfOk, None, Ok};
ghost use Rattle.wasm_code.specs.Answers.{place, ReadsAs};
ghost use Rattle.wasm_code.specs.Fields.{u32, vector};
ghost use Rattle.wasm_decode.specs.Parts as parts;
ghost use Rattle.wasm_decode.specs.Sections as sections;

use crate::members::{Member, times, vector};
use std::alloc::Global;
use wasm_ast::{Body, Piece};
use wasm_code::{DecodeError, Input, filled_body};

/// What is behind this id, where it stands here.
#[tactic(auto, unfolding(crate::specs::Sections::after_id))]
fn after_id(id: u8, input: Input) -> Option<Input>
    ensures { option_map place result ≡ sections.after_id id (place input.entry) }
{
    let [first, rest @ ..] = input.rest else {
        return None;
    };
    if *first != id {
        return None;
    }
    Some(Input {
        rest,
        at: input.at + 1,
    })
}

/// What is behind the custom sections that stand here.
fn customs(input: Input) -> Result<Input, DecodeError>
    ensures { ReadsAs (λ x. place x) result (sections.all_customs (place input.entry)) }
{
    let mut left = input;
    'customs: while let Some(section) = after_id(0, left) {
        let (range, after) = section.range()?;
        range.name()?;
        left = after;
    }
    Ok(left)
}

/// The vector of the section of this id, or none where it is left out.
#[tactic(auto, unfolding(crate::specs::Sections::section, wasm_code::specs::Fields::sized))]
pub fn vector_section<T: Member>(
    alloc: Global,
    id: u8,
    input: Input,
) -> Result<(Vec<T>, Input), DecodeError>
    ensures read { ReadsAs (λ x. (x.0.items, place x.1)) result (sections.section id (vector T.read) [] (place input.entry)) }
    ensures few { IfOk result (λ x. length x.0.items < 2 ^ 32) }
{
    let input = customs(input)?;
    let Some(section) = after_id(id, input) else {
        return Ok((Vec::new(alloc), input));
    };
    let (range, after) = section.range()?;
    let (members, left) = vector(alloc, range)?;
    left.ended()?;
    Ok((members, after))
}

/// The integer of the section of this id, or none where it is left out.
#[tactic(auto, unfolding(crate::specs::Sections::section, wasm_code::specs::Fields::sized, crate::specs::Parts::number))]
pub fn number_section(id: u8, input: Input) -> Result<(Option<u32>, Input), DecodeError>
    ensures { ReadsAs (λ x. (x.0, place x.1)) result (sections.section id parts.number None (place input.entry)) }
{
    let input = customs(input)?;
    let Some(section) = after_id(id, input) else {
        return Ok((None, input));
    };
    let (range, after) = section.range()?;
    let (number, left) = range.u32()?;
    left.ended()?;
    Ok((Some(number), after))
}

/// The bodies numbered from 0, so many, each behind its size.
fn bodies(alloc: Global, count: u32, input: Input) -> Result<(Vec<Body>, Input), DecodeError>
    ensures { ReadsAs (λ x. (x.0.items, place x.1)) result (parts.bodies 0 count (place input.entry)) }
{
    let mut found = Vec::new(alloc);
    let mut left = input;
    'bodies: for function in 0..count {
        let (range, after) = left.range()?;
        let body = filled_body(alloc, function, range)?;
        found.push(body)?;
        left = after;
    }
    Ok((found, left))
}

/// The bodies of so many functions: the contents of the code section.
#[tactic(auto, unfolding(crate::specs::Parts::code))]
fn code(alloc: Global, functions: usize, input: Input) -> Result<(Vec<Body>, Input), DecodeError>
    ensures read { ReadsAs (λ x. (x.0.items, place x.1)) result (parts.code functions (place input.entry)) }
    ensures few { IfOk result (λ x. length x.0.items < 2 ^ 32) }
{
    let (count, after) = input.u32()?;
    if count as usize != functions {
        return Err(DecodeError::Malformed(input.at));
    }
    bodies(alloc, count, after)
}

/// The code section, or no bodies where it is left out.
#[tactic(auto, unfolding(crate::specs::Sections::section, wasm_code::specs::Fields::sized))]
pub fn code_section(
    alloc: Global,
    functions: usize,
    input: Input,
) -> Result<(Vec<Body>, Input), DecodeError>
    ensures read { ReadsAs (λ x. (x.0.items, place x.1)) result (sections.section 10 (parts.code functions) [] (place input.entry)) }
    ensures few { IfOk result (λ x. length x.0.items < 2 ^ 32) }
{
    let input = customs(input)?;
    let Some(section) = after_id(10, input) else {
        return Ok((Vec::new(alloc), input));
    };
    let (range, after) = section.range()?;
    let (bodies, left) = code(alloc, functions, range)?;
    left.ended()?;
    Ok((bodies, after))
}

/// Whether there are as many data segments as were counted, if they were.
pub fn is_counted(counted: Option<u32>, count: usize) -> bool
    ensures { result ≡ parts.is_counted counted count }
{
    match counted {
        None => true,
        Some(counted) => count == counted as usize,
    }
}

/// The data segments: the contents of the data section.
#[tactic(auto, unfolding(crate::specs::Parts::pieces))]
fn pieces(
    alloc: Global,
    counted: Option<u32>,
    input: Input,
) -> Result<(Vec<Piece>, Input), DecodeError>
    ensures read { ReadsAs (λ x. (x.0.items, place x.1)) result (parts.pieces counted (place input.entry)) }
    ensures few { IfOk result (λ x. length x.0.items < 2 ^ 32) }
{
    let (count, after) = input.u32()?;
    if !is_counted(counted, count as usize) {
        return Err(DecodeError::Malformed(input.at));
    }
    times(alloc, count, after)
}

/// The data section, or no segments where it is left out.
#[tactic(auto, unfolding(crate::specs::Sections::section, wasm_code::specs::Fields::sized))]
pub fn data_section(
    alloc: Global,
    counted: Option<u32>,
    input: Input,
) -> Result<(Vec<Piece>, Input), DecodeError>
    ensures read { ReadsAs (λ x. (x.0.items, place x.1)) result (sections.section 11 (parts.pieces counted) [] (place input.entry)) }
    ensures few { IfOk result (λ x. length x.0.items < 2 ^ 32) }
{
    let input = customs(input)?;
    let Some(section) = after_id(11, input) else {
        return Ok((Vec::new(alloc), input));
    };
    let (range, after) = section.range()?;
    let (segments, left) = pieces(alloc, counted, range)?;
    left.ended()?;
    Ok((segments, after))
}

/// What is behind the last section: custom ones and the end of the file.
pub fn ended(input: Input) -> Result<Input, DecodeError>
    ensures { ReadsAs (λ x. place x) result (sections.last (place input.entry)) }
{
    let left = customs(input)?;
    left.ended()?;
    Ok(left)
}
