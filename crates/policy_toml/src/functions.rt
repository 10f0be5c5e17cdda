//! The functions of a policy.

ghost use Rattle.std.specs.Prelude.{◌≡◌, ◌<◌, ◌≤◌, string_bytes, map, length, IfOk, All};
ghost use Rattle.toml.specs.View.{view, table_view};
ghost use Rattle.trapeze_io.specs.Names.{Ascend};
ghost use Rattle.trapeze_io.specs.Answers.{Answers, AnswersBy};
ghost use Rattle.policy_toml.specs.Faults.{fault_of};
ghost use Rattle.policy_toml.specs.Rows.{each_row, members_of};
ghost use Rattle.policy_toml.specs.Functions.{function_row, functions_of, function_at, IsFunction};

use crate::error::PolicyError;
use crate::place::{Part, Place};
use crate::tables::{at_most, member, name_of, text_at};
use label_lattice::number_among;
use std::alloc::Global;
use std::marker::Model;
use toml::{Table, Value};
use trapeze_io::{Name, NoMemory};

/// A function of a policy.
#[derive(Drop)]
pub struct Function {
    name: Name,
    file: String,
}

impl Model for Function {
    ghost use Rattle.std.specs.Prelude.{List, ℕ, string_bytes};

    ghost Value = { List ℕ × List ℕ };

    ghost view = { λ f. (f.name, string_bytes f.file) };
}

/// The functions in byte order of their names, with their file names.
#[tactic(auto, unfolding(crate::specs::Functions::functions_of))]
pub fn functions(alloc: Global, root: &Table) -> Result<Vec<Function>, PolicyError>
    ensures read { AnswersBy fault_of (λ rows. rows.items) (functions_of (table_view root.now)) result }
    ensures ascend { IfOk result (λ rows. Ascend (map (λ row. row.0) rows.items)) }
    ensures files { IfOk result (λ rows. All IsFunction rows.items) }
    ensures few { IfOk result (λ rows. length rows.items ≤ 256) }
{
    let Some(value) = member(root, "functions") else {
        return Ok(Vec::new(alloc));
    };
    let Some(table) = value.as_table() else {
        return Err(PolicyError::WrongKind(Place::whole(Part::Functions)));
    };
    at_most(256, Part::Functions, table)?;
    function_rows(alloc, table)
}

fn function_rows(alloc: Global, table: &Table) -> Result<Vec<Function>, PolicyError>
    ensures read { AnswersBy fault_of (λ rows. rows.items) (each_row function_row 1 (members_of (table_view table.now))) result }
    ensures ascend { IfOk result (λ rows. Ascend (map (λ row. row.0) rows.items)) }
    ensures files { IfOk result (λ rows. All IsFunction rows.items) }
    ensures count { IfOk result (λ rows. length rows.items ≡ length (members_of (table_view table.now))) }
{
    let mut functions = Vec::new(alloc);
    'rows: for (key, value) in table {
        let row = function_row(alloc, functions.len() as u64 + 1, key.as_str(), value)?;
        if let Err(_) = functions.push(row) {
            return Err(PolicyError::NoMemory);
        }
    }
    Ok(functions)
}

fn function_row(alloc: Global, row: u64, key: &str, value: &Value) -> Result<Function, PolicyError>
    ensures read { Answers fault_of (function_row row (key.now, view value.now)) result }
    ensures name { IfOk result (λ function. function.0 ≡ key.now) }
    ensures file { IfOk result IsFunction }
{
    let name = name_of(Part::Functions, row, key)?;
    let place = Place::row(Part::Functions, row);
    let Some(file) = value.as_str() else {
        return Err(PolicyError::WrongKind(place));
    };
    if file.is_empty() || file.len() > 255 {
        return Err(PolicyError::OutOfRange(place));
    }
    match String::from_str(alloc, file) {
        Ok(file) => Ok(Function { name, file }),
        Err(_) => Err(PolicyError::NoMemory),
    }
}

/// The number of the function whose name stands at a key.
pub fn function_at(
    functions: &[Name],
    table: &Table,
    key: &str,
    place: Place,
) -> Result<u32, PolicyError>
    requires ascend { Ascend functions.now }
    requires few { length functions.now ≤ 256 }
    ensures read { Answers fault_of (function_at functions.now key.now place (table_view table.now)) result }
    ensures within { IfOk result (λ number. number < length functions.now) }
{
    let name = text_at(table, key, place)?;
    match number_among(functions, name.as_bytes()) {
        Some(number) => Ok(number),
        None => Err(PolicyError::UnknownFunction(place)),
    }
}

/// The names and the file names of the functions.
pub fn names_and_files(
    alloc: Global,
    functions: Vec<Function>,
) -> Result<(Vec<Name>, Vec<String>), NoMemory>
    ensures names { IfOk result (λ lists. lists.0.items ≡ map (λ function. function.0) functions.items) }
    ensures files { IfOk result (λ lists. map (λ file. string_bytes file) lists.1.items ≡ map (λ function. function.1) functions.items) }
{
    let mut names = Vec::new(alloc);
    let mut files = Vec::new(alloc);
    'functions: for function in functions {
        if let Err(_) = names.push(function.name) {
            return Err(NoMemory);
        }
        if let Err(_) = files.push(function.file) {
            return Err(NoMemory);
        }
    }
    Ok((names, files))
}
