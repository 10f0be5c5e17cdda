//! The globals and the table that a module begins with.

ghost use Rattle.std.specs.Prelude.{◌≡◌, ◌+◌, ◌≤◌, length, IfOk};
ghost use Rattle.wasm_ast.specs.Spaces.{table_size};
ghost use Rattle.wasm_ast.specs.Bytes.{placed};
ghost use Rattle.wasm_ast.specs.Structure.{constant_value as value_of_code};
ghost use Rattle.wasm_ast.specs.Validity.{Valid};
ghost use Rattle.wasm_semantics.specs.Begin.{set_entries, first_table, first_globals};

use std::alloc::{AllocError, Global};
use wasm_ast::{Element, Module, constant_value};

/// Each global has its constant.
///
/// # Errors
///
/// Out of memory.
pub(crate) fn globals_at_first(alloc: Global, program: &Module) -> Result<Vec<u64>, AllocError>
    ensures { IfOk result (λ globals. globals.items ≡ first_globals program.now) }
{
    program
        .globals()
        .iter()
        .map(|global| constant_value(global.initial().items()))
        .collect(alloc)
}

/// How many entries the table begins with.
fn entries(program: &Module) -> usize
    ensures { result ≡ table_size program.now }
{
    match program.tables().first() {
        Some(limits) => limits.minimum() as usize,
        None => 0,
    }
}

/// Sets the entries from a place on to these functions.
fn set_from(table: &mut [Option<u32>], at: usize, members: &[u32])
    requires { at + length members.now ≤ length table.old }
    ensures { table.new ≡ placed table.old at (set_entries members.now) }
{
    'members: for (number, index) in members.iter().enumerate() {
        table[at + number] = Some(*index);
    }
}

/// Lays an element segment on the table, which it does not pass.
fn lay(table: &mut Vec<Option<u32>>, element: &Element)
    requires { value_of_code element.now.offset.items + length element.now.members ≤ length table.old.items }
    ensures { table.new.items ≡ placed table.old.items (value_of_code element.now.offset.items) (set_entries element.now.members) }
{
    let at = constant_value(element.offset().items()) as usize;
    set_from(table.as_mut_slice(), at, element.members().items());
}

/// Unset entries, with the element segments in order.
///
/// # Errors
///
/// Out of memory.
pub(crate) fn table_at_first(
    alloc: Global,
    program: &Module,
) -> Result<Vec<Option<u32>>, AllocError>
    requires { Valid program.now }
    ensures { IfOk result (λ table. table.items ≡ first_table program.now) }
{
    let len = entries(program);
    let mut table = Vec::from_elem(alloc, None, len)?;
    'segments: for element in program.elements() {
        lay(&mut table, element);
    }
    Ok(table)
}
