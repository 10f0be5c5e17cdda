//! The table of functions, one row for each.

ghost use Rattle.std.specs.Prelude.{◌≡◌, ◌+◌, ◌<◌, length, IfOk};
ghost use Rattle.wasm_ast.specs.Validity.{Valid};
ghost use Rattle.wasm_frames.specs.Callees.{IsCallee, AreCallees};

use crate::asking::count_of;
use std::alloc::{AllocError, Global};
use wasm_ast::{ImportKind, Module};
use wasm_frames::{Callee, Entry, Runs};
use wasm_validate::host_call;

/// The row of an import.
fn lent(program: &Module, number: usize) -> Callee
    requires valid { Valid program.now }
    requires there { number < length program.now.imports }
    ensures { IsCallee program.now number result }
{
    let import = &program.imports()[number];
    let Some(name) = host_call(import.name().as_slice()) else {
        unreachable!();
    };
    let ImportKind::Function(kind) = import.kind() else {
        unreachable!();
    };
    Callee {
        signature: *kind as usize,
        params: count_of(name),
        runs: Runs::Host(name),
    }
}

/// The row of a function that the module defines.
fn own(program: &Module, number: usize) -> Callee
    requires valid { Valid program.now }
    requires there { number < length program.now.functions }
    ensures { IsCallee program.now (length program.now.imports + number) result }
{
    let kind = program.functions()[number] as usize;
    let signature = &program.types()[kind];
    let body = &program.bodies()[number];
    Callee {
        signature: kind,
        params: signature.params().len(),
        runs: Runs::Own(Entry {
            function: number,
            declared: body.locals().len(),
            gives: !signature.results().is_empty(),
        }),
    }
}

/// A row for each function.
///
/// # Errors
///
/// Out of memory.
pub(crate) fn callees(alloc: Global, program: &Module) -> Result<Vec<Callee>, AllocError>
    requires { Valid program.now }
    ensures { IfOk result (λ rows. AreCallees program.now rows.items) }
{
    let mut rows = Vec::new(alloc);
    'imports: for number in 0..program.imports().len() {
        rows.push(lent(program, number))?;
    }
    'functions: for number in 0..program.functions().len() {
        rows.push(own(program, number))?;
    }
    Ok(rows)
}
