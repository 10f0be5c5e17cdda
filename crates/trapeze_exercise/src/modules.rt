//! The modules of the exercise.

ghost use Rattle.std.specs.Prelude.{◌≡◌, ◌≤◌, ◌++◌, [], ◌∷◌, length, IfOk, OnOk};
ghost use Rattle.wasm_ast.specs.declared.modules.Module.{Module as Program};
ghost use Rattle.wasm_ast.specs.Validity.{Valid, IsSmall};
ghost use Rattle.wasm_decode.specs.Grammar.{Spells};
ghost use Rattle.trapeze_exercise.specs.BuiltIn.{built_in_modules, SpellValid};

use crate::bytes::{ECHO, LIFT, LOOK, SPIN, STORE, TWIN};
use std::alloc::Global;
use std::marker::Model;
use trapeze_io::NoMemory;
use wasm_ast::Module;
use wasm_decode::{DecodeError, decode};
use wasm_validate::{Invalid, ValidModule, validate};

/// A list of modules. Contracts see the modules.
#[derive(Drop)]
pub struct Modules {
    modules: Vec<ValidModule>,
}

impl Model for Modules {
    ghost use Rattle.std.specs.Prelude.{List};
    ghost use Rattle.std.specs.Coded.{coded_list};
    ghost use Rattle.wasm_ast.specs.declared.modules.Module.{Module};
    ghost use Rattle.wasm_ast.specs.contracts.modules.Module as programs;

    ghost Value = { List Module };

    ghost coded = { coded_list programs.the_row.coded };

    ghost view = { λ list. list.modules.items };
}

impl Modules {
    /// The modules.
    pub fn as_slice(&self) -> &[ValidModule]
        ensures { result.now ≡ self.now }
    {
        self.modules.as_slice()
    }
}

/// The modules of the functions of the exercise's policy, in the order of the functions.
///
/// # Errors
///
/// Out of memory.
pub fn built_in_modules(alloc: Global) -> Result<Modules, NoMemory>
    ensures { IfOk result (λ modules. modules ≡ built_in_modules) }
{
    let mut modules = Modules {
        modules: Vec::new(alloc),
    };
    add(alloc, &mut modules, ECHO)?;
    add(alloc, &mut modules, LIFT)?;
    add(alloc, &mut modules, LOOK)?;
    add(alloc, &mut modules, SPIN)?;
    add(alloc, &mut modules, STORE)?;
    add(alloc, &mut modules, TWIN)?;
    Ok(modules)
}

/// Adds the valid module that the bytes spell.
fn add(alloc: Global, modules: &mut Modules, bytes: &[u8]) -> Result<(), NoMemory>
    requires few { length bytes.now ≤ 4194304 }
    requires spelled { SpellValid bytes.now }
    ensures { (m : Program) → Spells m bytes.now → OnOk result (modules.new ≡ modules.old ++ m ∷ []) }
{
    let module = read(alloc, bytes)?;
    match modules.modules.push(module) {
        Ok(()) => Ok(()),
        Err(_) => Err(NoMemory),
    }
}

/// The valid module that the bytes spell.
fn read(alloc: Global, bytes: &[u8]) -> Result<ValidModule, NoMemory>
    requires few { length bytes.now ≤ 4194304 }
    requires spelled { SpellValid bytes.now }
    ensures { (m : Program) → Spells m bytes.now → IfOk result (λ valid. valid ≡ m) }
{
    match decode(alloc, bytes) {
        Ok(program) => accept(alloc, program),
        Err(DecodeError::NoMemory) => Err(NoMemory),
        Err(_) => unreachable!(),
    }
}

/// The module, which is valid.
fn accept(alloc: Global, program: Module) -> Result<ValidModule, NoMemory>
    requires small { IsSmall program }
    requires valid { Valid program }
    ensures { IfOk result (λ valid. valid ≡ program) }
{
    match validate(alloc, program) {
        Ok(module) => Ok(module),
        Err((_program, Invalid::NoMemory)) => Err(NoMemory),
        Err(_) => unreachable!(),
    }
}
