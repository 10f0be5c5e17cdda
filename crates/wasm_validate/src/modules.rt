//! The tests of a module, in their order.

ghost use Rattle.std.specs.Prelude.{◌≡◌, ◌<◌, ◌+◌, ◌^◌, ℕ, Some, None, length, OnOk, IfOk, IfErr, MatchResult};
ghost use Rattle.wasm_ast.specs.declared.modules.Module.{Module};
ghost use Rattle.wasm_ast.specs.Faults.{Fault};
ghost use Rattle.wasm_ast.specs.Validity.{early_fault, handle_of, Invalidity, IsBodyTyped, IsSmall, Valid};
ghost use Rattle.wasm_ast.specs.Hosts.{host_of};
ghost use Rattle.wasm_validate.specs.Invalids.{IsRefused, IsToldAs};

use crate::floats::find_float;
use crate::hosts::{host_call, other_import};
use crate::invalid::Invalid;
use crate::names::all_differ;
use crate::structure::{entry_point, failed_rule, past_segment};
use std::alloc::Global;
use std::marker::Model;
use wasm_ast::{HostName, Module};
use wasm_typing::{is_typed, own_type_at};

/// The tests before the bodies, in their order.
#[tactic(auto, unfolding(wasm_ast::specs::Validity::early_fault))]
fn test_early(alloc: Global, module: &Module) -> Result<(), Invalid>
    requires { IsSmall module.now }
    ensures ok { OnOk result (early_fault module.now ≡ None) }
    ensures err { IfErr result (IsRefused module.now) }
{
    if let Some(place) = find_float(module) {
        return Err(Invalid::Float(place));
    }
    if let Some(number) = other_import(module) {
        return Err(Invalid::Import(number as u32));
    }
    let Ok(names) = all_differ(alloc, module.exports()) else {
        return Err(Invalid::NoMemory);
    };
    if let Some(number) = failed_rule(module, names) {
        return Err(Invalid::Structure(number as u8 + 1));
    }
    let Some(_) = entry_point(module) else {
        return Err(Invalid::NoHandle);
    };
    if let Some(place) = past_segment(module) {
        return Err(Invalid::Segment(place));
    }
    Ok(())
}

/// Whether each body has a typing.
fn test_bodies(alloc: Global, module: &Module) -> Result<(), Invalid>
    requires small { IsSmall module.now }
    requires early { early_fault module.now ≡ None }
    ensures ok { OnOk result ((k : ℕ) → k < length module.now.bodies → IsBodyTyped module.now k) }
    ensures err { IfErr result (IsRefused module.now) }
{
    for (number, body) in module.bodies().iter().enumerate() {
        let Some(signature) = own_type_at(module, number) else {
            return Err(Invalid::IllTyped(number as u32));
        };
        match is_typed(alloc, module, signature, body) {
            Ok(true) => {}
            Ok(false) => return Err(Invalid::IllTyped(number as u32)),
            Err(_) => return Err(Invalid::NoMemory),
        }
    }
    Ok(())
}

/// A module that is valid. Contracts see the module.
#[derive(Drop)]
pub struct ValidModule {
    module: Module,
}

impl Model for ValidModule {
    ghost use Rattle.wasm_ast.specs.declared.modules.Module.{Module};
    ghost use Rattle.wasm_ast.specs.Validity.{Valid};
    ghost use Rattle.wasm_ast.specs.contracts.modules.Module as modules;

    ghost Value = { Module };

    ghost coded = { modules.the_row.coded };

    ghost view = { λ v. v.module };

    ghost invariant = { λ v. Valid v.module };
}

impl ValidModule {
    /// The module.
    pub fn module(&self) -> &Module
        ensures same { result.now ≡ self.now }
        ensures valid { Valid self.now }
    {
        &self.module
    }

    /// The host call that the import with this index names.
    pub fn host(&self, import: u32) -> HostName
        requires { import < length self.now.imports }
        ensures { host_of self.now import ≡ Some result }
    {
        let imports = self.module.imports();
        match host_call(imports[import as usize].name().as_slice()) {
            Some(name) => name,
            None => unreachable!(),
        }
    }

    /// The function that a turn runs.
    pub fn handle(&self) -> u32
        ensures { handle_of self.now ≡ Some result }
    {
        match entry_point(&self.module) {
            Some(index) => index,
            None => unreachable!(),
        }
    }
}

/// Tests whether a module is valid. Nothing of it is copied but the order of its exports' names.
///
/// # Errors
///
/// The module as it was, with the first test that it fails, or that no memory was left.
pub fn validate(alloc: Global, program: Module) -> Result<ValidModule, (Module, Invalid)>
    requires small { IsSmall program }
    requires counts { length program.bodies ≡ length program.functions }
    ensures ok { IfOk result (λ valid. (valid ≡ program) × Valid program) }
    ensures err { IfErr result (λ refused. (refused.0 ≡ program) × IsRefused program refused.1) }
    ensures valid { Valid program → IfErr result (λ refused. refused.1 ≡ Invalid.NoMemory) }
    ensures fault { (f : Fault) → Invalidity program f → MatchResult result (λ valid. ⊥) (λ refused. IsToldAs f refused.1) }
{
    if let Err(invalid) = test_early(alloc, &program) {
        return Err((program, invalid));
    }
    if let Err(invalid) = test_bodies(alloc, &program) {
        return Err((program, invalid));
    }
    Ok(ValidModule { module: program })
}
