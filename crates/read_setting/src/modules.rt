//! The modules of a policy's functions.

ghost use Rattle.std.specs.Prelude.{◌≡◌, ◌≤◌, ◌<◌, ◌+◌, ◌^◌, ◌∷◌, [], length, map, IfOk, IfErr, Ok};
ghost use Rattle.wasm_ast.specs.Validity.{IsSmall};
ghost use Rattle.file_calls.specs.Steps.{Steps, StepsBy, Judges};
ghost use Rattle.read_setting.specs.Memory.{IsTold, TellsMemory};
ghost use Rattle.read_setting.specs.Modules.{module_source, module_step, modules_step, IsModule, IsAccepted};

use crate::refusal::Refusal;
use fault_texts::ModuleFault;
use file_calls::{FileError, read_file};
use policy_toml::Policy;
use std::alloc::Global;
use trapeze_io::Files;
use wasm_ast::Module;
use wasm_decode::{DecodeError, decode};
use wasm_validate::{Invalid, ValidModule, validate};

/// The most bytes of a module.
const MODULE_LIMIT: u32 = 4_194_304;

/// How a call ends whose bytes spell no module. Being out of memory is no fault of them.
fn undecoded(place: u32, fault: DecodeError) -> FileError<Refusal>
    ensures told { IsTold place (Refusal.Module (ModuleFault.Decode fault)) (fault ≡ DecodeError.NoMemory) result }
    ensures memory { TellsMemory result }
{
    match fault {
        DecodeError::NoMemory => FileError::NoMemory,
        fault => FileError::Refused {
            place,
            refusal: Refusal::Module(ModuleFault::Decode(fault)),
        },
    }
}

/// How a call ends whose module is not valid. Being out of memory is no fault of it.
fn unfit(place: u32, fault: Invalid) -> FileError<Refusal>
    ensures told { IsTold place (Refusal.Module (ModuleFault.Invalid fault)) (fault ≡ Invalid.NoMemory) result }
    ensures memory { TellsMemory result }
{
    match fault {
        Invalid::NoMemory => FileError::NoMemory,
        fault => FileError::Refused {
            place,
            refusal: Refusal::Module(ModuleFault::Invalid(fault)),
        },
    }
}

/// The module, if it is valid.
fn accept(alloc: Global, place: u32, program: Module) -> Result<ValidModule, FileError<Refusal>>
    requires small { IsSmall program }
    requires counts { length program.bodies ≡ length program.functions }
    ensures judged { Judges place (IsAccepted place program) result }
    ensures memory { IfErr result TellsMemory }
{
    match validate(alloc, program) {
        Ok(module) => Ok(module),
        Err((_program, fault)) => Err(unfit(place, fault)),
    }
}

/// The module of a function that the bytes of its file spell.
fn judge(alloc: Global, place: u32, bytes: &[u8]) -> Result<ValidModule, FileError<Refusal>>
    requires { length bytes.now ≤ MODULE_LIMIT }
    ensures judged { Judges place (IsModule place bytes.now) result }
    ensures memory { IfErr result TellsMemory }
{
    match decode(alloc, bytes) {
        Ok(program) => accept(alloc, place, program),
        Err(fault) => Err(undecoded(place, fault)),
    }
}

/// Reads the module of a function from the file of this name, which is the one at this place among the files of the call.
fn read_module<F: Files>(
    alloc: Global,
    files: &mut F,
    place: u32,
    name: &str,
) -> Result<ValidModule, FileError<Refusal>>
    ensures steps { Steps place (module_source name.now ∷ []) (module_step place name.now)
        (F.seen files.old) (F.seen files.new) result }
    ensures memory { IfErr result TellsMemory }
{
    let bytes = read_file(alloc, files, place, name, MODULE_LIMIT)?;
    judge(alloc, place, bytes.as_slice())
}

/// Reads the modules of the functions of a policy, one wholly before the next. The file of the first one is the one at this place
/// among the files of the call.
pub fn read_modules<F: Files>(
    alloc: Global,
    files: &mut F,
    place: u32,
    policy: &Policy,
) -> Result<Vec<ValidModule>, FileError<Refusal>>
    requires places { place + length policy.now.functions < 2 ^ 32 }
    ensures steps { StepsBy (λ modules. modules.items) place (map module_source policy.now.files)
        (modules_step place policy.now.files) (F.seen files.old) (F.seen files.new) result }
    ensures count { IfOk result (λ modules. length modules.items ≡ length policy.now.functions) }
    ensures memory { IfErr result TellsMemory }
{
    let mut modules = Vec::new(alloc);
    let count = policy.functions().len() as u32;
    'files: for f in 0..count {
        let module = read_module(alloc, files, place + f, policy.function_file(f))?;
        match modules.push(module) {
            Ok(()) => {}
            Err(_) => return Err(FileError::NoMemory),
        }
    }
    Ok(modules)
}
