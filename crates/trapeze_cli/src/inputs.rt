//! The files that a call reads before the events.

ghost use Rattle.std.specs.Prelude.{◌≡◌, ◌≢◌, ◌≤◌, ◌⊎◌, ◌∷◌, [], length};
ghost use Rattle.std.specs.Prelude.{IfOk, IfErr, IfSome, Ok, Err};
ghost use Rattle.label_lattice.specs.Order.{count};
ghost use Rattle.trapeze_cli.specs.Command.{file_of, policy_in, shown_in, IsModule, AreModules};
ghost use Rattle.trapeze_cli.specs.Forms.{module_sources};
ghost use Rattle.trapeze_cli.specs.Judged.{IsJudged, IsTold, IsUnfit};
ghost use Rattle.wasm_ast.specs.Validity.{IsSmall, Valid};
ghost use Rattle.trapeze_cli.specs.Promises.{TellsMemory};
ghost use Rattle.trapeze_cli.specs.Runs.{IsShownTo};
ghost use Rattle.trapeze_cli.specs.Said.{said};
ghost use Rattle.trapeze_cli.specs.Steps.{Steps, IsReachedModule};
ghost use Rattle.trapeze_cli.specs.Whys.{IfReadFailed, why};

use crate::forms::{Form, Show};
use crate::shown::Shown;
use crate::status::{Input, ModuleFault, Status};
use label_lattice::{Lattice, LatticeError};
use policy_toml::{Policy, PolicyError, read_policy};
use std::alloc::Global;
use trapeze_io::{Bytes, Files, ReadError, read_whole};
use wasm_ast::Module;
use wasm_decode::{DecodeError, decode};
use wasm_validate::{Invalid, ValidModule, validate};

/// The most bytes of a policy file.
const POLICY_LIMIT: u32 = 1_048_576;

/// The most bytes of a module.
const MODULE_LIMIT: u32 = 4_194_304;

/// Reads the file of this name whole, which is not the one of the events.
fn read_input<F: Files>(
    alloc: Global,
    files: &mut F,
    name: &str,
    limit: u32,
    input: Input,
) -> Result<Bytes, Status>
    requires { input ≢ Input.Events }
    ensures steps { Steps (record { input = input; name = name.now } ∷ [])
        (λ held r. file_of held name.now limit input ≡ r) (F.seen files.old) (F.seen files.new) result }
    ensures ok { IfOk result (λ bytes. IfSome (F.seen files.old).held (λ held.
        file_of held name.now limit input ≡ Ok bytes)) }
    ensures short { IfOk result (λ bytes. length bytes ≤ limit) }
    ensures words { IfErr result (λ status. status ≢ Status.Usage) }
    ensures memory { IfErr result TellsMemory }
{
    match read_whole(alloc, files, name, limit) {
        Ok(bytes) => Ok(bytes),
        Err(ReadError::Fault) => Err(Status::ReadFault(input)),
        Err(ReadError::TooLong) => Err(Status::TooLong(input)),
        Err(ReadError::NoMemory) => Err(Status::NoMemory),
    }
}

/// Reads the policy of the file of this name.
pub(crate) fn read_rules<F: Files>(
    alloc: Global,
    files: &mut F,
    name: &str,
) -> Result<Policy, Status>
    ensures steps { Steps (record { input = Input.Policy; name = name.now } ∷ [])
        (λ held r. policy_in held name.now ≡ r) (F.seen files.old) (F.seen files.new) result }
    ensures ok { IfOk result (λ policy. IfSome (F.seen files.old).held (λ held.
        policy_in held name.now ≡ Ok policy)) }
    ensures words { IfErr result (λ status. status ≢ Status.Usage) }
    ensures memory { IfErr result TellsMemory }
{
    let bytes = read_input(alloc, files, name, POLICY_LIMIT, Input::Policy)?;
    match read_policy(alloc, bytes.as_slice()) {
        Ok(policy) => Ok(policy),
        Err(fault) => Err(refusal(fault)),
    }
}

/// How a call ends whose policy is refused. Being out of memory is no fault of a policy.
fn refusal(fault: PolicyError) -> Status
    requires { fault ≢ PolicyError.Lattice LatticeError.NoMemory }
    ensures refused { (result ≡ Status.NoMemory) ⊎ (result ≡ Status.Policy fault) }
    ensures memory { TellsMemory result }
{
    match fault {
        PolicyError::NoMemory => Status::NoMemory,
        fault => Status::Policy(fault),
    }
}

/// How a call ends that reads bytes which spell no module. Being out of memory is no fault of them.
fn undecoded(function: u32, fault: DecodeError) -> Status
    ensures told { IsTold (Status.Module function (ModuleFault.Decode fault)) (fault ≡ DecodeError.NoMemory) result }
    ensures memory { TellsMemory result }
{
    match fault {
        DecodeError::NoMemory => Status::NoMemory,
        fault => Status::Module {
            function,
            fault: ModuleFault::Decode(fault),
        },
    }
}

/// How a call ends that reads a module which is not valid. Being out of memory is no fault of it.
fn unfit(function: u32, fault: Invalid) -> Status
    ensures told { IsTold (Status.Module function (ModuleFault.Invalid fault)) (fault ≡ Invalid.NoMemory) result }
    ensures memory { TellsMemory result }
{
    match fault {
        Invalid::NoMemory => Status::NoMemory,
        fault => Status::Module {
            function,
            fault: ModuleFault::Invalid(fault),
        },
    }
}

/// The module, if it is valid.
fn accept(alloc: Global, function: u32, program: Module) -> Result<ValidModule, Status>
    requires small { IsSmall program }
    requires counts { length program.bodies ≡ length program.functions }
    ensures ok { IfOk result (λ valid. (valid ≡ program) × Valid program) }
    ensures err { IfErr result (IsUnfit function program) }
    ensures memory { IfErr result TellsMemory }
{
    match validate(alloc, program) {
        Ok(module) => Ok(module),
        Err((_program, fault)) => Err(unfit(function, fault)),
    }
}

/// The module of a function that the bytes of its file spell.
fn judge(alloc: Global, function: u32, bytes: &[u8]) -> Result<ValidModule, Status>
    requires { length bytes.now ≤ MODULE_LIMIT }
    ensures judged { IsJudged function bytes.now result }
    ensures memory { IfErr result TellsMemory }
{
    match decode(alloc, bytes) {
        Ok(program) => accept(alloc, function, program),
        Err(fault) => Err(undecoded(function, fault)),
    }
}

/// Reads the module of a function from the file of this name.
fn read_module<F: Files>(
    alloc: Global,
    files: &mut F,
    function: u32,
    name: &str,
) -> Result<ValidModule, Status>
    ensures steps { Steps (record { input = Input.Module function; name = name.now } ∷ [])
        (λ held r. IsModule held function name.now r) (F.seen files.old) (F.seen files.new) result }
    ensures ok { IfOk result (λ m. IfSome (F.seen files.old).held (λ held. IsModule held function name.now (Ok m))) }
    ensures memory { IfErr result TellsMemory }
{
    let bytes = read_input(alloc, files, name, MODULE_LIMIT, Input::Module(function))?;
    judge(alloc, function, bytes.as_slice())
}

/// Reads the modules of the functions of a policy, one wholly before the next.
pub(crate) fn read_modules<F: Files>(
    alloc: Global,
    files: &mut F,
    policy: &Policy,
) -> Result<Vec<ValidModule>, Status>
    ensures steps { Steps (module_sources 0 policy.now.files) (λ held r. AreModules held 0 policy.now.files r)
        (F.seen files.old) (F.seen files.new) result }
    ensures ok { IfOk result (λ ms. IfSome (F.seen files.old).held (λ held.
        AreModules held 0 policy.now.files (Ok ms.items))) }
    ensures count { IfOk result (λ ms. length ms.items ≡ length policy.now.functions) }
    ensures reached { IfErr result (λ status. IfReadFailed (why status) (λ input.
        IfSome (F.seen files.old).held (λ held. IsReachedModule held policy.now.files input))) }
    ensures memory { IfErr result TellsMemory }
{
    let mut modules = Vec::new(alloc);
    let count = policy.functions().len() as u32;
    'files: for f in 0..count {
        let module = read_module(alloc, files, f, policy.function_file(f))?;
        match modules.push(module) {
            Ok(()) => {}
            Err(_) => return Err(Status::NoMemory),
        }
    }
    Ok(modules)
}

/// Which lines are shown, by the form of the words and the labels.
pub(crate) fn shown_by(form: &Form, lattice: &Lattice) -> Result<Shown, Status>
    ensures shown { result ≡ shown_in lattice.now.names (said form.now) }
    ensures within { IfOk result (IsShownTo (count lattice.now)) }
{
    match form {
        Form::Check(_) => Ok(Shown::AllKinds),
        Form::Play(Show::Run, _, _) => Ok(Shown::RunKinds),
        Form::Play(Show::Trace, _, _) => Ok(Shown::AllKinds),
        Form::Play(Show::View(label), _, _) => match lattice.find(label.as_bytes()) {
            Some(label) => Ok(Shown::VisibleTo(label)),
            None => Err(Status::Usage),
        },
    }
}
