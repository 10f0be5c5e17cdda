//! What the tests share: modules of parts, and the answers of a host.

ghost use Rattle.std.specs.Prelude.{◌≡◌, IfOk, is_some, length};
ghost use Rattle.wasm_ast.specs.Validity.{IsSmall};
ghost use Rattle.wasm_exec.specs.Asking.{has_answer};

use std::alloc::Global;
use std::test::Fail;
use wasm_ast::{HostName, Module};
use wasm_decode::{DecodeError, decode};
use wasm_validate::{Invalid, ValidModule, validate};

/// Bytes that stand so many times one behind the other.
pub(crate) type Part = (&'static [u8], usize);

/// The bytes of these parts.
pub(crate) fn joined(alloc: Global, parts: &[Part]) -> Result<Vec<u8>, Fail> {
    let mut bytes = Vec::new(alloc);
    for (part, times) in parts {
        let part = part.repeat(alloc, *times)?;
        bytes.extend_from_slice(part.as_slice())?;
    }
    Ok(bytes)
}

/// The module that these bytes spell, or their fault. No test has more bytes than may be decoded.
pub(crate) fn decoded(alloc: Global, bytes: &[u8]) -> Result<Module, DecodeError>
    ensures { IfOk result IsSmall }
{
    if bytes.len() > 4_194_304 {
        return Err(DecodeError::NoMemory);
    }
    decode(alloc, bytes)
}

/// The module, where it is valid, and otherwise its fault.
fn tested(alloc: Global, program: Module) -> Result<ValidModule, Invalid>
    requires { IsSmall program }
{
    if program.bodies().len() != program.functions().len() {
        return Err(Invalid::NoMemory);
    }
    match validate(alloc, program) {
        Ok(valid) => Ok(valid),
        Err((_, invalid)) => Err(invalid),
    }
}

/// The module that these bytes spell, where it is valid, and otherwise its fault.
pub(crate) fn judged(alloc: Global, bytes: &[u8]) -> Result<Result<ValidModule, Invalid>, Fail> {
    let module = decoded(alloc, bytes)?;
    Ok(tested(alloc, module))
}

/// The valid module that these parts spell.
pub(crate) fn valid(alloc: Global, parts: &[Part]) -> Result<ValidModule, Fail> {
    let bytes = joined(alloc, parts)?;
    Ok(judged(alloc, bytes.as_slice())??)
}

/// The host answers 3 where it has to.
pub(crate) fn answer_to(name: HostName) -> Option<u32>
    ensures { is_some result ≡ has_answer name }
{
    match name {
        HostName::Input
        | HostName::Read
        | HostName::Write
        | HostName::Delete
        | HostName::OwnLabel => Some(3),
        HostName::Send | HostName::Raise | HostName::Reply | HostName::Release => None,
    }
}
