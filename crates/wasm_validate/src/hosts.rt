//! Imports, and the host calls that they name.

ghost use Rattle.std.specs.Prelude.{◌≡◌, ◌<◌, bytes_eq, not, length, position, IfSome};
ghost use Rattle.std.specs.Option.{option_copied};
ghost use Rattle.wasm_ast.specs.declared.imports.Import.{Import};
ghost use Rattle.wasm_ast.specs.Hosts.{host_named, host_type, same_type, agrees, is_host};
ghost use Rattle.wasm_ast.specs.Validity.{import_place};

use wasm_ast::{FuncType, HostName, Import, Module, ValType, same_types};
use wasm_typing::imported_type_of;

/// The host call of this name.
#[tactic(auto, unfolding(wasm_ast::specs::Hosts::host_named))]
pub fn host_call(name: &[u8]) -> Option<HostName>
    ensures { result ≡ host_named name.now }
{
    if b"input".as_slice() == name {
        return Some(HostName::Input);
    }
    if b"read".as_slice() == name {
        return Some(HostName::Read);
    }
    if b"write".as_slice() == name {
        return Some(HostName::Write);
    }
    if b"delete".as_slice() == name {
        return Some(HostName::Delete);
    }
    if b"send".as_slice() == name {
        return Some(HostName::Send);
    }
    if b"raise".as_slice() == name {
        return Some(HostName::Raise);
    }
    if b"reply".as_slice() == name {
        return Some(HostName::Reply);
    }
    if b"own_label".as_slice() == name {
        return Some(HostName::OwnLabel);
    }
    if b"release".as_slice() == name {
        return Some(HostName::Release);
    }
    None
}

/// Whether the function has this type.
pub fn has_type(signature: &FuncType, params: &[ValType], results: &[ValType]) -> bool
    ensures { result ≡ same_type signature.now (record { params = params.now; results = results.now }) }
{
    same_types(signature.params(), params) && same_types(signature.results(), results)
}

/// Whether the function has the type of the host call.
fn has_host_type(name: HostName, signature: &FuncType) -> bool
    ensures { result ≡ same_type signature.now (host_type name) }
{
    let two = [ValType::I32, ValType::I32];
    let four = [ValType::I32, ValType::I32, ValType::I32, ValType::I32];
    let one = [ValType::I32];
    match name {
        HostName::Input => has_type(signature, &two, &one),
        HostName::Read => has_type(signature, &four, &one),
        HostName::Write => has_type(signature, &four, &one),
        HostName::Delete => has_type(signature, &two, &one),
        HostName::Send => has_type(signature, &four, &[]),
        HostName::Raise => has_type(signature, &two, &[]),
        HostName::Reply => has_type(signature, &two, &[]),
        HostName::OwnLabel => has_type(signature, &two, &one),
        HostName::Release => has_type(signature, &four, &[]),
    }
}

/// Whether the import is a host call.
fn is_host_call(module: &Module, import: &Import) -> bool
    ensures { result ≡ is_host module.now import.now }
{
    if import.module().as_slice() != b"trapeze".as_slice() {
        return false;
    }
    let Some(name) = host_call(import.name().as_slice()) else {
        return false;
    };
    let Some(signature) = imported_type_of(module, import.kind()) else {
        return false;
    };
    has_host_type(name, signature)
}

/// The first import that is no host call.
pub fn other_import(module: &Module) -> Option<usize>
    ensures place { result ≡ import_place module.now }
    ensures below { IfSome result (λ k. k < length module.now.imports) }
{
    module
        .imports()
        .iter()
        .position(|import| !is_host_call(module, import))
}
