//! The arguments of a host call.

ghost use Rattle.std.specs.Prelude.{◌≡◌, ◌+◌, ◌≤◌, [], ◌∷◌, if◌then◌else◌, length};
ghost use Rattle.wasm_ast.specs.declared.val_types.ValType.TheVariants.{I32};
ghost use Rattle.wasm_ast.specs.Hosts.{host_params};
ghost use Rattle.wasm_semantics.specs.OfModule.{Holds};
ghost use Rattle.wasm_semantics.specs.Laws.{in_four_places};
ghost use Rattle.wasm_data.specs.Marked.{locals_in};

use crate::stops::Asked;
use wasm_ast::HostName;

/// Whether a host call takes four arguments; any other takes two.
fn takes_four(name: HostName) -> bool
    ensures { host_params name ≡ (if result then I32 ∷ I32 ∷ I32 ∷ I32 ∷ [] else I32 ∷ I32 ∷ []) }
{
    match name {
        HostName::Read | HostName::Write | HostName::Send | HostName::Release => true,
        HostName::Input
        | HostName::Delete
        | HostName::Raise
        | HostName::Reply
        | HostName::OwnLabel => false,
    }
}

/// How many arguments a host call takes.
pub(crate) fn count_of(name: HostName) -> usize
    ensures { result ≡ length (host_params name) }
{
    if takes_four(name) { 4 } else { 2 }
}

/// Two values from a place on, as arguments.
fn two_from(values: &[u64], at: usize) -> [u32; 4]
    requires room { at + 2 ≤ length values.now }
    requires fit { Holds (I32 ∷ I32 ∷ []) (locals_in at (at + 2) values.now) }
    ensures { result ≡ in_four_places (locals_in at (at + 2) values.now) }
{
    [values[at] as u32, values[at + 1] as u32, 0, 0]
}

/// Four values from a place on, as arguments.
fn four_from(values: &[u64], at: usize) -> [u32; 4]
    requires room { at + 4 ≤ length values.now }
    requires fit { Holds (I32 ∷ I32 ∷ I32 ∷ I32 ∷ []) (locals_in at (at + 4) values.now) }
    ensures { result ≡ in_four_places (locals_in at (at + 4) values.now) }
{
    [
        values[at] as u32,
        values[at + 1] as u32,
        values[at + 2] as u32,
        values[at + 3] as u32,
    ]
}

/// The host call whose arguments lie in the array from a place on.
pub(crate) fn asked_at(name: HostName, values: &[u64], at: usize) -> Asked
    requires room { at + length (host_params name) ≤ length values.now }
    requires fit { Holds (host_params name) (locals_in at (at + length (host_params name)) values.now) }
    ensures name { result.name ≡ name }
    ensures args { result.args ≡ in_four_places (locals_in at (at + length (host_params name)) values.now) }
{
    let args = if takes_four(name) {
        four_from(values, at)
    } else {
        two_from(values, at)
    };
    Asked { name, args }
}
