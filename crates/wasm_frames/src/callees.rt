//! Functions as calls need them.

ghost use Rattle.std.specs.Prelude.{◌≡◌, length};
ghost use Rattle.wasm_ast.specs.Hosts.{host_params, same_type};

use wasm_ast::{FuncType, HostName, same_types};

/// A function that the module defines.
#[derive(Clone, Copy, Debug)]
pub struct Entry {
    /// Its number among those that the module defines.
    pub function: usize,
    /// How many locals it declares.
    pub declared: usize,
    /// Whether it gives a result.
    pub gives: bool,
}

/// What runs when a function is called.
#[derive(Clone, Copy, Debug)]
pub enum Runs {
    /// A call of the host.
    Host(HostName),
    /// A function of the module.
    Own(Entry),
}

/// A function, as a call needs it.
#[derive(Clone, Copy, Debug)]
pub struct Callee {
    /// The index of its type.
    pub signature: usize,
    /// How many arguments it takes.
    pub params: usize,
    /// What runs when it is called.
    pub runs: Runs,
}

/// Whether the types of functions are the same in structure.
pub(crate) fn same_signature(one: &FuncType, other: &FuncType) -> bool
    ensures { result ≡ same_type one.now other.now }
{
    same_types(one.params(), other.params()) && same_types(one.results(), other.results())
}
