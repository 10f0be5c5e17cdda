//! Worked examples of execution.

ghost use Rattle.std.specs.Prelude.{ℕ, List, [], ◌∷◌, ◌≡◌, ◌<◌, ◌^◌, Some, None};
ghost use Rattle.wasm_ast.specs.Spaces.{memory_of};
ghost use Rattle.wasm_ast.specs.TestModules.{echo, spin, spin_code, fill};
ghost use Rattle.wasm_ast.specs.Validity.{Valid};
ghost use Rattle.wasm_ast.specs.declared.hosts.HostName.TheVariants.{Input, Reply};
ghost use Rattle.wasm_semantics.specs.Threads.{Thread, Goes, Calls, Done};
ghost use Rattle.wasm_semantics.specs.Units.{unit, units, with_memory, answered};
ghost use Rattle.wasm_semantics.specs.Begin.{begin};
ghost use Rattle.wasm_semantics.specs.OfModule.{IsMemory, IsOf};
ghost use Rattle.wasm_semantics.specs.Examples.{echo_asks, fill_asks, spin_store, spin_inside};
ghost use Rattle.wasm_semantics.specs.Examples.{level, lone};

/// A module that replies with its input is valid and needs four units to its first host call; whatever is answered, it is a
/// thread of the module again.
pub fn echo_asks_in_four_units()
    ensures valid { Valid echo }
    ensures four { (pages : ℕ) → units echo pages (begin echo) 4 ≡ record { used = 4; stop = Calls Input (0 ∷ 65536 ∷ []) echo_asks } }
    ensures three { (pages : ℕ) → (t : Thread) × (units echo pages (begin echo) 3 ≡ record { used = 3; stop = Goes t }) }
    ensures answered { (memory : List ℕ) (n : ℕ) → IsMemory (memory_of echo) memory → n < 2 ^ 32 →
        IsOf echo (answered (with_memory echo_asks memory) (Some n)) }
{}

/// A module that fills, copies and stores a sign extension is valid and ends in 16 units: fifteen to its host call, which has the
/// eight bytes as its argument, and one behind the answer.
pub fn fill_ends_in_sixteen_units()
    ensures valid { Valid fill }
    ensures fifteen { (pages : ℕ) → units fill pages (begin fill) 15 ≡ record { used = 15; stop = Calls Reply (0 ∷ 8 ∷ []) fill_asks } }
    ensures last { (pages : ℕ) → units fill pages (answered fill_asks None) 1 ≡ record { used = 1; stop = Done } }
{}

/// An endless loop uses the units that it is given and goes on, and a branch to a loop takes the loop instruction again.
pub fn spin_goes_on()
    ensures valid { Valid spin }
    ensures three { (pages : ℕ) → units spin pages (begin spin) 3 ≡ record { used = 3; stop = Goes spin_inside } }
    ensures four { (pages : ℕ) → units spin pages spin_inside 4 ≡ record { used = 4; stop = Goes spin_inside } }
    ensures again { (pages : ℕ) → unit spin pages spin_inside ≡ Goes (lone spin_store (level [] spin_code ∷ [])) }
{}
