//! Laws of typings and of execution.

ghost use Rattle.std.specs.Prelude.{ℕ, ◌+◌, ◌-◌, ◌*◌, ◌%◌, ◌^◌, ◌<◌, ◌≤◌, List, [], ◌∷◌, ◌++◌, ◌≡◌, ◌≢◌, length, take, Option, Ok};
ghost use Rattle.wasm_ast.specs.declared.val_types.ValType.{ValType};
ghost use Rattle.wasm_ast.specs.declared.val_types.ValType.TheVariants.{I32};
ghost use Rattle.wasm_ast.specs.declared.trees.Instr.{Instr};
ghost use Rattle.wasm_ast.specs.declared.memory_types.MemoryType.{MemoryType};
ghost use Rattle.wasm_ast.specs.declared.modules.Module.{Module};
ghost use Rattle.wasm_ast.specs.Trees.{Layer, layer};
ghost use Rattle.wasm_ast.specs.Spaces.{memory_of};
ghost use Rattle.wasm_ast.specs.declared.hosts.HostName.{HostName};
ghost use Rattle.wasm_ast.specs.Hosts.{host_params};
ghost use Rattle.wasm_ast.specs.Validity.{Valid};
ghost use Rattle.wasm_semantics.specs.Data.{Data, Wrong, effect_of};
ghost use Rattle.wasm_semantics.specs.Threads.{Thread, Outcome, Goes};
ghost use Rattle.wasm_semantics.specs.Control.{Spot, thread_at, leave};
ghost use Rattle.wasm_semantics.specs.Units.{act, limited, unit, units, with_memory, answered};
ghost use Rattle.wasm_semantics.specs.Begin.{begin};
ghost use Rattle.wasm_semantics.specs.OfModule.{Holds, IsMemory, IsOf, IsWaiting, IsAnswer, Sound, Reached};
ghost use Rattle.wasm_semantics.specs.Operands.{operand_types, LieOnTop};
ghost use Rattle.wasm_semantics.specs.Operators.{extended_from};
ghost use Rattle.wasm_num.specs.declared.operators.BinaryOp.TheVariants.{Shl, ShrS};
ghost use Rattle.wasm_num.specs.Num.{num_binary};
ghost use Rattle.wasm_semantics.specs.Laws.{KeepsBytes, AllowTheSame, deeper, lifted, before};
ghost use Rattle.wasm_semantics.specs.Laws.{IsWithinLimits, KeepsLimits, GoesOn, then_units, in_four_places};

/// A thread of a valid module is never stuck: each unit, under any number of pages, gives a thread of the module, the end,
/// a trap, or a host call whose answer gives a thread of the module. The thread that the module begins with is one.
pub fn never_stuck()
    ensures unit { (m : Module) (pages : ℕ) (t : Thread) → Valid m → IsOf m t → Sound m (unit m pages t) }
    ensures units { (m : Module) (pages n : ℕ) (t : Thread) → Valid m → IsOf m t → Sound m (units m pages t n).stop }
    ensures begin { (m : Module) → Valid m → IsOf m (begin m) }
    ensures reached { (m : Module) (o : Outcome) → Valid m → Reached m o → Sound m o }
{}

/// What a unit comes to depends on the thread, the module and the pages alone, and on the pages only as far as they let the
/// module's own memory grow.
pub fn unit_depends_on_little()
    ensures unit { (m : Module) (p q : ℕ) (s t : Thread) → s ≡ t → AllowTheSame m p q → unit m p s ≡ unit m q t }
    ensures units { (m : Module) (p q n : ℕ) (s t : Thread) → s ≡ t → AllowTheSame m p q → units m p s n ≡ units m q t n }
{}

/// No unit makes a memory shorter.
pub fn memory_never_shrinks()
    ensures unit { (m : Module) (pages : ℕ) (t : Thread) → KeepsBytes (length t.store.memory) (unit m pages t) }
    ensures units { (m : Module) (pages n : ℕ) (t : Thread) → KeepsBytes (length t.store.memory) (units m pages t n).stop }
{}

/// With another memory of the module's limits a thread stays one of the module, and one that waits still waits. A memory of the
/// same length is within the same limits.
pub fn another_memory()
    ensures thread { (m : Module) (t : Thread) (memory : List ℕ) → IsOf m t → IsMemory (memory_of m) memory →
        IsOf m (with_memory t memory) }
    ensures waits { (m : Module) (h : HostName) (t : Thread) (memory : List ℕ) → IsWaiting m h t → IsWaiting m h (with_memory t memory) }
    ensures length { (limits : Option MemoryType) (a b : List ℕ) → length b ≡ length a → IsMemory limits a → IsMemory limits b }
{}

/// An instruction that moves data moves the same data where more operands lie below.
pub fn data_over_more_operands()
    ensures { (m : Module) (pages : ℕ) (y : Layer) (d : Data) (below : List ℕ) → effect_of m pages y d ≢ Wrong →
        effect_of m pages y (deeper d below) ≡ lifted below (effect_of m pages y d) }
{}

/// A unit takes the instruction in front and carries it out where the thread runs then, or leaves where none is left.
pub fn unit_in_two_steps()
    ensures acts { (m : Module) (pages : ℕ) (p : Spot) (i : Instr) →
        unit m pages (thread_at (before i p)) ≡ limited (act m pages i (layer i) p) }
    ensures leaves { (m : Module) (pages : ℕ) (p : Spot) → p.level.code ≡ [] → unit m pages (thread_at p) ≡ limited (leave p) }
{}

/// A thread of a module, before an instruction, has on top operands of the types that the instruction declares.
pub fn operands_fit()
    ensures { (m : Module) (p : Spot) (i : Instr) → IsOf m (thread_at (before i p)) → LieOnTop (operand_types m (layer i)) p.level.values }
{}

/// At most the units asked for are used: all of them where the thread goes on, and none where none are asked for. So many units
/// and then so many more are as many together.
pub fn units_are_counted()
    ensures most { (m : Module) (pages n : ℕ) (t : Thread) → (units m pages t n).used ≤ n }
    ensures all { (m : Module) (pages n : ℕ) (t : Thread) → GoesOn (units m pages t n).stop → (units m pages t n).used ≡ n }
    ensures none { (m : Module) (pages : ℕ) (t : Thread) → units m pages t 0 ≡ record { used = 0; stop = Goes t } }
    ensures some { (m : Module) (pages n : ℕ) (t : Thread) → 0 < n → 0 < (units m pages t n).used }
    ensures join { (m : Module) (pages k n : ℕ) (t : Thread) → units m pages t (k + n) ≡ then_units m pages (units m pages t k) n }
{}

/// A unit that goes on, or that asks the host, leaves a thread within the limits, and so do several from a thread within them.
pub fn limits_hold()
    ensures unit { (m : Module) (pages : ℕ) (t : Thread) → KeepsLimits (unit m pages t) }
    ensures units { (m : Module) (pages n : ℕ) (t : Thread) → IsWithinLimits t → KeepsLimits (units m pages t n).stop }
{}

/// An answer gives a thread of the module again, without another memory too. It leaves the store as it is, and it does not
/// matter whether the memory is changed before it or behind it.
pub fn answer_gives_a_thread()
    ensures thread { (m : Module) (h : HostName) (t : Thread) (answer : Option ℕ) → IsWaiting m h t →
        IsMemory (memory_of m) t.store.memory → IsAnswer h answer → IsOf m (answered t answer) }
    ensures store { (t : Thread) (answer : Option ℕ) → (answered t answer).store ≡ t.store }
    ensures memory { (t : Thread) (memory : List ℕ) (answer : Option ℕ) →
        answered (with_memory t memory) answer ≡ with_memory (answered t answer) memory }
{}

/// The arguments of a host call fit in four places of 32 bits, and stand in the first of them.
pub fn arguments_have_places()
    ensures four { (h : HostName) (args : List ℕ) → Holds (host_params h) args → Holds (I32 ∷ I32 ∷ I32 ∷ I32 ∷ []) (in_four_places args) }
    ensures first { (h : HostName) (args : List ℕ) → Holds (host_params h) args →
        take (length (host_params h)) (in_four_places args) ≡ args }
{}

/// The sign extension from n of w bits is a shift to the left and one back to the right, by the bits that are left out.
pub fn two_shifts_extend()
    ensures left { (n w a : ℕ) → 0 < n → n ≤ w → num_binary Shl w a (w - n) ≡ Ok ((a * 2 ^ (w - n)) % 2 ^ w) }
    ensures right { (n w a : ℕ) → 0 < n → n ≤ w → num_binary ShrS w ((a * 2 ^ (w - n)) % 2 ^ w) (w - n) ≡ Ok (extended_from n w a) }
{}
