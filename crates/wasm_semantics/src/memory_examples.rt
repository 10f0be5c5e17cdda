//! Worked examples of instructions on memory.

ghost use Rattle.std.specs.Prelude.{ℕ, List, [], ◌∷◌, ◌≡◌, ◌≤◌, ◌%◌, ◌^◌, length};
ghost use Rattle.wasm_ast.specs.declared.trees.Instr.TheVariants as V;
ghost use Rattle.wasm_ast.specs.declared.modules.Module.{Module};
ghost use Rattle.wasm_ast.specs.Spaces.{page_limit};
ghost use Rattle.wasm_ast.specs.Bytes.{loaded, grown};
ghost use Rattle.wasm_semantics.specs.Threads.{Goes, Trapped};
ghost use Rattle.wasm_semantics.specs.Units.{unit};
ghost use Rattle.wasm_semantics.specs.Examples.{poised, passed, memory_alone};

use crate::traps::Trap;

/// A load of four bytes at the last four bytes of the memory gives their number, and one byte further it traps.
pub fn load_at_the_end_of_memory()
    ensures last { (m : Module) (pages : ℕ) (bytes : List ℕ) → length bytes ≡ 65536 →
        unit m pages (poised (memory_alone bytes) (65532 ∷ []) (V.Load 40 2 0))
        ≡ Goes (passed (memory_alone bytes) (loaded bytes 65532 4 % 2 ^ 32 ∷ [])) }
    ensures past { (m : Module) (pages : ℕ) (bytes : List ℕ) → length bytes ≡ 65536 →
        unit m pages (poised (memory_alone bytes) (65533 ∷ []) (V.Load 40 2 0)) ≡ Trapped Trap.Memory }
{}

/// Growing by 0 answers 4294967295 where the memory is larger than the pages now allowed.
pub fn growing_by_nothing_past_a_lowered_limit()
    ensures { (m : Module) (bytes : List ℕ) → length bytes ≡ 131072 →
        unit m 1 (poised (memory_alone bytes) (0 ∷ []) V.MemoryGrow) ≡ Goes (passed (memory_alone bytes) (4294967295 ∷ [])) }
{}

/// A memory of one page grows by one where two are allowed, and the answer is the old size.
pub fn memory_grows_by_a_page()
    ensures { (m : Module) (bytes : List ℕ) → length bytes ≡ 65536 → 2 ≤ page_limit m →
        unit m 2 (poised (memory_alone bytes) (1 ∷ []) V.MemoryGrow) ≡ Goes (passed (memory_alone (grown bytes 1)) (1 ∷ [])) }
{}

/// A narrow load extends the sign or fills with zeros, as its opcode says: `load8_s`, `load8_u` and the 64-bit `load16_s`.
pub fn narrow_loads_extend()
    ensures signed { (m : Module) (pages : ℕ) → unit m pages (poised (memory_alone (128 ∷ 255 ∷ [])) (0 ∷ []) (V.Load 44 0 0))
        ≡ Goes (passed (memory_alone (128 ∷ 255 ∷ [])) (4294967168 ∷ [])) }
    ensures unsigned { (m : Module) (pages : ℕ) → unit m pages (poised (memory_alone (128 ∷ 255 ∷ [])) (0 ∷ []) (V.Load 45 0 0))
        ≡ Goes (passed (memory_alone (128 ∷ 255 ∷ [])) (128 ∷ [])) }
    ensures wide { (m : Module) (pages : ℕ) → unit m pages (poised (memory_alone (128 ∷ 255 ∷ [])) (0 ∷ []) (V.Load 50 0 0))
        ≡ Goes (passed (memory_alone (128 ∷ 255 ∷ [])) (18446744073709551488 ∷ [])) }
{}

/// `memory.copy` over ranges that overlap gives the bytes as they stood before, upwards and downwards.
pub fn overlapping_copies()
    ensures upwards { (m : Module) (pages : ℕ) →
        unit m pages (poised (memory_alone (1 ∷ 2 ∷ 3 ∷ 4 ∷ 5 ∷ [])) (3 ∷ 0 ∷ 1 ∷ []) V.MemoryCopy)
        ≡ Goes (passed (memory_alone (1 ∷ 1 ∷ 2 ∷ 3 ∷ 5 ∷ [])) []) }
    ensures downwards { (m : Module) (pages : ℕ) →
        unit m pages (poised (memory_alone (1 ∷ 2 ∷ 3 ∷ 4 ∷ 5 ∷ [])) (3 ∷ 1 ∷ 0 ∷ []) V.MemoryCopy)
        ≡ Goes (passed (memory_alone (2 ∷ 3 ∷ 4 ∷ 4 ∷ 5 ∷ [])) []) }
{}

/// A length of 0 is tested too: at the end of the memory nothing changes, and past it the instruction traps.
pub fn nothing_past_the_end_traps()
    ensures fill_end { (m : Module) (pages : ℕ) → unit m pages (poised (memory_alone (1 ∷ 2 ∷ [])) (0 ∷ 7 ∷ 2 ∷ []) V.MemoryFill)
        ≡ Goes (passed (memory_alone (1 ∷ 2 ∷ [])) []) }
    ensures fill_past { (m : Module) (pages : ℕ) → unit m pages (poised (memory_alone (1 ∷ 2 ∷ [])) (0 ∷ 7 ∷ 3 ∷ []) V.MemoryFill)
        ≡ Trapped Trap.Memory }
    ensures copy_from_past { (m : Module) (pages : ℕ) → unit m pages (poised (memory_alone (1 ∷ 2 ∷ [])) (0 ∷ 3 ∷ 0 ∷ []) V.MemoryCopy)
        ≡ Trapped Trap.Memory }
    ensures copy_to_past { (m : Module) (pages : ℕ) → unit m pages (poised (memory_alone (1 ∷ 2 ∷ [])) (0 ∷ 0 ∷ 3 ∷ []) V.MemoryCopy)
        ≡ Trapped Trap.Memory }
{}
