//! Worked examples of branches, calls and limits.

ghost use Rattle.std.specs.Prelude.{ℕ, List, [], ◌∷◌, ◌≡◌, ◌≤◌, false, length, slice_get, Some, None};
ghost use Rattle.wasm_ast.specs.declared.trees.Seq.{Seq};
ghost use Rattle.wasm_ast.specs.declared.trees.Instr.{Instr};
ghost use Rattle.wasm_ast.specs.declared.trees.Instr.TheVariants as V;
ghost use Rattle.wasm_ast.specs.declared.val_types.ValType.TheVariants.{I32};
ghost use Rattle.wasm_ast.specs.declared.func_types.FuncType.{FuncType};
ghost use Rattle.wasm_ast.specs.declared.modules.Module.{Module};
ghost use Rattle.wasm_ast.specs.Spaces.{Function, own, type_of};
ghost use Rattle.wasm_ast.specs.Hosts.{same_type};
ghost use Rattle.wasm_ast.specs.Validity.{handle_of};
ghost use Rattle.wasm_semantics.specs.Threads.{Store, Level, Frame, Goes, Trapped, values_in};
ghost use Rattle.wasm_semantics.specs.Control.{first_frame, zeros};
ghost use Rattle.wasm_semantics.specs.Units.{unit};
ghost use Rattle.wasm_semantics.specs.Begin.{begin};
ghost use Rattle.wasm_semantics.specs.OfModule.{IsOf};
ghost use Rattle.wasm_semantics.specs.Examples.{level, frame, lone, poised, passed, block, giving, opened_block, ended_block};

use crate::traps::Trap;

/// The condition of an `if` chooses its part, and the end of that part is left by one unit, which hands its operands on.
pub fn if_leaves_by_one_unit()
    ensures first { (m : Module) (pages : ℕ) (st : Store) (part other : Seq) (rest : List Instr) →
        unit m pages (lone st (level (1 ∷ []) (V.If (Some I32) part other ∷ rest) ∷ [])) ≡ Goes (lone st (opened_block part.items rest)) }
    ensures second { (m : Module) (pages : ℕ) (st : Store) (part other : Seq) (rest : List Instr) →
        unit m pages (lone st (level (0 ∷ []) (V.If (Some I32) part other ∷ rest) ∷ [])) ≡ Goes (lone st (opened_block other.items rest)) }
    ensures end { (m : Module) (pages : ℕ) (st : Store) (rest : List Instr) →
        unit m pages (lone st (ended_block 7 rest)) ≡ Goes (lone st (level (7 ∷ []) rest ∷ [])) }
{}

/// An indirect call traps where the index is past the end of the table, and otherwise where the entry is not set, and otherwise
/// where the function there has another type.
pub fn indirect_call_traps()
    ensures past { (m : Module) (pages : ℕ) (st : Store) (k v : ℕ) (ft : FuncType) → slice_get m.types k ≡ Some ft →
        length st.table ≤ v → unit m pages (poised st (v ∷ []) (V.CallIndirect k)) ≡ Trapped Trap.Table }
    ensures unset { (m : Module) (pages : ℕ) (st : Store) (k v : ℕ) (ft : FuncType) → slice_get m.types k ≡ Some ft →
        slice_get st.table v ≡ Some None → unit m pages (poised st (v ∷ []) (V.CallIndirect k)) ≡ Trapped Trap.Empty }
    ensures differs { (m : Module) (pages : ℕ) (st : Store) (k v x : ℕ) (ft found : FuncType) → slice_get m.types k ≡ Some ft →
        slice_get st.table v ≡ Some (Some x) → type_of m x ≡ Some found → same_type found ft ≡ false →
        unit m pages (poised st (v ∷ []) (V.CallIndirect k)) ≡ Trapped Trap.TypeDiffers }
{}

/// A branch to label 1 closes two blocks in one unit, keeps one value and drops the others.
pub fn branch_closes_two_blocks()
    ensures { (m : Module) (pages : ℕ) (st : Store) (inner outer rest onward : List Instr) →
        unit m pages (lone st (block (5 ∷ 6 ∷ []) (V.Br 1 ∷ inner) 0 outer ∷ block (8 ∷ []) outer 1 onward ∷ level (9 ∷ []) rest ∷ []))
        ≡ Goes (lone st (level (5 ∷ 9 ∷ []) onward ∷ [])) }
{}

/// A `br_table` takes its label by the index, and the last one for an index past the vector.
pub fn branch_by_table()
    ensures first { (m : Module) (pages : ℕ) (st : Store) (inner outer rest onward : List Instr) →
        unit m pages (lone st (block (0 ∷ 5 ∷ []) (V.BrTable (0 ∷ []) 1 ∷ inner) 1 outer ∷ block (8 ∷ []) rest 1 onward ∷ level [] [] ∷ []))
        ≡ Goes (lone st (block (5 ∷ 8 ∷ []) outer 1 onward ∷ level [] [] ∷ [])) }
    ensures past { (m : Module) (pages : ℕ) (st : Store) (inner outer rest onward : List Instr) →
        unit m pages (lone st (block (1 ∷ 5 ∷ []) (V.BrTable (0 ∷ []) 1 ∷ inner) 1 outer ∷ block (8 ∷ []) rest 1 onward ∷ level [] [] ∷ []))
        ≡ Goes (lone st (level (5 ∷ []) onward ∷ [])) }
{}

/// A return out of nested blocks hands the one result to the frame below and drops the other operands.
pub fn return_from_nested_blocks()
    ensures { (m : Module) (pages : ℕ) (st : Store) (inner outer rest onward : List Instr) →
        unit m pages (record {
          store = st;
          frames =
              giving (block (5 ∷ 6 ∷ []) (V.Return ∷ inner) 0 outer ∷ block (7 ∷ []) outer 0 rest ∷ level (8 ∷ []) rest ∷ [])
              ∷ frame (level (9 ∷ []) onward ∷ []) ∷ [];
        })
        ≡ Goes (lone st (level (5 ∷ 9 ∷ []) onward ∷ [])) }
{}

/// A module with a start function begins with its frame over that of `handle`.
pub fn start_frame_over_handle()
    ensures { (m : Module) (x y : ℕ) (start handle : Function) → m.start ≡ Some x → own m x ≡ Some start →
        handle_of m ≡ Some y → own m y ≡ Some handle →
        (begin m).frames ≡ first_frame start (zeros start.declared) ∷ first_frame handle (zeros handle.declared) ∷ [] }
{}

/// A call that would open frame 1,025 traps.
pub fn frame_1025_traps()
    ensures { (m : Module) (pages : ℕ) (st : Store) (fs : List Frame) (x : ℕ) (fn : Function) → length fs ≡ 1023 →
        slice_get m.imports x ≡ None → own m x ≡ Some fn → fn.signature.params ≡ [] →
        unit m pages (record { store = st; frames = frame (level [] (V.Call x ∷ []) ∷ []) ∷ fs }) ≡ Trapped Trap.Stack }
{}

/// 65,536 values are within the limit, and one more traps.
pub fn limit_of_values()
    ensures within { (m : Module) (pages : ℕ) (st : Store) (values : List ℕ) → length values ≡ 65535 →
        unit m pages (poised st values (V.I32Const 1)) ≡ Goes (passed st (1 ∷ values)) }
    ensures past { (m : Module) (pages : ℕ) (st : Store) (values : List ℕ) → length values ≡ 65536 →
        unit m pages (poised st values (V.I32Const 1)) ≡ Trapped Trap.Stack }
{}

/// 16,384 open blocks are within the limit, and one more traps.
pub fn limit_of_blocks()
    ensures within { (m : Module) (pages : ℕ) (st : Store) (body : Seq) (around : List Level) →
        length around ≡ 16383 → values_in around ≡ 0 →
        unit m pages (lone st (level [] (V.Block None body ∷ []) ∷ around))
        ≡ Goes (lone st (block [] body.items 0 [] ∷ level [] [] ∷ around)) }
    ensures past { (m : Module) (pages : ℕ) (st : Store) (body : Seq) (around : List Level) → length around ≡ 16384 →
        unit m pages (lone st (level [] (V.Block None body ∷ []) ∷ around)) ≡ Trapped Trap.Stack }
{}

/// A thread whose next instruction misses its operand is of no module.
pub fn missing_operand_is_of_no_module()
    ensures { (m : Module) (st : Store) → IsOf m (lone st (level [] (V.Drop ∷ []) ∷ [])) → ⊥ }
{}
