//! Laws of typing and of validity.

ghost use Rattle.std.specs.Prelude.{List, ◌∷◌, ◌++◌, ◌≡◌};
ghost use Rattle.wasm_ast.specs.declared.val_types.ValType.{ValType};
ghost use Rattle.wasm_ast.specs.declared.trees.Instr.{Instr};
ghost use Rattle.wasm_ast.specs.declared.modules.Module.{Module};
ghost use Rattle.wasm_ast.specs.Typing.{Context, Step, Types};
ghost use Rattle.wasm_ast.specs.Faults.{Fault};
ghost use Rattle.wasm_ast.specs.Validity.{Invalidity, Valid};

/// A typing stays one where the same types stand below on both sides.
pub fn same_types_below()
    ensures { (c : Context) (labels : List (List ValType)) (code : List Instr) (before after below : List ValType) →
        Types c labels code before after → Types c labels code (before ++ below) (after ++ below) }
{}

/// A list is typed by its first instruction and then the rest, as it is by its first part and then its last instruction.
pub fn first_and_then_the_rest()
    ensures joined { (c : Context) (labels : List (List ValType)) (i : Instr) (rest : List Instr) (before between after : List ValType) →
        Step c labels i before between → Types c labels rest between after → Types c labels (i ∷ rest) before after }
    ensures split { (c : Context) (labels : List (List ValType)) (i : Instr) (rest : List Instr) (before after : List ValType) →
        Types c labels (i ∷ rest) before after →
        (between : List ValType) × Step c labels i before between × Types c labels rest between after }
{}

/// A module has at most one fault, and a valid one has none.
pub fn one_fault()
    ensures one { (m : Module) (f g : Fault) → Invalidity m f → Invalidity m g → f ≡ g }
    ensures none { (m : Module) (f : Fault) → Valid m → Invalidity m f → ⊥ }
{}
