//! Worked examples of validity and of typing.

ghost use Rattle.std.specs.Prelude.{List, [], ◌∷◌, ◌≡◌};
ghost use Rattle.wasm_ast.specs.declared.val_types.ValType.{ValType};
ghost use Rattle.wasm_ast.specs.declared.val_types.ValType.TheVariants.{I32};
ghost use Rattle.wasm_ast.specs.declared.trees.Instr.{Instr};
ghost use Rattle.wasm_ast.specs.declared.trees.Instr.TheVariants as V;
ghost use Rattle.wasm_ast.specs.declared.places.FloatPlace.TheVariants as place;
ghost use Rattle.wasm_ast.specs.declared.places.SegmentPlace.TheVariants as segment;
ghost use Rattle.wasm_ast.specs.Typing.{Context, Types};
ghost use Rattle.wasm_ast.specs.Faults as fault;
ghost use Rattle.wasm_ast.specs.Validity.{Invalidity, Valid};
ghost use Rattle.wasm_ast.specs.TestModules.{echo, built, fill, give, float};
ghost use Rattle.wasm_ast.specs.Refusals.{other_import, unknown_import, handle_with_params, element_past, data_past};
ghost use Rattle.wasm_ast.specs.Refusals.{two_results, type_past, two_tables, table_over_maximum, table_too_large};
ghost use Rattle.wasm_ast.specs.Refusals.{two_memories, memory_over_maximum, memory_too_large};
ghost use Rattle.wasm_ast.specs.Refusals.{global_without_value, global_of_other_type, export_past, same_names};
ghost use Rattle.wasm_ast.specs.Refusals.{start_past, start_with_params};
ghost use Rattle.wasm_ast.specs.Refusals.{element_without_table, element_of_no_function, data_without_memory, data_without_offset};
ghost use Rattle.wasm_ast.specs.Refusals.{unreached_code, table_branch};

/// Modules that reply, that fill and copy memory and extend a sign, and that release are valid.
pub fn test_modules_are_valid()
    ensures echo { Valid echo }
    ensures built { Valid built }
    ensures fill { Valid fill }
    ensures give { Valid give }
{}

/// A float is refused at the place where it stands.
pub fn float_in_a_body()
    ensures { Invalidity float (fault.Float (place.Bodies 0)) }
{}

/// An import of another type or of another name than those of the host is refused, by its number.
pub fn no_host_call()
    ensures other_import { Invalidity other_import (fault.Import 0) }
    ensures unknown_import { Invalidity unknown_import (fault.Import 1) }
{}

/// The rules of structure on types, functions, tables and memories.
pub fn rules_of_types_and_limits()
    ensures two_results { Invalidity two_results (fault.Structure 1) }
    ensures type_past { Invalidity type_past (fault.Structure 2) }
    ensures two_tables { Invalidity two_tables (fault.Structure 3) }
    ensures table_over_maximum { Invalidity table_over_maximum (fault.Structure 3) }
    ensures table_too_large { Invalidity table_too_large (fault.Structure 3) }
    ensures two_memories { Invalidity two_memories (fault.Structure 4) }
    ensures memory_over_maximum { Invalidity memory_over_maximum (fault.Structure 4) }
    ensures memory_too_large { Invalidity memory_too_large (fault.Structure 4) }
{}

/// The rules of structure on globals, exports and the start function.
pub fn rules_of_indices()
    ensures global_without_value { Invalidity global_without_value (fault.Structure 5) }
    ensures global_of_other_type { Invalidity global_of_other_type (fault.Structure 5) }
    ensures export_past { Invalidity export_past (fault.Structure 6) }
    ensures same_names { Invalidity same_names (fault.Structure 7) }
    ensures start_past { Invalidity start_past (fault.Structure 8) }
    ensures start_with_params { Invalidity start_with_params (fault.Structure 8) }
{}

/// The rules of structure on element segments and data segments.
pub fn rules_of_segments()
    ensures element_without_table { Invalidity element_without_table (fault.Structure 9) }
    ensures element_of_no_function { Invalidity element_of_no_function (fault.Structure 9) }
    ensures data_without_memory { Invalidity data_without_memory (fault.Structure 10) }
    ensures data_without_offset { Invalidity data_without_offset (fault.Structure 10) }
{}

/// A module whose `handle` is a function of another type has no entry point.
pub fn no_entry_point()
    ensures { Invalidity handle_with_params fault.NoHandle }
{}

/// A segment that ends past the least size of what it fills is refused, by its kind and its number.
pub fn past_the_end()
    ensures element_past { Invalidity element_past (fault.Segment (segment.Element 0)) }
    ensures data_past { Invalidity data_past (fault.Segment (segment.Data 0)) }
{}

/// Code after an unconditional branch is typed as if its operands were there.
pub fn code_after_unreachable_has_a_typing()
    ensures { (c : Context) (labels : List (List ValType)) → Types c labels unreached_code [] (I32 ∷ []) }
{}

/// An instruction whose operand is missing has no typing, whatever comes after it and whatever it may leave.
pub fn missing_operand_has_no_typing()
    ensures { (c : Context) (labels : List (List ValType)) (rest : List Instr) (after : List ValType) →
        Types c labels (V.Drop ∷ rest) [] after → ⊥ }
{}

/// A `br_table` has a typing where all its targets take the same types, and none where two of them take different ones.
pub fn targets_take_the_same()
    ensures same { (c : Context) (labels : List (List ValType)) (ts after : List ValType) →
        Types c (ts ∷ ts ∷ labels) table_branch (I32 ∷ ts) after }
    ensures differ { (c : Context) (labels : List (List ValType)) (ts us before after : List ValType) →
        (ts ≡ us → ⊥) → Types c (ts ∷ us ∷ labels) table_branch before after → ⊥ }
{}
