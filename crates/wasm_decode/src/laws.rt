//! What follows from the definitions.

ghost use Rattle.std.specs.Prelude.{ℕ, ◌≡◌, ◌⊎◌, List, ◌∷◌, [], take, Ok, Err};
ghost use Rattle.wasm_ast.specs.TestModules.{built, echo, fill, float, spin};
ghost use Rattle.wasm_ast.specs.declared.modules.Module.{Module};
ghost use Rattle.wasm_code.specs.declared.error.DecodeError.{DecodeError};
ghost use Rattle.wasm_code.specs.declared.error.DecodeError.TheVariants.{Malformed};
ghost use Rattle.wasm_code.specs.Agreement.{IsFaultWithin};
ghost use Rattle.wasm_decode.specs.Examples.{built_bytes, echo_bytes, fill_bytes, float_bytes, spin_bytes, with_size};
ghost use Rattle.wasm_decode.specs.Grammar.{Spells};
ghost use Rattle.wasm_decode.specs.Sections.{Fails, module_of, whole};

/// The grammar and the reading from the left agree: a module is read exactly where the bytes spell it.
pub fn reads_what_is_spelled()
    ensures sound { (bytes : List ℕ) (m : Module) → module_of bytes ≡ Ok m → Spells m bytes }
    ensures complete { (bytes : List ℕ) (m : Module) → Spells m bytes → module_of bytes ≡ Ok m }
{}

/// Each list of bytes spells exactly one module, or has exactly one fault; and an offset in the fault is one of the file, or its end.
pub fn spells_or_fails()
    ensures either { (bytes : List ℕ) → ((m : Module) × Spells m bytes) ⊎ ((fault : DecodeError) × Fails bytes fault) }
    ensures one_module { (bytes : List ℕ) (m n : Module) → Spells m bytes → Spells n bytes → m ≡ n }
    ensures one_fault { (bytes : List ℕ) (d e : DecodeError) → Fails bytes d → Fails bytes e → d ≡ e }
    ensures not_both { (bytes : List ℕ) (m : Module) (e : DecodeError) → Spells m bytes → Fails bytes e → ⊥ }
    ensures within { (bytes : List ℕ) (e : DecodeError) → Fails bytes e → IsFaultWithin (whole bytes) e }
{}

/// Modules are read from their bytes: a loop without an end, a float, a reply with its input, that in a longer form, which its
/// bytes spell, and one that fills and copies memory, with a count of data segments.
pub fn reads_modules()
    ensures endless { module_of spin_bytes ≡ Ok spin }
    ensures with_float { module_of float_bytes ≡ Ok float }
    ensures replies { module_of echo_bytes ≡ Ok echo }
    ensures longer { module_of built_bytes ≡ Ok built }
    ensures spelled { Spells built built_bytes }
    ensures fills { module_of fill_bytes ≡ Ok fill }
    ensures filled { Spells fill fill_bytes }
{}

/// A size may take five bytes, and not six. Where a module is cut, its last section is longer than what is left.
pub fn finds_faults()
    ensures five { module_of (with_size (0x8f ∷ 0x80 ∷ 0x80 ∷ 0x80 ∷ 0x00 ∷ [])) ≡ Ok echo }
    ensures six { module_of (with_size (0x8f ∷ 0x80 ∷ 0x80 ∷ 0x80 ∷ 0x80 ∷ 0x00 ∷ [])) ≡ Err (Malformed 9) }
    ensures cut { module_of (take 98 echo_bytes) ≡ Err (Malformed 82) }
{}
