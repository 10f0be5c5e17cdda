//! What follows from the definitions.

ghost use Rattle.std.specs.Prelude.{ℕ, ◌≡◌, ◌<◌, [], ◌++◌, codes, is_some, Ok, Err};
ghost use Rattle.wasm_ast.specs.Operators.{operator_type, load_of, store_of};
ghost use Rattle.wasm_code.specs.Agreement.{Agrees};
ghost use Rattle.wasm_code.specs.declared.error.DecodeError.TheVariants.{Malformed, TooDeep, TooManyLocals};
ghost use Rattle.wasm_code.specs.Examples.{endless, endless_bytes, hex, opening, start};
ghost use Rattle.wasm_code.specs.Grammar.{Expr, IsBody};
ghost use Rattle.wasm_code.specs.Opcodes.{is_num, is_load, is_store};
ghost use Rattle.wasm_code.specs.Reading.{expr, body};

/// The grammar and the reading from the left agree: an expression or a body is read exactly where the bytes spell it,
/// whatever the number of the body. The reading goes on behind the bytes that it used; its fault is within its range, and
/// never out of memory.
pub fn reads_what_is_spelled()
    ensures expressions { Agrees Expr expr }
    ensures bodies { (f : ℕ) → Agrees IsBody (body f) }
{}

/// The bytes that are opcodes of integer operators, loads and stores are those that have a type, on all bytes.
pub fn opcodes_agree()
    ensures operators { (op : ℕ) → op < 256 → is_num op ≡ is_some (operator_type op) }
    ensures loads { (op : ℕ) → op < 256 → is_load op ≡ is_some (load_of op) }
    ensures stores { (op : ℕ) → op < 256 → is_store op ≡ is_some (store_of op) }
{}

/// A body without locals, whose code is a loop without an end, is spelled by seven bytes, and read from them.
pub fn reads_an_endless_loop()
    ensures read { body 0 (start endless_bytes) ≡ Ok (endless, record { rest = []; at = 7 }) }
    ensures spelled { IsBody endless endless_bytes [] }
{}

/// The first fault, by its offset: block 513 is too deep, and block 512 is not; 1,025 locals are too many;
/// `else` stands in an `if` alone, and once; an index of six bytes, and a type or an opcode that there is not.
pub fn finds_faults()
    ensures deep { expr (start (opening 513)) ≡ Err (TooDeep 1024) }
    ensures not_deep { expr (start (opening 512)) ≡ Err (Malformed 1024) }
    ensures many { body 7 (start (hex (codes "0181087f0b"))) ≡ Err (TooManyLocals 7) }
    ensures no_if { expr (start (hex (codes "0240050b0b"))) ≡ Err (Malformed 2) }
    ensures twice { expr (start (hex (codes "044005050b0b"))) ≡ Err (Malformed 3) }
    ensures long { expr (start (hex (codes "0110808080808000"))) ≡ Err (Malformed 2) }
    ensures type_ { expr (start (hex (codes "02410b0b"))) ≡ Err (Malformed 1) }
    ensures opcode { expr (start (hex (codes "01c50b"))) ≡ Err (Malformed 1) }
{}
