ghost use Rattle.std.specs.Prelude.{ℕ, ◌≡◌, ◌<◌, ◌^◌, Ok, Err, IfOk};
ghost use Rattle.wasm_num.specs.declared.operators.UnaryOp.{UnaryOp as Unary};
ghost use Rattle.wasm_num.specs.declared.operators.BinaryOp.{BinaryOp as Binary};
ghost use Rattle.wasm_num.specs.declared.operators.ConvertOp.{ConvertOp as Convert};
ghost use Rattle.wasm_num.specs.Num.{num_unary, num_binary, num_convert, source_width, target_width};

use crate::operators::{BinaryOp, NumTrap};

/// Every result has as many bits as its operands; that of a conversion has as many as it gives.
pub fn results_below()
    ensures unary { (op : Unary) (w a : ℕ) → a < 2 ^ w → num_unary op w a < 2 ^ w }
    ensures binary { (op : Binary) (w a b : ℕ) → 0 < w → a < 2 ^ w → b < 2 ^ w →
        IfOk (num_binary op w a b) (λ n. n < 2 ^ w) }
    ensures convert { (op : Convert) (a : ℕ) → a < 2 ^ source_width op → num_convert op a < 2 ^ target_width op }
{}

/// The least number of 32 bits by -1: the quotient overflows, and the remainder is 0.
pub fn least_by_minus_one()
    ensures quotient { num_binary BinaryOp.DivS 32 2147483648 4294967295 ≡ Err NumTrap.Overflow }
    ensures remainder { num_binary BinaryOp.RemS 32 2147483648 4294967295 ≡ Ok 0 }
{}
