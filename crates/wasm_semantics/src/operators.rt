//! Operators on integers.

use wasm_ast::ValType;
use wasm_num::{BinaryOp, CompareOp, ConvertOp, UnaryOp};

/// An operator on integers, with the type of its operands. WebAssembly 1.0, 4.3.2, and sign extension.
#[derive(Clone, Copy, Debug, PartialEq, Eq)]
pub enum Operator {
    /// Whether a number is 0.
    Test(ValType),
    /// A comparison of two numbers.
    Compare(ValType, CompareOp),
    /// A number from one of the same type.
    Unary(ValType, UnaryOp),
    /// A number from two of the same type.
    Binary(ValType, BinaryOp),
    /// A number from one of the other type.
    Convert(ConvertOp),
    /// A number from its low bits, so many, by their sign.
    Extend(ValType, u32),
}
