//! Operators by their opcodes, each with an arm of its own: `eqz` and comparisons, those on one number and then those on two, each
//! of both widths, and conversions.

ghost use Rattle.std.specs.Prelude.{◌≤◌, length};
ghost use Rattle.wasm_ast.specs.declared.trees.Instr.TheOpen.{Instr-F};
ghost use Rattle.wasm_data.specs.Effects.{CarriesOut};
ghost use Rattle.wasm_data.specs.Marked.{AreInArray, operands_in};
ghost use Rattle.wasm_data.specs.Operands.{HasOperands, IsListed};

use crate::marks::Marks;
use crate::moved::Moved;
use crate::operators::operate;
use wasm_ast::ValType::{I32, I64};
use wasm_num::{BinaryOp, CompareOp, ConvertOp, UnaryOp};
use wasm_semantics::Operator::{Binary, Compare, Convert, Extend, Test, Unary};

/// The operator with this opcode.
#[inline(always)]
#[tactic(auto, unfolding(wasm_semantics::specs::Operators::operator_of))]
pub(crate) fn number(values: &mut [u64], marks: Marks, code: u8) -> Moved
    requires within { AreInArray marks (length values.old) }
    requires listed { IsListed code }
    requires fits { HasOperands code (operands_in marks.floor marks.sp values.old) }
    ensures { CarriesOut (Instr-F.Num code) values.old values.new marks result }
{
    match code {
        69 => operate(values, marks, code, Test(I32)),
        70 => operate(values, marks, code, Compare(I32, CompareOp::Eq)),
        71 => operate(values, marks, code, Compare(I32, CompareOp::Ne)),
        72 => operate(values, marks, code, Compare(I32, CompareOp::LtS)),
        73 => operate(values, marks, code, Compare(I32, CompareOp::LtU)),
        74 => operate(values, marks, code, Compare(I32, CompareOp::GtS)),
        75 => operate(values, marks, code, Compare(I32, CompareOp::GtU)),
        76 => operate(values, marks, code, Compare(I32, CompareOp::LeS)),
        77 => operate(values, marks, code, Compare(I32, CompareOp::LeU)),
        78 => operate(values, marks, code, Compare(I32, CompareOp::GeS)),
        79 => operate(values, marks, code, Compare(I32, CompareOp::GeU)),
        _ => from_80(values, marks, code),
    }
}

/// The same from the tests of 64 bits on.
#[inline(always)]
#[tactic(auto, unfolding(wasm_semantics::specs::Operators::operator_of))]
fn from_80(values: &mut [u64], marks: Marks, code: u8) -> Moved
    requires within { AreInArray marks (length values.old) }
    requires listed { IsListed code }
    requires from { 80 ≤ code }
    requires fits { HasOperands code (operands_in marks.floor marks.sp values.old) }
    ensures { CarriesOut (Instr-F.Num code) values.old values.new marks result }
{
    match code {
        80 => operate(values, marks, code, Test(I64)),
        81 => operate(values, marks, code, Compare(I64, CompareOp::Eq)),
        82 => operate(values, marks, code, Compare(I64, CompareOp::Ne)),
        83 => operate(values, marks, code, Compare(I64, CompareOp::LtS)),
        84 => operate(values, marks, code, Compare(I64, CompareOp::LtU)),
        85 => operate(values, marks, code, Compare(I64, CompareOp::GtS)),
        86 => operate(values, marks, code, Compare(I64, CompareOp::GtU)),
        87 => operate(values, marks, code, Compare(I64, CompareOp::LeS)),
        88 => operate(values, marks, code, Compare(I64, CompareOp::LeU)),
        89 => operate(values, marks, code, Compare(I64, CompareOp::GeS)),
        90 => operate(values, marks, code, Compare(I64, CompareOp::GeU)),
        _ => from_103(values, marks, code),
    }
}

/// The same from the operators of 32 bits on.
#[inline(always)]
#[tactic(auto, unfolding(wasm_semantics::specs::Operators::operator_of))]
fn from_103(values: &mut [u64], marks: Marks, code: u8) -> Moved
    requires within { AreInArray marks (length values.old) }
    requires listed { IsListed code }
    requires from { 103 ≤ code }
    requires fits { HasOperands code (operands_in marks.floor marks.sp values.old) }
    ensures { CarriesOut (Instr-F.Num code) values.old values.new marks result }
{
    match code {
        103 => operate(values, marks, code, Unary(I32, UnaryOp::Clz)),
        104 => operate(values, marks, code, Unary(I32, UnaryOp::Ctz)),
        105 => operate(values, marks, code, Unary(I32, UnaryOp::Popcnt)),
        106 => operate(values, marks, code, Binary(I32, BinaryOp::Add)),
        107 => operate(values, marks, code, Binary(I32, BinaryOp::Sub)),
        108 => operate(values, marks, code, Binary(I32, BinaryOp::Mul)),
        109 => operate(values, marks, code, Binary(I32, BinaryOp::DivS)),
        110 => operate(values, marks, code, Binary(I32, BinaryOp::DivU)),
        111 => operate(values, marks, code, Binary(I32, BinaryOp::RemS)),
        112 => operate(values, marks, code, Binary(I32, BinaryOp::RemU)),
        113 => operate(values, marks, code, Binary(I32, BinaryOp::And)),
        114 => operate(values, marks, code, Binary(I32, BinaryOp::Or)),
        115 => operate(values, marks, code, Binary(I32, BinaryOp::Xor)),
        116 => operate(values, marks, code, Binary(I32, BinaryOp::Shl)),
        117 => operate(values, marks, code, Binary(I32, BinaryOp::ShrS)),
        118 => operate(values, marks, code, Binary(I32, BinaryOp::ShrU)),
        119 => operate(values, marks, code, Binary(I32, BinaryOp::Rotl)),
        120 => operate(values, marks, code, Binary(I32, BinaryOp::Rotr)),
        _ => from_121(values, marks, code),
    }
}

/// The same from the operators of 64 bits on.
#[inline(always)]
#[tactic(auto, unfolding(wasm_semantics::specs::Operators::operator_of))]
fn from_121(values: &mut [u64], marks: Marks, code: u8) -> Moved
    requires within { AreInArray marks (length values.old) }
    requires listed { IsListed code }
    requires from { 121 ≤ code }
    requires fits { HasOperands code (operands_in marks.floor marks.sp values.old) }
    ensures { CarriesOut (Instr-F.Num code) values.old values.new marks result }
{
    match code {
        121 => operate(values, marks, code, Unary(I64, UnaryOp::Clz)),
        122 => operate(values, marks, code, Unary(I64, UnaryOp::Ctz)),
        123 => operate(values, marks, code, Unary(I64, UnaryOp::Popcnt)),
        124 => operate(values, marks, code, Binary(I64, BinaryOp::Add)),
        125 => operate(values, marks, code, Binary(I64, BinaryOp::Sub)),
        126 => operate(values, marks, code, Binary(I64, BinaryOp::Mul)),
        127 => operate(values, marks, code, Binary(I64, BinaryOp::DivS)),
        128 => operate(values, marks, code, Binary(I64, BinaryOp::DivU)),
        129 => operate(values, marks, code, Binary(I64, BinaryOp::RemS)),
        130 => operate(values, marks, code, Binary(I64, BinaryOp::RemU)),
        131 => operate(values, marks, code, Binary(I64, BinaryOp::And)),
        132 => operate(values, marks, code, Binary(I64, BinaryOp::Or)),
        133 => operate(values, marks, code, Binary(I64, BinaryOp::Xor)),
        134 => operate(values, marks, code, Binary(I64, BinaryOp::Shl)),
        135 => operate(values, marks, code, Binary(I64, BinaryOp::ShrS)),
        136 => operate(values, marks, code, Binary(I64, BinaryOp::ShrU)),
        137 => operate(values, marks, code, Binary(I64, BinaryOp::Rotl)),
        138 => operate(values, marks, code, Binary(I64, BinaryOp::Rotr)),
        _ => from_167(values, marks, code),
    }
}

/// The same from the conversions on.
#[inline(always)]
#[tactic(auto, unfolding(wasm_semantics::specs::Operators::operator_of))]
fn from_167(values: &mut [u64], marks: Marks, code: u8) -> Moved
    requires within { AreInArray marks (length values.old) }
    requires listed { IsListed code }
    requires from { 167 ≤ code }
    requires fits { HasOperands code (operands_in marks.floor marks.sp values.old) }
    ensures { CarriesOut (Instr-F.Num code) values.old values.new marks result }
{
    match code {
        167 => operate(values, marks, code, Convert(ConvertOp::Wrap)),
        172 => operate(values, marks, code, Convert(ConvertOp::ExtendS)),
        173 => operate(values, marks, code, Convert(ConvertOp::ExtendU)),
        192 => operate(values, marks, code, Extend(I32, 8)),
        193 => operate(values, marks, code, Extend(I32, 16)),
        194 => operate(values, marks, code, Extend(I64, 8)),
        195 => operate(values, marks, code, Extend(I64, 16)),
        196 => operate(values, marks, code, Extend(I64, 32)),
        _ => unreachable!(),
    }
}
