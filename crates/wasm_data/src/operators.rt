//! Operators on the topmost operands (Core 1.0, section 4.4.1, and sign extension).

ghost use Rattle.std.specs.Prelude.{[], ◌∷◌, ◌≡◌, ◌+◌, ◌<◌, ◌≤◌, ◌^◌, ◌%◌, IsTrue, length, Some};
ghost use Rattle.wasm_ast.specs.Operators.{bits};
ghost use Rattle.wasm_ast.specs.declared.trees.Instr.TheOpen.{Instr-F};
ghost use Rattle.wasm_num.specs.Num.{width};
ghost use Rattle.wasm_semantics.specs.Operators.{operator_of, converted_type, extended_from};
ghost use Rattle.wasm_data.specs.Effects.{DoesToValues, CarriesOut};
ghost use Rattle.wasm_data.specs.Marked.{AreInArray, operands_in};
ghost use Rattle.wasm_semantics.specs.Operands.{LieOnTop};
ghost use Rattle.wasm_data.specs.Operands.{HasOperands, operated, is_low, keeps_low};

use crate::marks::{Marks, put, top};
use crate::moved::Moved;
use wasm_ast::ValType;
use wasm_num::{
    BinaryOp, CompareOp, ConvertOp, NumTrap, UnaryOp, binary, compare, convert, test, unary,
};
use wasm_semantics::{Operator, Trap};

/// Whether values of a type have 64 bits.
#[inline(always)]
pub(crate) fn is_wide(val_type: ValType) -> bool
    ensures { width result ≡ bits val_type }
{
    match val_type {
        ValType::I32 => false,
        ValType::I64 => true,
        ValType::F32 => false,
        ValType::F64 => true,
    }
}

/// `eqz`.
#[inline(always)]
fn test_top(values: &mut [u64], marks: Marks, val_type: ValType) -> Moved
    requires within { AreInArray marks (length values.old) }
    requires some { marks.floor < marks.sp }
    requires fits { LieOnTop (val_type ∷ []) (operands_in marks.floor marks.sp values.old) }
    ensures { DoesToValues (operated (Operator.Test val_type)) values.old values.new marks result }
{
    let a = top(values, marks);
    put(
        values,
        marks.raised(marks.sp - 1),
        u64::from(test(is_wide(val_type), a)),
    );
    Moved::Goes(marks.sp)
}

/// A comparison.
#[inline(always)]
fn compare_top(values: &mut [u64], marks: Marks, val_type: ValType, op: CompareOp) -> Moved
    requires within { AreInArray marks (length values.old) }
    requires two { marks.floor + 2 ≤ marks.sp }
    requires fits { LieOnTop (val_type ∷ val_type ∷ []) (operands_in marks.floor marks.sp values.old) }
    ensures { DoesToValues (operated (Operator.Compare val_type op)) values.old values.new marks result }
{
    let b = top(values, marks);
    let a = top(values, marks.raised(marks.sp - 1));
    put(
        values,
        marks.raised(marks.sp - 2),
        u64::from(compare(op, is_wide(val_type), a, b)),
    );
    Moved::Goes(marks.sp - 1)
}

/// An operator on one number.
#[inline(always)]
fn unary_top(values: &mut [u64], marks: Marks, val_type: ValType, op: UnaryOp) -> Moved
    requires within { AreInArray marks (length values.old) }
    requires some { marks.floor < marks.sp }
    requires fits { LieOnTop (val_type ∷ []) (operands_in marks.floor marks.sp values.old) }
    ensures { DoesToValues (operated (Operator.Unary val_type op)) values.old values.new marks result }
{
    let a = top(values, marks);
    put(
        values,
        marks.raised(marks.sp - 1),
        unary(op, is_wide(val_type), a),
    );
    Moved::Goes(marks.sp)
}

/// An operator on two numbers.
#[inline(always)]
fn binary_top(values: &mut [u64], marks: Marks, val_type: ValType, op: BinaryOp) -> Moved
    requires within { AreInArray marks (length values.old) }
    requires two { marks.floor + 2 ≤ marks.sp }
    requires fits { LieOnTop (val_type ∷ val_type ∷ []) (operands_in marks.floor marks.sp values.old) }
    ensures { DoesToValues (operated (Operator.Binary val_type op)) values.old values.new marks result }
{
    let b = top(values, marks);
    let a = top(values, marks.raised(marks.sp - 1));
    match binary(op, is_wide(val_type), a, b) {
        Ok(value) => {
            put(values, marks.raised(marks.sp - 2), value);
            Moved::Goes(marks.sp - 1)
        }
        Err(NumTrap::Divide) => Moved::Trapped(Trap::Divide),
        Err(NumTrap::Overflow) => Moved::Trapped(Trap::Overflow),
    }
}

/// A conversion.
#[inline(always)]
fn convert_top(values: &mut [u64], marks: Marks, op: ConvertOp) -> Moved
    requires within { AreInArray marks (length values.old) }
    requires some { marks.floor < marks.sp }
    requires fits { LieOnTop (converted_type op).takes (operands_in marks.floor marks.sp values.old) }
    ensures { DoesToValues (operated (Operator.Convert op)) values.old values.new marks result }
{
    let a = top(values, marks);
    put(values, marks.raised(marks.sp - 1), convert(op, a));
    Moved::Goes(marks.sp)
}

/// The number of 64 bits, or of 32, whose signed reading is that of the low 8, 16 or 32 bits.
#[inline(always)]
pub(crate) fn extended(wide: bool, low: u32, a: u64) -> u64
    requires { IsTrue (is_low low) }
    ensures { result ≡ extended_from low (width wide) a }
{
    let signed = match low {
        8 => i32::from(((a & 0xff) as u8).cast_signed()),
        16 => i32::from(((a & 0xffff) as u16).cast_signed()),
        _ => ((a & 0xffff_ffff) as u32).cast_signed(),
    };
    if wide {
        i64::from(signed).cast_unsigned()
    } else {
        u64::from(signed.cast_unsigned())
    }
}

/// A sign extension.
#[inline(always)]
fn extend_top(values: &mut [u64], marks: Marks, val_type: ValType, low: u32) -> Moved
    requires within { AreInArray marks (length values.old) }
    requires some { marks.floor < marks.sp }
    requires low { IsTrue (is_low low) }
    ensures { DoesToValues (operated (Operator.Extend val_type low)) values.old values.new marks result }
{
    let a = top(values, marks);
    put(
        values,
        marks.raised(marks.sp - 1),
        extended(is_wide(val_type), low, a),
    );
    Moved::Goes(marks.sp)
}

/// The operator with this opcode.
#[inline(always)]
pub(crate) fn operate(values: &mut [u64], marks: Marks, code: u8, operator: Operator) -> Moved
    requires within { AreInArray marks (length values.old) }
    requires named { operator_of code ≡ Some operator }
    requires low { IsTrue (keeps_low operator) }
    requires fits { HasOperands code (operands_in marks.floor marks.sp values.old) }
    ensures { CarriesOut (Instr-F.Num code) values.old values.new marks result }
{
    match operator {
        Operator::Test(val_type) => test_top(values, marks, val_type),
        Operator::Compare(val_type, op) => compare_top(values, marks, val_type, op),
        Operator::Unary(val_type, op) => unary_top(values, marks, val_type, op),
        Operator::Binary(val_type, op) => binary_top(values, marks, val_type, op),
        Operator::Convert(op) => convert_top(values, marks, op),
        Operator::Extend(val_type, low) => extend_top(values, marks, val_type, low),
    }
}
