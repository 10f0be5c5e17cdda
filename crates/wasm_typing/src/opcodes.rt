//! What integer instructions take and leave, by opcode.

ghost use Rattle.std.specs.Prelude.{◌≡◌, ◌^◌, option_map, MatchOption, None, Some};
ghost use Rattle.wasm_ast.specs.Operators.{Access, operator_type, load_of, store_of};
ghost use Rattle.wasm_typing.specs.Opcodes.{type_in, Accesses};

use wasm_ast::ValType;

/// One or two operands of a type, and the type of the result.
#[derive(Clone, Copy)]
pub struct Operator {
    pub operand: ValType,
    pub binary: bool,
    pub leaves: ValType,
}

/// The operator with this opcode.
#[tactic(auto, unfolding(wasm_ast::specs::Operators::operator_type))]
pub fn operator_at(opcode: u8) -> Option<Operator>
    ensures { option_map type_in result ≡ operator_type opcode }
{
    let (operand, binary, leaves) = match opcode {
        69 => (ValType::I32, false, ValType::I32),
        70..=79 => (ValType::I32, true, ValType::I32),
        80 => (ValType::I64, false, ValType::I32),
        81..=90 => (ValType::I64, true, ValType::I32),
        103..=105 => (ValType::I32, false, ValType::I32),
        106..=120 => (ValType::I32, true, ValType::I32),
        121..=123 => (ValType::I64, false, ValType::I64),
        124..=138 => (ValType::I64, true, ValType::I64),
        167 => (ValType::I64, false, ValType::I32),
        172..=173 => (ValType::I32, false, ValType::I64),
        192..=193 => (ValType::I32, false, ValType::I32),
        194..=196 => (ValType::I64, false, ValType::I64),
        _ => return None,
    };
    Some(Operator {
        operand,
        binary,
        leaves,
    })
}

/// The type of what is moved, and the width in bytes as the exponent of a power of two.
#[derive(Clone, Copy)]
pub struct Move {
    pub val_type: ValType,
    pub exponent: u32,
}

/// The load with this opcode.
#[tactic(auto, unfolding(wasm_ast::specs::Operators::load_of))]
pub fn load_at(opcode: u8) -> Option<Move>
    ensures { Accesses (load_of opcode) result }
{
    let (val_type, exponent) = match opcode {
        40 => (ValType::I32, 2),
        41 => (ValType::I64, 3),
        44 | 45 => (ValType::I32, 0),
        46 | 47 => (ValType::I32, 1),
        48 | 49 => (ValType::I64, 0),
        50 | 51 => (ValType::I64, 1),
        52 | 53 => (ValType::I64, 2),
        _ => return None,
    };
    Some(Move { val_type, exponent })
}

/// The store with this opcode.
#[tactic(auto, unfolding(wasm_ast::specs::Operators::store_of))]
pub fn store_at(opcode: u8) -> Option<Move>
    ensures { Accesses (store_of opcode) result }
{
    let (val_type, exponent) = match opcode {
        54 => (ValType::I32, 2),
        55 => (ValType::I64, 3),
        58 => (ValType::I32, 0),
        59 => (ValType::I32, 1),
        60 => (ValType::I64, 0),
        61 => (ValType::I64, 1),
        62 => (ValType::I64, 2),
        _ => return None,
    };
    Some(Move { val_type, exponent })
}
