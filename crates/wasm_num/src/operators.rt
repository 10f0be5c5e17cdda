/// An operator on one number, of either width.
#[derive(Clone, Copy, Debug, PartialEq, Eq)]
pub enum UnaryOp {
    /// How many zero bits stand above the highest bit that is set; the width for 0.
    Clz,
    /// How many zero bits stand below the lowest bit that is set; the width for 0.
    Ctz,
    /// How many bits are set.
    Popcnt,
}

/// An operator on two numbers of one width. A shift or a rotation takes its count modulo the width.
#[derive(Clone, Copy, Debug, PartialEq, Eq)]
pub enum BinaryOp {
    Add,
    Sub,
    Mul,
    /// Rounded towards zero; traps for the divisor 0 and where the quotient does not fit.
    DivS,
    /// Rounded down; traps for the divisor 0.
    DivU,
    /// With the sign of the dividend; traps for the divisor 0.
    RemS,
    /// Traps for the divisor 0.
    RemU,
    And,
    Or,
    Xor,
    Shl,
    /// Fills with the sign.
    ShrS,
    /// Fills with zeros.
    ShrU,
    Rotl,
    Rotr,
}

/// A comparison of two numbers of one width: `S` of their signed readings, `U` of the unsigned ones.
#[derive(Clone, Copy, Debug, PartialEq, Eq)]
pub enum CompareOp {
    Eq,
    Ne,
    LtS,
    LtU,
    GtS,
    GtU,
    LeS,
    LeU,
    GeS,
    GeU,
}

/// A conversion between the widths.
#[derive(Clone, Copy, Debug, PartialEq, Eq)]
pub enum ConvertOp {
    /// To 32 bits, modulo 2^32.
    Wrap,
    /// To 64 bits, by the sign.
    ExtendS,
    /// To 64 bits, by zeros.
    ExtendU,
}

/// Why an operator has no value.
#[derive(Clone, Copy, Debug, PartialEq, Eq)]
pub enum NumTrap {
    /// The divisor is 0.
    Divide,
    /// The least signed number is divided by -1.
    Overflow,
}
