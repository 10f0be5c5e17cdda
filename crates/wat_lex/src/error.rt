//! Why a text has no tokens.

ghost use Rattle.std.specs.Prelude.{◌≡◌};
ghost use Rattle.wat_lex.specs.declared.error.LexError.TheVariants.{NoMemory};

use std::alloc::AllocFailed;

/// Why a text has no tokens.
#[derive(Debug, Clone, Copy, PartialEq, Eq)]
pub enum LexError {
    /// The offset of the first byte, behind whole tokens and what may stand between them, at which neither of these begins,
    /// or at which a string follows a word, or a word or a string follows a string, with nothing between.
    At(u32),
    NoMemory,
}

impl<T: Drop> From<AllocFailed<T>> for LexError {
    ghost from_gives = { λ _ e. e ≡ NoMemory };

    fn from(_error: AllocFailed<T>) -> LexError {
        LexError::NoMemory
    }
}
