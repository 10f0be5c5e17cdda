//! Tokens, by their places in the text.

ghost use Rattle.std.specs.Prelude.{◌≡◌};

use std::marker::Model;

/// What a token is.
#[derive(Debug, Clone, Copy, PartialEq, Eq)]
pub enum TokenKind {
    /// `(`
    Left,
    /// `)`
    Right,
    Word,
    /// A string, its quotes included.
    Text,
}

/// A token: the part of the text from `start` to `end`.
#[derive(Debug, Clone, Copy, PartialEq, Eq)]
pub struct Token {
    pub start: u32,
    pub end: u32,
    pub kind: TokenKind,
}

/// The tokens of a text, in its order.
#[derive(Debug, Drop)]
pub struct TokenList {
    list: Vec<Token>,
}

impl Model for TokenList {
    ghost use Rattle.std.specs.Prelude.{List};
    ghost use Rattle.wat_lex.specs.declared.pieces.Token.{Token};

    ghost Value = { List Token };

    ghost view = { λ t. t.list.items };
}

impl TokenList {
    pub(crate) fn of(list: Vec<Token>) -> TokenList
        ensures { result ≡ list.items }
    {
        TokenList { list }
    }

    pub fn as_slice(&self) -> &[Token]
        ensures { result.now ≡ self.now }
    {
        self.list.as_slice()
    }
}
