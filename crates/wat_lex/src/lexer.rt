//! Text to tokens, a byte at a time.

ghost use Rattle.std.specs.Prelude.{ℕ, ◌≡◌, ◌≤◌, ◌<◌, List, length, IfOk, Ok, Err};
ghost use Rattle.wat_lex.specs.declared.pieces.Token.{Token};
ghost use Rattle.wat_lex.specs.declared.error.LexError.TheVariants.{At};
ghost use Rattle.wat_lex.specs.Lexing as lexing;
ghost use Rattle.wat_lex.specs.Answers.{LexesOn, LexesToEnd, Lexed, OrNoMemory, IfAt};
ghost use Rattle.wat_lex.specs.Sentences.{AreTokens, HasFault, AreSlices};

use crate::classes::{Class, LexState, class_of, is_hex, is_plain};
use crate::error::LexError;
use crate::pieces::{Token, TokenKind, TokenList};
use std::alloc::Global;

/// A token of one byte, or the begin of a longer one.
fn begin(found: &mut Vec<Token>, class: Class, at: u32) -> Result<LexState, LexError>
    requires { at < 4194304 }
    ensures { LexesOn found.new.items result (lexing.begin found.old.items class at) }
{
    let kind = match class {
        Class::Blank => return Ok(LexState::Between),
        Class::Quote => return Ok(LexState::InText(at)),
        Class::Semicolon => return Ok(LexState::HalfComment(at)),
        Class::Letter => return Ok(LexState::InWord(at)),
        Class::Other => return Err(LexError::At(at)),
        Class::Opening => TokenKind::Left,
        Class::Closing => TokenKind::Right,
    };
    found.push(Token {
        start: at,
        end: at + 1,
        kind,
    })?;
    Ok(LexState::Between)
}

/// What follows a word or a string at once: no word and no string.
fn apart(found: &mut Vec<Token>, class: Class, at: u32) -> Result<LexState, LexError>
    requires { at < 4194304 }
    ensures { LexesOn found.new.items result (lexing.apart found.old.items class at) }
{
    match class {
        Class::Letter | Class::Quote => Err(LexError::At(at)),
        class => begin(found, class, at),
    }
}

/// A byte behind the begin of a word.
fn in_word(found: &mut Vec<Token>, start: u32, class: Class, at: u32) -> Result<LexState, LexError>
    requires { at < 4194304 }
    ensures { LexesOn found.new.items result (lexing.in_word found.old.items start class at) }
{
    if matches!(&class, Class::Letter) {
        return Ok(LexState::InWord(start));
    }
    found.push(Token {
        start,
        end: at,
        kind: TokenKind::Word,
    })?;
    apart(found, class, at)
}

/// A byte behind a string's opening quote.
fn in_text(found: &mut Vec<Token>, start: u32, byte: u8, at: u32) -> Result<LexState, LexError>
    requires { at < 4194304 }
    ensures { LexesOn found.new.items result (lexing.in_text found.old.items start byte at) }
{
    if byte == b'"' {
        found.push(Token {
            start,
            end: at + 1,
            kind: TokenKind::Text,
        })?;
        return Ok(LexState::Behind);
    }
    if byte == b'\\' {
        return Ok(LexState::Escape(start));
    }
    if is_plain(byte) {
        return Ok(LexState::InText(start));
    }
    Err(LexError::At(start))
}

/// One byte more.
fn step(found: &mut Vec<Token>, state: LexState, byte: u8, at: u32) -> Result<LexState, LexError>
    requires { at < 4194304 }
    ensures { LexesOn found.new.items result (lexing.step found.old.items state byte at) }
{
    match state {
        LexState::Between => begin(found, class_of(byte), at),
        LexState::Behind => apart(found, class_of(byte), at),
        LexState::InWord(start) => in_word(found, start, class_of(byte), at),
        LexState::InText(start) => in_text(found, start, byte, at),
        LexState::Escape(start) if is_hex(byte) => Ok(LexState::HalfEscape(start)),
        LexState::HalfEscape(start) if is_hex(byte) => Ok(LexState::InText(start)),
        LexState::HalfComment(_) if byte == b';' => Ok(LexState::Comment),
        LexState::Escape(start) | LexState::HalfEscape(start) | LexState::HalfComment(start) => {
            Err(LexError::At(start))
        }
        LexState::Comment if byte == b'\n' => Ok(LexState::Between),
        LexState::Comment => Ok(LexState::Comment),
    }
}

/// The end of the text.
fn finish(found: &mut Vec<Token>, state: LexState, at: u32) -> Result<(), LexError>
    ensures { LexesToEnd found.new.items result (lexing.finish found.old.items state at) }
{
    match state {
        LexState::Between | LexState::Behind | LexState::Comment => Ok(()),
        LexState::InWord(start) => {
            found.push(Token {
                start,
                end: at,
                kind: TokenKind::Word,
            })?;
            Ok(())
        }
        LexState::InText(start)
        | LexState::Escape(start)
        | LexState::HalfEscape(start)
        | LexState::HalfComment(start) => Err(LexError::At(start)),
    }
}

/// The tokens, read from the left.
fn lex(alloc: Global, text: &[u8]) -> Result<TokenList, LexError>
    requires { length text.now ≤ 4194304 }
    ensures { Lexed result (lexing.tokens text.now) }
{
    let mut found = Vec::new(alloc);
    let mut state = LexState::Between;
    'bytes: for (at, byte) in text.iter().enumerate() {
        state = step(&mut found, state, *byte, at as u32)?;
    }
    finish(&mut found, state, text.len() as u32)?;
    Ok(TokenList::of(found))
}

/// The tokens of a text of at most 4,194,304 bytes.
///
/// # Errors
///
/// The first byte at which there can be no token, or out of memory.
pub fn tokens(alloc: Global, text: &[u8]) -> Result<TokenList, LexError>
    requires { length text.now ≤ 4194304 }
    ensures found { IfOk result (λ list. AreTokens text.now list) }
    ensures slices { IfOk result (λ list. AreSlices text.now list) }
    ensures only { (list : List Token) → AreTokens text.now list → OrNoMemory result (Ok list) }
    ensures fault { IfAt result (λ at. HasFault text.now at) }
    ensures first { (at : ℕ) → HasFault text.now at → OrNoMemory result (Err (At at)) }
{
    lex(alloc, text)
}
