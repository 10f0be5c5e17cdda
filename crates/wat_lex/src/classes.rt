//! Kinds of bytes, and what the bytes before one belong to.

ghost use Rattle.std.specs.Prelude.{◌≡◌};
ghost use Rattle.wat_lex.specs.Classes as classes;

/// What a byte is where a token may begin.
#[derive(Debug, Clone, Copy, PartialEq, Eq)]
pub enum Class {
    /// A space, a tab, a line feed or a carriage return.
    Blank,
    Opening,
    Closing,
    Quote,
    Semicolon,
    /// A byte of a word.
    Letter,
    /// A byte that stands in comments alone.
    Other,
}

/// What the bytes so far end with. A number is the offset of a token's first byte.
#[derive(Debug, Clone, Copy, PartialEq, Eq)]
pub enum LexState {
    /// Nothing, a bracket, a blank or a comment.
    Between,
    /// A whole word or string.
    Behind,
    InWord(u32),
    InText(u32),
    /// A backslash in a string.
    Escape(u32),
    /// A backslash in a string and one digit.
    HalfEscape(u32),
    /// A first semicolon.
    HalfComment(u32),
    Comment,
}

pub fn class_of(byte: u8) -> Class
    ensures { result ≡ classes.class_of byte }
{
    match byte {
        b' ' | b'\t' | b'\n' | b'\r' => Class::Blank,
        b'(' => Class::Opening,
        b')' => Class::Closing,
        b'"' => Class::Quote,
        b';' => Class::Semicolon,
        0x21..=0x7e => Class::Letter,
        _ => Class::Other,
    }
}

/// Whether a byte stands for itself in a string.
pub fn is_plain(byte: u8) -> bool
    ensures { result ≡ classes.is_plain byte }
{
    (0x20..=0x7e).contains(&byte) && byte != b'"' && byte != b'\\'
}

/// Whether a byte is a hexadecimal digit.
pub fn is_hex(byte: u8) -> bool
    ensures { result ≡ classes.is_hex byte }
{
    match byte {
        b'0'..=b'9' | b'a'..=b'f' | b'A'..=b'F' => true,
        _ => false,
    }
}
