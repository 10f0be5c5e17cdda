//! The fields of the format, each read as one.

ghost use Rattle.std.specs.Prelude.{◌≡◌, ◌≤◌, ◌<◌, length, IfOk, Ok};
ghost use Rattle.wasm_code.specs.Answers.{place, ReadsAs};
ghost use Rattle.wasm_code.specs.Places.{byte, part, past, ended};
ghost use Rattle.wasm_code.specs.Fields as fields;

use crate::error::DecodeError;
use crate::input::Input;
use std::str;
use wasm_ast::ValType;
use wasm_leb::{read_s32, read_s64, read_u32};

impl<'a> Input<'a> {
    /// The bytes of a file from `start` to `end`.
    pub fn part(bytes: &'a [u8], start: u32, end: u32) -> Input<'a>
        requires from { start ≤ end }
        requires to { end ≤ length bytes.now }
        ensures { place result ≡ part start end bytes.now }
    {
        Input {
            rest: &bytes[start as usize..end as usize],
            at: start,
        }
    }

    /// What is left, so many bytes further on.
    pub fn past(self, count: usize) -> Input<'a>
        requires { count ≤ length self.rest.now }
        ensures { place result ≡ past count (place self.entry) }
    {
        let (_, rest) = self.rest.split_at(count);
        Input {
            rest,
            at: self.at + count as u32,
        }
    }

    /// Nothing is left of the range.
    pub fn ended(self) -> Result<(), DecodeError>
        ensures { ReadsAs (λ x. x) result (ended (place self.entry)) }
    {
        if !self.rest.is_empty() {
            return Err(DecodeError::Malformed(self.at));
        }
        Ok(())
    }

    /// One byte.
    pub fn byte(self) -> Result<(u8, Input<'a>), DecodeError>
        ensures exact { ReadsAs (λ x. (x.0, place x.1)) result (byte (place self.entry)) }
        ensures shorter { IfOk result (λ x. length x.1.rest.now < length self.entry.rest.now) }
    {
        match self.rest {
            [] => Err(DecodeError::Malformed(self.at)),
            [first, rest @ ..] => Ok((
                *first,
                Input {
                    rest,
                    at: self.at + 1,
                },
            )),
        }
    }

    /// This byte and no other.
    pub fn tag(self, byte: u8) -> Result<Input<'a>, DecodeError>
        ensures { ReadsAs place result (fields.tag byte (place self.entry)) }
    {
        let (first, after) = self.byte()?;
        if first != byte {
            return Err(DecodeError::Malformed(self.at));
        }
        Ok(after)
    }

    /// An unsigned integer of 32 bits.
    #[tactic(auto, unfolding(crate::specs::Fields::u32))]
    pub fn u32(self) -> Result<(u32, Input<'a>), DecodeError>
        ensures { ReadsAs (λ x. (x.0, place x.1)) result (fields.u32 (place self.entry)) }
    {
        match read_u32(self.rest) {
            Ok((value, used)) => Ok((value, self.past(used))),
            Err(_) => Err(DecodeError::Malformed(self.at)),
        }
    }

    /// A signed integer of 32 bits, by its bits.
    #[tactic(auto, unfolding(crate::specs::Fields::s32))]
    pub fn s32(self) -> Result<(u32, Input<'a>), DecodeError>
        ensures { ReadsAs (λ x. (x.0, place x.1)) result (fields.s32 (place self.entry)) }
    {
        match read_s32(self.rest) {
            Ok((value, used)) => Ok((value.cast_unsigned(), self.past(used))),
            Err(_) => Err(DecodeError::Malformed(self.at)),
        }
    }

    /// A signed integer of 64 bits, by its bits.
    #[tactic(auto, unfolding(crate::specs::Fields::s64))]
    pub fn s64(self) -> Result<(u64, Input<'a>), DecodeError>
        ensures { ReadsAs (λ x. (x.0, place x.1)) result (fields.s64 (place self.entry)) }
    {
        match read_s64(self.rest) {
            Ok((value, used)) => Ok((value.cast_unsigned(), self.past(used))),
            Err(_) => Err(DecodeError::Malformed(self.at)),
        }
    }

    /// The bits of a float of 32 bits.
    #[tactic(auto, unfolding(crate::specs::Fields::raw))]
    pub fn bits32(self) -> Result<(u32, Input<'a>), DecodeError>
        ensures { ReadsAs (λ x. (x.0, place x.1)) result (fields.bits32 (place self.entry)) }
    {
        let [a, b, c, d, ..] = self.rest else {
            return Err(DecodeError::Malformed(self.at));
        };
        Ok((u32::from_le_bytes([*a, *b, *c, *d]), self.past(4)))
    }

    /// The bits of a float of 64 bits.
    #[tactic(auto, unfolding(crate::specs::Fields::raw))]
    pub fn bits64(self) -> Result<(u64, Input<'a>), DecodeError>
        ensures { ReadsAs (λ x. (x.0, place x.1)) result (fields.bits64 (place self.entry)) }
    {
        let [a, b, c, d, e, f, g, h, ..] = self.rest else {
            return Err(DecodeError::Malformed(self.at));
        };
        let bits = u64::from_le_bytes([*a, *b, *c, *d, *e, *f, *g, *h]);
        Ok((bits, self.past(8)))
    }

    /// A value type.
    #[tactic(auto, unfolding(crate::specs::Fields::val_type))]
    pub fn val_type(self) -> Result<(ValType, Input<'a>), DecodeError>
        ensures { ReadsAs (λ x. (x.0, place x.1)) result (fields.val_type (place self.entry)) }
    {
        let (first, after) = self.byte()?;
        let val_type = match first {
            0x7f => ValType::I32,
            0x7e => ValType::I64,
            0x7d => ValType::F32,
            0x7c => ValType::F64,
            _ => return Err(DecodeError::Malformed(self.at)),
        };
        Ok((val_type, after))
    }

    /// A size, the range of that size, and what is behind it.
    #[tactic(auto, unfolding(crate::specs::Fields::range))]
    pub fn range(self) -> Result<(Input<'a>, Input<'a>), DecodeError>
        ensures exact { ReadsAs (λ x. (place x.0, place x.1)) result (fields.range (place self.entry)) }
    {
        let (size, inner) = self.u32()?;
        let size = size as usize;
        if inner.rest.len() < size {
            return Err(DecodeError::Malformed(self.at));
        }
        let (front, _) = inner.rest.split_at(size);
        Ok((
            Input {
                rest: front,
                at: inner.at,
            },
            inner.past(size),
        ))
    }

    /// A vector of bytes.
    #[tactic(auto, unfolding(crate::specs::Fields::bytes))]
    pub fn bytes(self) -> Result<(&'a [u8], Input<'a>), DecodeError>
        ensures { ReadsAs (λ x. (x.0.now, place x.1)) result (fields.bytes (place self.entry)) }
    {
        let (inner, after) = self.range()?;
        Ok((inner.rest, after))
    }

    /// A name: a vector of bytes that are UTF-8, as one field.
    #[tactic(auto, unfolding(crate::specs::Fields::name))]
    pub fn name(self) -> Result<(&'a [u8], Input<'a>), DecodeError>
        ensures { ReadsAs (λ x. (x.0.now, place x.1)) result (fields.name (place self.entry)) }
    {
        let (text, after) = self.bytes()?;
        match str::from_utf8(text) {
            Ok(_) => Ok((text, after)),
            Err(_) => Err(DecodeError::Malformed(self.at)),
        }
    }
}
