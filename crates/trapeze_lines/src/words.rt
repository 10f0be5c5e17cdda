//! Reading the words of a line.

ghost use Rattle.std.specs.Prelude.{◌≡◌, not};
ghost use Rattle.std.specs.Char.{is_ascii_uppercase};
ghost use Rattle.std.specs.List.{list_all};
ghost use Rattle.trapeze_io.specs.Answers.{Answers};
ghost use Rattle.trapeze_lines.specs.Reading.{bytes_of, cause_of, fault_of, id_of, label_of, name_of, number_of, plain_outcome_of, value_of};

use crate::outcome::{Cause, Outcome};
use crate::write::{cause_text, outcome_text};
use hex::FromHexError;
use itoa::Buffer;
use label_lattice::{Label, Lattice};
use std::alloc::Global;
use std::str;
use trapeze_io::{Bytes, LONGEST_VALUE, Name};

const CAUSES: [Cause; 12] = [
    Cause::Unreachable,
    Cause::Memory,
    Cause::Divide,
    Cause::Overflow,
    Cause::Table,
    Cause::Empty,
    Cause::TypeDiffers,
    Cause::Stack,
    Cause::Pages,
    Cause::Fuel,
    Cause::Size,
    Cause::Unknown,
];

const OUTCOMES: [Outcome; 3] = [Outcome::Ended, Outcome::Waits, Outcome::Raised];

/// Why words could not be read.
#[derive(Clone, Copy, Drop)]
pub(crate) enum Unread {
    NotALine,
    NoMemory,
}

#[tactic(auto, unfolding(crate::specs::Reading::name_of))]
pub(crate) fn read_name(word: &[u8]) -> Result<Name, Unread>
    ensures { Answers fault_of (name_of word.now) result }
{
    match Name::read(word) {
        Some(name) => Ok(name),
        None => Err(Unread::NotALine),
    }
}

/// The id of a request, or a dash where there is none.
#[tactic(auto, unfolding(crate::specs::Reading::id_of))]
pub(crate) fn read_id(word: &[u8]) -> Result<Option<Name>, Unread>
    ensures { Answers fault_of (id_of word.now) result }
{
    if word == b"-".as_slice() {
        return Ok(None);
    }
    let id = read_name(word)?;
    Ok(Some(id))
}

#[tactic(auto, unfolding(crate::specs::Reading::label_of))]
pub(crate) fn read_label(lattice: &Lattice, word: &[u8]) -> Result<Label, Unread>
    ensures { Answers fault_of (label_of lattice.now.names word.now) result }
{
    match lattice.find(word) {
        Some(label) => Ok(label),
        None => Err(Unread::NotALine),
    }
}

/// The number whose decimal digits the word is.
pub(crate) fn read_number(word: &[u8]) -> Result<u64, Unread>
    ensures { Answers fault_of (number_of word.now) result }
{
    let Ok(text) = str::from_utf8(word) else {
        return Err(Unread::NotALine);
    };
    let Ok(number) = text.parse::<u64>() else {
        return Err(Unread::NotALine);
    };
    let mut digits = Buffer::new();
    if digits.format(number).as_bytes() == word {
        Ok(number)
    } else {
        Err(Unread::NotALine)
    }
}

/// The bytes that the word spells, if there are at most so many.
#[tactic(auto, unfolding(crate::specs::Reading::bytes_of))]
pub(crate) fn read_bytes(alloc: Global, most: usize, word: &[u8]) -> Result<Bytes, Unread>
    ensures { Answers fault_of (bytes_of most word.now) result }
{
    let Some((b'x', digits)) = word.split_first() else {
        return Err(Unread::NotALine);
    };
    if !are_lower(digits) {
        return Err(Unread::NotALine);
    }
    match hex::decode(alloc, digits) {
        Ok(bytes) => {
            if bytes.len() <= most {
                Ok(Bytes::from_vec(bytes))
            } else {
                Err(Unread::NotALine)
            }
        }
        Err(FromHexError::OutOfMemory) => Err(Unread::NoMemory),
        Err(_) => Err(Unread::NotALine),
    }
}

/// No byte is a capital letter.
fn are_lower(digits: &[u8]) -> bool
    ensures { result ≡ list_all (λ digit. not (is_ascii_uppercase digit)) digits.now }
{
    digits.iter().all(|digit| !digit.is_ascii_uppercase())
}

/// The value that the word spells, or a dash where it is absent.
#[tactic(auto, unfolding(crate::specs::Reading::value_of))]
pub(crate) fn read_value(alloc: Global, word: &[u8]) -> Result<Option<Bytes>, Unread>
    ensures { Answers fault_of (value_of word.now) result }
{
    if word == b"-".as_slice() {
        return Ok(None);
    }
    let bytes = read_bytes(alloc, LONGEST_VALUE, word)?;
    Ok(Some(bytes))
}

#[tactic(auto, unfolding(crate::specs::Reading::cause_of))]
pub(crate) fn read_cause(word: &[u8]) -> Result<Cause, Unread>
    ensures { Answers fault_of (cause_of word.now) result }
{
    match CAUSES.iter().find(|cause| cause_text(**cause) == word) {
        Some(cause) => Ok(*cause),
        None => Err(Unread::NotALine),
    }
}

/// The outcome of one word.
#[tactic(auto, unfolding(crate::specs::Reading::plain_outcome_of))]
pub(crate) fn read_plain_outcome(word: &[u8]) -> Result<Outcome, Unread>
    ensures { Answers fault_of (plain_outcome_of word.now) result }
{
    match OUTCOMES
        .iter()
        .find(|outcome| outcome_text(**outcome) == word)
    {
        Some(outcome) => Ok(*outcome),
        None => Err(Unread::NotALine),
    }
}
