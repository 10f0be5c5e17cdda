//! Reading the words of a line.

ghost use Rattle.std.specs.Prelude.{◌≡◌, ◌<◌, ◌^◌, true, length};
ghost use Rattle.std.specs.Char.{is_ascii_digit};
ghost use Rattle.std.specs.List.{list_all};
ghost use Rattle.std.specs.Option.{SomeIff};
ghost use Rattle.std.specs.Str.Parse.{digits_value};
ghost use Rattle.trapeze_io.specs.Answers.{Answers};
ghost use Rattle.event_file.specs.Unread.{fault_of};
ghost use Rattle.event_file.specs.Known.{AreNumbered};
ghost use Rattle.event_file.specs.Spelling.{bytes_of, client_of, count_of, function_of, id_of, label_of, value_of};

use crate::fault::LineFault;
use hex::FromHexError;
use label_lattice::{Label, Lattice, number_among};
use std::alloc::Global;
use std::marker::Model;
use std::str;
use trapeze_io::{Bytes, LONGEST_VALUE, Name};

/// The most digits of a number of turns.
const MOST_DIGITS: usize = 7;

/// The most turns that a line may ask for.
const MOST_TURNS: u32 = 1_000_000;

/// Why a line could not be read.
#[derive(Clone, Copy, Drop)]
pub(crate) enum Unread {
    Fault(LineFault),
    NoMemory,
}

/// The names that lines may use.
#[derive(Drop)]
pub(crate) struct Known<'a> {
    pub(crate) lattice: &'a Lattice,
    pub(crate) clients: &'a [Name],
    pub(crate) functions: &'a [Name],
}

impl<'a> Model for Known<'a> {
    ghost use Rattle.event_file.specs.Known.{Known};

    ghost Value = { Known };

    ghost view = { λ known. record { labels = known.lattice.now.names; clients = known.clients.now; functions = known.functions.now } };
}

#[tactic(auto, unfolding(crate::specs::Spelling::label_of))]
pub(crate) fn read_label(lattice: &Lattice, word: &[u8]) -> Result<Label, Unread>
    ensures { Answers fault_of (label_of lattice.now.names word.now) result }
{
    match lattice.find(word) {
        Some(label) => Ok(label),
        None => Err(Unread::Fault(LineFault::UnknownLabel)),
    }
}

#[tactic(auto, unfolding(crate::specs::Spelling::client_of))]
pub(crate) fn read_client(clients: &[Name], word: &[u8]) -> Result<u32, Unread>
    requires { AreNumbered clients.now }
    ensures { Answers fault_of (client_of clients.now word.now) result }
{
    match number_among(clients, word) {
        Some(client) => Ok(client),
        None => Err(Unread::Fault(LineFault::UnknownClient)),
    }
}

#[tactic(auto, unfolding(crate::specs::Spelling::function_of))]
pub(crate) fn read_function(functions: &[Name], word: &[u8]) -> Result<u32, Unread>
    requires { AreNumbered functions.now }
    ensures { Answers fault_of (function_of functions.now word.now) result }
{
    match number_among(functions, word) {
        Some(function) => Ok(function),
        None => Err(Unread::Fault(LineFault::UnknownFunction)),
    }
}

#[tactic(auto, unfolding(crate::specs::Spelling::id_of))]
pub(crate) fn read_id(word: &[u8]) -> Result<Name, Unread>
    ensures { Answers fault_of (id_of word.now) result }
{
    match Name::read(word) {
        Some(id) => Ok(id),
        None => Err(Unread::Fault(LineFault::BadId)),
    }
}

/// The bytes that the word spells, if there are at most so many.
#[tactic(auto, unfolding(crate::specs::Spelling::bytes_of))]
pub(crate) fn read_bytes(alloc: Global, most: usize, word: &[u8]) -> Result<Bytes, Unread>
    ensures { Answers fault_of (bytes_of most word.now) result }
{
    let Some((b'x', digits)) = word.split_first() else {
        return Err(Unread::Fault(LineFault::BadHex));
    };
    match hex::decode(alloc, digits) {
        Ok(bytes) => {
            if bytes.len() <= most {
                Ok(Bytes::from_vec(bytes))
            } else {
                Err(Unread::Fault(LineFault::TooBig))
            }
        }
        Err(FromHexError::OutOfMemory) => Err(Unread::NoMemory),
        Err(_) => Err(Unread::Fault(LineFault::BadHex)),
    }
}

/// The value that the word spells, `None` for an absent one.
#[tactic(auto, unfolding(crate::specs::Spelling::value_of))]
pub(crate) fn read_value(alloc: Global, word: &[u8]) -> Result<Option<Bytes>, Unread>
    ensures { Answers fault_of (value_of word.now) result }
{
    if word == b"-".as_slice() {
        return Ok(None);
    }
    let bytes = read_bytes(alloc, LONGEST_VALUE, word)?;
    Ok(Some(bytes))
}

/// The number of turns that the word's digits say.
#[tactic(auto, unfolding(crate::specs::Spelling::count_of))]
pub(crate) fn read_count(word: &[u8]) -> Result<u32, Unread>
    ensures { Answers fault_of (count_of word.now) result }
{
    if word.len() > MOST_DIGITS || !are_digits(word) {
        return Err(Unread::Fault(LineFault::BadNumber));
    }
    match number_of(word) {
        Some(count) if 1 <= count && count <= MOST_TURNS => Ok(count),
        _ => Err(Unread::Fault(LineFault::BadNumber)),
    }
}

fn are_digits(word: &[u8]) -> bool
    ensures { result ≡ list_all is_ascii_digit word.now }
{
    word.iter().all(|digit| digit.is_ascii_digit())
}

/// The number that digits write, `None` where there are none or it is past 32 bits.
fn number_of(digits: &[u8]) -> Option<u32>
    requires { list_all is_ascii_digit digits.now ≡ true }
    ensures { SomeIff result ((0 < length digits.now) × (digits_value 10 digits.now < 2 ^ 32)) (digits_value 10 digits.now) }
{
    let Ok(text) = str::from_utf8(digits) else {
        return None;
    };
    match text.parse::<u32>() {
        Ok(number) => Some(number),
        Err(_) => None,
    }
}
