//! The events of the exercise.

ghost use Rattle.std.specs.Prelude.{◌≡◌, ◌<◌, ◌+◌, ◌*◌, ◌/◌, ◌%◌, [], ◌∷◌, IfOk};
ghost use Rattle.event_file.specs.declared.entry.Event.TheVariants.{Put, Ask};
ghost use Rattle.event_file.specs.Script.{IsFit};
ghost use Rattle.trapeze_exercise.specs.BuiltIn.{known};
ghost use Rattle.trapeze_exercise.specs.Generated.{drawn, mixed, kind_of, detail_of, function_of, body_of, id_of, event_of, generated};

use event_file::Event;
use label_lattice::Label;
use std::alloc::Global;
use trapeze_io::{Bytes, Name, NoMemory};

/// The event of the exercise with this number that stands at position i, from 0.
///
/// # Errors
///
/// Out of memory.
pub fn generate(alloc: Global, number: u64, i: u32) -> Result<Event, NoMemory>
    requires { i < 20000 }
    ensures generated { IfOk result (λ event. event ≡ generated number i) }
    ensures fit { IfOk result (IsFit known) }
{
    let z = drawn(number, i);
    event_of(alloc, i, z, mixed(z))
}

/// The number that is drawn for a position.
#[tactic(auto, unfolding(crate::specs::Generated::drawn))]
fn drawn(number: u64, i: u32) -> u16
    requires { i < 20000 }
    ensures { result ≡ drawn number i }
{
    let sum = number % 1_000_000 * 40_503 + i as u64 * 30_011 + 12_345;
    (sum % 65_536) as u16
}

/// The middle of the square of a number.
#[tactic(auto, unfolding(crate::specs::Generated::mixed))]
fn mixed(z: u16) -> u16
    ensures { result ≡ mixed z }
{
    let square = z as u64 * z as u64;
    (square / 256 % 65_536) as u16
}

/// The event that two numbers say.
fn event_of(alloc: Global, i: u32, z: u16, w: u16) -> Result<Event, NoMemory>
    requires { i < 20000 }
    ensures { IfOk result (λ event. event ≡ event_of i z w) }
{
    let label = Label::numbered((w % 4) as u8);
    match kind_of(w) {
        0 => {
            let value = body_of(alloc, z)?;
            put(alloc, label, detail_of(w), Some(value))
        }
        1 => put(alloc, label, detail_of(w), None),
        2 | 3 => ask(alloc, label, i, z, w),
        _ => Ok(Event::Turn { label }),
    }
}

/// What kind of event a number says, of eight.
fn kind_of(w: u16) -> u8
    ensures { result ≡ kind_of w }
{
    (w / 4 % 8) as u8
}

/// Which of eight keys or clients a number says.
fn detail_of(w: u16) -> u8
    ensures detail { result ≡ detail_of w }
    ensures below { result < 8 }
{
    (w / 32 % 8) as u8
}

/// Which of six functions a number says.
fn function_of(w: u16) -> u8
    ensures { result ≡ function_of w }
{
    (w / 256 % 6) as u8
}

/// A number as two bytes, the high one first.
fn body_of(alloc: Global, z: u16) -> Result<Bytes, NoMemory>
    ensures { IfOk result (λ bytes. bytes ≡ body_of z) }
{
    let high = (z / 256) as u8;
    let low = (z % 256) as u8;
    Bytes::copy(alloc, &[high, low])
}

/// A put of one of eight keys.
fn put(alloc: Global, label: Label, detail: u8, value: Option<Bytes>) -> Result<Event, NoMemory>
    requires { detail < 8 }
    ensures { IfOk result (λ event. event ≡ Put label ((97 + detail) ∷ []) value) }
{
    let key = Bytes::copy(alloc, &[97 + detail])?;
    Ok(Event::Put { label, key, value })
}

/// An ask for one of three clients and one of six functions.
fn ask(alloc: Global, label: Label, i: u32, z: u16, w: u16) -> Result<Event, NoMemory>
    requires { i < 20000 }
    ensures { IfOk result (λ event. event ≡ Ask label (detail_of w % 3) (function_of w) (id_of i) (body_of z)) }
{
    let id = id_of(alloc, i)?;
    let body = body_of(alloc, z)?;
    Ok(Event::Ask {
        label,
        client: detail_of(w) as u32 % 3,
        function: function_of(w) as u32,
        id,
        body,
    })
}

/// The id of the ask at a position: `r` and the position.
fn id_of(alloc: Global, i: u32) -> Result<Name, NoMemory>
    requires { i < 20000 }
    ensures { IfOk result (λ id. id ≡ id_of i) }
{
    let text = format!(in alloc; "r{i}")?;
    match Name::read(text.as_bytes()) {
        Some(id) => Ok(id),
        None => unreachable!(),
    }
}
