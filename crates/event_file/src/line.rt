//! What one line says.

ghost use Rattle.std.specs.Prelude.{◌≡◌, None, Ok};
ghost use Rattle.event_file.specs.Lines.{is_remark};
ghost use Rattle.trapeze_io.specs.Answers.{Answers};
ghost use Rattle.event_file.specs.Unread.{fault_of};
ghost use Rattle.event_file.specs.Known.{IsNumbered};
ghost use Rattle.event_file.specs.Script.{ask_of, entry_of, line_of, put_of, turn_of};

use crate::entry::{Entry, Event};
use crate::fault::LineFault;
use crate::words::{
    Known, Unread, read_bytes, read_client, read_count, read_function, read_id, read_label,
    read_value,
};
use std::alloc::Global;
use trapeze_io::{LONGEST_KEY, LONGEST_VALUE, Words};

/// The most bytes that a line may have, its end not counted.
pub(crate) const LONGEST_LINE: usize = 140_000;

/// What the line says; `None` is nothing.
#[tactic(auto, unfolding(crate::specs::Script::line_of))]
pub(crate) fn read_line(alloc: Global, known: &Known, line: &[u8]) -> Result<Option<Entry>, Unread>
    requires { IsNumbered known.now }
    ensures said { Answers fault_of (line_of known.now line.now) result }
    ensures nothing { line_of known.now line.now ≡ Ok None → result ≡ Ok None }
{
    if line.len() > LONGEST_LINE {
        return Err(Unread::Fault(LineFault::LineTooLong));
    }
    if is_remark(line) {
        return Ok(None);
    }
    let entry = read_entry(alloc, known, Words::of(line))?;
    Ok(Some(entry))
}

fn is_remark(line: &[u8]) -> bool
    ensures { result ≡ is_remark line.now }
{
    match line.first() {
        None => true,
        Some(first) => *first == b'#',
    }
}

#[tactic(auto, unfolding(crate::specs::Script::entry_of))]
fn read_entry(alloc: Global, known: &Known, mut words: Words) -> Result<Entry, Unread>
    requires { IsNumbered known.now }
    ensures { Answers fault_of (entry_of known.now words.entry) result }
{
    match words.next_word() {
        Some(first) if first == b"put".as_slice() => {
            let event = read_put(alloc, known, words)?;
            Ok(Entry::One(event))
        }
        Some(first) if first == b"ask".as_slice() => {
            let event = read_ask(alloc, known, words)?;
            Ok(Entry::One(event))
        }
        Some(first) if first == b"turn".as_slice() => read_turn(known, words),
        _ => Err(Unread::Fault(LineFault::Word)),
    }
}

#[tactic(auto, unfolding(crate::specs::Script::put_of))]
fn read_put(alloc: Global, known: &Known, mut words: Words) -> Result<Event, Unread>
    ensures { Answers fault_of (put_of known.now words.entry) result }
{
    let (Some(label), Some(key), Some(value), None) = (
        words.next_word(),
        words.next_word(),
        words.next_word(),
        words.next_word(),
    ) else {
        return Err(Unread::Fault(LineFault::Count));
    };
    let label = read_label(known.lattice, label)?;
    let key = read_bytes(alloc, LONGEST_KEY, key)?;
    let value = read_value(alloc, value)?;
    Ok(Event::Put { label, key, value })
}

#[tactic(auto, unfolding(crate::specs::Script::ask_of))]
fn read_ask(alloc: Global, known: &Known, mut words: Words) -> Result<Event, Unread>
    requires { IsNumbered known.now }
    ensures { Answers fault_of (ask_of known.now words.entry) result }
{
    let (Some(label), Some(client), Some(function)) = (
        words.next_word(),
        words.next_word(),
        words.next_word(),
    ) else {
        return Err(Unread::Fault(LineFault::Count));
    };
    let (Some(id), Some(body), None) = (words.next_word(), words.next_word(), words.next_word())
    else {
        return Err(Unread::Fault(LineFault::Count));
    };
    let label = read_label(known.lattice, label)?;
    let client = read_client(known.clients, client)?;
    let function = read_function(known.functions, function)?;
    let id = read_id(id)?;
    let body = read_bytes(alloc, LONGEST_VALUE, body)?;
    Ok(Event::Ask {
        label,
        client,
        function,
        id,
        body,
    })
}

#[tactic(auto, unfolding(crate::specs::Script::turn_of))]
fn read_turn(known: &Known, mut words: Words) -> Result<Entry, Unread>
    ensures { Answers fault_of (turn_of known.now words.entry) result }
{
    match (words.next_word(), words.next_word(), words.next_word()) {
        (Some(label), None, _) => {
            let label = read_label(known.lattice, label)?;
            Ok(Entry::One(Event::Turn { label }))
        }
        (Some(label), Some(count), None) => {
            let label = read_label(known.lattice, label)?;
            let count = read_count(count)?;
            Ok(Entry::Turns { label, count })
        }
        _ => Err(Unread::Fault(LineFault::Count)),
    }
}
