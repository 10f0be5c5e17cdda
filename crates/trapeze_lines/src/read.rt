//! Reading a line from its text.

ghost use Rattle.trapeze_io.specs.Answers.{Answers};
ghost use Rattle.trapeze_lines.specs.Reading.{activation_of, facet_of, fault_of, idle_of, key_of, kind_of, line_of, message_of, outcome_of, reply_of, start_of, turn_of};
ghost use Rattle.trapeze_lines.specs.Texts.{IsReading};

use crate::line::{Kind, Line};
use crate::outcome::Outcome;
use crate::words::{
    Unread, read_bytes, read_cause, read_id, read_label, read_name, read_number,
    read_plain_outcome, read_value,
};
use label_lattice::Lattice;
use std::alloc::Global;
use trapeze_io::{Bytes, LONGEST_KEY, LONGEST_VALUE, Name, Words};

/// What reading a text answers.
#[derive(Drop)]
pub enum ReadLine {
    /// The line that has the text.
    Line(Line),
    /// No line within the limits of its parts has the text.
    NotALine,
    /// A growth was refused.
    NoMemory,
}

/// The line that has the text, which comes without a line feed.
pub fn read_text(alloc: Global, lattice: &Lattice, bytes: &[u8]) -> ReadLine
    ensures { IsReading lattice.now bytes.now result }
{
    // The names of a lattice have no spaces.
    prove!(lattice.count() > 0);
    match read_line(alloc, lattice, Words::of(bytes)) {
        Ok(line) => ReadLine::Line(line),
        Err(Unread::NotALine) => ReadLine::NotALine,
        Err(Unread::NoMemory) => ReadLine::NoMemory,
    }
}

#[tactic(auto, unfolding(crate::specs::Reading::line_of))]
fn read_line(alloc: Global, lattice: &Lattice, mut words: Words) -> Result<Line, Unread>
    ensures { Answers fault_of (line_of lattice.now.names words.entry) result }
{
    let (Some(first), Some(label)) = (words.next_word(), words.next_word()) else {
        return Err(Unread::NotALine);
    };
    let label = read_label(lattice, label)?;
    let kind = read_kind(alloc, lattice, first, words)?;
    Ok(Line { label, kind })
}

/// What a line with this first word says by the words after the name of its label.
#[tactic(auto, unfolding(crate::specs::Reading::kind_of))]
fn read_kind(alloc: Global, lattice: &Lattice, first: &[u8], words: Words) -> Result<Kind, Unread>
    ensures { Answers fault_of (kind_of lattice.now.names first.now words.entry) result }
{
    if first == b"reply".as_slice() {
        let (client, id, bytes) = read_reply(alloc, words)?;
        Ok(Kind::Reply { client, id, bytes })
    } else if first == b"turn".as_slice() {
        read_turn(words)
    } else if first == b"idle".as_slice() {
        let number = read_idle(words)?;
        Ok(Kind::Idle { number })
    } else if first == b"drop".as_slice() {
        let (function, id) = read_activation(words)?;
        Ok(Kind::Dropped { function, id })
    } else if first == b"full".as_slice() {
        let key = read_key(alloc, words)?;
        Ok(Kind::Full { key })
    } else if first == b"facet".as_slice() {
        let (key, value) = read_facet(alloc, words)?;
        Ok(Kind::Facet { key, value })
    } else if first == b"write".as_slice() {
        let (key, value) = read_facet(alloc, words)?;
        Ok(Kind::Write { key, value })
    } else if first == b"read".as_slice() {
        let (key, value) = read_facet(alloc, words)?;
        Ok(Kind::Read { key, value })
    } else if first == b"send".as_slice() {
        let (channel, bytes) = read_message(alloc, words)?;
        Ok(Kind::Send { channel, bytes })
    } else if first == b"answer".as_slice() {
        let (client, id, bytes) = read_reply(alloc, words)?;
        Ok(Kind::Answer { client, id, bytes })
    } else if first == b"start".as_slice() {
        read_start(lattice, words)
    } else {
        Err(Unread::NotALine)
    }
}

/// A client, an id and bytes.
#[tactic(auto, unfolding(crate::specs::Reading::reply_of))]
fn read_reply(alloc: Global, mut words: Words) -> Result<(Name, Name, Bytes), Unread>
    ensures { Answers fault_of (reply_of words.entry) result }
{
    let (Some(client), Some(id), Some(bytes), None) = (
        words.next_word(),
        words.next_word(),
        words.next_word(),
        words.next_word(),
    ) else {
        return Err(Unread::NotALine);
    };
    let client = read_name(client)?;
    let id = read_name(id)?;
    let bytes = read_bytes(alloc, LONGEST_VALUE, bytes)?;
    Ok((client, id, bytes))
}

/// A function and the id of a request or a dash.
#[tactic(auto, unfolding(crate::specs::Reading::activation_of))]
fn read_activation(mut words: Words) -> Result<(Name, Option<Name>), Unread>
    ensures { Answers fault_of (activation_of words.entry) result }
{
    let (Some(function), Some(id), None) = (words.next_word(), words.next_word(), words.next_word())
    else {
        return Err(Unread::NotALine);
    };
    let function = read_name(function)?;
    let id = read_id(id)?;
    Ok((function, id))
}

/// A key and a value.
#[tactic(auto, unfolding(crate::specs::Reading::facet_of))]
fn read_facet(alloc: Global, mut words: Words) -> Result<(Bytes, Option<Bytes>), Unread>
    ensures { Answers fault_of (facet_of words.entry) result }
{
    let (Some(key), Some(value), None) = (words.next_word(), words.next_word(), words.next_word())
    else {
        return Err(Unread::NotALine);
    };
    let key = read_bytes(alloc, LONGEST_KEY, key)?;
    let value = read_value(alloc, value)?;
    Ok((key, value))
}

/// A key.
#[tactic(auto, unfolding(crate::specs::Reading::key_of))]
fn read_key(alloc: Global, mut words: Words) -> Result<Bytes, Unread>
    ensures { Answers fault_of (key_of words.entry) result }
{
    let (Some(key), None) = (words.next_word(), words.next_word()) else {
        return Err(Unread::NotALine);
    };
    read_bytes(alloc, LONGEST_KEY, key)
}

/// A channel and bytes.
#[tactic(auto, unfolding(crate::specs::Reading::message_of))]
fn read_message(alloc: Global, mut words: Words) -> Result<(Name, Bytes), Unread>
    ensures { Answers fault_of (message_of words.entry) result }
{
    let (Some(channel), Some(bytes), None) = (
        words.next_word(),
        words.next_word(),
        words.next_word(),
    ) else {
        return Err(Unread::NotALine);
    };
    let channel = read_name(channel)?;
    let bytes = read_bytes(alloc, LONGEST_VALUE, bytes)?;
    Ok((channel, bytes))
}

/// A number alone.
#[tactic(auto, unfolding(crate::specs::Reading::idle_of))]
fn read_idle(mut words: Words) -> Result<u64, Unread>
    ensures { Answers fault_of (idle_of words.entry) result }
{
    let (Some(number), None) = (words.next_word(), words.next_word()) else {
        return Err(Unread::NotALine);
    };
    read_number(number)
}

/// A number, a function, an id or a dash, and an outcome.
#[tactic(auto, unfolding(crate::specs::Reading::turn_of))]
fn read_turn(mut words: Words) -> Result<Kind, Unread>
    ensures { Answers fault_of (turn_of words.entry) result }
{
    let (Some(number), Some(function), Some(id)) = (
        words.next_word(),
        words.next_word(),
        words.next_word(),
    ) else {
        return Err(Unread::NotALine);
    };
    let number = read_number(number)?;
    let function = read_name(function)?;
    let id = read_id(id)?;
    let outcome = read_outcome(words)?;
    Ok(Kind::Turn {
        number,
        function,
        id,
        outcome,
    })
}

/// A label, a function and an id or a dash.
#[tactic(auto, unfolding(crate::specs::Reading::start_of))]
fn read_start(lattice: &Lattice, mut words: Words) -> Result<Kind, Unread>
    ensures { Answers fault_of (start_of lattice.now.names words.entry) result }
{
    let Some(from) = words.next_word() else {
        return Err(Unread::NotALine);
    };
    let from = read_label(lattice, from)?;
    let (function, id) = read_activation(words)?;
    Ok(Kind::Start { from, function, id })
}

#[tactic(auto, unfolding(crate::specs::Reading::outcome_of))]
fn read_outcome(mut words: Words) -> Result<Outcome, Unread>
    ensures { Answers fault_of (outcome_of words.entry) result }
{
    match (words.next_word(), words.next_word(), words.next_word()) {
        (Some(word), None, _) => read_plain_outcome(word),
        (Some(word), Some(why), None) if word == b"trapped".as_slice() => {
            let cause = read_cause(why)?;
            Ok(Outcome::Trapped(cause))
        }
        _ => Err(Unread::NotALine),
    }
}
