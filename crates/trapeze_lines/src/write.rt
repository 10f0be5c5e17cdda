//! Writing the text of a line.

ghost use Rattle.std.specs.Prelude.{◌≡◌, ◌++◌, ◌∷◌, [], OnOk, OnErr};
ghost use Rattle.std.specs.Option.{option_copied};
ghost use Rattle.label_lattice.specs.Order.{count};
ghost use Rattle.trapeze_lines.specs.Drafts.{AddsMore, spaced};
ghost use Rattle.trapeze_lines.specs.Lines.{IsFrom, IsLabelled};
ghost use Rattle.trapeze_lines.specs.Texts.{bytes_text, cause_text, id_text, kind_word, line_text, other_words, outcome_text, outcome_words, value_text};

use crate::draft::Draft;
use crate::line::{Kind, Line};
use crate::outcome::{Cause, Outcome};
use label_lattice::Lattice;
use std::alloc::Global;
use std::mem;
use trapeze_io::{Bytes, Name, NoMemory};

/// Adds the text of the line, with its line feed. A refusal changes nothing.
pub fn write_text(
    alloc: Global,
    line: &Line,
    lattice: &Lattice,
    out: &mut Bytes,
) -> Result<(), NoMemory>
    requires { IsLabelled (count lattice.now) line.now }
    ensures ok { OnOk result (out.new ≡ out.old ++ line_text lattice.now.names line.now) }
    ensures err { OnErr result (out.new ≡ out.old) }
{
    let bytes = mem::replace(out, Bytes::new(alloc)).into_vec();
    let mut draft = Draft::after(bytes);
    let written = write_line(&mut draft, lattice, line);
    let bytes = match written {
        Ok(()) => draft.done(),
        Err(NoMemory) => draft.undone(),
    };
    *out = Bytes::from_vec(bytes);
    written
}

fn write_line(draft: &mut Draft, lattice: &Lattice, line: &Line) -> Result<(), NoMemory>
    requires { IsLabelled (count lattice.now) line.now }
    ensures { AddsMore draft.old draft.new (line_text lattice.now.names line.now) result }
{
    draft.add(kind_word(&line.kind))?;
    draft.label(lattice, line.label)?;
    write_others(draft, lattice, &line.kind)?;
    draft.add(b"\n")
}

/// The first word of a line.
fn kind_word(kind: &Kind) -> &'static [u8]
    ensures { result.now ≡ kind_word kind.now }
{
    match kind {
        Kind::Reply { .. } => b"reply",
        Kind::Turn { .. } => b"turn",
        Kind::Idle { .. } => b"idle",
        Kind::Dropped { .. } => b"drop",
        Kind::Full { .. } => b"full",
        Kind::Facet { .. } => b"facet",
        Kind::Write { .. } => b"write",
        Kind::Read { .. } => b"read",
        Kind::Send { .. } => b"send",
        Kind::Answer { .. } => b"answer",
        Kind::Start { .. } => b"start",
    }
}

/// Writes the words after the name of the line's label, each after a space.
fn write_others(draft: &mut Draft, lattice: &Lattice, kind: &Kind) -> Result<(), NoMemory>
    requires { IsFrom (count lattice.now) kind.now }
    ensures { AddsMore draft.old draft.new (spaced (other_words lattice.now.names kind.now)) result }
{
    match kind {
        Kind::Reply { client, id, bytes } | Kind::Answer { client, id, bytes } => {
            draft.word(client.as_bytes())?;
            draft.word(id.as_bytes())?;
            draft.bytes(bytes.as_slice())
        }
        Kind::Turn {
            number,
            function,
            id,
            outcome,
        } => {
            draft.number(*number)?;
            write_activation(draft, function, id)?;
            write_outcome(draft, *outcome)
        }
        Kind::Idle { number } => draft.number(*number),
        Kind::Dropped { function, id } => write_activation(draft, function, id),
        Kind::Full { key } => draft.bytes(key.as_slice()),
        Kind::Facet { key, value } | Kind::Write { key, value } | Kind::Read { key, value } => {
            draft.bytes(key.as_slice())?;
            write_value(draft, value)
        }
        Kind::Send { channel, bytes } => {
            draft.word(channel.as_bytes())?;
            draft.bytes(bytes.as_slice())
        }
        Kind::Start { from, function, id } => {
            draft.label(lattice, *from)?;
            write_activation(draft, function, id)
        }
    }
}

/// Writes the function of an activation and the id of its request.
fn write_activation(draft: &mut Draft, function: &Name, id: &Option<Name>) -> Result<(), NoMemory>
    ensures { AddsMore draft.old draft.new (spaced (function.now ∷ id_text id.now ∷ [])) result }
{
    draft.word(function.as_bytes())?;
    match id {
        Some(id) => draft.word(id.as_bytes()),
        None => draft.word(b"-"),
    }
}

/// Writes a value, or a dash where it is absent.
fn write_value(draft: &mut Draft, value: &Option<Bytes>) -> Result<(), NoMemory>
    ensures { AddsMore draft.old draft.new (32 ∷ value_text value.now) result }
{
    match value {
        Some(bytes) => draft.bytes(bytes.as_slice()),
        None => draft.word(b"-"),
    }
}

/// Writes how a turn ended.
fn write_outcome(draft: &mut Draft, outcome: Outcome) -> Result<(), NoMemory>
    ensures { AddsMore draft.old draft.new (spaced (outcome_words outcome)) result }
{
    draft.word(outcome_text(outcome))?;
    match outcome {
        Outcome::Trapped(cause) => draft.word(cause_text(cause)),
        _ => Ok(()),
    }
}

/// The first word of an outcome.
pub(crate) fn outcome_text(outcome: Outcome) -> &'static [u8]
    ensures { result.now ≡ outcome_text outcome }
{
    match outcome {
        Outcome::Ended => b"ended",
        Outcome::Waits => b"waits",
        Outcome::Raised => b"raised",
        Outcome::Trapped(_) => b"trapped",
    }
}

pub(crate) fn cause_text(cause: Cause) -> &'static [u8]
    ensures { result.now ≡ cause_text cause }
{
    match cause {
        Cause::Unreachable => b"unreachable",
        Cause::Memory => b"memory",
        Cause::Divide => b"divide",
        Cause::Overflow => b"overflow",
        Cause::Table => b"table",
        Cause::Empty => b"empty",
        Cause::TypeDiffers => b"type",
        Cause::Stack => b"stack",
        Cause::Pages => b"pages",
        Cause::Fuel => b"fuel",
        Cause::Size => b"size",
        Cause::Unknown => b"unknown",
    }
}
