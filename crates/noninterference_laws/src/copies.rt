//! Copies of lines.

ghost use Rattle.std.specs.Prelude.{◌≡◌, IfOk};

use trapeze_io::{Bytes, NoMemory};
use trapeze_lines::{Kind, Line};

/// A second line of the same label that says the same.
pub(crate) fn copy_line(line: &Line) -> Result<Line, NoMemory>
    ensures { IfOk result (λ copy. copy ≡ line.now) }
{
    let kind = copy_kind(&line.kind)?;
    Ok(Line {
        label: line.label,
        kind,
    })
}

/// The same said a second time.
fn copy_kind(kind: &Kind) -> Result<Kind, NoMemory>
    ensures { IfOk result (λ copy. copy ≡ kind.now) }
{
    match kind {
        Kind::Reply { client, id, bytes } => Ok(Kind::Reply {
            client: *client,
            id: *id,
            bytes: bytes.duplicate()?,
        }),
        Kind::Turn {
            number,
            function,
            id,
            outcome,
        } => Ok(Kind::Turn {
            number: *number,
            function: *function,
            id: *id,
            outcome: *outcome,
        }),
        Kind::Idle { number } => Ok(Kind::Idle { number: *number }),
        Kind::Dropped { function, id } => Ok(Kind::Dropped {
            function: *function,
            id: *id,
        }),
        Kind::Full { key } => Ok(Kind::Full {
            key: key.duplicate()?,
        }),
        Kind::Facet { key, value } => Ok(Kind::Facet {
            key: key.duplicate()?,
            value: copy_value(value)?,
        }),
        Kind::Write { key, value } => Ok(Kind::Write {
            key: key.duplicate()?,
            value: copy_value(value)?,
        }),
        Kind::Read { key, value } => Ok(Kind::Read {
            key: key.duplicate()?,
            value: copy_value(value)?,
        }),
        Kind::Send { channel, bytes } => Ok(Kind::Send {
            channel: *channel,
            bytes: bytes.duplicate()?,
        }),
        Kind::Answer { client, id, bytes } => Ok(Kind::Answer {
            client: *client,
            id: *id,
            bytes: bytes.duplicate()?,
        }),
        Kind::Start { from, function, id } => Ok(Kind::Start {
            from: *from,
            function: *function,
            id: *id,
        }),
    }
}

/// A second value, absent or not.
fn copy_value(value: &Option<Bytes>) -> Result<Option<Bytes>, NoMemory>
    ensures { IfOk result (λ copy. copy ≡ value.now) }
{
    match value {
        Some(bytes) => Ok(Some(bytes.duplicate()?)),
        None => Ok(None),
    }
}
