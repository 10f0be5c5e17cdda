//! Events as texts: numbers, bytes in digits and names.

use event_file::{Entry, Event};
use std::alloc::Global;
use std::test::Fail;
use trapeze_io::Bytes;

/// The digits of a value, or a dash.
fn value_text(alloc: Global, value: &Option<Bytes>) -> Result<String, Fail> {
    match value {
        Some(bytes) => Ok(hex::encode(alloc, bytes.as_slice())?),
        None => Ok(String::from_str(alloc, "-")?),
    }
}

/// The word of the event, and its numbers, bytes and names.
pub(crate) fn event_text(alloc: Global, event: &Event) -> Result<String, Fail> {
    match event {
        Event::Put { label, key, value } => {
            let number = label.number();
            let key = hex::encode(alloc, key.as_slice())?;
            let value = value_text(alloc, value)?;
            Ok(format!(in alloc; "put {number} {key} {value}")?)
        }
        Event::Ask {
            label,
            client,
            function,
            id,
            body,
        } => {
            let number = label.number();
            let id = hex::encode(alloc, id.as_bytes())?;
            let body = hex::encode(alloc, body.as_slice())?;
            Ok(format!(in alloc; "ask {number} {client} {function} {id} {body}")?)
        }
        Event::Turn { label } => {
            let number = label.number();
            Ok(format!(in alloc; "turn {number}")?)
        }
    }
}

/// Adds the text of the entry, and a comma.
pub(crate) fn add_entry(alloc: Global, text: &mut String, entry: &Entry) -> Result<(), Fail> {
    let line = match entry {
        Entry::One(event) => event_text(alloc, event)?,
        Entry::Turns { label, count } => {
            let number = label.number();
            format!(in alloc; "turns {number} {count}")?
        }
    };
    text.push_str(line.as_str())?;
    text.push_str(", ")?;
    Ok(())
}
