//! Tables, and their members by key.

ghost use Rattle.std.specs.Prelude.{◌≡◌, ◌<◌, pos, true, option_map, IfOk};
ghost use Rattle.toml.specs.Data.{get_member};
ghost use Rattle.toml.specs.View.{view, table_view};
ghost use Rattle.label_lattice.specs.Order.{count};
ghost use Rattle.label_limits.specs.Ranges.{is_within};
ghost use Rattle.trapeze_io.specs.Answers.{Answers, AnswersBy};
ghost use Rattle.policy_toml.specs.Faults.{fault_of};
ghost use Rattle.policy_toml.specs.Rows.{is_key_of, extra_key, row_table, at_most, name_of};
ghost use Rattle.policy_toml.specs.Fields.{text_at, label_at, number_at, number_within};

use crate::error::PolicyError;
use crate::place::{Part, Place};
use label_lattice::{Label, Lattice};
use toml::{Table, Value};
use trapeze_io::Name;

/// The value at a key.
pub fn member<'a>(table: &'a Table, key: &str) -> Option<&'a Value>
    ensures { option_map (λ value. view value.now) result ≡ get_member key.now (table_view table.now) }
{
    table.get(key)
}

fn is_key_of(part: Part, key: &str) -> bool
    ensures { result ≡ is_key_of part key.now }
{
    match part {
        Part::Root => is_root_key(key),
        Part::Limits => is_limit(key),
        Part::Channels => key == "label" || key == "function",
        Part::Clients => key == "clearance",
        Part::Gates => is_gate_key(key),
        _ => false,
    }
}

fn is_root_key(key: &str) -> bool
    ensures { result ≡ is_key_of Part.Root key.now }
{
    key == "labels"
        || key == "flows"
        || key == "limits"
        || key == "functions"
        || key == "channels"
        || key == "clients"
        || key == "gates"
}

fn is_gate_key(key: &str) -> bool
    ensures { result ≡ is_key_of Part.Gates key.now }
{
    key == "source" || key == "target" || key == "function" || key == "filter" || key == "count"
}

fn is_limit(key: &str) -> bool
    ensures { result ≡ is_key_of Part.Limits key.now }
{
    key == "quantum"
        || key == "fuel"
        || key == "pages"
        || key == "queue"
        || key == "facets"
        || key == "bytes"
}

/// The place, from 1, of the first key that is none of the part's.
pub fn extra_key(part: Part, table: &Table) -> Option<u64>
    ensures { result ≡ extra_key part (table_view table.now) }
{
    let mut place: u64 = 1;
    'keys: for (key, _) in table {
        if !is_key_of(part, key.as_str()) {
            return Some(place);
        }
        place += 1;
    }
    None
}

/// The table of a row, which has no key but the part's.
pub fn row_table<'a>(part: Part, row: u64, value: &'a Value) -> Result<&'a Table, PolicyError>
    ensures { AnswersBy fault_of (λ table. table_view table.now) (row_table part row (view value.now)) result }
{
    let place = Place::row(part, row);
    let Some(table) = value.as_table() else {
        return Err(PolicyError::WrongKind(place));
    };
    match extra_key(part, table) {
        Some(_) => Err(PolicyError::Extra(place)),
        None => Ok(table),
    }
}

/// The text at a key that has to be there.
pub fn text_at<'a>(table: &'a Table, key: &str, place: Place) -> Result<&'a str, PolicyError>
    ensures { AnswersBy fault_of (λ text. text.now) (text_at key.now place (table_view table.now)) result }
{
    let Some(value) = member(table, key) else {
        return Err(PolicyError::Missing(place));
    };
    match value.as_str() {
        Some(text) => Ok(text),
        None => Err(PolicyError::WrongKind(place)),
    }
}

/// The whole number at a key, from the range's first number to its second; the default where the key is not written.
pub fn number_at(
    table: &Table,
    key: &str,
    range: (u32, u32),
    default: u32,
    place: Place,
) -> Result<u32, PolicyError>
    requires default { is_within range (pos default) ≡ true }
    ensures read { Answers fault_of (number_at key.now range default place (table_view table.now)) result }
    ensures within { IfOk result (λ number. is_within range (pos number) ≡ true) }
{
    let Some(value) = member(table, key) else {
        return Ok(default);
    };
    let Some(number) = value.as_integer() else {
        return Err(PolicyError::WrongKind(place));
    };
    number_within(range, place, number)
}

fn number_within(range: (u32, u32), place: Place, number: i64) -> Result<u32, PolicyError>
    ensures read { Answers fault_of (number_within range place number) result }
    ensures within { IfOk result (λ number. is_within range (pos number) ≡ true) }
{
    match u32::try_from(number) {
        Ok(number) if range.0 <= number && number <= range.1 => Ok(number),
        _ => Err(PolicyError::OutOfRange(place)),
    }
}

/// Tests that a part has at most so many rows.
pub fn at_most(most: usize, part: Part, table: &Table) -> Result<(), PolicyError>
    ensures { Answers fault_of (at_most most part (table_view table.now)) result }
{
    if table.len() <= most {
        Ok(())
    } else {
        Err(PolicyError::OutOfRange(Place::whole(part)))
    }
}

/// The name that a row's key is.
pub fn name_of(part: Part, row: u64, key: &str) -> Result<Name, PolicyError>
    ensures read { Answers fault_of (name_of part row key.now) result }
    ensures same { IfOk result (λ name. name ≡ key.now) }
{
    match Name::read(key.as_bytes()) {
        Some(name) => Ok(name),
        None => Err(PolicyError::BadName(Place::row(part, row))),
    }
}

/// The label whose name stands at a key.
pub fn label_at(
    lattice: &Lattice,
    table: &Table,
    key: &str,
    place: Place,
) -> Result<Label, PolicyError>
    ensures read { AnswersBy fault_of (λ label. label.number) (label_at lattice.now.names key.now place (table_view table.now)) result }
    ensures within { IfOk result (λ label. label.number < count lattice.now) }
{
    let name = text_at(table, key, place)?;
    match lattice.find(name.as_bytes()) {
        Some(label) => Ok(label),
        None => Err(PolicyError::UnknownLabel(place)),
    }
}
