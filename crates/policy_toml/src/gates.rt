//! The gates of a policy.

ghost use Rattle.std.specs.Prelude.{◌≡◌, ◌≤◌, [], codes, length, IfOk, All};
ghost use Rattle.toml.specs.View.{view, table_view};
ghost use Rattle.label_lattice.specs.Order.{count};
ghost use Rattle.trapeze_io.specs.Names.{Ascend};
ghost use Rattle.trapeze_io.specs.Answers.{Answers};
ghost use Rattle.policy_toml.specs.Faults.{fault_of};
ghost use Rattle.policy_toml.specs.Rows.{each_row, members_of};
ghost use Rattle.policy_toml.specs.Gates.{filter_at, filter_named, gate_fields, gate_row, gates_of, with_count, IsGate};

use crate::error::PolicyError;
use crate::functions::function_at;
use crate::place::{Part, Place};
use crate::tables::{label_at, member, name_of, number_at, row_table, text_at};
use gate_rules::{Filter, Gate, Gates};
use label_lattice::Lattice;
use std::alloc::Global;
use toml::{Table, Value};
use trapeze_io::Name;

/// The most bytes of which a gate may let through the first ones.
const LARGEST_COUNT: u32 = 65_536;

/// The gates in byte order of their names.
#[tactic(auto, unfolding(crate::specs::Gates::gates_of))]
pub fn gates(
    alloc: Global,
    lattice: &Lattice,
    functions: &[Name],
    root: &Table,
) -> Result<Gates, PolicyError>
    requires ascend { Ascend functions.now }
    requires few { length functions.now ≤ 256 }
    ensures read { Answers fault_of (gates_of lattice.now.names functions.now (table_view root.now)) result }
    ensures below { IfOk result (All (IsGate (count lattice.now) (length functions.now))) }
{
    let Some(value) = member(root, "gates") else {
        return Ok(Gates::new(alloc));
    };
    let Some(table) = value.as_table() else {
        return Err(PolicyError::WrongKind(Place::whole(Part::Gates)));
    };
    gate_rows(alloc, lattice, functions, table)
}

fn gate_rows(
    alloc: Global,
    lattice: &Lattice,
    functions: &[Name],
    table: &Table,
) -> Result<Gates, PolicyError>
    requires ascend { Ascend functions.now }
    requires few { length functions.now ≤ 256 }
    ensures read { Answers fault_of (each_row (gate_row lattice.now.names functions.now) 1
        (members_of (table_view table.now))) result }
    ensures below { IfOk result (All (IsGate (count lattice.now) (length functions.now))) }
{
    let mut gates = Gates::new(alloc);
    let mut row: u64 = 1;
    'rows: for (key, value) in table {
        let (name, gate) = gate_row(lattice, functions, row, key.as_str(), value)?;
        gates.add(name, gate)?;
        row += 1;
    }
    Ok(gates)
}

fn gate_row(
    lattice: &Lattice,
    functions: &[Name],
    row: u64,
    key: &str,
    value: &Value,
) -> Result<(Name, Gate), PolicyError>
    requires ascend { Ascend functions.now }
    requires few { length functions.now ≤ 256 }
    ensures read { Answers fault_of (gate_row lattice.now.names functions.now row (key.now, view value.now)) result }
    ensures name { IfOk result (λ gate. gate.0 ≡ key.now) }
    ensures below { IfOk result (IsGate (count lattice.now) (length functions.now)) }
{
    let name = name_of(Part::Gates, row, key)?;
    let table = row_table(Part::Gates, row, value)?;
    let gate = gate_fields(lattice, functions, row, table)?;
    Ok((name, gate))
}

#[tactic(auto, unfolding(crate::specs::Gates::gate_fields))]
fn gate_fields(
    lattice: &Lattice,
    functions: &[Name],
    row: u64,
    table: &Table,
) -> Result<Gate, PolicyError>
    requires ascend { Ascend functions.now }
    requires few { length functions.now ≤ 256 }
    ensures read { Answers fault_of (gate_fields lattice.now.names functions.now row (table_view table.now)) result }
    ensures below { IfOk result (λ gate. IsGate (count lattice.now) (length functions.now) ([], gate)) }
{
    let source = label_at(lattice, table, "source", Place::field(Part::Gates, row, 1))?;
    let target = label_at(lattice, table, "target", Place::field(Part::Gates, row, 2))?;
    let function = function_at(
        functions,
        table,
        "function",
        Place::field(Part::Gates, row, 3),
    )?;
    let filter = filter_at(table, Place::field(Part::Gates, row, 4))?;
    let place = Place::field(Part::Gates, row, 5);
    let count = number_at(table, "count", (0, LARGEST_COUNT), LARGEST_COUNT, place)?;
    Ok(Gate {
        source,
        target,
        function,
        filter: with_count(filter, count),
    })
}

/// The filter that a gate's text names, with the largest count.
fn filter_at(table: &Table, place: Place) -> Result<Filter, PolicyError>
    ensures { Answers fault_of (filter_at (codes "filter") place (table_view table.now)) result }
{
    let text = text_at(table, "filter", place)?;
    match filter_named(text) {
        Some(filter) => Ok(filter),
        None => Err(PolicyError::WrongKind(place)),
    }
}

fn filter_named(text: &str) -> Option<Filter>
    ensures { result ≡ filter_named text.now }
{
    if text == "all" {
        Some(Filter::All)
    } else if text == "length" {
        Some(Filter::Length)
    } else if text == "first" {
        Some(Filter::First(LARGEST_COUNT))
    } else {
        None
    }
}

/// The filter with this count, which is of the first bytes alone.
fn with_count(filter: Filter, count: u32) -> Filter
    ensures { result ≡ with_count filter count }
{
    match filter {
        Filter::First(_) => Filter::First(count),
        _ => filter,
    }
}
