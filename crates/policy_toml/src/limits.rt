//! The limits of a policy.

ghost use Rattle.std.specs.Prelude.{◌≡◌, ◌==◌, IfOk, All, find, length, option_copied};
ghost use Rattle.toml.specs.View.{view, table_view};
ghost use Rattle.label_lattice.specs.Order.{count};
ghost use Rattle.label_limits.specs.Ranges.{AreWithin};
ghost use Rattle.policy_toml.specs.Places.{field_of};
ghost use Rattle.policy_toml.specs.PolicyOf.{limits_written, limits_by_label};
ghost use Rattle.trapeze_io.specs.Answers.{Answers, AnswersBy};
ghost use Rattle.policy_toml.specs.Faults.{fault_of};
ghost use Rattle.policy_toml.specs.Rows.{each_row, members_of};
ghost use Rattle.policy_toml.specs.Limits.{limits_of, limits_row, row_limits, IsRowOf};

use crate::error::PolicyError;
use crate::place::{Part, Place};
use crate::tables::{member, number_at, row_table};
use label_lattice::{Label, Lattice};
use label_limits::Limits;
use std::alloc::Global;
use std::marker::Model;
use toml::{Table, Value};
use trapeze_io::NoMemory;

/// The limits that are written of a label.
#[derive(Drop)]
pub struct Row {
    label: Label,
    limits: Limits,
}

impl Model for Row {
    ghost use Rattle.std.specs.Prelude.{ℕ};
    ghost use Rattle.label_limits.specs.declared.limits.Limits.{Limits};

    ghost Value = { ℕ × Limits };

    ghost view = { λ row. (row.label.number, row.limits) };
}

/// The limits that are written, in byte order of the labels' names.
#[tactic(auto, unfolding(crate::specs::Limits::limits_of))]
pub fn limits(alloc: Global, lattice: &Lattice, root: &Table) -> Result<Vec<Row>, PolicyError>
    ensures read { AnswersBy fault_of (λ rows. rows.items) (limits_of lattice.now.names (table_view root.now)) result }
    ensures rows { IfOk result (λ rows. All (IsRowOf (count lattice.now)) rows.items) }
{
    let Some(value) = member(root, "limits") else {
        return Ok(Vec::new(alloc));
    };
    let Some(table) = value.as_table() else {
        return Err(PolicyError::WrongKind(Place::whole(Part::Limits)));
    };
    limits_rows(alloc, lattice, table)
}

fn limits_rows(alloc: Global, lattice: &Lattice, table: &Table) -> Result<Vec<Row>, PolicyError>
    ensures read { AnswersBy fault_of (λ rows. rows.items) (each_row (limits_row lattice.now.names) 1 (members_of (table_view table.now))) result }
    ensures rows { IfOk result (λ rows. All (IsRowOf (count lattice.now)) rows.items) }
{
    let mut limits = Vec::new(alloc);
    'rows: for (key, value) in table {
        let row = limits_row(lattice, limits.len() as u64 + 1, key.as_str(), value)?;
        if let Err(_) = limits.push(row) {
            return Err(PolicyError::NoMemory);
        }
    }
    Ok(limits)
}

fn limits_row(lattice: &Lattice, row: u64, key: &str, value: &Value) -> Result<Row, PolicyError>
    ensures read { Answers fault_of (limits_row lattice.now.names row (key.now, view value.now)) result }
    ensures row { IfOk result (IsRowOf (count lattice.now)) }
{
    let Some(label) = lattice.find(key.as_bytes()) else {
        return Err(PolicyError::UnknownLabel(Place::row(Part::Limits, row)));
    };
    let table = row_table(Part::Limits, row, value)?;
    let limits = fields(row, table)?;
    Ok(Row { label, limits })
}

#[tactic(auto, unfolding(crate::specs::Limits::row_limits))]
fn fields(row: u64, table: &Table) -> Result<Limits, PolicyError>
    ensures read { Answers fault_of (row_limits row (table_view table.now)) result }
    ensures in_range { IfOk result AreWithin }
{
    let usual = Limits::usual();
    let quantum = number_at(
        table,
        "quantum",
        (1, 1_000_000),
        usual.quantum,
        place(row, 1),
    )?;
    let fuel = number_at(table, "fuel", (1, 1_000_000_000), usual.fuel, place(row, 2))?;
    let pages = number_at(table, "pages", (0, 65_536), usual.pages, place(row, 3))?;
    let queue = number_at(table, "queue", (1, 65_536), usual.queue, place(row, 4))?;
    let facets = number_at(table, "facets", (0, 1_000_000), usual.facets, place(row, 5))?;
    let bytes = number_at(
        table,
        "bytes",
        (0, 1_073_741_824),
        usual.bytes,
        place(row, 6),
    )?;
    Ok(Limits {
        quantum,
        fuel,
        pages,
        queue,
        facets,
        bytes,
    })
}

/// The place of a limit in its row.
fn place(row: u64, limit: u32) -> Place
    ensures { result ≡ field_of Part.Limits row limit }
{
    Place::field(Part::Limits, row, limit)
}

/// The limits of each label, by its number: those that are written, or the usual ones.
pub fn all_limits(alloc: Global, lattice: &Lattice, rows: &[Row]) -> Result<Vec<Limits>, NoMemory>
    requires { All (IsRowOf (count lattice.now)) rows.now }
    ensures limits { IfOk result (λ all. all.items ≡ limits_by_label (count lattice.now) rows.now) }
    ensures in_range { IfOk result (λ all. All AreWithin all.items) }
    ensures count { IfOk result (λ all. length all.items ≡ count lattice.now) }
{
    let mut all = Vec::new(alloc);
    'labels: for label in 0..lattice.count() {
        if let Err(_) = all.push(limits_written(rows, label)) {
            return Err(NoMemory);
        }
    }
    Ok(all)
}

fn row_at(rows: &[Row], label: u8) -> Option<&Row>
    ensures { option_copied result ≡ find (λ row. row.0 == label) rows.now }
{
    rows.iter().find(|row| row.label.number == label)
}

fn limits_written(rows: &[Row], label: u8) -> Limits
    ensures { result ≡ limits_written rows.now label }
{
    match row_at(rows, label) {
        Some(row) => row.limits,
        None => Limits::usual(),
    }
}
