//! The channels of a policy.

ghost use Rattle.std.specs.Prelude.{◌≡◌, ◌≤◌, length, IfOk, All};
ghost use Rattle.toml.specs.View.{view, table_view};
ghost use Rattle.label_lattice.specs.Order.{count};
ghost use Rattle.trapeze_io.specs.Names.{Ascend};
ghost use Rattle.trapeze_io.specs.Answers.{Answers, AnswersBy};
ghost use Rattle.policy_toml.specs.Faults.{fault_of};
ghost use Rattle.policy_toml.specs.Rows.{each_row, members_of};
ghost use Rattle.policy_toml.specs.Channels.{channel_row, channels_of, shown_channel, IsChannel};

use crate::error::PolicyError;
use crate::functions::function_at;
use crate::place::{Part, Place};
use crate::tables::{label_at, member, name_of, row_table};
use label_lattice::{Label, Lattice};
use labelled_channel::Channels;
use std::alloc::Global;
use toml::{Table, Value};
use trapeze_io::Name;

/// The channels in byte order of their names.
#[tactic(auto, unfolding(crate::specs::Channels::channels_of))]
pub fn channels(
    alloc: Global,
    lattice: &Lattice,
    functions: &[Name],
    root: &Table,
) -> Result<Channels, PolicyError>
    requires ascend { Ascend functions.now }
    requires few { length functions.now ≤ 256 }
    ensures read { Answers fault_of (channels_of lattice.now.names functions.now (table_view root.now)) result }
    ensures below { IfOk result (All (IsChannel (count lattice.now) (length functions.now))) }
{
    let Some(value) = member(root, "channels") else {
        return Ok(Channels::new(alloc));
    };
    let Some(table) = value.as_table() else {
        return Err(PolicyError::WrongKind(Place::whole(Part::Channels)));
    };
    channel_rows(alloc, lattice, functions, table)
}

fn channel_rows(
    alloc: Global,
    lattice: &Lattice,
    functions: &[Name],
    table: &Table,
) -> Result<Channels, PolicyError>
    requires ascend { Ascend functions.now }
    requires few { length functions.now ≤ 256 }
    ensures read { Answers fault_of (each_row (channel_row lattice.now.names functions.now) 1
        (members_of (table_view table.now))) result }
    ensures below { IfOk result (All (IsChannel (count lattice.now) (length functions.now))) }
{
    let mut channels = Channels::new(alloc);
    let mut row: u64 = 1;
    'rows: for (key, value) in table {
        let (name, at, function) = channel_row(lattice, functions, row, key.as_str(), value)?;
        channels.add(name, at, function)?;
        row += 1;
    }
    Ok(channels)
}

fn channel_row(
    lattice: &Lattice,
    functions: &[Name],
    row: u64,
    key: &str,
    value: &Value,
) -> Result<(Name, Label, u32), PolicyError>
    requires ascend { Ascend functions.now }
    requires few { length functions.now ≤ 256 }
    ensures read { AnswersBy fault_of shown_channel (channel_row lattice.now.names functions.now row (key.now, view value.now)) result }
    ensures name { IfOk result (λ channel. channel.0 ≡ key.now) }
    ensures below { IfOk result (λ channel. IsChannel (count lattice.now) (length functions.now) (shown_channel channel)) }
{
    let name = name_of(Part::Channels, row, key)?;
    let table = row_table(Part::Channels, row, value)?;
    let place = Place::field(Part::Channels, row, 1);
    let label = label_at(lattice, table, "label", place)?;
    let place = Place::field(Part::Channels, row, 2);
    let function = function_at(functions, table, "function", place)?;
    Ok((name, label, function))
}
