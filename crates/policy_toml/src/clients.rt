//! The clients of a policy.

ghost use Rattle.std.specs.Prelude.{◌≡◌, ◌≤◌, map, length, IfOk, All};
ghost use Rattle.toml.specs.View.{view, table_view};
ghost use Rattle.label_lattice.specs.Order.{count};
ghost use Rattle.trapeze_io.specs.Names.{Ascend};
ghost use Rattle.trapeze_io.specs.Answers.{Answers, AnswersBy};
ghost use Rattle.policy_toml.specs.Faults.{fault_of};
ghost use Rattle.policy_toml.specs.Rows.{each_row, members_of};
ghost use Rattle.policy_toml.specs.Clients.{client_row, clients_of, IsClient};

use crate::error::PolicyError;
use crate::place::{Part, Place};
use crate::tables::{at_most, label_at, member, name_of, row_table};
use label_lattice::{Label, Lattice};
use std::alloc::Global;
use std::marker::Model;
use toml::{Table, Value};
use trapeze_io::{Name, NoMemory};

/// A client of a policy.
#[derive(Drop)]
pub struct Client {
    name: Name,
    clearance: Label,
}

impl Model for Client {
    ghost use Rattle.std.specs.Prelude.{List, ℕ};

    ghost Value = { List ℕ × ℕ };

    ghost view = { λ c. (c.name, c.clearance.number) };
}

/// The clients in byte order of their names, with their clearances.
#[tactic(auto, unfolding(crate::specs::Clients::clients_of))]
pub fn clients(alloc: Global, lattice: &Lattice, root: &Table) -> Result<Vec<Client>, PolicyError>
    ensures read { AnswersBy fault_of (λ rows. rows.items) (clients_of lattice.now.names (table_view root.now)) result }
    ensures ascend { IfOk result (λ rows. Ascend (map (λ row. row.0) rows.items)) }
    ensures clearances { IfOk result (λ rows. All (IsClient (count lattice.now)) rows.items) }
    ensures few { IfOk result (λ rows. length rows.items ≤ 65536) }
{
    let Some(value) = member(root, "clients") else {
        return Ok(Vec::new(alloc));
    };
    let Some(table) = value.as_table() else {
        return Err(PolicyError::WrongKind(Place::whole(Part::Clients)));
    };
    at_most(65_536, Part::Clients, table)?;
    client_rows(alloc, lattice, table)
}

fn client_rows(alloc: Global, lattice: &Lattice, table: &Table) -> Result<Vec<Client>, PolicyError>
    ensures read { AnswersBy fault_of (λ rows. rows.items) (each_row (client_row lattice.now.names) 1 (members_of (table_view table.now))) result }
    ensures ascend { IfOk result (λ rows. Ascend (map (λ row. row.0) rows.items)) }
    ensures clearances { IfOk result (λ rows. All (IsClient (count lattice.now)) rows.items) }
    ensures count { IfOk result (λ rows. length rows.items ≡ length (members_of (table_view table.now))) }
{
    let mut clients = Vec::new(alloc);
    'rows: for (key, value) in table {
        let row = client_row(lattice, clients.len() as u64 + 1, key.as_str(), value)?;
        if let Err(_) = clients.push(row) {
            return Err(PolicyError::NoMemory);
        }
    }
    Ok(clients)
}

fn client_row(lattice: &Lattice, row: u64, key: &str, value: &Value) -> Result<Client, PolicyError>
    ensures read { Answers fault_of (client_row lattice.now.names row (key.now, view value.now)) result }
    ensures name { IfOk result (λ client. client.0 ≡ key.now) }
    ensures clearance { IfOk result (IsClient (count lattice.now)) }
{
    let name = name_of(Part::Clients, row, key)?;
    let table = row_table(Part::Clients, row, value)?;
    let place = Place::field(Part::Clients, row, 1);
    let clearance = label_at(lattice, table, "clearance", place)?;
    Ok(Client { name, clearance })
}

/// The names and the clearances of the clients.
pub fn names_and_clearances(
    alloc: Global,
    clients: Vec<Client>,
) -> Result<(Vec<Name>, Vec<Label>), NoMemory>
    ensures names { IfOk result (λ lists. lists.0.items ≡ map (λ client. client.0) clients.items) }
    ensures clearances { IfOk result (λ lists. map (λ label. label.number) lists.1.items ≡ map (λ client. client.1) clients.items) }
{
    let mut names = Vec::new(alloc);
    let mut clearances = Vec::new(alloc);
    'clients: for client in clients {
        if let Err(_) = names.push(client.name) {
            return Err(NoMemory);
        }
        if let Err(_) = clearances.push(client.clearance) {
            return Err(NoMemory);
        }
    }
    Ok((names, clearances))
}
