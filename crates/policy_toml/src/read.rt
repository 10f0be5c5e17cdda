//! Reading a policy.

ghost use Rattle.std.specs.Prelude.{◌≢◌, IfErr};
ghost use Rattle.toml.specs.View.{table_view};
ghost use Rattle.trapeze_io.specs.Answers.{Answers, AnswersBy};
ghost use Rattle.policy_toml.specs.Faults.{fault_of};
ghost use Rattle.policy_toml.specs.PolicyOf.{policy_of, table_lattice, table_policy};

use crate::channels::channels;
use crate::clients::{clients, names_and_clearances};
use crate::document::{document, root_keys};
use crate::error::PolicyError;
use crate::functions::{functions, names_and_files};
use crate::gates::gates;
use crate::labels::{flows, labels, lattice};
use crate::limits::{all_limits, limits};
use crate::policy::Policy;
use label_lattice::{Lattice, LatticeError};
use std::alloc::Global;
use toml::Table;

/// AnswersBy fault_of a policy from TOML. Its root keys are `labels`, an array of 1 to 64 names, and optionally `flows`, an array of
/// pairs of label names of which the first flows to the second; `limits`, a table of the limits of labels; `functions`,
/// a table of at most 256 file names; `channels`, a table of tables of a `label` and a `function`; `clients`, a table of
/// at most 65,536 tables of a `clearance`; and `gates`, a table of tables of a `source`, a `target`, a `function`, a
/// `filter` and perhaps a `count`.
///
/// # Errors
///
/// The first fault: the document; a root key; the labels, the flows, and then the lattice that they make; the limits;
/// the functions; the channels; the clients; the gates. In a part the whole comes first and then its rows, lists in their order
/// and tables in byte order of their keys; in a row its key, its kind, a key that it does not have, and then its fields.
pub fn read_policy(alloc: Global, bytes: &[u8]) -> Result<Policy, PolicyError>
    ensures read { Answers fault_of (policy_of bytes.now) result }
    ensures memory { IfErr result (λ e. e ≢ PolicyError.Lattice LatticeError.NoMemory) }
{
    let root = document(alloc, bytes)?;
    read_table(alloc, &root)
}

#[tactic(auto, unfolding(crate::specs::PolicyOf::table_lattice))]
fn table_lattice(alloc: Global, root: &Table) -> Result<Lattice, PolicyError>
    ensures { Answers fault_of (table_lattice (table_view root.now)) result }
{
    root_keys(root)?;
    let labels = labels(alloc, root)?;
    let flows = flows(alloc, root)?;
    lattice(alloc, &labels, &flows)
}

#[tactic(auto, unfolding(crate::specs::PolicyOf::table_policy))]
fn read_table(alloc: Global, root: &Table) -> Result<Policy, PolicyError>
    ensures { Answers fault_of (table_policy (table_view root.now)) result }
{
    let lattice = table_lattice(alloc, root)?;
    let limits = limits(alloc, &lattice, root)?;
    let functions = functions(alloc, root)?;
    let (functions, files) = names_and_files(alloc, functions)?;
    let channels = channels(alloc, &lattice, &functions, root)?;
    let clients = clients(alloc, &lattice, root)?;
    let gates = gates(alloc, &lattice, &functions, root)?;
    let (clients, clearances) = names_and_clearances(alloc, clients)?;
    let limits = all_limits(alloc, &lattice, &limits)?;
    Ok(Policy::from_parts(
        lattice, limits, channels, functions, files, clients, clearances, gates,
    ))
}
