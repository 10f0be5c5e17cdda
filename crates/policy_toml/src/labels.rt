//! The labels of a policy and the flows between them.

ghost use Rattle.std.specs.Prelude.{◌≡◌, IfOk, option_map};
ghost use Rattle.toml.specs.View.{view, items_view, table_view};
ghost use Rattle.trapeze_io.specs.Answers.{Answers, AnswersBy};
ghost use Rattle.policy_toml.specs.Faults.{fault_of};
ghost use Rattle.policy_toml.specs.Rows.{each_row, items_of};
ghost use Rattle.policy_toml.specs.Labels.{label_row, labels_of, flow_row, pair_of, flows_of, lattice_of};

use crate::error::PolicyError;
use crate::place::{Part, Place};
use crate::tables::member;
use label_lattice::{Lattice, LatticeError};
use std::alloc::Global;
use toml::{Table, Value};
use trapeze_io::Bytes;

/// The labels in order.
#[tactic(auto, unfolding(crate::specs::Labels::labels_of))]
pub fn labels(alloc: Global, root: &Table) -> Result<Vec<Bytes>, PolicyError>
    ensures { AnswersBy fault_of (λ labels. labels.items) (labels_of (table_view root.now)) result }
{
    let place = Place::whole(Part::Labels);
    let Some(value) = member(root, "labels") else {
        return Err(PolicyError::Missing(place));
    };
    let Some(values) = value.as_array() else {
        return Err(PolicyError::WrongKind(place));
    };
    label_rows(alloc, values)
}

fn label_rows(alloc: Global, values: &[Value]) -> Result<Vec<Bytes>, PolicyError>
    ensures { AnswersBy fault_of (λ labels. labels.items) (each_row label_row 1 (items_of (items_view values.now))) result }
{
    let mut labels = Vec::new(alloc);
    'rows: for value in values {
        let label = label_row(alloc, labels.len() as u64 + 1, value)?;
        if let Err(_) = labels.push(label) {
            return Err(PolicyError::NoMemory);
        }
    }
    Ok(labels)
}

fn label_row(alloc: Global, row: u64, value: &Value) -> Result<Bytes, PolicyError>
    ensures { Answers fault_of (label_row row (view value.now)) result }
{
    let Some(text) = value.as_str() else {
        return Err(PolicyError::WrongKind(Place::row(Part::Labels, row)));
    };
    Ok(Bytes::copy(alloc, text.as_bytes())?)
}

/// The pairs of labels of which the first flows to the second.
#[tactic(auto, unfolding(crate::specs::Labels::flows_of))]
pub fn flows(alloc: Global, root: &Table) -> Result<Vec<(Bytes, Bytes)>, PolicyError>
    ensures { AnswersBy fault_of (λ flows. flows.items) (flows_of (table_view root.now)) result }
{
    let Some(value) = member(root, "flows") else {
        return Ok(Vec::new(alloc));
    };
    let Some(values) = value.as_array() else {
        return Err(PolicyError::WrongKind(Place::whole(Part::Flows)));
    };
    flow_rows(alloc, values)
}

fn flow_rows(alloc: Global, values: &[Value]) -> Result<Vec<(Bytes, Bytes)>, PolicyError>
    ensures { AnswersBy fault_of (λ flows. flows.items) (each_row flow_row 1 (items_of (items_view values.now))) result }
{
    let mut flows = Vec::new(alloc);
    'rows: for value in values {
        let flow = flow_row(alloc, flows.len() as u64 + 1, value)?;
        if let Err(_) = flows.push(flow) {
            return Err(PolicyError::NoMemory);
        }
    }
    Ok(flows)
}

fn flow_row(alloc: Global, row: u64, value: &Value) -> Result<(Bytes, Bytes), PolicyError>
    ensures { Answers fault_of (flow_row row (view value.now)) result }
{
    let Some((from, to)) = two_texts(value) else {
        return Err(PolicyError::WrongKind(Place::row(Part::Flows, row)));
    };
    Ok((
        Bytes::copy(alloc, from.as_bytes())?,
        Bytes::copy(alloc, to.as_bytes())?,
    ))
}

fn two_texts<'a>(value: &'a Value) -> Option<(&'a str, &'a str)>
    ensures { option_map (λ pair. (pair.0.now, pair.1.now)) result ≡ pair_of (view value.now) }
{
    let ends = value.as_array()?;
    if ends.len() != 2 {
        return None;
    }
    let from = ends[0].as_str()?;
    let to = ends[1].as_str()?;
    Some((from, to))
}

/// The lattice of the labels and flows.
#[tactic(auto, unfolding(crate::specs::Labels::lattice_of))]
pub fn lattice(
    alloc: Global,
    labels: &[Bytes],
    flows: &[(Bytes, Bytes)],
) -> Result<Lattice, PolicyError>
    ensures read { Answers fault_of (lattice_of labels.now flows.now) result }
    ensures names { IfOk result (λ lattice. lattice.names ≡ labels.now) }
{
    match Lattice::build(alloc, labels, flows) {
        Ok(lattice) => Ok(lattice),
        Err(LatticeError::NoMemory) => Err(PolicyError::NoMemory),
        Err(fault) => Err(PolicyError::Lattice(fault)),
    }
}
