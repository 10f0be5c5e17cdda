//! The root table of a policy.

ghost use Rattle.toml.specs.View.{table_view};
ghost use Rattle.trapeze_io.specs.Answers.{Answers, AnswersBy};
ghost use Rattle.policy_toml.specs.Faults.{fault_of};
ghost use Rattle.policy_toml.specs.Document.{document_of, root_keys};

use crate::error::PolicyError;
use crate::place::{Part, Place};
use crate::tables::extra_key;
use std::alloc::Global;
use toml::Table;

/// The table that the bytes write.
pub fn document(alloc: Global, bytes: &[u8]) -> Result<Table, PolicyError>
    ensures { AnswersBy fault_of table_view (document_of bytes.now) result }
{
    let Ok(text) = str::from_utf8(bytes) else {
        return Err(PolicyError::Toml);
    };
    match toml::table_from_str(alloc, text) {
        Ok(root) => Ok(root),
        Err(error) if error.is_memory() => Err(PolicyError::NoMemory),
        Err(_) => Err(PolicyError::Toml),
    }
}

/// Tests that the root has no key but a policy's.
#[tactic(auto, unfolding(crate::specs::Document::root_keys))]
pub fn root_keys(root: &Table) -> Result<(), PolicyError>
    ensures { Answers fault_of (root_keys (table_view root.now)) result }
{
    match extra_key(Part::Root, root) {
        Some(row) => Err(PolicyError::Extra(Place::row(Part::Root, row))),
        None => Ok(()),
    }
}
