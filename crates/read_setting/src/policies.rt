//! The policy of a file, and its labels by name.

ghost use Rattle.std.specs.Prelude.{◌≡◌, ◌≢◌, ◌<◌, ◌∷◌, [], IfOk, IfErr};
ghost use Rattle.label_lattice.specs.Order.{count};
ghost use Rattle.read_setting.specs.Memory.{IsTold, TellsMemory};
ghost use Rattle.read_setting.specs.Policies.{policy_source, policy_step, policy_said, label_said};
ghost use Rattle.file_calls.specs.Steps.{Steps, Judges};

use crate::refusal::Refusal;
use file_calls::{FileError, read_file};
use label_lattice::{Label, Lattice, LatticeError};
use policy_toml::{Policy, PolicyError, read_policy};
use std::alloc::Global;
use trapeze_io::Files;

/// The most bytes of a policy file.
const POLICY_LIMIT: u32 = 1_048_576;

/// Reads the policy of the file of this name, which is the one at this place among the files of the call.
pub fn read_policy_file<F: Files>(
    alloc: Global,
    files: &mut F,
    place: u32,
    name: &str,
) -> Result<Policy, FileError<Refusal>>
    ensures steps { Steps place (policy_source name.now ∷ []) (policy_step place name.now)
        (F.seen files.old) (F.seen files.new) result }
    ensures memory { IfErr result TellsMemory }
{
    let bytes = read_file(alloc, files, place, name, POLICY_LIMIT)?;
    judge(alloc, place, bytes.as_slice())
}

/// The policy of the bytes of the file at a place.
fn judge(alloc: Global, place: u32, bytes: &[u8]) -> Result<Policy, FileError<Refusal>>
    ensures judged { Judges place (λ r. policy_said place bytes.now ≡ r) result }
    ensures memory { IfErr result TellsMemory }
{
    match read_policy(alloc, bytes) {
        Ok(policy) => Ok(policy),
        Err(fault) => Err(refusal(place, fault)),
    }
}

/// How a call ends whose policy is refused. Being out of memory is no fault of a policy.
fn refusal(place: u32, fault: PolicyError) -> FileError<Refusal>
    requires { fault ≢ PolicyError.Lattice LatticeError.NoMemory }
    ensures told { IsTold place (Refusal.Policy fault) (fault ≡ PolicyError.NoMemory) result }
    ensures memory { TellsMemory result }
{
    match fault {
        PolicyError::NoMemory => FileError::NoMemory,
        fault => FileError::Refused {
            place,
            refusal: Refusal::Policy(fault),
        },
    }
}

/// The label of this name, under the policy of the file at this place.
pub fn find_label(lattice: &Lattice, place: u32, name: &str) -> Result<Label, FileError<Refusal>>
    ensures found { label_said place lattice.now.names name.now ≡ result }
    ensures within { IfOk result (λ label. label.number < count lattice.now) }
{
    match lattice.find(name.as_bytes()) {
        Some(label) => Ok(label),
        None => Err(FileError::Refused {
            place,
            refusal: Refusal::Label,
        }),
    }
}
