//! What is refused of a setting.

use fault_texts::ModuleFault;
use policy_toml::PolicyError;

/// Why a setting is refused. Being out of memory is none of these.
#[derive(Debug, Clone, Copy, PartialEq, Eq, Drop)]
pub enum Refusal {
    /// The policy has this first fault.
    Policy(PolicyError),
    /// The policy has no label of the name.
    Label,
    /// The file of a function has this first fault.
    Module(ModuleFault),
}
