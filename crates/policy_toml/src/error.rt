//! What is wrong with a policy.

ghost use Rattle.policy_toml.specs.declared.error.PolicyError.TheVariants.{NoMemory};

use crate::place::Place;
use label_lattice::LatticeError;
use thiserror::Error;

/// Why no policy was read: the first fault in the order of the document's parts.
#[derive(Debug, Clone, Copy, PartialEq, Eq, Drop, Error)]
pub enum PolicyError {
    /// The bytes are no UTF-8 text, or the text is no TOML document.
    #[error("no TOML document")]
    Toml,
    /// A key that a policy does not have. In the root the row is the key's place among all keys of the root; the item is
    /// always 0.
    #[error("an unknown key")]
    Extra(Place),
    /// A key that a policy has to have is missing.
    #[error("a missing key")]
    Missing(Place),
    /// A value is of another kind than a policy has there.
    #[error("a value of the wrong kind")]
    WrongKind(Place),
    /// The labels and flows make no lattice.
    #[error("no lattice: {0}")]
    Lattice(LatticeError),
    /// A key that is to be a name is none.
    #[error("a bad name")]
    BadName(Place),
    /// No label has this name.
    #[error("an unknown label")]
    UnknownLabel(Place),
    /// No function has this name.
    #[error("an unknown function")]
    UnknownFunction(Place),
    /// A number, a length or a count is outside its range.
    #[error("out of range")]
    OutOfRange(Place),
    /// Memory was refused.
    #[error("out of memory")]
    NoMemory,
}

impl From<trapeze_io::NoMemory> for PolicyError {
    ghost from_gives = { λ _ error. error ≡ NoMemory };

    ghost use Rattle.std.specs.Prelude.{◌≡◌};

    fn from(_: trapeze_io::NoMemory) -> PolicyError {
        PolicyError::NoMemory
    }
}
