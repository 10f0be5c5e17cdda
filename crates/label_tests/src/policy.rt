//! The texts that policies begin with, and the first fault of a policy in the words of the command's error lines.

use label_lattice::{Label, LatticeError};
use policy_toml::{Place, PolicyError, read_policy};
use std::alloc::Global;
use std::test::Fail;

/// The end of a policy, and its first fault.
pub type Row = (&'static str, &'static str);

/// Two labels with their flow, and a function.
pub const TWO: &str =
    "labels = ['low', 'top']\nflows = [['low', 'top']]\nfunctions = { hello = 'echo.wasm' }\n";

/// A least label, two beside each other, and a greatest one.
pub const FOUR: &str = "labels = [\"low\", \"alice\", \"bob\", \"top\"]
flows = [[\"low\", \"alice\"], [\"low\", \"bob\"], [\"alice\", \"top\"], [\"bob\", \"top\"]]
";

/// Whether each policy that begins with the head has the fault that stands beside its end.
pub fn have_faults(alloc: Global, head: &str, rows: &[Row]) -> Result<bool, Fail> {
    let mut all = true;
    for (rest, want) in rows {
        let text = format!(in alloc; "{head}{rest}")?;
        let told = told_fault(alloc, text.as_bytes())?;
        all = all && told.as_str() == *want;
    }
    Ok(all)
}

/// The first fault of a policy, or `none`.
pub fn told_fault(alloc: Global, text: &[u8]) -> Result<String, Fail> {
    match read_policy(alloc, text) {
        Ok(_) => Ok(format!(in alloc; "none")?),
        Err(error) => told(alloc, error),
    }
}

fn told(alloc: Global, error: PolicyError) -> Result<String, Fail> {
    match error {
        PolicyError::Toml => Ok(format!(in alloc; "toml")?),
        PolicyError::Extra(place) => placed(alloc, "extra", place),
        PolicyError::Missing(place) => placed(alloc, "missing", place),
        PolicyError::WrongKind(place) => placed(alloc, "wrong-kind", place),
        PolicyError::Lattice(error) => told_lattice(alloc, error),
        PolicyError::BadName(place) => placed(alloc, "bad-name", place),
        PolicyError::UnknownLabel(place) => placed(alloc, "unknown-label", place),
        PolicyError::UnknownFunction(place) => placed(alloc, "unknown-function", place),
        PolicyError::OutOfRange(place) => placed(alloc, "out-of-range", place),
        PolicyError::NoMemory => Ok(format!(in alloc; "no memory")?),
    }
}

fn placed(alloc: Global, kind: &str, place: Place) -> Result<String, Fail> {
    let (part, row, item) = (place.part, place.row, place.item);
    let mut text = format!(in alloc; "{kind} {part:?} {row} {item}")?;
    text.make_ascii_lowercase();
    Ok(text)
}

fn told_lattice(alloc: Global, error: LatticeError) -> Result<String, Fail> {
    match error {
        LatticeError::NoLabels => Ok(format!(in alloc; "lattice no-labels")?),
        LatticeError::TooMany => Ok(format!(in alloc; "lattice too-many")?),
        LatticeError::BadName(at) => Ok(format!(in alloc; "lattice bad-name {at}")?),
        LatticeError::Repeated(at) => Ok(format!(in alloc; "lattice repeated {at}")?),
        LatticeError::UnknownLabel(at) => Ok(format!(in alloc; "lattice unknown-label {at}")?),
        LatticeError::Cycle(a, b) => two(alloc, "cycle", a, b),
        LatticeError::NoJoin(a, b) => two(alloc, "no-join", a, b),
        LatticeError::NoMeet(a, b) => two(alloc, "no-meet", a, b),
        LatticeError::NoMemory => Ok(format!(in alloc; "no memory")?),
    }
}

fn two(alloc: Global, kind: &str, a: Label, b: Label) -> Result<String, Fail> {
    let (a, b) = (a.number(), b.number());
    Ok(format!(in alloc; "lattice {kind} {a} {b}")?)
}
