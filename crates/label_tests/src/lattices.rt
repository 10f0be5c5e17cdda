//! Names and pairs of names that make no lattice, and as many labels as there may be.

use crate::policy::{Row, have_faults};
use std::test::Fail;

/// Texts of labels and flows.
static FAULTS: [Row; 10] = [
    (
        "labels = ['a', 'b']\nflows = [['a', 'b'], ['b', 'a']]",
        "lattice cycle 0 1",
    ),
    (
        "labels = ['z', 'a', 'b', 'c', 'd', 't']
flows = [['z', 'a'], ['z', 'b'], ['a', 'c'], ['a', 'd'], ['b', 'c'], ['b', 'd'], ['c', 't'], ['d', 't']]",
        "lattice no-join 1 2",
    ),
    (
        "labels = ['a', 'b', 't']\nflows = [['a', 't'], ['b', 't']]",
        "lattice no-meet 0 1",
    ),
    (
        "labels = ['a', 'b', 'c']\nflows = [['b', 'c'], ['c', 'b']]",
        "lattice cycle 1 2",
    ),
    (
        "labels = ['a', 'b']\nflows = [['a', 'b'], ['b', 'x']]",
        "lattice unknown-label 1",
    ),
    (
        "labels = ['a', 'b']\nflows = [['y', 'a'], ['b', 'x']]",
        "lattice unknown-label 0",
    ),
    (
        "labels = ['a', 'b', 'a']\nflows = [['a', 'x']]",
        "lattice repeated 2",
    ),
    (
        "labels = ['a', 'B', 'a']\nflows = [['a', 'x']]",
        "lattice bad-name 1",
    ),
    ("labels = ['a', 'a', '']", "lattice repeated 1"),
    ("labels = []", "lattice no-labels"),
];

#[test]
fn the_first_fault_of_names_and_pairs_is_told(rt: HostRuntime) -> Result<(), Fail> {
    assert!(rt; have_faults(rt.alloc(), "", &FAULTS)?);
    Ok(())
}
