//! The first fault of the rows of a policy, with its place: channels, clients and gates.

use crate::policy::{Row, TWO, have_faults};
use std::test::Fail;

/// A policy with a gate, but for the last fields of it.
const GATE: &str = "labels = ['low', 'top']
flows = [['low', 'top']]
functions = { hello = 'echo.wasm' }
[gates.g]
source = 'top'
target = 'low'
function = 'hello'
";

/// A policy with a gate, but for its function and its filter.
const WAY: &str = "labels = ['low', 'top']
flows = [['low', 'top']]
functions = { hello = 'echo.wasm' }
[gates.g]
source = 'top'
target = 'low'
";

/// Channels.
static CHANNELS: [Row; 10] = [
    ("channels = []", "wrong-kind channels 0 0"),
    ("channels = { '' = {} }", "bad-name channels 1 0"),
    ("channels = { mail = 'low' }", "wrong-kind channels 1 0"),
    (
        "[channels.mail]\nlabel = 'low'\nfunction = 'hello'\nclearance = 'low'",
        "extra channels 1 0",
    ),
    (
        "[channels.mail]\nlabel = 'top'\nfunction = 'hello'\n[channels.a]\nfunction = 'hello'",
        "missing channels 1 1",
    ),
    (
        "[channels.mail]\nlabel = 1\nfunction = 'hello'",
        "wrong-kind channels 1 1",
    ),
    (
        "[channels.mail]\nlabel = 'mid'\nfunction = 'hello'",
        "unknown-label channels 1 1",
    ),
    (
        "[channels.post]\nlabel = 'low'\n[channels.mail]\nlabel = 'top'\nfunction = 'hello'",
        "missing channels 2 2",
    ),
    (
        "[channels.mail]\nlabel = 'low'\nfunction = 1",
        "wrong-kind channels 1 2",
    ),
    (
        "[channels.mail]\nlabel = 'low'\nfunction = 'hell'",
        "unknown-function channels 1 2",
    ),
];

/// Clients.
static CLIENTS: [Row; 7] = [
    ("clients = ['ann']", "wrong-kind clients 0 0"),
    ("[clients.Ann]\nclearance = 'low'", "bad-name clients 1 0"),
    ("clients = { ann = 'low' }", "wrong-kind clients 1 0"),
    (
        "[clients.ann]\nclearance = 'low'\nlabel = 'low'",
        "extra clients 1 0",
    ),
    (
        "[clients.zed]\n[clients.sam]\nclearance = 'low'\n[clients.carol]\nclearance = 'top'",
        "missing clients 3 1",
    ),
    (
        "[clients.ann]\nclearance = ['low']",
        "wrong-kind clients 1 1",
    ),
    (
        "[clients.ann]\nclearance = 'mid'",
        "unknown-label clients 1 1",
    ),
];

/// Gates.
static GATES: [Row; 10] = [
    ("gates = []", "wrong-kind gates 0 0"),
    ("gates = { '' = {} }", "bad-name gates 1 0"),
    ("gates = { g = 'low' }", "wrong-kind gates 1 0"),
    ("gates = { g = { label = 'low' } }", "extra gates 1 0"),
    ("gates = { g = { source = 1 } }", "wrong-kind gates 1 1"),
    (
        "gates = { g = { source = 'mid' } }",
        "unknown-label gates 1 1",
    ),
    ("gates = { g = { source = 'top' } }", "missing gates 1 2"),
    (
        "gates = { g = { source = 'top', target = [] } }",
        "wrong-kind gates 1 2",
    ),
    (
        "gates = { g = { source = 'top', target = 'mid' } }",
        "unknown-label gates 1 2",
    ),
    (
        "[gates.z]\nsource = 'top'\ntarget = 'low'\nfunction = 'hello'\nfilter = 'all'\n[gates.g]",
        "missing gates 1 1",
    ),
];

/// What follows the labels of a gate.
static FUNCTION_OF_A_GATE: [Row; 3] = [
    ("", "missing gates 1 3"),
    ("function = 1", "wrong-kind gates 1 3"),
    ("function = 'low'", "unknown-function gates 1 3"),
];

/// What follows the function of a gate.
static FILTERS: [Row; 8] = [
    ("", "missing gates 1 4"),
    ("filter = 1", "wrong-kind gates 1 4"),
    ("filter = 'All'", "wrong-kind gates 1 4"),
    ("filter = 'first'\ncount = '1'", "wrong-kind gates 1 5"),
    ("filter = 'first'\ncount = -1", "out-of-range gates 1 5"),
    ("filter = 'first'\ncount = 65537", "out-of-range gates 1 5"),
    ("filter = 'all'\ncount = 65537", "out-of-range gates 1 5"),
    ("filter = 'all'\n[gates.z]", "missing gates 2 1"),
];

#[test]
fn faults_of_the_channels(rt: HostRuntime) -> Result<(), Fail> {
    assert!(rt; have_faults(rt.alloc(), TWO, &CHANNELS)?);
    Ok(())
}

#[test]
fn faults_of_the_clients(rt: HostRuntime) -> Result<(), Fail> {
    assert!(rt; have_faults(rt.alloc(), TWO, &CLIENTS)?);
    Ok(())
}

#[test]
fn faults_of_the_rows_of_the_gates(rt: HostRuntime) -> Result<(), Fail> {
    assert!(rt; have_faults(rt.alloc(), TWO, &GATES)?);
    Ok(())
}

#[test]
fn faults_of_the_function_of_a_gate(rt: HostRuntime) -> Result<(), Fail> {
    assert!(rt; have_faults(rt.alloc(), WAY, &FUNCTION_OF_A_GATE)?);
    Ok(())
}

#[test]
fn faults_of_the_filter_of_a_gate(rt: HostRuntime) -> Result<(), Fail> {
    assert!(rt; have_faults(rt.alloc(), GATE, &FILTERS)?);
    Ok(())
}
