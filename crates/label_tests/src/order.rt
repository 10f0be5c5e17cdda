//! Faults that stand together: the first in the order of the parts, rows and fields is told.

use crate::policy::{Row, TWO, have_faults};
use std::test::Fail;

/// A fault in each of two parts or more.
static PARTS: [Row; 8] = [
    ("labels = 1\ngate = 1", "extra root 1 0"),
    ("flows = 1", "missing labels 0 0"),
    (
        "labels = ['low', 'low']\nflows = [['up', 'low'], 1]",
        "wrong-kind flows 2 0",
    ),
    (
        "labels = ['low']\nfunctions = { Hello = 'a' }\n[limits.low]\nqueue = 0",
        "out-of-range limits 1 4",
    ),
    (
        "labels = ['low']\nclients = 1\nlimits = 1",
        "wrong-kind limits 0 0",
    ),
    (
        "labels = ['low']\nchannels = 1\nfunctions = { hello = '' }",
        "out-of-range functions 1 0",
    ),
    (
        "labels = ['low']\n[clients.ann]\n[channels.mail]\nlabel = 'low'\nfunction = 'hello'",
        "unknown-function channels 1 2",
    ),
    (
        "labels = ['low']\ngates = 1\nclients = 1",
        "wrong-kind clients 0 0",
    ),
];

/// The lattice comes after the flows and before the limits.
static LATTICE: [Row; 6] = [
    ("labels = []\nflows = [['low', 'top']]", "lattice no-labels"),
    ("labels = ['Top', 'low', 'low']", "lattice bad-name 0"),
    (
        "labels = ['low', 'low']\nflows = [['up', 'low']]",
        "lattice repeated 1",
    ),
    (
        "labels = ['a', 'b']\nflows = [['a', 'b'], ['b', 'a'], ['a', 'c']]",
        "lattice unknown-label 2",
    ),
    ("labels = ['low', 'low']\nlimits = 1", "lattice repeated 1"),
    ("labels = ['a', 'b']\nclients = 1", "lattice no-join 0 1"),
];

/// Limits.
static LIMITS: [Row; 5] = [
    ("limits = { mid = 1 }", "unknown-label limits 1 0"),
    (
        "[limits.low]\nqueue = 0\n[limits.mid]",
        "out-of-range limits 1 4",
    ),
    ("[limits.low]\ngate = 1\nqueue = 0", "extra limits 1 0"),
    (
        "[limits.low]\nbytes = 'many'\nfacets = -1\nqueue = 0\npages = -1\nfuel = 0",
        "out-of-range limits 1 2",
    ),
    (
        "[limits.low]\nqueue = 0\npages = 'few'",
        "wrong-kind limits 1 3",
    ),
];

/// Functions.
static FUNCTIONS: [Row; 3] = [
    ("functions = { Hello = '' }", "bad-name functions 1 0"),
    (
        "functions = { a = 1, 'b c' = 'e' }",
        "wrong-kind functions 1 0",
    ),
    (
        "functions = { a = '', b = 1 }",
        "out-of-range functions 1 0",
    ),
];

/// A channel or a client.
static CHANNELS_AND_CLIENTS: [Row; 8] = [
    ("channels = { Mail = 1 }", "bad-name channels 1 0"),
    ("channels = { a = 1, 'b c' = 1 }", "wrong-kind channels 1 0"),
    ("[channels.mail]\ngate = 1", "extra channels 1 0"),
    ("[channels.mail]\nlabel = 1", "wrong-kind channels 1 1"),
    (
        "[channels.mail]\nlabel = 'mid'\nfunction = 'help'",
        "unknown-label channels 1 1",
    ),
    ("clients = { Ann = 1 }", "bad-name clients 1 0"),
    (
        "[clients.ann]\ngate = 1\nclearance = 'mid'",
        "extra clients 1 0",
    ),
    (
        "[clients.carol]\nclearance = 'mid'\n[clients.ann]",
        "missing clients 1 1",
    ),
];

/// Gates.
static GATES: [Row; 7] = [
    ("gates = { G = 1 }", "bad-name gates 1 0"),
    ("gates = { a = 1, 'b c' = {} }", "wrong-kind gates 1 0"),
    ("gates = { g = { extra = 1 } }", "extra gates 1 0"),
    ("gates = { g = { target = 'mid' } }", "missing gates 1 1"),
    (
        "gates = { g = { source = 'top', target = 'mid', function = 'mid' } }",
        "unknown-label gates 1 2",
    ),
    (
        "[gates.g]\nsource = 'top'\ntarget = 'low'\nfunction = 'mid'\nfilter = 'mid'",
        "unknown-function gates 1 3",
    ),
    (
        "[gates.g]\nsource = 'top'\ntarget = 'low'\nfunction = 'hello'\ncount = -1",
        "missing gates 1 4",
    ),
];

#[test]
fn the_parts_come_in_their_order(rt: HostRuntime) -> Result<(), Fail> {
    assert!(rt; have_faults(rt.alloc(), "", &PARTS)?);
    Ok(())
}

#[test]
fn the_lattice_comes_after_the_flows_and_before_the_limits(rt: HostRuntime) -> Result<(), Fail> {
    assert!(rt; have_faults(rt.alloc(), "", &LATTICE)?);
    Ok(())
}

#[test]
fn faults_of_the_limits_come_by_row_and_then_by_field(rt: HostRuntime) -> Result<(), Fail> {
    assert!(rt; have_faults(rt.alloc(), TWO, &LIMITS)?);
    Ok(())
}

#[test]
fn a_function_with_a_bad_name_comes_before_its_file(rt: HostRuntime) -> Result<(), Fail> {
    assert!(rt; have_faults(rt.alloc(), "labels = ['low']\n", &FUNCTIONS)?);
    Ok(())
}

#[test]
fn faults_of_a_channel_and_of_a_client_come_in_their_order(rt: HostRuntime) -> Result<(), Fail> {
    assert!(rt; have_faults(rt.alloc(), TWO, &CHANNELS_AND_CLIENTS)?);
    Ok(())
}

#[test]
fn faults_of_a_gate_come_in_their_order(rt: HostRuntime) -> Result<(), Fail> {
    assert!(rt; have_faults(rt.alloc(), TWO, &GATES)?);
    Ok(())
}
