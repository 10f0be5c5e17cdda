//! The first fault of a policy, with its place: root, labels, flows, lattice, limits and functions.

use crate::policy::{FOUR, Row, TWO, have_faults, told_fault};
use std::test::Fail;

/// No TOML documents.
static NO_DOCUMENTS: [Row; 4] = [
    ("gate = 1\nlabels =", "toml"),
    ("labels = ['low']\nlabels = ['low']", "toml"),
    (
        "labels = ['low']\n[clients.ann]\nclearance = 'low'\n[clients.ann]\nclearance = 'low'",
        "toml",
    ),
    (
        "labels = ['low']\n[limits.low]\nbytes = 9223372036854775808",
        "toml",
    ),
];

/// Keys that a policy does not have, each with its place among all keys of the root.
static ROOT: [Row; 6] = [
    ("gate = 1\nlabels = ['low']", "extra root 1 0"),
    ("zoo = 1\nlabels = ['low']\nhat = 1", "extra root 1 0"),
    ("labels = ['low']\n[limit.low]", "extra root 2 0"),
    ("labels = ['low']\nLabels = ['low']", "extra root 1 0"),
    ("labels = ['low']\n'' = 1", "extra root 1 0"),
    (
        "zoo = 1\nlabels = ['low']\nflows = []\nlimits = {}\nfunctions = {}\nchannels = {}\nclients = {}\ngates = {}",
        "extra root 8 0",
    ),
];

/// Labels.
static LABELS: [Row; 4] = [
    ("flows = []", "missing labels 0 0"),
    ("labels = 'low'", "wrong-kind labels 0 0"),
    ("labels = ['low', 1, 2]", "wrong-kind labels 2 0"),
    ("[[labels]]\nname = 'low'", "wrong-kind labels 1 0"),
];

/// Flows of the labels low and top.
static FLOWS: [Row; 7] = [
    ("flows = 'low'", "wrong-kind flows 0 0"),
    ("flows = ['low', 'top']", "wrong-kind flows 1 0"),
    ("flows = [['low']]", "wrong-kind flows 1 0"),
    ("flows = [['low', 'top', 'top']]", "wrong-kind flows 1 0"),
    (
        "flows = [['low', 'top'], [1, 'top']]",
        "wrong-kind flows 2 0",
    ),
    (
        "flows = [['low', 'top'], ['low', 1]]",
        "wrong-kind flows 2 0",
    ),
    (
        "flows = [['low', 'top'], ['low', 'top'], 7, [7]]",
        "wrong-kind flows 3 0",
    ),
];

/// Labels and flows that make no lattice.
static LATTICES: [Row; 7] = [
    ("labels = []", "lattice no-labels"),
    ("labels = ['low', 'Top']", "lattice bad-name 1"),
    ("labels = ['low', 'top', 'low']", "lattice repeated 2"),
    (
        "labels = ['low', 'top']\nflows = [['low', 'top'], ['mid', 'top']]",
        "lattice unknown-label 1",
    ),
    (
        "labels = ['a', 'b', 'c']\nflows = [['a', 'b'], ['b', 'c'], ['c', 'b']]",
        "lattice cycle 1 2",
    ),
    (
        "labels = ['z', 'a', 'b']\nflows = [['z', 'a'], ['z', 'b']]",
        "lattice no-join 1 2",
    ),
    (
        "labels = ['a', 'b', 't']\nflows = [['a', 't'], ['b', 't']]",
        "lattice no-meet 0 1",
    ),
];

/// Limits.
static LIMITS: [Row; 6] = [
    ("limits = []", "wrong-kind limits 0 0"),
    (
        "limits = { top = {}, mid = {}, low = {} }",
        "unknown-label limits 2 0",
    ),
    ("limits = { top = 1, low = {} }", "wrong-kind limits 2 0"),
    ("[[limits.low]]\nqueue = 1", "wrong-kind limits 1 0"),
    (
        "[limits.top]\nzoo = 1\nqueue = 1\ngate = 1\n[limits.low]",
        "extra limits 2 0",
    ),
    (
        "[limits.top]\nqueue = 0\n[limits.low]",
        "out-of-range limits 2 4",
    ),
];

/// Limits of one label.
static LIMITS_OF_A_LABEL: [Row; 8] = [
    ("quantum = '1'", "wrong-kind limits 1 1"),
    ("fuel = true", "wrong-kind limits 1 2"),
    ("pages = []", "wrong-kind limits 1 3"),
    ("queue = 1.0", "wrong-kind limits 1 4"),
    ("facets = {}", "wrong-kind limits 1 5"),
    ("bytes = 1979-05-27", "wrong-kind limits 1 6"),
    ("bytes = 9223372036854775807", "out-of-range limits 1 6"),
    ("bytes = -9223372036854775808", "out-of-range limits 1 6"),
];

/// Below the least number of each limit, and above the greatest.
static OUTSIDE: [Row; 12] = [
    ("quantum = 0", "out-of-range limits 1 1"),
    ("quantum = 1000001", "out-of-range limits 1 1"),
    ("fuel = 0", "out-of-range limits 1 2"),
    ("fuel = 1000000001", "out-of-range limits 1 2"),
    ("pages = -1", "out-of-range limits 1 3"),
    ("pages = 65537", "out-of-range limits 1 3"),
    ("queue = 0", "out-of-range limits 1 4"),
    ("queue = 65537", "out-of-range limits 1 4"),
    ("facets = -1", "out-of-range limits 1 5"),
    ("facets = 1000001", "out-of-range limits 1 5"),
    ("bytes = -1", "out-of-range limits 1 6"),
    ("bytes = 1073741825", "out-of-range limits 1 6"),
];

/// Functions.
static FUNCTIONS: [Row; 7] = [
    ("functions = ['echo.wasm']", "wrong-kind functions 0 0"),
    (
        "functions = { 'h\u{e9}llo' = 'echo.wasm' }",
        "bad-name functions 1 0",
    ),
    (
        "functions = { hello = 'a', 'hello you' = 'b' }",
        "bad-name functions 2 0",
    ),
    (
        "functions = { hello = 'a', -x = 'b' }",
        "bad-name functions 1 0",
    ),
    (
        "functions = { twin = [], spin = 'a', look = 'b' }",
        "wrong-kind functions 3 0",
    ),
    (
        "functions.hello.file = 'echo.wasm'",
        "wrong-kind functions 1 0",
    ),
    (
        "functions = { hello = 'a', twin = '', spin = 'b' }",
        "out-of-range functions 3 0",
    ),
];

/// Policies of the four labels with one fault each.
static WHOLE: [Row; 3] = [
    ("gate = 1\n", "extra root 2 0"),
    ("[limits.low]\nqueue = 0\n", "out-of-range limits 1 4"),
    (
        "[clients]\nzed = {}\nann = { clearance = 'low' }\nsam = { clearance = 'top' }\n",
        "missing clients 3 1",
    ),
];

#[test]
fn a_text_that_is_no_document_is_refused(rt: HostRuntime) -> Result<(), Fail> {
    assert!(rt; have_faults(rt.alloc(), "", &NO_DOCUMENTS)?);
    Ok(())
}

#[test]
fn bytes_that_are_no_text_are_refused(rt: HostRuntime) -> Result<(), Fail> {
    let told = told_fault(rt.alloc(), b"gate = 1 # \xff")?;
    assert!(rt; told.as_str() == "toml");
    Ok(())
}

#[test]
fn an_unknown_root_key_stands_at_its_place_among_all_root_keys(
    rt: HostRuntime,
) -> Result<(), Fail> {
    assert!(rt; have_faults(rt.alloc(), "", &ROOT)?);
    Ok(())
}

#[test]
fn faults_of_the_labels(rt: HostRuntime) -> Result<(), Fail> {
    assert!(rt; have_faults(rt.alloc(), "", &LABELS)?);
    Ok(())
}

#[test]
fn faults_of_the_flows(rt: HostRuntime) -> Result<(), Fail> {
    assert!(rt; have_faults(rt.alloc(), "labels = ['low', 'top']\n", &FLOWS)?);
    Ok(())
}

#[test]
fn faults_of_the_lattice_with_their_positions(rt: HostRuntime) -> Result<(), Fail> {
    assert!(rt; have_faults(rt.alloc(), "", &LATTICES)?);
    Ok(())
}

#[test]
fn faults_of_the_limits(rt: HostRuntime) -> Result<(), Fail> {
    assert!(rt; have_faults(rt.alloc(), TWO, &LIMITS)?);
    Ok(())
}

#[test]
fn faults_of_the_limits_of_a_label(rt: HostRuntime) -> Result<(), Fail> {
    assert!(rt;
        have_faults(
            rt.alloc(),
            "labels = ['low']\n[limits.low]\n",
            &LIMITS_OF_A_LABEL
        )?
    );
    Ok(())
}

#[test]
fn a_limit_outside_its_range_is_refused(rt: HostRuntime) -> Result<(), Fail> {
    assert!(rt;
        have_faults(
            rt.alloc(),
            "labels = ['low', 'top']\nflows = [['low', 'top']]\n[limits.top]\n",
            &OUTSIDE
        )?
    );
    Ok(())
}

#[test]
fn faults_of_the_functions(rt: HostRuntime) -> Result<(), Fail> {
    assert!(rt; have_faults(rt.alloc(), "labels = ['low']\n", &FUNCTIONS)?);
    Ok(())
}

#[test]
fn whole_policies_with_one_fault_are_refused(rt: HostRuntime) -> Result<(), Fail> {
    assert!(rt; have_faults(rt.alloc(), FOUR, &WHOLE)?);
    Ok(())
}
