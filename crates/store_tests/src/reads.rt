//! What is read of a key at a label.

use crate::play::Deed::{Clear, Get, Put};
use crate::play::{AMPLE, Facet, Step, plays};
use std::test::Fail;

/// The latest facet that flows to the label is read, and of another key none.
static BY_LABEL: [Step; 9] = [
    (3, b"k", Get, b"-"),
    (0, b"k", Put(b"\x01"), b"done"),
    (1, b"k", Put(b"\x02"), b"done"),
    (0, b"k", Get, b"\x01"),
    (2, b"k", Get, b"\x01"),
    (1, b"k", Get, b"\x02"),
    (3, b"k", Get, b"\x02"),
    (3, b"kk", Get, b"-"),
    (3, b"", Get, b"-"),
];

static TWO_FACETS: [Facet; 2] = [(b"k", 0, Some(b"\x01")), (b"k", 1, Some(b"\x02"))];

#[test]
fn the_latest_facet_that_flows_to_the_label_is_read(rt: HostRuntime) -> Result<(), Fail> {
    assert!(rt; plays(rt.alloc(), AMPLE, &BY_LABEL, &TWO_FACETS)?);
    Ok(())
}

/// A later facet of a lower label is read in place of a higher label's.
static BY_TIME: [Step; 8] = [
    (0, b"k", Get, b"-"),
    (0, b"k", Put(b"\x01"), b"done"),
    (3, b"k", Put(b"\x02"), b"done"),
    (1, b"k", Put(b"\x03"), b"done"),
    (3, b"k", Get, b"\x03"),
    (1, b"k", Get, b"\x03"),
    (2, b"k", Get, b"\x01"),
    (0, b"k", Get, b"\x01"),
];

static THREE_FACETS: [Facet; 3] = [
    (b"k", 0, Some(b"\x01")),
    (b"k", 1, Some(b"\x03")),
    (b"k", 3, Some(b"\x02")),
];

#[test]
fn a_later_facet_of_a_lower_label_is_read(rt: HostRuntime) -> Result<(), Fail> {
    assert!(rt; plays(rt.alloc(), AMPLE, &BY_TIME, &THREE_FACETS)?);
    Ok(())
}

/// A write at low after one at alice is the latest for alice too.
static AGAIN: [Step; 6] = [
    (0, b"k", Put(b"\x01"), b"done"),
    (1, b"k", Put(b"\x02"), b"done"),
    (3, b"k", Get, b"\x02"),
    (0, b"k", Put(b"\x03"), b"done"),
    (1, b"k", Get, b"\x03"),
    (1, b"", Get, b"-"),
];

static AGAIN_FACETS: [Facet; 2] = [(b"k", 0, Some(b"\x03")), (b"k", 1, Some(b"\x02"))];

#[test]
fn the_latest_write_is_read(rt: HostRuntime) -> Result<(), Fail> {
    assert!(rt; plays(rt.alloc(), AMPLE, &AGAIN, &AGAIN_FACETS)?);
    Ok(())
}

static HIDDEN: [Step; 6] = [
    (0, b"k", Put(b"\x01"), b"done"),
    (1, b"k", Clear, b"done"),
    (1, b"k", Get, b"-"),
    (3, b"k", Get, b"-"),
    (2, b"k", Get, b"\x01"),
    (0, b"k", Get, b"\x01"),
];

static HIDDEN_FACETS: [Facet; 2] = [(b"k", 0, Some(b"\x01")), (b"k", 1, None)];

#[test]
fn an_absent_facet_hides_the_facets_before_it(rt: HostRuntime) -> Result<(), Fail> {
    assert!(rt; plays(rt.alloc(), AMPLE, &HIDDEN, &HIDDEN_FACETS)?);
    Ok(())
}
