//! When a label is full.

use crate::play::Deed::{Clear, Get, Put};
use crate::play::{Facet, Room, Step, plays};
use std::test::Fail;

static BY_NUMBER: [Step; 4] = [
    (0, b"a", Put(b"\x01"), b"done"),
    (0, b"b", Put(b"\x02"), b"done"),
    (0, b"", Put(b""), b"full"),
    (0, b"a", Put(b"\x03"), b"done"),
];

static BY_NUMBER_FACETS: [Facet; 2] = [(b"a", 0, Some(b"\x03")), (b"b", 0, Some(b"\x02"))];

#[test]
fn a_label_is_full_by_the_number_of_its_facets(rt: HostRuntime) -> Result<(), Fail> {
    let room: Room = [(2, 100); 4];
    assert!(rt; plays(rt.alloc(), room, &BY_NUMBER, &BY_NUMBER_FACETS)?);
    Ok(())
}

static BY_BYTES: [Step; 5] = [
    (0, b"a", Put(b"\x01\x02"), b"done"),
    (0, b"b", Put(b"\x03\x04"), b"full"),
    (0, b"b", Put(b"\x03"), b"done"),
    (0, b"", Put(b"\x04"), b"full"),
    (0, b"", Put(b""), b"done"),
];

static BY_BYTES_FACETS: [Facet; 3] = [
    (b"", 0, Some(b"")),
    (b"a", 0, Some(b"\x01\x02")),
    (b"b", 0, Some(b"\x03")),
];

#[test]
fn a_label_is_full_by_the_bytes_of_its_facets(rt: HostRuntime) -> Result<(), Fail> {
    let room: Room = [(10, 5); 4];
    assert!(rt; plays(rt.alloc(), room, &BY_BYTES, &BY_BYTES_FACETS)?);
    Ok(())
}

static REPLACED: [Step; 3] = [
    (0, b"k", Put(b"\x01\x02\x03"), b"done"),
    (0, b"k", Put(b"\x04\x05\x06"), b"done"),
    (0, b"k", Put(b"\x07\x08\x09\x0a"), b"full"),
];

static REPLACED_FACETS: [Facet; 1] = [(b"k", 0, Some(b"\x04\x05\x06"))];

#[test]
fn a_replaced_facet_makes_room(rt: HostRuntime) -> Result<(), Fail> {
    let room: Room = [(1, 4); 4];
    assert!(rt; plays(rt.alloc(), room, &REPLACED, &REPLACED_FACETS)?);
    Ok(())
}

static ABSENT: [Step; 7] = [
    (0, b"k", Clear, b"done"),
    (0, b"l", Put(b"\x01"), b"full"),
    (0, b"k", Put(b"\x01"), b"done"),
    (0, b"k", Clear, b"done"),
    (1, b"kk", Clear, b"done"),
    (1, b"ll", Clear, b"full"),
    (1, b"l", Clear, b"done"),
];

static ABSENT_FACETS: [Facet; 3] = [(b"k", 0, None), (b"kk", 1, None), (b"l", 1, None)];

#[test]
fn an_absent_value_counts_as_a_facet(rt: HostRuntime) -> Result<(), Fail> {
    let room: Room = [(1, 100), (10, 3), (0, 0), (0, 0)];
    assert!(rt; plays(rt.alloc(), room, &ABSENT, &ABSENT_FACETS)?);
    Ok(())
}

static OTHERS: [Step; 8] = [
    (0, b"k", Put(b"\x01"), b"done"),
    (1, b"k", Put(b"\x02"), b"done"),
    (2, b"k", Put(b"\x03"), b"done"),
    (2, b"l", Put(b"\x04"), b"done"),
    (3, b"", Clear, b"full"),
    (1, b"l", Put(b"\x05"), b"full"),
    (0, b"l", Put(b"\x06"), b"full"),
    (0, b"k", Put(b"\x07"), b"done"),
];

static OTHERS_FACETS: [Facet; 4] = [
    (b"k", 0, Some(b"\x07")),
    (b"k", 1, Some(b"\x02")),
    (b"k", 2, Some(b"\x03")),
    (b"l", 2, Some(b"\x04")),
];

#[test]
fn the_facets_of_other_labels_take_no_room(rt: HostRuntime) -> Result<(), Fail> {
    let room: Room = [(1, 2), (1, 2), (2, 4), (0, 0)];
    assert!(rt; plays(rt.alloc(), room, &OTHERS, &OTHERS_FACETS)?);
    Ok(())
}

static REFUSED: [Step; 6] = [
    (0, b"k", Put(b"\x01"), b"done"),
    (0, b"l", Put(b"\x02"), b"full"),
    (0, b"l", Get, b"-"),
    (1, b"", Put(b""), b"done"),
    (0, b"k", Put(b"\x03"), b"done"),
    (0, b"k", Get, b"\x03"),
];

static REFUSED_FACETS: [Facet; 2] = [(b"", 1, Some(b"")), (b"k", 0, Some(b"\x03"))];

#[test]
fn a_refused_write_changes_nothing(rt: HostRuntime) -> Result<(), Fail> {
    let room: Room = [(1, 100), (10, 100), (10, 100), (10, 100)];
    assert!(rt; plays(rt.alloc(), room, &REFUSED, &REFUSED_FACETS)?);
    Ok(())
}
