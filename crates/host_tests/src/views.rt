//! Whole views, worked out by hand and told by their texts.

use crate::labels::{four_labels, lines_of};
use label_lattice::{Label, Lattice};
use noninterference_laws::{
    a_run_shows_its_view, a_view_is_seen_whole, lines_are_seen_piece_by_piece,
    printed_or_seen_first, runs_that_look_alike_show_the_same, view_of,
};
use std::alloc::Global;
use std::process::Abort;
use std::test::Fail;
use trapeze_io::Bytes;
use trapeze_lines::{Kind, Line, Lines, write_text};

/// Whether the line is of the lattice, and its text then stands at the end.
fn is_told(alloc: Global, line: &Line, lattice: &Lattice, out: &mut Bytes) -> Result<bool, Fail> {
    if line.label.number() >= lattice.count() {
        return Ok(false);
    }
    if let Kind::Start { from, .. } = &line.kind {
        if from.number() >= lattice.count() {
            return Ok(false);
        }
    }
    write_text(alloc, line, lattice, out)?;
    Ok(true)
}

/// Whether the lines are those of the texts at these places.
fn are_at(
    alloc: Global,
    lattice: &Lattice,
    lines: &Lines,
    texts: &[&str],
    places: &[usize],
) -> Result<bool, Fail> {
    let mut told = Bytes::new(alloc);
    for line in lines.as_slice() {
        if !is_told(alloc, line, lattice, &mut told)? {
            return Ok(false);
        }
    }
    let mut expected = Bytes::new(alloc);
    for place in places {
        let Some(text) = texts.get(*place) else {
            return Ok(false);
        };
        expected.append(text.as_bytes())?;
        expected.append(b"\n")?;
    }
    Ok(told.as_slice() == expected.as_slice())
}

/// Whether what the label with this number sees of the lines of these texts is the lines of those at these places.
fn sees(
    alloc: Global,
    lattice: &Lattice,
    texts: &[&str],
    number: u8,
    places: &[usize],
) -> Result<bool, Fail> {
    if number >= lattice.count() {
        return Ok(false);
    }
    let lines = lines_of(alloc, lattice, texts)?;
    let seen = view_of(alloc, &lines, lattice, Label::numbered(number))?;
    are_at(alloc, lattice, &seen, texts, places)
}

/// A line of each kind or more, at labels below, beside and above each other.
const EACH_KIND: &[&str] = &[
    "idle bob 3",
    "reply low carol r1 x6869",
    "turn alice 1 look r1 trapped type",
    "drop top hello r1",
    "full low x6c",
    "facet bob x61 -",
    "facet alice x6b x0a",
    "write alice x6b x0a",
    "read top x6b -",
    "send low mail x01",
    "answer low carol r1 x6869",
    "start alice low store -",
    "start bob bob store r2",
];

/// What a run prints of a put at low and one at alice under one key, and of three asks for it, by bob, alice and top.
const THREE_ASKS: &[&str] = &[
    "reply top sam r1 x01",
    "turn bob 1 look r1 ended",
    "reply top sam r2 x02",
    "turn alice 1 look r2 ended",
    "reply top sam r3 x02",
    "turn top 1 look r3 ended",
    "facet low x6b x01",
    "facet alice x6b x02",
];

/// The lines, the number of the observer, and the places of those that it sees.
const SEEN: &[(&[&str], u8, &[usize])] = &[
    // An observer sees its own lines and those below, in order.
    (EACH_KIND, 0, &[1, 4, 9, 10]),
    (EACH_KIND, 1, &[1, 2, 4, 6, 7, 9, 10, 11]),
    (EACH_KIND, 2, &[0, 1, 4, 5, 9, 10, 12]),
    (EACH_KIND, 3, &[0, 1, 2, 3, 4, 5, 6, 7, 8, 9, 10, 11, 12]),
    // Alice sees her turn and two facets.
    (THREE_ASKS, 1, &[3, 6, 7]),
    (&[], 1, &[]),
];

/// Each observer sees what stands beside it.
fn all_see(rt: &impl Abort, alloc: Global, lattice: &Lattice) -> Result<(), Fail> {
    for (texts, number, places) in SEEN {
        assert!(rt;
            sees(alloc, lattice, texts, *number, places)?,
            "label {number}"
        );
    }
    Ok(())
}

#[test]
fn an_observer_sees_its_own_lines_and_those_below_in_order(rt: HostRuntime) -> Result<(), Fail> {
    let policy = four_labels(rt.alloc())?;
    all_see(&rt, rt.alloc(), policy.lattice())
}

#[test]
fn the_laws_do_nothing(_rt: HostRuntime) {
    a_run_shows_its_view();
    runs_that_look_alike_show_the_same();
    a_view_is_seen_whole();
    lines_are_seen_piece_by_piece();
    printed_or_seen_first();
}
