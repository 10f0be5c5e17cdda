//! The texts of lines, both ways.

use crate::labels::{four_labels, lines_of};
use label_lattice::Lattice;
use std::alloc::Global;
use std::process::Abort;
use std::test::Fail;
use trapeze_io::Bytes;
use trapeze_lines::{ReadLine, read_text, texts_tell_lines, write_text};

/// A line of each kind, and of each form of an outcome, an id and a value.
const TEXTS: &[&str] = &[
    "reply low carol r1 x6869",
    "turn low 1 hello r1 ended",
    "turn alice 3 spin r1 trapped fuel",
    "turn alice 1 look r1 trapped type",
    "turn low 1 store - waits",
    "turn low 18446744073709551615 lift r1 raised",
    "idle bob 3",
    "drop top hello r1",
    "full low x6c",
    "facet low x61 -",
    "facet alice x6b x0a",
    "write alice x6b x0a",
    "read alice x6b -",
    "send low mail x",
    "answer low carol r1 x6869",
    "start low alice store -",
    // A start from another label, and an outcome without an id.
    "start top low hello r1",
    "turn top 1 hello - trapped pages",
];

/// Texts that are no line's, each for a fault of its own.
const NO_LINES: &[&str] = &[
    "",
    "idle",
    "idle bo",
    "idle bob 03",
    "idle bob +3",
    "idle bob 18446744073709551616",
    "idle  bob 3",
    "idle bob 3 ",
    "idle bob 3\n",
    "idle nobody 3",
    "Idle bob 3",
    "reply low - r1 x",
    "reply low carol - x",
    "reply low carol r1 -",
    "reply low carol r1 x0",
    "reply low carol r1 x0A",
    "reply low carol r1 x0g",
    "reply low carol r1 X0a",
    "turn low 1 hello r1",
    "turn low 1 hello r1 ended now",
    "turn low 1 hello r1 trapped",
    "turn low 1 hello r1 trapped ended",
    "full low -",
    "start low nowhere hello r1",
];

/// Whether the text is read as a line whose text, behind what was written before, is the same.
fn is_read(alloc: Global, lattice: &Lattice, text: &str) -> Result<bool, Fail> {
    match read_text(alloc, lattice, text.as_bytes()) {
        ReadLine::Line(line) => {
            let mut out = Bytes::copy(alloc, b"> ")?;
            write_text(alloc, &line, lattice, &mut out)?;
            let mut expected = Bytes::copy(alloc, b"> ")?;
            expected.append(text.as_bytes())?;
            expected.append(b"\n")?;
            Ok(out.as_slice() == expected.as_slice())
        }
        ReadLine::NotALine => Ok(false),
        ReadLine::NoMemory => Err("out of memory")?,
    }
}

/// Each text is read so.
fn all_read(
    rt: &impl Abort,
    alloc: Global,
    lattice: &Lattice,
    texts: &[&str],
    read: bool,
) -> Result<(), Fail> {
    for text in texts {
        assert!(rt; is_read(alloc, lattice, text)? == read, "{text}");
    }
    Ok(())
}

#[test]
fn texts_both_ways(rt: HostRuntime) -> Result<(), Fail> {
    texts_tell_lines();
    let policy = four_labels(rt.alloc())?;
    all_read(&rt, rt.alloc(), policy.lattice(), TEXTS, true)
}

#[test]
fn texts_of_no_line(rt: HostRuntime) -> Result<(), Fail> {
    let policy = four_labels(rt.alloc())?;
    all_read(&rt, rt.alloc(), policy.lattice(), NO_LINES, false)
}

/// Whether a line of a value of so many bytes is read.
fn value_is_read(alloc: Global, lattice: &Lattice, many: u32) -> Result<bool, Fail> {
    let mut text = String::from_str(alloc, "facet low x x")?;
    for _ in 0..many {
        text.push_str("0a")?;
    }
    is_read(alloc, lattice, text.as_str())
}

#[test]
fn a_value_has_at_most_65536_bytes(rt: HostRuntime) -> Result<(), Fail> {
    let policy = four_labels(rt.alloc())?;
    let longest = value_is_read(rt.alloc(), policy.lattice(), 65_536)?;
    let longer = value_is_read(rt.alloc(), policy.lattice(), 65_537)?;
    assert!(rt; longest && !longer);
    Ok(())
}

/// How many lines there are in the list of these texts.
fn many_lines(alloc: Global, lattice: &Lattice, texts: &[&str]) -> Result<usize, Fail> {
    let lines = lines_of(alloc, lattice, texts)?;
    Ok(lines.as_slice().len())
}

#[test]
fn a_list_of_lines_is_kept(rt: HostRuntime) -> Result<(), Fail> {
    let texts = ["start top low hello r1", "turn top 1 hello - trapped pages"];
    let policy = four_labels(rt.alloc())?;
    let many = many_lines(rt.alloc(), policy.lattice(), &texts)?;
    assert_eq!(rt; many, 2);
    Ok(())
}
