//! Event files of a few lines, whole and cut.

ghost use Rattle.std.specs.Prelude.{◌≡◌, None, Ok, IfOk, IfSome, MatchOption, false, ⊤};
ghost use Rattle.event_file.specs.Known.{AreNumbered};
ghost use Rattle.event_file.specs.Reader.{IsOneLine};

use crate::shown::add_entry;
use event_file::{EventReader, LineError, LineFault, Next};
use label_lattice::Lattice;
use policy_toml::{Policy, read_policy};
use std::alloc::Global;
use std::process::Abort;
use std::test::Fail;
use trapeze_io::Name;

/// The labels low and alice, and one of 64 letters, each flowing to the next.
const LABELS: &str = "labels = ['low', 'alice', '\
    aaaaaaaaaaaaaaaaaaaaaaaaaaaaaaaaaaaaaaaaaaaaaaaaaaaaaaaaaaaaaaaa']
flows = [['low', 'alice'], ['alice', '\
    aaaaaaaaaaaaaaaaaaaaaaaaaaaaaaaaaaaaaaaaaaaaaaaaaaaaaaaaaaaaaaaa']]
";

/// The policy of the three labels.
fn three_labels(alloc: Global) -> Result<Policy, Fail> {
    Ok(read_policy(alloc, LABELS.as_bytes())?)
}

/// The client ann.
fn clients() -> Option<[Name; 1]>
    ensures { IfSome result (λ names. AreNumbered names) }
{
    let name = Name::read(b"ann")?;
    Some([name])
}

/// The function hello.
fn functions() -> Option<[Name; 1]>
    ensures { IfSome result (λ names. AreNumbered names) }
{
    let name = Name::read(b"hello")?;
    Some([name])
}

/// Reads the whole lines fed, and answers whether a bad one was among them.
fn drain(
    alloc: Global,
    reader: &mut EventReader,
    text: &mut String,
) -> Result<Option<LineError>, Fail>
    requires { reader.old.bad ≡ None }
    ensures feeding { reader.new.finished ≡ reader.old.finished }
    ensures done { IfOk result (λ bad. MatchOption bad ((reader.new.bad ≡ None) × IsOneLine reader.new.kept) (λ _. ⊤)) }
{
    'lines: loop {
        match reader.next_line() {
            Next::Entry(entry) => add_entry(alloc, text, &entry)?,
            Next::Bad(bad) => return Ok(Some(bad)),
            Next::NoLine => return Ok(None),
            Next::NoMemory => return Err(Fail::new("no memory")),
        }
    }
}

/// Reads the last line.
fn finish(
    alloc: Global,
    reader: &mut EventReader,
    text: &mut String,
) -> Result<Option<LineError>, Fail>
    requires { reader.old.bad ≡ None → IsOneLine reader.old.kept }
{
    match reader.finish() {
        Next::Entry(entry) => add_entry(alloc, text, &entry)?,
        Next::Bad(bad) => return Ok(Some(bad)),
        Next::NoLine => return Ok(None),
        Next::NoMemory => return Err(Fail::new("no memory")),
    }
    Ok(None)
}

/// The entries of the file, and its bad line, if there is one.
fn script(
    alloc: Global,
    lattice: &Lattice,
    file: &[u8],
    whole: bool,
) -> Result<(String, Option<LineError>), Fail> {
    let (Some(clients), Some(functions)) = (clients(), functions()) else {
        return Err(Fail::new("names"));
    };
    let mut reader = EventReader::new(alloc, lattice, &clients, &functions);
    let mut text = String::new(alloc);
    if file.len() > 1_000_000 {
        return Err(Fail::new("a long file"));
    }
    if whole {
        reader.feed(file)?;
        if let Some(bad) = drain(alloc, &mut reader, &mut text)? {
            return Ok((text, Some(bad)));
        }
    } else {
        'bytes: for byte in file {
            if reader.fed() > 1_000_000 {
                return Err(Fail::new("a long file"));
            }
            reader.feed(&[*byte])?;
            if let Some(bad) = drain(alloc, &mut reader, &mut text)? {
                return Ok((text, Some(bad)));
            }
        }
    }
    let bad = finish(alloc, &mut reader, &mut text)?;
    Ok((text, bad))
}

/// A file, its entries, and the number of its bad line or 0.
const FILES: &[(&[u8], &str, u64)] = &[
    (b"", "", 0),
    (
        b"put low x6b x01\nput alice x6b x02\nput low x61 -\n",
        "put 0 6b 01, put 1 6b 02, put 0 61 -, ",
        0,
    ),
    (b"put low x6b x01", "put 0 6b 01, ", 0),
    (b"turn low\nturn alice 3\n", "turn 0, turns 1 3, ", 0),
    (
        b"turn low 1000000\nturn low 0000001",
        "turns 0 1000000, turns 0 1, ",
        0,
    ),
    (b"ask alice ann hello r1 x6869", "ask 1 0 0 7231 6869, ", 0),
    (
        b"put low x6b x01\nturn low\nput low x6g x01\n",
        "put 0 6b 01, turn 0, ",
        3,
    ),
    (b"# one\n\nput low x x\nask", "put 0  , ", 4),
    (b"put low xAbCd xEF\n", "put 0 abcd ef, ", 0),
    (b"put low x6b x01\r\n", "", 1),
    (b"\r\n", "", 1),
    (b"put low  x6b x01\n", "", 1),
    (b"put low x6b x01 \n", "", 1),
];

/// Whether the file, read so, has these entries and this bad line.
fn is_script(
    alloc: Global,
    lattice: &Lattice,
    file: &[u8],
    whole: bool,
    entries: &str,
    line: u64,
) -> Result<bool, Fail> {
    let (text, bad) = script(alloc, lattice, file, whole)?;
    let number = match bad {
        Some(bad) => bad.line,
        None => 0,
    };
    Ok(text.as_str() == entries && number == line)
}

/// Each file is read so, whole and by single bytes.
fn all_scripts(rt: &impl Abort, alloc: Global, lattice: &Lattice) -> Result<(), Fail> {
    for (file, entries, line) in FILES {
        let whole = is_script(alloc, lattice, file, true, entries, *line)?;
        let cut = is_script(alloc, lattice, file, false, entries, *line)?;
        assert!(rt; whole && cut, "{entries}");
    }
    Ok(())
}

#[test]
fn files_give_their_entries_in_any_cut(rt: HostRuntime) -> Result<(), Fail> {
    let policy = three_labels(rt.alloc())?;
    all_scripts(&rt, rt.alloc(), policy.lattice())
}

/// A line of a front, so many letters, and a back.
fn filled(alloc: Global, front: &[u8], count: usize, back: &[u8]) -> Result<Vec<u8>, Fail> {
    let mut line = Vec::from_slice(alloc, front)?;
    for _ in 0..count {
        line.push(b'a')?;
    }
    line.extend_from_slice(back)?;
    Ok(line)
}

/// The front of a file, so many letters, the back, and the fault of its one line.
const LENGTHS: &[(&[u8], usize, &[u8], Option<LineFault>)] = &[
    (b"#", 139_999, b"\n", None),
    (b"#", 140_000, b"\n", Some(LineFault::LineTooLong)),
    (b"#", 139_999, b"", None),
    (b"#", 140_000, b"", Some(LineFault::LineTooLong)),
    (b"put low x", 139_991, b"\n", Some(LineFault::Count)),
    (b"put low x", 139_992, b"\n", Some(LineFault::LineTooLong)),
    (b"put ", 64, b" x x\n", None),
    (b"put ", 65, b" x x\n", Some(LineFault::UnknownLabel)),
    (b"put low x", 2048, b" -\n", None),
    (b"put low x", 2050, b" -\n", Some(LineFault::TooBig)),
    (b"put low x", 2050, b" 6b\n", Some(LineFault::TooBig)),
    (b"put low x", 2051, b" -\n", Some(LineFault::BadHex)),
    (b"put low x x", 131_072, b"\n", None),
    (b"put low x x", 131_074, b"\n", Some(LineFault::TooBig)),
    (b"put low x x", 131_073, b"\n", Some(LineFault::BadHex)),
    (b"ask low ann hello r1 x", 131_072, b"\n", None),
    (
        b"ask low ann hello r1 x",
        131_074,
        b"\n",
        Some(LineFault::TooBig),
    ),
];

/// A line and its first fault: each fault alone, and then pairs that stand together.
const FAULTS: &[(&[u8], LineFault)] = &[
    (b"pu low x x", LineFault::Word),
    (b"Put low x x", LineFault::Word),
    (b" put low x x", LineFault::Word),
    (b"put", LineFault::Count),
    (b"put low x", LineFault::Count),
    (b"put low x x x", LineFault::Count),
    (b"ask low ann hello r1", LineFault::Count),
    (b"ask low ann hello r1 x x", LineFault::Count),
    (b"turn", LineFault::Count),
    (b"turn low 1 1", LineFault::Count),
    (b"put bob x x", LineFault::UnknownLabel),
    (b"ask bob ann hello r1 x", LineFault::UnknownLabel),
    (b"turn bob", LineFault::UnknownLabel),
    (b"ask low bob hello r1 x", LineFault::UnknownClient),
    (b"ask low hello hello r1 x", LineFault::UnknownClient),
    (b"ask low ann bob r1 x", LineFault::UnknownFunction),
    (b"ask low ann hello - x", LineFault::BadId),
    (b"put low 6b x", LineFault::BadHex),
    (b"put low x6 x", LineFault::BadHex),
    (b"put low x6g x", LineFault::BadHex),
    (b"put low - x", LineFault::BadHex),
    (b"put low x 6b", LineFault::BadHex),
    (b"ask low ann hello r1 -", LineFault::BadHex),
    (b"turn low 0", LineFault::BadNumber),
    (b"turn low 1000001", LineFault::BadNumber),
    (b"turn low 00000001", LineFault::BadNumber),
    (b"turn low +1", LineFault::BadNumber),
    (b"turn low ", LineFault::BadNumber),
    (b"turn low x", LineFault::BadNumber),
    (b"pu low", LineFault::Word),
    (b"put bob x", LineFault::Count),
    (b"ask bob bob hello r1 x", LineFault::UnknownLabel),
    (b"ask low bob bob r1 x", LineFault::UnknownClient),
    (b"ask low ann bob - x", LineFault::UnknownFunction),
    (b"ask low ann hello - 6b", LineFault::BadId),
    (b"put bob 6b x", LineFault::UnknownLabel),
    (b"put low 6b 6b", LineFault::BadHex),
    (b"turn bob 0", LineFault::UnknownLabel),
    (b"turn low 0 0", LineFault::Count),
];

/// Whether the fault of the file's first line is this one.
fn has_fault(
    alloc: Global,
    lattice: &Lattice,
    file: &[u8],
    expected: Option<LineFault>,
) -> Result<bool, Fail> {
    let (_text, bad) = script(alloc, lattice, file, true)?;
    match bad {
        Some(bad) => Ok(bad.line == 1 && Some(bad.fault) == expected),
        None => Ok(expected.is_none()),
    }
}

/// Whether a file of a front, so many letters and a back has this fault.
fn is_so_long(
    alloc: Global,
    lattice: &Lattice,
    front: &[u8],
    count: usize,
    back: &[u8],
    expected: Option<LineFault>,
) -> Result<bool, Fail> {
    let file = filled(alloc, front, count, back)?;
    has_fault(alloc, lattice, file.as_slice(), expected)
}

/// Each file of a length has its fault.
fn all_lengths(rt: &impl Abort, alloc: Global, lattice: &Lattice) -> Result<(), Fail> {
    for (front, count, back, fault) in LENGTHS {
        assert!(rt;
            is_so_long(alloc, lattice, front, *count, back, *fault)?,
            "{count}"
        );
    }
    Ok(())
}

#[test]
fn lines_labels_keys_and_values_have_limits(rt: HostRuntime) -> Result<(), Fail> {
    let policy = three_labels(rt.alloc())?;
    all_lengths(&rt, rt.alloc(), policy.lattice())
}

/// Each line has its first fault.
fn all_faults(rt: &impl Abort, alloc: Global, lattice: &Lattice) -> Result<(), Fail> {
    for (line, fault) in FAULTS {
        assert!(rt; has_fault(alloc, lattice, line, Some(*fault))?);
    }
    Ok(())
}

#[test]
fn each_bad_line_has_its_first_fault(rt: HostRuntime) -> Result<(), Fail> {
    let policy = three_labels(rt.alloc())?;
    all_faults(&rt, rt.alloc(), policy.lattice())
}

/// Whether a bad line is answered again.
fn stays_bad(alloc: Global, lattice: &Lattice) -> Result<bool, Fail> {
    let mut reader = EventReader::new(alloc, lattice, &[], &[]);
    reader.feed(b"# no entry\nput low x6b\nput low x6b -\nput low")?;
    let Next::Bad(first) = reader.next_line() else {
        return Ok(false);
    };
    let Next::Bad(second) = reader.next_line() else {
        return Ok(false);
    };
    Ok(first.line == 2 && second.line == 2)
}

#[test]
fn a_bad_line_is_answered_again(rt: HostRuntime) -> Result<(), Fail> {
    let policy = three_labels(rt.alloc())?;
    let stays = stays_bad(rt.alloc(), policy.lattice())?;
    assert!(rt; stays);
    Ok(())
}

/// Whether there is no line after the last one.
fn ends_once(alloc: Global, lattice: &Lattice) -> Result<bool, Fail> {
    let mut reader = EventReader::new(alloc, lattice, &[], &[]);
    reader.feed(b"put low x6b -")?;
    let fed = reader.fed();
    let Next::NoLine = reader.next_line() else {
        return Ok(false);
    };
    let held = reader.held();
    let Next::Entry(_entry) = reader.finish() else {
        return Ok(false);
    };
    let Next::NoLine = reader.finish() else {
        return Ok(false);
    };
    let Next::NoLine = reader.finish() else {
        return Ok(false);
    };
    Ok(fed == 13 && held == 13)
}

#[test]
fn after_the_end_there_is_no_line(rt: HostRuntime) -> Result<(), Fail> {
    let policy = three_labels(rt.alloc())?;
    let once = ends_once(rt.alloc(), policy.lattice())?;
    assert!(rt; once);
    Ok(())
}
