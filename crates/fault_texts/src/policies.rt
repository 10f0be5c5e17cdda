//! The lines of the faults of a policy.

ghost use Rattle.std.specs.Prelude.{◌≡◌};
ghost use Rattle.trapeze_io.specs.Appends.{Says};
ghost use Rattle.fault_texts.specs.PolicyTexts.{policy_text, lattice_text, place_text, position_text, pair_text, part_name};

use itoa::Buffer;
use label_lattice::{Label, LatticeError};
use policy_toml::{Part, Place, PolicyError};
use trapeze_io::{Sink, say_pieces};

/// Writes the line of a policy's fault, as far as the sink takes it. It takes no memory.
pub fn report_policy<E: Sink>(err: &mut E, fault: PolicyError)
    ensures { Says (E.written err.old) (E.written err.new) (E.faults err.old) (E.faults err.new)
        (policy_text fault) }
{
    match fault {
        PolicyError::Toml => say_pieces(err, &[b"policy: toml\n"]),
        PolicyError::Extra(place) => report_place(err, b"extra", place),
        PolicyError::Missing(place) => report_place(err, b"missing", place),
        PolicyError::WrongKind(place) => report_place(err, b"wrong-kind", place),
        PolicyError::Lattice(fault) => report_lattice(err, fault),
        PolicyError::BadName(place) => report_place(err, b"bad-name", place),
        PolicyError::UnknownLabel(place) => report_place(err, b"unknown-label", place),
        PolicyError::UnknownFunction(place) => report_place(err, b"unknown-function", place),
        PolicyError::OutOfRange(place) => report_place(err, b"out-of-range", place),
        PolicyError::NoMemory => say_pieces(err, &[b"out of memory\n"]),
    }
}

fn report_place<E: Sink>(err: &mut E, kind: &[u8], place: Place)
    ensures { Says (E.written err.old) (E.written err.new) (E.faults err.old) (E.faults err.new)
        (place_text kind.now place) }
{
    let mut row_digits = Buffer::new();
    let mut item_digits = Buffer::new();
    let row = row_digits.format(place.row);
    let item = item_digits.format(place.item);
    let part = part_name(&place.part);
    say_pieces(
        err,
        &[
            b"policy: ",
            kind,
            b" ",
            part,
            b" ",
            row.as_bytes(),
            b" ",
            item.as_bytes(),
            b"\n",
        ],
    );
}

fn report_lattice<E: Sink>(err: &mut E, fault: LatticeError)
    ensures { Says (E.written err.old) (E.written err.new) (E.faults err.old) (E.faults err.new)
        (lattice_text fault) }
{
    match fault {
        LatticeError::NoLabels => say_pieces(err, &[b"policy: lattice no-labels\n"]),
        LatticeError::TooMany => say_pieces(err, &[b"policy: lattice too-many\n"]),
        LatticeError::BadName(position) => report_position(err, b"bad-name", position),
        LatticeError::Repeated(position) => report_position(err, b"repeated", position),
        LatticeError::UnknownLabel(position) => report_position(err, b"unknown-label", position),
        LatticeError::Cycle(a, b) => report_labels(err, b"cycle", a, b),
        LatticeError::NoJoin(a, b) => report_labels(err, b"no-join", a, b),
        LatticeError::NoMeet(a, b) => report_labels(err, b"no-meet", a, b),
        LatticeError::NoMemory => say_pieces(err, &[b"out of memory\n"]),
    }
}

fn report_position<E: Sink>(err: &mut E, kind: &[u8], position: u64)
    ensures { Says (E.written err.old) (E.written err.new) (E.faults err.old) (E.faults err.new)
        (position_text kind.now position) }
{
    let mut digits = Buffer::new();
    let number = digits.format(position);
    say_pieces(
        err,
        &[b"policy: lattice ", kind, b" ", number.as_bytes(), b"\n"],
    );
}

fn report_labels<E: Sink>(err: &mut E, kind: &[u8], a: Label, b: Label)
    ensures { Says (E.written err.old) (E.written err.new) (E.faults err.old) (E.faults err.new)
        (pair_text kind.now a b) }
{
    let mut first_digits = Buffer::new();
    let mut second_digits = Buffer::new();
    let first = first_digits.format(a.number());
    let second = second_digits.format(b.number());
    say_pieces(
        err,
        &[
            b"policy: lattice ",
            kind,
            b" ",
            first.as_bytes(),
            b" ",
            second.as_bytes(),
            b"\n",
        ],
    );
}

fn part_name(part: &Part) -> &[u8]
    ensures { result.now ≡ part_name part.now }
{
    match part {
        Part::Root => b"root",
        Part::Labels => b"labels",
        Part::Flows => b"flows",
        Part::Limits => b"limits",
        Part::Functions => b"functions",
        Part::Channels => b"channels",
        Part::Clients => b"clients",
        Part::Gates => b"gates",
    }
}
