//! The error line of each status, where it names no file and no function.

use crate::report::report;
use crate::status::{ModuleFault, Status};
use event_file::{LineError, LineFault};
use label_lattice::{Label, LatticeError};
use policy_toml::{Part, Place, PolicyError};
use std::alloc::Global;
use std::process::Abort;
use trapeze_io::MemSink;
use wasm_ast::{FloatPlace, SegmentPlace};
use wasm_decode::DecodeError;
use wasm_validate::Invalid;

/// The line of a status, made without words and without a policy, is this one.
fn has_line(rt: &impl Abort, alloc: Global, status: Status, line: &str) {
    let mut err = MemSink::new(alloc);
    report(&mut err, status, None, None);
    assert!(rt; err.written() == line.as_bytes(), "{line}");
}

#[test]
fn each_status_has_its_line(rt: HostRuntime) {
    for (status, line) in [
        (Status::Done, ""),
        (
            Status::Usage,
            "usage: trapeze run POLICY EVENTS | trace POLICY EVENTS | view POLICY EVENTS LABEL | check POLICY | exercise N\n",
        ),
        (Status::WriteFault, "cannot write output\n"),
        (Status::NoMemory, "out of memory\n"),
        (Status::Policy(PolicyError::Toml), "policy: toml\n"),
    ] {
        has_line(&rt, rt.alloc(), status, line);
    }
}

#[test]
fn each_fault_of_a_policy_has_its_kind_and_place(rt: HostRuntime) {
    let place = Place {
        part: Part::Limits,
        row: 12,
        item: 3,
    };
    for (fault, line) in [
        (PolicyError::Extra(place), "policy: extra limits 12 3\n"),
        (PolicyError::Missing(place), "policy: missing limits 12 3\n"),
        (
            PolicyError::WrongKind(place),
            "policy: wrong-kind limits 12 3\n",
        ),
        (
            PolicyError::BadName(place),
            "policy: bad-name limits 12 3\n",
        ),
        (
            PolicyError::UnknownLabel(place),
            "policy: unknown-label limits 12 3\n",
        ),
        (
            PolicyError::UnknownFunction(place),
            "policy: unknown-function limits 12 3\n",
        ),
        (
            PolicyError::OutOfRange(place),
            "policy: out-of-range limits 12 3\n",
        ),
    ] {
        has_line(&rt, rt.alloc(), Status::Policy(fault), line);
    }
}

#[test]
fn each_part_of_a_policy_has_its_name(rt: HostRuntime) {
    for (part, line) in [
        (Part::Root, "policy: missing root 0 0\n"),
        (Part::Labels, "policy: missing labels 0 0\n"),
        (Part::Flows, "policy: missing flows 0 0\n"),
        (Part::Limits, "policy: missing limits 0 0\n"),
        (Part::Functions, "policy: missing functions 0 0\n"),
        (Part::Channels, "policy: missing channels 0 0\n"),
        (Part::Clients, "policy: missing clients 0 0\n"),
        (Part::Gates, "policy: missing gates 0 0\n"),
    ] {
        let place = Place {
            part,
            row: 0,
            item: 0,
        };
        let status = Status::Policy(PolicyError::Missing(place));
        has_line(&rt, rt.alloc(), status, line);
    }
}

#[test]
fn each_fault_of_a_lattice_has_its_kind_and_numbers(rt: HostRuntime) {
    let a = Label::numbered(3);
    let b = Label::numbered(10);
    for (fault, line) in [
        (LatticeError::NoLabels, "policy: lattice no-labels\n"),
        (LatticeError::TooMany, "policy: lattice too-many\n"),
        (LatticeError::BadName(7), "policy: lattice bad-name 7\n"),
        (LatticeError::Repeated(8), "policy: lattice repeated 8\n"),
        (
            LatticeError::UnknownLabel(9),
            "policy: lattice unknown-label 9\n",
        ),
        (LatticeError::Cycle(a, b), "policy: lattice cycle 3 10\n"),
        (LatticeError::NoJoin(a, b), "policy: lattice no-join 3 10\n"),
        (LatticeError::NoMeet(a, b), "policy: lattice no-meet 3 10\n"),
    ] {
        let status = Status::Policy(PolicyError::Lattice(fault));
        has_line(&rt, rt.alloc(), status, line);
    }
}

#[test]
fn each_fault_of_an_event_has_its_kind_and_line(rt: HostRuntime) {
    for (fault, line) in [
        (LineFault::LineTooLong, "events line 20: line-too-long\n"),
        (LineFault::Word, "events line 20: word\n"),
        (LineFault::Count, "events line 20: count\n"),
        (LineFault::UnknownLabel, "events line 20: unknown-label\n"),
        (LineFault::UnknownClient, "events line 20: unknown-client\n"),
        (
            LineFault::UnknownFunction,
            "events line 20: unknown-function\n",
        ),
        (LineFault::BadId, "events line 20: bad-id\n"),
        (LineFault::BadHex, "events line 20: bad-hex\n"),
        (LineFault::TooBig, "events line 20: too-big\n"),
        (LineFault::BadNumber, "events line 20: bad-number\n"),
    ] {
        let status = Status::Events(LineError { line: 20, fault });
        has_line(&rt, rt.alloc(), status, line);
    }
}

#[test]
fn each_fault_of_the_bytes_of_a_module_has_its_number(rt: HostRuntime) {
    for (fault, line) in [
        (DecodeError::Malformed(82), "module : malformed 82\n"),
        (DecodeError::TooDeep(1061), "module : too-deep 1061\n"),
        (
            DecodeError::TooManyLocals(0),
            "module : too-many-locals 0\n",
        ),
    ] {
        let fault = ModuleFault::Decode(fault);
        let status = Status::Module { function: 0, fault };
        has_line(&rt, rt.alloc(), status, line);
    }
}

#[test]
fn each_fault_of_a_module_has_its_number(rt: HostRuntime) {
    for (fault, line) in [
        (
            Invalid::Float(FloatPlace::Types(1)),
            "module : float types 1\n",
        ),
        (
            Invalid::Float(FloatPlace::Globals(2)),
            "module : float globals 2\n",
        ),
        (
            Invalid::Float(FloatPlace::Bodies(3)),
            "module : float body 3\n",
        ),
        (
            Invalid::Float(FloatPlace::Elements(4)),
            "module : float elements 4\n",
        ),
        (
            Invalid::Float(FloatPlace::Data(5)),
            "module : float data 5\n",
        ),
        (Invalid::Import(6), "module : import 6\n"),
        (Invalid::Structure(10), "module : structure 10\n"),
        (Invalid::NoHandle, "module : no-handle\n"),
        (
            Invalid::Segment(SegmentPlace::Element(7)),
            "module : segment element 7\n",
        ),
        (
            Invalid::Segment(SegmentPlace::Data(8)),
            "module : segment data 8\n",
        ),
        (Invalid::IllTyped(9), "module : ill-typed 9\n"),
    ] {
        let fault = ModuleFault::Invalid(fault);
        let status = Status::Module { function: 0, fault };
        has_line(&rt, rt.alloc(), status, line);
    }
}
