//! What a guest asks for, once its ranges and its name are tested.

use crate::effect::ShimTrap;
use gate_rules::Gate;
use label_lattice::Label;
use trapeze_io::{Bytes, Name};

/// What a guest asks for.
#[derive(Drop)]
pub(crate) enum Wish {
    /// The input, into a range.
    Input {
        at: u32,
        cap: u32,
    },
    /// The value of a key, into a range.
    Read {
        key: Bytes,
        at: u32,
        cap: u32,
    },
    /// A write of a value, or of absent.
    Write {
        key: Bytes,
        value: Option<Bytes>,
    },
    /// A message into a channel.
    Send {
        channel: Name,
        bytes: Bytes,
        to: Option<(Label, u32)>,
    },
    /// Another label.
    Raise {
        label: Label,
    },
    /// A reply.
    Reply {
        bytes: Bytes,
    },
    /// The name of the label, into a range.
    OwnLabel {
        at: u32,
        cap: u32,
    },
    /// Bytes that pass a gate, filtered.
    Release {
        gate: Gate,
        bytes: Bytes,
    },
    /// Nothing: a release that vanishes.
    Nothing,
}

/// Why a guest is granted nothing.
#[derive(Debug, Clone, Copy, PartialEq, Eq, Drop)]
pub(crate) enum Refused {
    /// The call traps.
    Trapped(ShimTrap),
    /// Out of memory.
    NoMemory,
}
