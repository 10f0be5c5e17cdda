//! What comes of a host call.

use gate_rules::Gate;
use label_lattice::Label;
use sandbox::Sandbox;
use trapeze_io::{Bytes, Name};

/// What a host call does besides its answer. Where it writes, the store has changed already.
#[derive(Drop)]
pub enum Effect {
    /// The value, or absent, was written under the key.
    Wrote {
        key: Bytes,
        value: Option<Bytes>,
    },
    /// A write of the key did not fit.
    Full {
        key: Bytes,
    },
    /// The key was read, and this is its value, or absent.
    Read {
        key: Bytes,
        value: Option<Bytes>,
    },
    /// A message went into the channel: to a function at a label, or it vanished.
    Sent {
        channel: Name,
        bytes: Bytes,
        to: Option<(Label, u32)>,
    },
    /// The guest replied.
    Answered {
        bytes: Bytes,
    },
    /// The bytes passed the gate, filtered. A release that vanishes has no effect.
    Released {
        gate: Gate,
        bytes: Bytes,
    },
}

/// Why a host call trapped.
#[derive(Debug, Clone, Copy, PartialEq, Eq, Drop)]
pub enum ShimTrap {
    /// A range outside the memory.
    Memory,
    /// A range that is too long.
    Size,
    /// A name that no channel, label or gate has.
    Unknown,
}

/// What comes of a host call.
#[derive(Drop)]
pub enum Performed {
    /// The guest goes on, with its answer.
    Resume(Sandbox, Option<Effect>),
    /// The guest goes on at another label.
    Raise(Sandbox, Label),
    /// The call trapped, and nothing besides.
    Trapped(ShimTrap),
}
