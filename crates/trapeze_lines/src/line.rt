//! A line and what it says.

use crate::outcome::Outcome;
use label_lattice::Label;
use trapeze_io::{Bytes, Name};

/// A line, with the label that says to whom it flows.
#[derive(Drop)]
pub struct Line {
    pub label: Label,
    pub kind: Kind,
}

/// What a line says. An `id` is `None` for an activation without a request, and a `value` for an absent one.
#[derive(Drop)]
pub enum Kind {
    /// A request was answered; the label is the client's clearance.
    Reply {
        client: Name,
        id: Name,
        bytes: Bytes,
    },
    /// The label's turn of this number went to an activation of this function.
    Turn {
        number: u64,
        function: Name,
        id: Option<Name>,
        outcome: Outcome,
    },
    /// The label's turn of this number found its list empty.
    Idle {
        number: u64,
    },
    /// An activation was given up, as the list of the label arrived at was full.
    Dropped {
        function: Name,
        id: Option<Name>,
    },
    /// A write of the key did not fit the limits of the writer's label.
    Full {
        key: Bytes,
    },
    /// A live facet of the store in the end.
    Facet {
        key: Bytes,
        value: Option<Bytes>,
    },
    /// A write.
    Write {
        key: Bytes,
        value: Option<Bytes>,
    },
    /// A read, and what it gave.
    Read {
        key: Bytes,
        value: Option<Bytes>,
    },
    /// A message was sent into the channel, whatever became of it.
    Send {
        channel: Name,
        bytes: Bytes,
    },
    /// A guest replied, whatever became of it; the label is the replier's.
    Answer {
        client: Name,
        id: Name,
        bytes: Bytes,
    },
    /// An activation arrived, from this label.
    Start {
        from: Label,
        function: Name,
        id: Option<Name>,
    },
}
