//! What the lines of an event file ask for.

use label_lattice::Label;
use trapeze_io::{Bytes, Name};

/// One thing that happens to the host.
#[derive(Drop)]
pub enum Event {
    /// The value becomes the label's own under the key; `None` is an absent value.
    Put {
        label: Label,
        key: Bytes,
        value: Option<Bytes>,
    },
    /// The client asks for the function to run at the label on the body. The two are given by their numbers among the
    /// names that the reader was made with.
    Ask {
        label: Label,
        client: u32,
        function: u32,
        id: Name,
        body: Bytes,
    },
    /// The front activation of the label's list has its turn.
    Turn {
        label: Label,
    },
}

/// What one line asks for.
#[derive(Drop)]
pub enum Entry {
    /// One event.
    One(Event),
    /// So many turns of the label, 1 to 1,000,000.
    Turns { label: Label, count: u32 },
}
