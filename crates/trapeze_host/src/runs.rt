//! An activation in its turn.

use crate::kept::Serving;
use label_lattice::Label;
use sandbox::Sandbox;
use trapeze_io::Bytes;
use trapeze_lines::Cause;

/// An activation in a turn of its label, without its sandbox.
#[derive(Drop)]
pub(crate) struct Run {
    pub(crate) at: Label,
    /// The number of the turn.
    pub(crate) number: u64,
    pub(crate) function: u32,
    pub(crate) input: Bytes,
    pub(crate) serves: Option<Serving>,
    pub(crate) used: u32,
}

/// How a stint ended.
#[derive(Drop)]
pub(crate) enum Ending {
    Ended,
    Trapped(Cause),
    /// It goes on at another label.
    Raised(Sandbox, Label),
    /// The units that it was given are used.
    Spent(Sandbox),
}

/// What comes of a host call in a stint.
#[derive(Drop)]
pub(crate) enum Reached {
    Goes(Sandbox),
    Ends(Ending),
}
