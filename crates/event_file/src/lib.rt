//! The event file, read in pieces: its lines, and the entry or the fault of each.
//!
//! Lines end with a line feed, and the last one may lack it. An empty line and a line that begins with `#` say
//! nothing. `put LABEL KEY VALUE` puts the bytes VALUE under the bytes KEY at the label LABEL; the VALUE `-` is an
//! absent one. `ask LABEL CLIENT FUNCTION ID BYTES` asks for the function at the label on the bytes, for the client
//! under the id. `turn LABEL` is one turn of the label, and `turn LABEL N` so many. Bytes are `x` and pairs of
//! hexadecimal digits of either case.
#![tactic(auto)]

mod entry;
mod fault;
mod line;
mod next;
mod reader;
mod words;

pub use entry::{Entry, Event};
pub use fault::{LineError, LineFault};
pub use next::Next;
pub use reader::EventReader;
