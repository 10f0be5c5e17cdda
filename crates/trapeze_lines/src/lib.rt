//! Labelled lines: what the host tells of an event, and each line's text, both ways.
#![tactic(auto)]

mod draft;
mod laws;
mod line;
mod lines;
mod outcome;
mod read;
mod words;
mod write;

pub use laws::texts_tell_lines;
pub use line::{Kind, Line};
pub use lines::Lines;
pub use outcome::{Cause, Outcome};
pub use read::{ReadLine, read_text};
pub use write::write_text;
