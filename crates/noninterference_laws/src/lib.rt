//! What an observer sees of lines: the call that picks them out, and the laws that join it to noninterference.
#![tactic(auto)]

mod copies;
mod laws;
mod view;

pub use laws::{
    a_run_shows_its_view, a_view_is_seen_whole, lines_are_seen_piece_by_piece,
    printed_or_seen_first, runs_that_look_alike_show_the_same,
};
pub use view::view_of;
