//! Laws of what an observer sees, each the contract of a call that does nothing.

ghost use Rattle.noninterference_laws.specs.Runs.{ShowTheirViews, ShowTheirVisibleEvents};
ghost use Rattle.noninterference_laws.specs.Runs.{ShowTheSame, ShowTheSameAlone};
ghost use Rattle.noninterference_laws.specs.Observers.{IsSeenAgain, SeesOfTheOther, GoesByPieces, IsPrintedOrSeenFirst};

/// Noninterference of lines: whatever the events, the modules and the store at first, what an observer sees of the lines of a run is
/// what he sees of those that his view gives from the writes that he sees. His view is the events that flow to him and, in place
/// of each other one, its releases that do. Without gates it is the events that flow to him.
pub fn a_run_shows_its_view()
    ensures gated { ShowTheirViews }
    ensures alone { ShowTheirVisibleEvents }
{}

/// Two runs show an observer the same lines where he sees the same writes of their stores at first and has the same view of their
/// events. Without gates the events that flow to him are enough.
pub fn runs_that_look_alike_show_the_same()
    ensures gated { ShowTheSame }
    ensures alone { ShowTheSameAlone }
{}

/// Of the lines that an observer sees he sees all. A label that flows to him sees of them what it sees of all lines, and nothing of
/// what it sees is hidden from him.
pub fn a_view_is_seen_whole()
    ensures again { IsSeenAgain }
    ensures lesser { SeesOfTheOther }
{}

/// What is seen of lines that follow one another is what is seen of the first ones, and then of the others.
pub fn lines_are_seen_piece_by_piece()
    ensures { GoesByPieces }
{}

/// What an observer sees of the lines that a run prints is what a run prints of those that he sees.
pub fn printed_or_seen_first()
    ensures { IsPrintedOrSeenFirst }
{}
