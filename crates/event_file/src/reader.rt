//! The reader of an event file that comes in pieces.

ghost use Rattle.std.specs.Prelude.{◌≡◌, ◌+◌, ◌<◌, ◌≤◌, ◌==◌, if◌then◌else◌, true, ◌^◌, ◌++◌, [], ◌∷◌, List, ℕ, length, take, drop, false, None, Some, Ok, IfSome, OnOk, OnErr, MatchOption, position};
ghost use Rattle.trapeze_io.specs.Answers.{Answers};
ghost use Rattle.event_file.specs.Unread.{fault_of};
ghost use Rattle.event_file.specs.Lines.{lines_of};
ghost use Rattle.event_file.specs.Known.{AreNumbered};
ghost use Rattle.event_file.specs.Heard.{heard_with};
ghost use Rattle.event_file.specs.Reader.{IsOneLine, entries_with, said_by};

use crate::entry::Entry;
use crate::fault::{LineError, LineFault};
use crate::line::{LONGEST_LINE, read_line};
use crate::next::Next;
use crate::words::{Known, Unread};
use label_lattice::Lattice;
use std::alloc::Global;
use std::marker::Model;
use trapeze_io::{Name, NoMemory};

/// A reader of the lines of an event file that is fed in pieces, cut anywhere.
#[derive(Drop)]
pub struct EventReader<'a> {
    known: Known<'a>,
    buffer: Vec<u8>,
    // The bytes before this place of the buffer are used.
    start: usize,
    // So many of the bytes kept are known to be no line feed.
    searched: usize,
    lines: u64,
    fed: u64,
    finished: bool,
    bad: Option<LineError>,
    alloc: Global,
}

impl<'a> Model for EventReader<'a> {
    ghost use Rattle.event_file.specs.Reader.{Reader};

    ghost Value = { Reader };

    ghost use Rattle.event_file.specs.Kept.{reader_of, IsSound};

    ghost view = { reader_of };

    ghost invariant = { IsSound };
}

impl<'a> EventReader<'a> {
    ghost use Rattle.event_file.specs.Calls.{Advances, Completes, Continues, Finishes, GivesWithin, IsDue, Leaves, bad_after, first_said};

    /// A reader of a file whose lines may use these names.
    pub fn new(
        alloc: Global,
        lattice: &'a Lattice,
        clients: &'a [Name],
        functions: &'a [Name],
    ) -> EventReader<'a>
        requires clients { AreNumbered clients.now }
        requires functions { AreNumbered functions.now }
        ensures { result ≡ record {
          known = record { labels = lattice.now.names; clients = clients.now; functions = functions.now };
          kept = [];
          lines = 0;
          fed = 0;
          finished = false;
          bad = None;
        } }
    {
        EventReader {
            known: Known {
                lattice,
                clients,
                functions,
            },
            buffer: Vec::new(alloc),
            start: 0,
            searched: 0,
            lines: 0,
            fed: 0,
            finished: false,
            bad: None,
            alloc,
        }
    }

    /// Appends the piece to the bytes kept. A refusal changes nothing.
    pub fn feed(&mut self, piece: &[u8]) -> Result<(), NoMemory>
        requires feeding { self.old.finished ≡ false }
        requires few { self.old.fed + length piece.now < 2 ^ 62 }
        ensures ok { OnOk result (self.new ≡ record self.old { kept = self.old.kept ++ piece.now; fed = self.old.fed + length piece.now }) }
        ensures entries { OnOk result ((more : List ℕ) → entries_with self.new more ≡ entries_with self.old (piece.now ++ more)) }
        ensures heard { OnOk result ((more : List ℕ) → heard_with self.new more ≡ heard_with self.old (piece.now ++ more)) }
        ensures err { OnErr result (self.new ≡ self.old) }
    {
        if self.start >= self.buffer.len() - self.start {
            self.let_go();
        }
        match self.buffer.extend_from_slice(piece) {
            Ok(()) => {
                self.fed += piece.len() as u64;
                Ok(())
            }
            Err(_) => Err(NoMemory),
        }
    }

    /// How many bytes were fed.
    pub fn fed(&self) -> u64
        ensures fed { result ≡ self.now.fed }
        ensures few { result < 2 ^ 62 }
    {
        self.fed
    }

    /// How many bytes were fed that no entry and no line that says nothing has used. After `NoLine` of `next_line` they
    /// are at most 140,000.
    pub fn held(&self) -> usize
        ensures { result ≡ length self.now.kept }
    {
        self.buffer.len() - self.start
    }

    /// The next entry of the whole lines fed. `NoMemory` leaves its line in place.
    pub fn next_line(&mut self) -> Next
        ensures again { IfSome self.old.bad (λ bad. (result ≡ Next.Bad bad) × (self.new ≡ self.old)) }
        ensures due { self.old.bad ≡ None → IsDue (first_said self.old (lines_of self.old.kept)) result }
        ensures answer { self.old.bad ≡ None → Advances self.old self.new result }
        ensures entries { self.old.bad ≡ None → (more : List ℕ) → Continues entries_with self.old self.new result more }
        ensures heard { self.old.bad ≡ None → (more : List ℕ) → Continues heard_with self.old self.new result more }
        ensures stays { self.new ≡ record self.old { kept = self.new.kept; lines = self.new.lines; bad = bad_after self.old.bad result } }
        ensures leaves { Leaves self.old self.new result }
        ensures within { GivesWithin self.new result }
    {
        if let Some(bad) = self.bad {
            return Next::Bad(bad);
        }
        'lines: while let Some(len) = self.line_end() {
            match self.read_first(len) {
                Ok(None) => self.use_first(len),
                Ok(Some(entry)) => {
                    self.use_first(len);
                    return Next::Entry(entry);
                }
                Err(Unread::Fault(fault)) => return self.stop(fault),
                Err(Unread::NoMemory) => return Next::NoMemory,
            }
        }
        if self.held() > LONGEST_LINE {
            return self.stop(LineFault::LineTooLong);
        }
        Next::NoLine
    }

    /// Ends the feeding, and reads the last line, which has no end. `NoMemory` leaves the line in place.
    pub fn finish(&mut self) -> Next
        requires { self.old.bad ≡ None → IsOneLine self.old.kept }
        ensures again { IfSome self.old.bad (λ bad. (result ≡ Next.Bad bad) × (self.new ≡ record self.old { finished = true })) }
        ensures answer { self.old.bad ≡ None → Finishes self.old self.new result }
        ensures entries { self.old.bad ≡ None → Completes self.old self.new result }
        ensures within { GivesWithin self.new result }
    {
        self.finished = true;
        if let Some(bad) = self.bad {
            return Next::Bad(bad);
        }
        let len = self.held();
        match self.read_first(len) {
            Ok(None) => {
                self.use_last();
                Next::NoLine
            }
            Ok(Some(entry)) => {
                self.use_last();
                Next::Entry(entry)
            }
            Err(Unread::Fault(fault)) => self.stop(fault),
            Err(Unread::NoMemory) => Next::NoMemory,
        }
    }

    /// How long the first of the lines kept is, if it is whole.
    fn line_end(&mut self) -> Option<usize>
        ensures same { self.new ≡ self.old }
        ensures end { MatchOption result (IsOneLine self.old.kept)
            (λ len. (len < length self.old.kept) × (lines_of self.old.kept ≡ take len self.old.kept ∷ lines_of (drop (len + 1) self.old.kept))) }
    {
        let rest = &self.buffer[self.start + self.searched..];
        match end_in(rest) {
            Some(at) => {
                self.searched += at;
                Some(self.searched)
            }
            None => {
                self.searched = self.buffer.len() - self.start;
                None
            }
        }
    }

    /// What so many of the bytes kept say as a line.
    fn read_first(&self, len: usize) -> Result<Option<Entry>, Unread>
        requires { len ≤ length self.now.kept }
        ensures said { Answers fault_of (said_by self.now (take len self.now.kept)) result }
        ensures nothing { said_by self.now (take len self.now.kept) ≡ Ok None → result ≡ Ok None }
    {
        let line = &self.buffer[self.start..self.start + len];
        read_line(self.alloc, &self.known, line)
    }

    /// Uses and counts a line of so many bytes and its end.
    fn use_first(&mut self, len: usize)
        requires { len < length self.old.kept }
        ensures { self.new ≡ record self.old { kept = drop (len + 1) self.old.kept; lines = self.old.lines + 1 } }
    {
        self.start = self.start + len + 1;
        self.searched = 0;
        self.lines += 1;
    }

    /// Uses and counts a last line, if there is one.
    fn use_last(&mut self)
        ensures { self.new ≡ record self.old { kept = []; lines = self.old.lines + (if length self.old.kept == 0 then 0 else 1) } }
    {
        if self.start < self.buffer.len() {
            self.lines += 1;
        }
        self.start = self.buffer.len();
        self.searched = 0;
    }

    /// Answers that the next line is bad, from now on.
    fn stop(&mut self, fault: LineFault) -> Next
        ensures bad { result ≡ Next.Bad (record { line = self.old.lines + 1; fault = fault }) }
        ensures same { self.new ≡ record self.old { bad = Some (record { line = self.old.lines + 1; fault = fault }) } }
    {
        let bad = LineError {
            line: self.lines + 1,
            fault,
        };
        self.bad = Some(bad);
        Next::Bad(bad)
    }

    /// Moves the bytes kept to the front of the buffer.
    fn let_go(&mut self)
        ensures { self.new ≡ self.old }
    {
        let held = self.buffer.len() - self.start;
        self.buffer.copy_within(self.start.., 0);
        self.buffer.truncate(held);
        self.start = 0;
    }
}

/// The place of the first line feed.
fn end_in(bytes: &[u8]) -> Option<usize>
    ensures { result ≡ position (λ byte. byte == 10) bytes.now }
{
    bytes.iter().position(|byte| *byte == b'\n')
}
