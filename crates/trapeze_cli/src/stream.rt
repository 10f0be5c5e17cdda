//! The event file, read in pieces and played as its lines come.

ghost use Rattle.std.specs.Prelude.{◌≡◌, ◌≤◌, ◌<◌, ◌+◌, [], None, false, IfOk, OnOk, IfSome, Ok};
ghost use Rattle.trapeze_io.specs.Causes.{Rose};
ghost use Rattle.trapeze_io.specs.Seen.{OpensNone, Gives};
ghost use Rattle.label_lattice.specs.Order.{count};
ghost use Rattle.event_file.specs.Reader.{entries_with};
ghost use Rattle.wasm_semantics.specs.Threads.{Thread};
ghost use Rattle.host_rules.specs.States.{State, start};
ghost use Rattle.trapeze_host.specs.Standing.{policy_lent, modules_lent, is_spent, played_in, Stands};
ghost use Rattle.trapeze_cli.specs.Played.{AtEnd, end_at, events_of};
ghost use Rattle.trapeze_cli.specs.Runs.{setting_of, IsShownTo};
ghost use Rattle.trapeze_cli.specs.Playing.{AppendsBy, CountsWrites, CanPlay, IsPaced, IsDry, PlaysLines};
ghost use Rattle.trapeze_cli.specs.Playing.{PlaysFile, IsOfPlay, said_of, lines_from, status_of, GivesSome};
ghost use Rattle.trapeze_cli.specs.Whys.{why};

use crate::halt::Halt;
use crate::play::{Page, Scene, play_entry, write_facets};
use crate::status::{Input, Status};
use event_file::{EventReader, LineError, Next};
use facet_list::Facets;
use std::alloc::Global;
use trapeze_host::Host;
use trapeze_io::{Files, Sink};

/// The most bytes of an event file.
const EVENTS_LIMIT: u64 = 67_108_864;

/// The most bytes that one read asks for.
const PIECE: usize = 65_536;

/// Plays the whole lines that a reader keeps, up to the first bad one.
fn play_lines<T: Facets, S: Sink>(
    scene: &Scene,
    reader: &mut EventReader,
    host: &mut Host<T>,
    page: &mut Page,
    out: &mut S,
) -> Result<Option<LineError>, Halt>
    requires good { reader.old.bad ≡ None }
    requires can { CanPlay scene.now.policy.now (policy_lent host.old) (is_spent host.old) }
    requires shown { IsShownTo (count scene.now.policy.now.lattice) scene.now.shown }
    requires paced { IsPaced scene.now.policy.now reader.old (played_in host.old) }
    ensures plays { PlaysLines (setting_of scene.now.policy.now (modules_lent host.old) scene.now.shown)
        (Stands T.rows host.old) (Stands T.rows host.new) reader.old reader.new result (S.written out.old) (S.written out.new) }
    ensures goes_on { OnOk result (CanPlay scene.now.policy.now (policy_lent host.new) (is_spent host.new)) }
    ensures paced { OnOk result (IsPaced scene.now.policy.now reader.new (played_in host.new)) }
    ensures modules { modules_lent host.new ≡ modules_lent host.old }
    ensures counts { CountsWrites result (S.faults out.old) (S.faults out.new) }
{
    'lines: loop {
        match reader.next_line() {
            Next::Entry(entry) => play_entry(scene, entry, host, page, out)?,
            Next::Bad(bad) => return Ok(Some(bad)),
            Next::NoLine => return Ok(None),
            Next::NoMemory => return Err(Halt::NoMemory),
        }
    }
}

/// Plays the last line, which has no end, and writes the lines of the facets, unless the line is bad.
fn play_end<T: Facets, S: Sink>(
    scene: &Scene,
    reader: &mut EventReader,
    host: &mut Host<T>,
    page: &mut Page,
    out: &mut S,
) -> Result<Option<LineError>, Halt>
    requires dry { IsDry reader.old }
    requires can { CanPlay scene.now.policy.now (policy_lent host.old) (is_spent host.old) }
    requires shown { IsShownTo (count scene.now.policy.now.lattice) scene.now.shown }
    requires paced { IsPaced scene.now.policy.now reader.old (played_in host.old) }
    ensures bad { IfOk result (λ bad. (entries_with reader.old []).bad ≡ bad) }
    ensures lines { (s : State Thread) → Stands T.rows host.old s → AppendsBy result
        (said_of (setting_of scene.now.policy.now (modules_lent host.old) scene.now.shown)
        (lines_from (setting_of scene.now.policy.now (modules_lent host.old) scene.now.shown)
        (end_at AtEnd (entries_with reader.old []).bad) s (events_of (entries_with reader.old []).entries)))
        (S.written out.old) (S.written out.new) }
    ensures counts { CountsWrites result (S.faults out.old) (S.faults out.new) }
{
    match reader.finish() {
        Next::Entry(entry) => {
            play_entry(scene, entry, host, page, out)?;
            write_facets(scene, host, page, out)?;
            Ok(None)
        }
        Next::Bad(bad) => Ok(Some(bad)),
        Next::NoLine => {
            write_facets(scene, host, page, out)?;
            Ok(None)
        }
        Next::NoMemory => Err(Halt::NoMemory),
    }
}

/// How many bytes the next read asks for: no more than the limit leaves, and one byte past it.
fn room(fed: u64) -> usize
    ensures some { 0 < result }
    ensures piece { result ≤ PIECE }
    ensures within { fed < EVENTS_LIMIT → fed + result ≤ EVENTS_LIMIT }
    ensures past { EVENTS_LIMIT ≤ fed → result ≡ 1 }
{
    if fed < EVENTS_LIMIT {
        ((EVENTS_LIMIT - fed) as usize).min(PIECE)
    } else {
        1
    }
}

/// How a call ends that plays a file.
fn ending(played: Result<Option<LineError>, Halt>) -> Status
    ensures { result ≡ status_of played }
{
    match played {
        Ok(None) => Status::Done,
        Ok(Some(bad)) => Status::Events(bad),
        Err(Halt::Write) => Status::WriteFault,
        Err(Halt::NoMemory) => Status::NoMemory,
    }
}

/// Reads the open file in pieces, and plays each of its lines as soon as it is whole, on a host that has played nothing.
pub(crate) fn play_stream<F: Files, T: Facets, S: Sink>(
    alloc: Global,
    files: &mut F,
    scene: &Scene,
    host: &mut Host<T>,
    out: &mut S,
) -> Status
    requires begun { IfSome (F.seen files.old).current (λ r. r.given ≡ []) }
    requires can { CanPlay scene.now.policy.now (policy_lent host.old) (is_spent host.old) }
    requires shown { IsShownTo (count scene.now.policy.now.lattice) scene.now.shown }
    requires unplayed { played_in host.old ≡ 0 }
    requires stands { Stands T.rows host.old (start []) }
    ensures answers { IfSome (F.seen files.new).current (λ r.
        PlaysFile (setting_of scene.now.policy.now (modules_lent host.old) scene.now.shown) r result
        (S.written out.old) (S.written out.new)) }
    ensures given { GivesSome (F.seen files.old).current (F.seen files.new).current }
    ensures none { OpensNone (F.seen files.old) (F.seen files.new) }
    ensures read_fault { result ≡ Status.ReadFault Input.Events →
        Rose (F.seen files.old).faults (F.seen files.new).faults }
    ensures write_fault { result ≡ Status.WriteFault → Rose (S.faults out.old) (S.faults out.new) }
    ensures of_play { IsOfPlay result (why result) }
{
    let policy = scene.policy;
    let mut reader = EventReader::new(
        alloc,
        policy.lattice(),
        policy.clients(),
        policy.functions(),
    );
    let mut page = Page::new(alloc);
    let mut buffer = [0; PIECE];
    'pieces: loop {
        let fed = reader.fed();
        let Ok(count) = files.read(&mut buffer[..room(fed)]) else {
            return Status::ReadFault(Input::Events);
        };
        if count == 0 {
            return ending(play_end(scene, &mut reader, host, &mut page, out));
        }
        if fed >= EVENTS_LIMIT {
            return Status::TooLong(Input::Events);
        }
        let Ok(()) = reader.feed(&buffer[..count]) else {
            return Status::NoMemory;
        };
        match play_lines(scene, &mut reader, host, &mut page, out) {
            Ok(None) => {}
            Ok(Some(bad)) => return ending(Ok(Some(bad))),
            Err(halt) => return ending(Err(halt)),
        }
    }
}
