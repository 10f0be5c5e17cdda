//! Events, played one at a time on a host, each with its lines written before the next.

ghost use Rattle.std.specs.Prelude.{◌≡◌, ◌≤◌, ◌<◌, ◌+◌, ◌^◌, ◌++◌, ◌∷◌, [], All, OnOk, Ok, Err};
ghost use Rattle.std.specs.Prelude.{filter, length, replicate};
ghost use Rattle.label_lattice.specs.Order.{count};
ghost use Rattle.label_lattice.specs.Reach.{flows};
ghost use Rattle.event_file.specs.Script.{IsFit, IsWithin};
ghost use Rattle.trapeze_lines.specs.Lines.{IsLabelled};
ghost use Rattle.trapeze_lines.specs.Texts.{text};
ghost use Rattle.wasm_semantics.specs.Threads.{Thread};
ghost use Rattle.host_rules.specs.States.{State};
ghost use Rattle.host_rules.specs.Stores.{facet_lines};
ghost use Rattle.trapeze_host.specs.Standing.{policy_lent, modules_lent, is_spent, played_in, known_in, Stands};
ghost use Rattle.trapeze_cli.specs.Played.{entry_events};
ghost use Rattle.trapeze_cli.specs.Runs.{setting_of, IsShownTo};
ghost use Rattle.trapeze_cli.specs.Shows.{shows};
ghost use Rattle.trapeze_cli.specs.Playing.{AppendsBy, CountsWrites, CanPlay, PlaysOn, most_turns, said_of};

use crate::halt::Halt;
use crate::shown::Shown;
use event_file::{Entry, Event};
use facet_list::Facets;
use policy_toml::Policy;
use std::alloc::Global;
use std::mem;
use trapeze_host::Host;
use trapeze_io::{Bytes, NoMemory, Sink, write_whole};
use trapeze_lines::{Line, Lines, write_text};

/// The policy under which events are played, and which lines are shown.
#[derive(Clone, Copy, Drop)]
pub(crate) struct Scene<'a> {
    pub(crate) policy: &'a Policy,
    pub(crate) shown: Shown,
}

/// Where the text of the lines of one event is made, one event after the other.
#[derive(Drop)]
pub(crate) struct Page {
    text: Bytes,
    alloc: Global,
}

impl Page {
    /// A page without a text.
    pub(crate) fn new(alloc: Global) -> Page {
        Page {
            text: Bytes::new(alloc),
            alloc,
        }
    }

    /// Lets the text go, and keeps its place for another.
    fn clear(&mut self)
        ensures { self.new.text ≡ [] }
    {
        let mut bytes = mem::replace(&mut self.text, Bytes::new(self.alloc)).into_vec();
        bytes.clear();
        self.text = Bytes::from_vec(bytes);
    }
}

/// Adds the texts of the lines that are shown.
fn tell(alloc: Global, scene: &Scene, lines: &[Line], said: &mut Bytes) -> Result<(), NoMemory>
    requires shown { IsShownTo (count scene.now.policy.now.lattice) scene.now.shown }
    requires labelled { All (IsLabelled (count scene.now.policy.now.lattice)) lines.now }
    ensures { OnOk result (said.new ≡ said.old ++ text scene.now.policy.now.lattice.names
        (filter (shows (flows scene.now.policy.now.lattice) scene.now.shown) lines.now)) }
{
    let lattice = scene.policy.lattice();
    'lines: for line in lines {
        if scene.shown.shows(lattice, line) {
            write_text(alloc, line, lattice, said)?;
        }
    }
    Ok(())
}

/// Writes the texts of the lines that are shown.
fn write_lines<S: Sink>(
    scene: &Scene,
    lines: &[Line],
    page: &mut Page,
    out: &mut S,
) -> Result<(), Halt>
    requires shown { IsShownTo (count scene.now.policy.now.lattice) scene.now.shown }
    requires labelled { All (IsLabelled (count scene.now.policy.now.lattice)) lines.now }
    ensures lines { AppendsBy result (said_of (setting_of scene.now.policy.now [] scene.now.shown) lines.now)
        (S.written out.old) (S.written out.new) }
    ensures counts { CountsWrites result (S.faults out.old) (S.faults out.new) }
{
    page.clear();
    tell(page.alloc, scene, lines, &mut page.text)?;
    write_whole(out, page.text.as_slice())?;
    Ok(())
}

/// Plays one event, and writes its lines.
fn play_event<T: Facets, S: Sink>(
    scene: &Scene,
    event: &Event,
    host: &mut Host<T>,
    page: &mut Page,
    out: &mut S,
) -> Result<(), Halt>
    requires can { CanPlay scene.now.policy.now (policy_lent host.old) (is_spent host.old) }
    requires shown { IsShownTo (count scene.now.policy.now.lattice) scene.now.shown }
    requires few { played_in host.old < 2 ^ 62 }
    requires event { IsFit (known_in scene.now.policy.now) event.now }
    ensures plays { PlaysOn (setting_of scene.now.policy.now (modules_lent host.old) scene.now.shown)
        (Stands T.rows host.old) (Stands T.rows host.new) (event.now ∷ []) result
        (S.written out.old) (S.written out.new) }
    ensures goes_on { OnOk result (CanPlay scene.now.policy.now (policy_lent host.new) (is_spent host.new)) }
    ensures counted { OnOk result (played_in host.new ≡ played_in host.old + 1) }
    ensures modules { modules_lent host.new ≡ modules_lent host.old }
    ensures counts { CountsWrites result (S.faults out.old) (S.faults out.new) }
{
    let mut lines = Lines::new(page.alloc);
    host.play(event, &mut lines)?;
    write_lines(scene, lines.as_slice(), page, out)
}

/// Plays an event so many times, and writes its lines each time.
fn play_times<T: Facets, S: Sink>(
    scene: &Scene,
    event: &Event,
    times: u32,
    host: &mut Host<T>,
    page: &mut Page,
    out: &mut S,
) -> Result<(), Halt>
    requires can { CanPlay scene.now.policy.now (policy_lent host.old) (is_spent host.old) }
    requires shown { IsShownTo (count scene.now.policy.now.lattice) scene.now.shown }
    requires few { played_in host.old + times < 2 ^ 62 }
    requires event { IsFit (known_in scene.now.policy.now) event.now }
    ensures plays { PlaysOn (setting_of scene.now.policy.now (modules_lent host.old) scene.now.shown)
        (Stands T.rows host.old) (Stands T.rows host.new) (replicate times event.now) result
        (S.written out.old) (S.written out.new) }
    ensures goes_on { OnOk result (CanPlay scene.now.policy.now (policy_lent host.new) (is_spent host.new)) }
    ensures counted { OnOk result (played_in host.new ≡ played_in host.old + times) }
    ensures modules { modules_lent host.new ≡ modules_lent host.old }
    ensures counts { CountsWrites result (S.faults out.old) (S.faults out.new) }
{
    'turns: for _turn in 0..times {
        play_event(scene, event, host, page, out)?;
    }
    Ok(())
}

/// Plays the events of an entry, and writes the lines of each before the next.
pub(crate) fn play_entry<T: Facets, S: Sink>(
    scene: &Scene,
    entry: Entry,
    host: &mut Host<T>,
    page: &mut Page,
    out: &mut S,
) -> Result<(), Halt>
    requires can { CanPlay scene.now.policy.now (policy_lent host.old) (is_spent host.old) }
    requires shown { IsShownTo (count scene.now.policy.now.lattice) scene.now.shown }
    requires few { played_in host.old + most_turns < 2 ^ 62 }
    requires entry { IsWithin (known_in scene.now.policy.now) entry }
    ensures plays { PlaysOn (setting_of scene.now.policy.now (modules_lent host.old) scene.now.shown)
        (Stands T.rows host.old) (Stands T.rows host.new) (entry_events entry) result
        (S.written out.old) (S.written out.new) }
    ensures goes_on { OnOk result (CanPlay scene.now.policy.now (policy_lent host.new) (is_spent host.new)) }
    ensures counted { OnOk result (played_in host.new ≤ played_in host.old + most_turns) }
    ensures modules { modules_lent host.new ≡ modules_lent host.old }
    ensures counts { CountsWrites result (S.faults out.old) (S.faults out.new) }
{
    match entry {
        Entry::One(event) => play_event(scene, &event, host, page, out),
        Entry::Turns { label, count } => {
            play_times(scene, &Event::Turn { label }, count, host, page, out)
        }
    }
}

/// Writes the lines of the facets in the end.
pub(crate) fn write_facets<T: Facets, S: Sink>(
    scene: &Scene,
    host: &Host<T>,
    page: &mut Page,
    out: &mut S,
) -> Result<(), Halt>
    requires can { CanPlay scene.now.policy.now (policy_lent host.now) (is_spent host.now) }
    requires shown { IsShownTo (count scene.now.policy.now.lattice) scene.now.shown }
    ensures lines { (s : State Thread) → Stands T.rows host.now s →
        AppendsBy result
        (said_of (setting_of scene.now.policy.now (modules_lent host.now) scene.now.shown) (facet_lines s.store))
        (S.written out.old) (S.written out.new) }
    ensures counts { CountsWrites result (S.faults out.old) (S.faults out.new) }
{
    let mut lines = Lines::new(page.alloc);
    host.facet_lines(&mut lines)?;
    write_lines(scene, lines.as_slice(), page, out)
}
