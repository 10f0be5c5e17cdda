//! The exercise.

ghost use Rattle.std.specs.Prelude.{◌≡◌, ◌+◌, ◌<◌, ◌^◌, ℕ, [], ◌∷◌, false, length, IfOk, OnOk};
ghost use Rattle.event_file.specs.Script.{IsFit};
ghost use Rattle.wasm_semantics.specs.Threads.{Thread};
ghost use Rattle.host_rules.specs.Modules.{guest_of};
ghost use Rattle.host_rules.specs.Play.{whole, items_of};
ghost use Rattle.host_rules.specs.Policies.{rules_of};
ghost use Rattle.host_rules.specs.States.{State, start};
ghost use Rattle.host_rules.specs.Stores.{facet_lines};
ghost use Rattle.trapeze_host.specs.Standing.{policy_lent, modules_lent, is_spent, played_in, known_in, Stands};
ghost use Rattle.trapeze_exercise.specs.BuiltIn.{known};
ghost use Rattle.trapeze_exercise.specs.Generated.{all_generated};
ghost use Rattle.trapeze_cli.specs.Counts.{counts_of, counts_text, AtMost};
ghost use Rattle.trapeze_cli.specs.Counted.{Counted, TakesIn};
ghost use Rattle.trapeze_cli.specs.Ends.{SaysOrRefuses, SaysText};
ghost use Rattle.trapeze_cli.specs.Exercise.{exercise_lines, exercise_text};

use crate::counts::Counts;
use crate::status::Status;
use event_file::Event;
use facet_index::FacetIndex;
use facet_list::Facets;
use itoa::Buffer;
use policy_toml::Policy;
use std::alloc::Global;
use trapeze_exercise::{built_in_modules, built_in_policy, generate};
use trapeze_host::Host;
use trapeze_io::{NoMemory, Sink, write_pieces};
use trapeze_lines::Lines;
use wasm_validate::ValidModule;

/// How many events there are.
const EVENTS: u32 = 20_000;

/// Plays the events that are made from a number, under a policy and with modules that are built in, and writes how many
/// there were and how many lines of each kind a run of them prints.
pub(crate) fn exercise<S: Sink>(alloc: Global, number: u64, out: &mut S) -> Status
    ensures { SaysOrRefuses (exercise_text number) result
        (S.written out.old) (S.written out.new) (S.faults out.old) (S.faults out.new) }
{
    match count_exercise(alloc, number) {
        Ok(counts) => say_counts(&counts, out),
        Err(_) => Status::NoMemory,
    }
}

/// Says how many events there were, and how many lines of each kind.
fn say_counts<S: Sink>(counts: &Counts, out: &mut S) -> Status
    ensures { SaysText (counts_text counts.now) result
        (S.written out.old) (S.written out.new) (S.faults out.old) (S.faults out.new) }
{
    let mut reply_digits = Buffer::new();
    let mut turn_digits = Buffer::new();
    let mut idle_digits = Buffer::new();
    let mut drop_digits = Buffer::new();
    let mut full_digits = Buffer::new();
    let mut facet_digits = Buffer::new();
    let replies = reply_digits.format(counts.replies);
    let turns = turn_digits.format(counts.turns);
    let idle = idle_digits.format(counts.idle);
    let dropped = drop_digits.format(counts.dropped);
    let full = full_digits.format(counts.full);
    let facets = facet_digits.format(counts.facets);
    let written = write_pieces(
        out,
        &[
            b"events 20000\nreply ",
            replies.as_bytes(),
            b"\nturn ",
            turns.as_bytes(),
            b"\nidle ",
            idle.as_bytes(),
            b"\ndrop ",
            dropped.as_bytes(),
            b"\nfull ",
            full.as_bytes(),
            b"\nfacet ",
            facets.as_bytes(),
            b"\n",
        ],
    );
    match written {
        Ok(()) => Status::Done,
        Err(_) => Status::WriteFault,
    }
}

/// How many lines of each kind a run of the exercise prints.
fn count_exercise(alloc: Global, number: u64) -> Result<Counts, NoMemory>
    ensures { IfOk result (λ counts. counts ≡ counts_of (exercise_lines number)) }
{
    let policy = built_in_policy(alloc)?;
    let modules = built_in_modules(alloc)?;
    count_under(alloc, number, &policy, modules.as_slice())
}

/// How many lines of each kind the events and the facets in the end have under a policy.
fn count_under(
    alloc: Global,
    number: u64,
    policy: &Policy,
    modules: &[ValidModule],
) -> Result<Counts, NoMemory>
    requires programs { length modules.now ≡ length policy.now.functions }
    requires known { known_in policy.now ≡ known }
    ensures { IfOk result (λ counts. counts ≡ counts_of
        (whole (rules_of policy.now) (guest_of modules.now) (start []) (items_of (all_generated number)))) }
{
    let facets = FacetIndex::new(alloc, policy.limits())?;
    let mut host = Host::start(alloc, policy, modules, facets)?;
    let mut counts = Counts::none();
    count_events(alloc, number, &mut host, &mut counts)?;
    count_facets(alloc, &host, &mut counts)?;
    Ok(counts)
}

/// Plays the events one after the other, and counts the lines of each before the next.
fn count_events<T: Facets>(
    alloc: Global,
    number: u64,
    host: &mut Host<T>,
    counts: &mut Counts,
) -> Result<(), NoMemory>
    requires unspent { is_spent host.old ≡ false }
    requires unplayed { played_in host.old ≡ 0 }
    requires known { known_in (policy_lent host.old) ≡ known }
    requires most { AtMost 0 counts.old }
    ensures counted { OnOk result (Counted (rules_of (policy_lent host.old)) (guest_of (modules_lent host.old))
        (Stands T.rows host.old) (Stands T.rows host.new) (all_generated number) counts.old counts.new) }
    ensures unspent { OnOk result (is_spent host.new ≡ false) }
    ensures most { OnOk result (AtMost (2 ^ 80) counts.new) }
{
    'events: for i in 0..EVENTS {
        let event = generate(alloc, number, i)?;
        count_event(alloc, &event, host, counts)?;
    }
    Ok(())
}

/// Plays one event, and counts its lines.
fn count_event<T: Facets>(
    alloc: Global,
    event: &Event,
    host: &mut Host<T>,
    counts: &mut Counts,
) -> Result<(), NoMemory>
    requires unspent { is_spent host.old ≡ false }
    requires few { played_in host.old < 2 ^ 62 }
    requires event { IsFit (known_in (policy_lent host.old)) event.now }
    requires most { AtMost (2 ^ 80) counts.old }
    ensures counted { OnOk result (Counted (rules_of (policy_lent host.old)) (guest_of (modules_lent host.old))
        (Stands T.rows host.old) (Stands T.rows host.new) (event.now ∷ []) counts.old counts.new) }
    ensures unspent { OnOk result (is_spent host.new ≡ false) }
    ensures played { OnOk result (played_in host.new ≡ played_in host.old + 1) }
    ensures lent { (policy_lent host.new ≡ policy_lent host.old) × (modules_lent host.new ≡ modules_lent host.old) }
    ensures most { OnOk result ((most : ℕ) → AtMost most counts.old → AtMost (most + 2 ^ 64) counts.new) }
{
    let mut lines = Lines::new(alloc);
    host.play(event, &mut lines)?;
    counts.count(lines.as_slice());
    Ok(())
}

/// Counts the lines of the facets in the end.
fn count_facets<T: Facets>(
    alloc: Global,
    host: &Host<T>,
    counts: &mut Counts,
) -> Result<(), NoMemory>
    requires unspent { is_spent host.now ≡ false }
    requires most { AtMost (2 ^ 80) counts.old }
    ensures { OnOk result ((s : State Thread) → Stands T.rows host.now s →
        TakesIn (facet_lines s.store) counts.old counts.new) }
{
    let mut lines = Lines::new(alloc);
    host.facet_lines(&mut lines)?;
    counts.count(lines.as_slice());
    Ok(())
}
