//! The top call.

ghost use Rattle.std.specs.Prelude.{◌≡◌, ◌+◌, ◌⊎◌, ◌↔◌, ◌++◌, ◌∷◌, [], length, map, string_bytes};
ghost use Rattle.std.specs.Prelude.{option_map, Some, None, IfSome, Ok, Err};
ghost use Rattle.trapeze_io.specs.Causes.{Rose};
ghost use Rattle.trapeze_io.specs.Seen.{Seen, OpensOne};
ghost use Rattle.policy_toml.specs.Parts.{IsPolicy};
ghost use Rattle.label_lattice.specs.Order.{count};
ghost use Rattle.event_file.specs.declared.fault.LineError.{LineError};
ghost use Rattle.trapeze_cli.specs.Command.{IsTask, IsTaskUnder, check_text, events_limit};
ghost use Rattle.trapeze_cli.specs.Ends.{IsFileOf, SaysText};
ghost use Rattle.trapeze_cli.specs.Forms.{OnFiles, command_of, form_of, policy_name, sources_of};
ghost use Rattle.trapeze_cli.specs.Opens.{Opened, OpensTo, FailsToRead, IsReached, IsReachedUnder};
ghost use Rattle.trapeze_cli.specs.Playing.{PlaysFile, IsOfPlay};
ghost use Rattle.trapeze_cli.specs.Promises.{IsPrivateIn, OfTask, IsClean, IsStopped, IsGiven, ReadsEvents};
ghost use Rattle.trapeze_cli.specs.Promises.{EndsExercise, IsRefusedCommand, TellsMemory};
ghost use Rattle.trapeze_cli.specs.Runs.{setting_of, IsShownTo};
ghost use Rattle.trapeze_cli.specs.Said.{said};
ghost use Rattle.trapeze_io.specs.Appends.{Says};
ghost use Rattle.trapeze_cli.specs.Statuses.{WithNames, error_text};
ghost use Rattle.trapeze_cli.specs.Steps.{CallEnds, FaultsRose};
ghost use Rattle.trapeze_cli.specs.Whys.{Finished, IsAnswered, Writes, IfReadFailed, given_of, why};

use crate::exercise::exercise;
use crate::forms::{Command, Form, command_of};
use crate::inputs::{read_modules, read_rules, shown_by};
use crate::play::Scene;
use crate::report::report;
use crate::status::{Input, Status};
use crate::stream::play_stream;
use facet_index::FacetIndex;
use itoa::Buffer;
use policy_toml::Policy;
use std::alloc::Global;
use trapeze_host::Host;
use trapeze_io::{Files, Sink, write_pieces};
use wasm_validate::ValidModule;

/// Carries out the words of a call. `run`, `trace` and `view` play the events of a file under a policy, up to its first bad
/// line or its end, and write the lines that they show to `out`, those of each event before the next is played. `check`
/// reads a policy and its modules, and writes how many there are of each thing. `exercise` plays events that are made from a
/// number, and writes how many lines of each kind there are. Each status but `Done` writes its one line to
/// `err`, whose faults change no status.
pub fn trapeze<F: Files, S: Sink, E: Sink>(
    alloc: Global,
    words: &[String],
    files: &mut F,
    out: &mut S,
    err: &mut E,
) -> Status
    // What was written is the text of lines of which each label sees what its view makes.
    ensures private { why result ≡ Finished → IfSome (F.seen files.old).held (λ held.
        OfTask (IsTask (command_of (map string_bytes words.now))) held
        (λ task. IsPrivateIn held task result (S.written out.old) (S.written out.new))) }
    // By the reason of the status: it is the one that the words and the files say, and what was written.
    ensures answered { IsAnswered (IsTask (command_of (map string_bytes words.now))) (F.seen files.old).held
        (why result) result }
    ensures written { Writes (IsTask (command_of (map string_bytes words.now))) (F.seen files.old).held
        (given_of (F.seen files.new).current) (why result) (S.written out.old) (S.written out.new) }
    ensures usage { command_of (map string_bytes words.now) ≡ None → result ≡ Status.Usage }
    ensures refused { result ≡ Status.Usage → IsRefusedCommand (command_of (map string_bytes words.now)) }
    // An exercise is done, or the output failed, or the call is out of memory.
    ensures exercised { EndsExercise (command_of (map string_bytes words.now)) result }
    // At each status these files were opened and no others, each once. A file of events that was played to its end was read
    // to it, one that is too long to one byte past its limit, and one with a bad line no further than the piece in which that
    // line ends.
    ensures opened { Opened (form_of (map string_bytes words.now)) result (F.seen files.old) (F.seen files.new) }
    ensures read { result ≡ Status.Done →
        ReadsEvents (form_of (map string_bytes words.now)) (F.seen files.old).held (F.seen files.new).current }
    ensures past { result ≡ Status.TooLong Input.Events →
        IfSome (F.seen files.new).current (λ r. length r.given ≡ events_limit + 1) }
    ensures stopped { (bad : LineError) → result ≡ Status.Events bad → IfSome (F.seen files.old).held (λ held.
        OfTask (IsTask (command_of (map string_bytes words.now))) held (IsStopped (F.seen files.new).current bad)) }
    // A read or a write that failed is counted, and all before it was accepted; of the events too, as far as they were
    // given.
    ensures read_fault { IfReadFailed (why result) (λ input.
        FailsToRead (form_of (map string_bytes words.now)) input (F.seen files.old) (F.seen files.new)) }
    ensures reached { IfReadFailed (why result) (λ input. IfSome (F.seen files.old).held (λ held.
        IsReached (form_of (map string_bytes words.now)) held input)) }
    ensures clean { result ≡ Status.ReadFault Input.Events → IfSome (F.seen files.old).held (λ held.
        OfTask (IsTask (command_of (map string_bytes words.now))) held (IsClean (given_of (F.seen files.new).current))) }
    ensures write_fault { result ≡ Status.WriteFault → Rose (S.faults out.old) (S.faults out.new) }
    // With no fault counted, the answer is the one that the words and the files say, or out of memory.
    ensures complete { ¬ Rose (F.seen files.old).faults (F.seen files.new).faults →
        ¬ Rose (S.faults out.old) (S.faults out.new) →
        (result ≡ Status.NoMemory) ⊎ IfSome (F.seen files.old).held (λ held.
        IsGiven (IsTask (command_of (map string_bytes words.now))) held result (S.written out.old) (S.written out.new)) }
    ensures memory { TellsMemory result }
    ensures said { WithNames (form_of (map string_bytes words.now)) (F.seen files.old).held result (λ names.
        Says (E.written err.old) (E.written err.new) (E.faults err.old) (E.faults err.new)
        (error_text (form_of (map string_bytes words.now)) names result)) }
{
    let Some(command) = command_of(words) else {
        report(err, Status::Usage, None, None);
        return Status::Usage;
    };
    match command {
        Command::Exercise(number) => {
            let status = exercise(alloc, number, out);
            report(err, status, None, None);
            status
        }
        Command::OnFiles(form) => match read_rules(alloc, files, form.policy()) {
            Ok(policy) => {
                let status = under_policy(alloc, files, &form, &policy, out);
                report(err, status, Some(&form), Some(&policy));
                status
            }
            Err(status) => {
                report(err, status, Some(&form), None);
                status
            }
        },
    }
}

/// Carries out what is asked of files, under their policy.
fn under_policy<F: Files, S: Sink>(
    alloc: Global,
    files: &mut F,
    form: &Form,
    policy: &Policy,
    out: &mut S,
) -> Status
    ensures outcome { CallEnds (λ h t. IsTaskUnder h (said form.now) policy.now t)
        (F.seen files.old).held (F.seen files.new).current result (S.written out.old) (S.written out.new) }
    ensures opens { (before : Seen) → OpensOne before (policy_name (said form.now)) (F.seen files.old) →
        OpensTo (sources_of (said form.now) policy.now.files) result before (F.seen files.new) }
    ensures counted { IfReadFailed (why result) (λ input. FaultsRose (F.seen files.old) (F.seen files.new)) }
    ensures reached { IfReadFailed (why result) (λ input.
        IfSome (F.seen files.old).held (λ held. IsReachedUnder held (said form.now) policy.now input)) }
    ensures read { result ≡ Status.Done →
        ReadsEvents (Some (said form.now)) (F.seen files.old).held (F.seen files.new).current }
    ensures past { result ≡ Status.TooLong Input.Events →
        IfSome (F.seen files.new).current (λ r. length r.given ≡ events_limit + 1) }
    ensures write_fault { result ≡ Status.WriteFault → Rose (S.faults out.old) (S.faults out.new) }
    ensures refused { result ≡ Status.Usage → IsRefusedCommand (Some (OnFiles (said form.now))) }
    ensures policy { IsPolicy policy.now }
    ensures memory { TellsMemory result }
{
    let lattice = policy.lattice();
    // The labels of a policy are ordered.
    prove!(lattice.count() > 0);
    let shown = match shown_by(form, lattice) {
        Ok(shown) => shown,
        Err(status) => return status,
    };
    let modules = match read_modules(alloc, files, policy) {
        Ok(modules) => modules,
        Err(status) => return status,
    };
    match form {
        Form::Check(_) => say_accepted(policy, out),
        Form::Play(_, _, events) => {
            let scene = Scene { policy, shown };
            play_file(alloc, files, &scene, modules.as_slice(), events, out)
        }
    }
}

/// Says that a policy is accepted, and how many labels, functions, channels and clients it has.
fn say_accepted<S: Sink>(policy: &Policy, out: &mut S) -> Status
    ensures { SaysText (check_text (count policy.now.lattice) (length policy.now.functions)
        (length policy.now.channels) (length policy.now.clients))
        result (S.written out.old) (S.written out.new) (S.faults out.old) (S.faults out.new) }
{
    let mut label_digits = Buffer::new();
    let mut function_digits = Buffer::new();
    let mut channel_digits = Buffer::new();
    let mut client_digits = Buffer::new();
    let labels = label_digits.format(policy.lattice().count());
    let functions = function_digits.format(policy.functions().len());
    let channels = channel_digits.format(policy.channels().count());
    let clients = client_digits.format(policy.clients().len());
    let written = write_pieces(
        out,
        &[
            b"ok: ",
            labels.as_bytes(),
            b" labels, ",
            functions.as_bytes(),
            b" functions, ",
            channels.as_bytes(),
            b" channels, ",
            clients.as_bytes(),
            b" clients\n",
        ],
    );
    match written {
        Ok(()) => Status::Done,
        Err(_) => Status::WriteFault,
    }
}

/// Plays the event file of this name.
fn play_file<F: Files, S: Sink>(
    alloc: Global,
    files: &mut F,
    scene: &Scene,
    modules: &[ValidModule],
    events: &str,
    out: &mut S,
) -> Status
    requires programs { length modules.now ≡ length scene.now.policy.now.functions }
    requires shown { IsShownTo (count scene.now.policy.now.lattice) scene.now.shown }
    ensures answers { IfSome (F.seen files.new).current (λ r.
        PlaysFile (setting_of scene.now.policy.now modules.now scene.now.shown) r result
        (S.written out.old) (S.written out.new)) }
    ensures file { IsFileOf (F.seen files.old).held events.now (F.seen files.new).current result }
    ensures one { OpensOne (F.seen files.old) events.now (F.seen files.new) }
    ensures counted { IfReadFailed (why result) (λ input. FaultsRose (F.seen files.old) (F.seen files.new)) }
    ensures write_fault { result ≡ Status.WriteFault → Rose (S.faults out.old) (S.faults out.new) }
    ensures of_play { IsOfPlay result (why result) }
{
    let Ok(()) = files.open(events) else {
        return Status::ReadFault(Input::Events);
    };
    let Ok(facets) = FacetIndex::new(alloc, scene.policy.limits()) else {
        return Status::NoMemory;
    };
    let Ok(mut host) = Host::start(alloc, scene.policy, modules, facets) else {
        return Status::NoMemory;
    };
    play_stream(alloc, files, scene, &mut host, out)
}
