//! A turn, from its start.

ghost use Rattle.std.specs.Prelude.{◌≡◌, ◌<◌, ◌^◌, Option, Some, length, option_map};
ghost use Rattle.std.specs.Prelude.{slice_get, slice_index, slice_set, IfOk};
ghost use Rattle.std.specs.Option.{ForSome};
ghost use Rattle.label_lattice.specs.Order.{count};
ghost use Rattle.label_queues.specs.Lists.{list_of, with_list};
ghost use Rattle.wasm_semantics.specs.Threads.{Thread};
ghost use Rattle.sandbox.specs.Threads.{thread_of, IsReady};
ghost use Rattle.host_rules.specs.Rules.{limits_at};
ghost use Rattle.host_rules.specs.Turns.{turn as turned};
ghost use Rattle.trapeze_host.specs.Adding.{KeepsLabelled};
ghost use Rattle.trapeze_host.specs.Loans.{rules_in, guest_in, module_in};
ghost use Rattle.trapeze_host.specs.Keeping.{MakesFrom, IsSound, HasSameNumbers, RaisesNumbers};
ghost use Rattle.trapeze_host.specs.Turning.{run_turns, turn_of_front, IsRun, GoesOnWith};

use crate::kept::{Activation, Kept};
use crate::lent::Lent;
use crate::runs::{Ending, Run};
use crate::saying::say;
use facet_list::Facets;
use host_rules::the_running_place_is_not_looked_at;
use label_lattice::Label;
use label_queues::Queues;
use sandbox::{Begun, Sandbox};
use std::alloc::Global;
use std::mem;
use trapeze_io::{Bytes, NoMemory};
use trapeze_lines::{Cause, Kind, Lines};

/// Takes the front of a label's list, which has one, and puts another activation in its place.
pub(crate) fn replace_front(
    queues: &mut Queues<Activation>,
    at: Label,
    activation: Activation,
) -> Activation
    requires label { at.number < length queues.old.limits }
    requires some { 0 < length (list_of queues.old at.number) }
    ensures front { slice_get (list_of queues.old at.number) 0 ≡ Some result }
    ensures after { queues.new ≡
        with_list queues.old at.number (slice_set (list_of queues.old at.number) 0 activation) }
{
    match queues.front(at) {
        Some(front) => mem::replace(front, activation),
        None => unreachable!(),
    }
}

/// The sandbox that an activation goes on with: its own or, in its first turn, that of the starting thread.
fn begin(
    alloc: Global,
    lent: &Lent,
    at: Label,
    function: u32,
    sandbox: Option<Sandbox>,
) -> Result<Begun, NoMemory>
    requires at { at.number < count lent.now.policy.lattice }
    requires function { function < length lent.now.policy.functions }
    requires ready { ForSome sandbox (IsReady (module_in lent.now function)) }
    ensures { IfOk result
        (GoesOnWith (module_in lent.now function) (limits_at (rules_in lent.now) at.number).pages
        (option_map (thread_of (module_in lent.now function)) sandbox)) }
{
    match sandbox {
        Some(sandbox) => Ok(Begun::Ready(sandbox)),
        None => match Sandbox::fresh(alloc, lent.program(function), lent.limits(at).pages) {
            Ok(begun) => Ok(begun),
            Err(_) => Err(NoMemory),
        },
    }
}

impl<F: Facets> Kept<F> {
    /// The stint of a turn, over the units of a turn, and the end of the turn.
    fn run(
        &mut self,
        lent: &Lent,
        run: Run,
        sandbox: Sandbox,
        lines: &mut Lines,
    ) -> Result<(), NoMemory>
        requires sound { IsSound F.limits lent.now self.old }
        requires run { IsRun lent.now self.old.requests run }
        requires some { 0 < length (list_of self.old.queues run.at.number) }
        requires ready { IsReady (module_in lent.now run.function) sandbox }
        ensures moved { (before : Option Thread) →
            MakesFrom F.rows lent.now result self.old self.new lines.old lines.new
            (run_turns lent.now run before sandbox) }
        ensures sound { IsSound F.limits lent.now self.new }
        ensures labelled { KeepsLabelled (count lent.now.policy.lattice) lines.old lines.new }
        ensures numbers { HasSameNumbers self.old self.new }
    {
        let limits = lent.limits(run.at);
        let given = limits.quantum.min(limits.fuel.saturating_sub(run.used));
        match self.stint(lent, &run, sandbox, given, lines) {
            Ok(end) => self.close(lent, run, given, end, lines),
            Err(refused) => Err(refused),
        }
    }

    /// The front activation of a label's list runs, while a husk keeps its place.
    fn run_front(
        &mut self,
        lent: &Lent,
        at: Label,
        number: u64,
        lines: &mut Lines,
    ) -> Result<(), NoMemory>
        requires sound { IsSound F.limits lent.now self.old }
        requires at { at.number < count lent.now.policy.lattice }
        requires some { 0 < length (list_of self.old.queues at.number) }
        ensures moved { MakesFrom F.rows lent.now result self.old self.new lines.old lines.new
            (turn_of_front lent.now at.number number) }
        ensures sound { IsSound F.limits lent.now self.new }
        ensures labelled { KeepsLabelled (count lent.now.policy.lattice) lines.old lines.new }
        ensures numbers { HasSameNumbers self.old self.new }
    {
        the_running_place_is_not_looked_at();
        let husk = Activation {
            function: 0,
            input: Bytes::new(self.alloc),
            serves: None,
            sandbox: None,
            used: 0,
        };
        let front = replace_front(&mut self.queues, at, husk);
        let Activation {
            function,
            input,
            serves,
            sandbox,
            used,
        } = front;
        let run = Run {
            at,
            number,
            function,
            input,
            serves,
            used,
        };
        match begin(self.alloc, lent, at, function, sandbox) {
            Ok(Begun::Ready(sandbox)) => self.run(lent, run, sandbox, lines),
            Ok(Begun::Pages) => self.close(lent, run, 0, Ending::Trapped(Cause::Pages), lines),
            Err(refused) => Err(refused),
        }
    }

    /// A turn of a label.
    pub(crate) fn turn(&mut self, lent: &Lent, at: Label, lines: &mut Lines) -> Result<(), NoMemory>
        requires sound { IsSound F.limits lent.now self.old }
        requires at { at.number < count lent.now.policy.lattice }
        requires few { slice_index self.old.turns.items at.number < 2 ^ 62 }
        ensures moved { MakesFrom F.rows lent.now result self.old self.new lines.old lines.new
            (turned (rules_in lent.now) (guest_in lent.now) at.number) }
        ensures sound { IsSound F.limits lent.now self.new }
        ensures labelled { KeepsLabelled (count lent.now.policy.lattice) lines.old lines.new }
        ensures raised { RaisesNumbers self.old self.new }
    {
        let place = at.number() as usize;
        let number = self.turns[place] + 1;
        self.turns[place] = number;
        if self.queues.len(at) == 0 {
            say(lent, at, Kind::Idle { number }, lines)
        } else {
            self.run_front(lent, at, number, lines)
        }
    }
}
