//! How a turn ends.

ghost use Rattle.std.specs.Prelude.{◌≡◌, ◌<◌, ◌+◌, ◌^◌, ℕ, Option, length};
ghost use Rattle.label_lattice.specs.Order.{count};
ghost use Rattle.label_queues.specs.Lists.{list_of};
ghost use Rattle.wasm_semantics.specs.Threads.{Thread};
ghost use Rattle.sandbox.specs.Threads.{IsReady};
ghost use Rattle.trapeze_host.specs.Adding.{KeepsLabelled};
ghost use Rattle.trapeze_host.specs.Loans.{module_in};
ghost use Rattle.trapeze_host.specs.Keeping.{MakesFrom, IsSound, HasSameNumbers};
ghost use Rattle.trapeze_host.specs.Turning.{run_ends, run_waits, run_closes, IsRun, IsFitEnd};

use crate::fronts::replace_front;
use crate::kept::{Activation, Kept, id_of};
use crate::lent::Lent;
use crate::runs::{Ending, Run};
use crate::saying::say;
use facet_list::Facets;
use label_lattice::Label;
use sandbox::Sandbox;
use trapeze_io::NoMemory;
use trapeze_lines::{Cause, Kind, Lines, Outcome};

impl<F: Facets> Kept<F> {
    /// The activation leaves its list, and its turn is told.
    fn finish(
        &mut self,
        lent: &Lent,
        run: &Run,
        outcome: Outcome,
        lines: &mut Lines,
    ) -> Result<(), NoMemory>
        requires sound { IsSound F.limits lent.now self.old }
        requires run { IsRun lent.now self.old.requests run.now }
        ensures moved { (before : Option Thread) →
            MakesFrom F.rows lent.now result self.old self.new lines.old lines.new
            (run_ends lent.now run.now before outcome) }
        ensures sound { IsSound F.limits lent.now self.new }
        ensures labelled { KeepsLabelled (count lent.now.policy.lattice) lines.old lines.new }
        ensures numbers { HasSameNumbers self.old self.new }
        ensures requests { self.new.requests ≡ self.old.requests }
    {
        let _ = self.queues.leave(run.at);
        let kind = Kind::Turn {
            number: run.number,
            function: lent.function_name(run.function),
            id: id_of(run.serves),
            outcome,
        };
        say(lent, run.at, kind, lines)
    }

    /// The activation takes its place in its list again and goes to the back, and its turn is told.
    fn wait(
        &mut self,
        lent: &Lent,
        run: Run,
        given: u32,
        sandbox: Sandbox,
        lines: &mut Lines,
    ) -> Result<(), NoMemory>
        requires sound { IsSound F.limits lent.now self.old }
        requires run { IsRun lent.now self.old.requests run }
        requires some { 0 < length (list_of self.old.queues run.at.number) }
        requires sum { run.used + given < 2 ^ 32 }
        requires ready { IsReady (module_in lent.now run.function) sandbox }
        ensures moved { (before : Option Thread) →
            MakesFrom F.rows lent.now result self.old self.new lines.old lines.new
            (run_waits lent.now run before given sandbox) }
        ensures sound { IsSound F.limits lent.now self.new }
        ensures labelled { KeepsLabelled (count lent.now.policy.lattice) lines.old lines.new }
        ensures numbers { HasSameNumbers self.old self.new }
    {
        let at = run.at;
        let kind = Kind::Turn {
            number: run.number,
            function: lent.function_name(run.function),
            id: id_of(run.serves),
            outcome: Outcome::Waits,
        };
        let activation = Activation {
            function: run.function,
            input: run.input,
            serves: run.serves,
            sandbox: Some(sandbox),
            used: run.used + given,
        };
        let _ = replace_front(&mut self.queues, at, activation);
        self.queues.rotate(at);
        say(lent, at, kind, lines)
    }

    /// The activation leaves its list and, after the line of its turn, arrives at another label.
    fn raise(
        &mut self,
        lent: &Lent,
        run: Run,
        sandbox: Sandbox,
        label: Label,
        lines: &mut Lines,
    ) -> Result<(), NoMemory>
        requires sound { IsSound F.limits lent.now self.old }
        requires run { IsRun lent.now self.old.requests run }
        requires label { label.number < count lent.now.policy.lattice }
        requires ready { IsReady (module_in lent.now run.function) sandbox }
        ensures moved { (before : Option Thread) (given : ℕ) →
            MakesFrom F.rows lent.now result self.old self.new lines.old lines.new
            (run_closes lent.now run before given (Ending.Raised sandbox label)) }
        ensures sound { IsSound F.limits lent.now self.new }
        ensures labelled { KeepsLabelled (count lent.now.policy.lattice) lines.old lines.new }
        ensures numbers { HasSameNumbers self.old self.new }
    {
        let Ok(()) = self.finish(lent, &run, Outcome::Raised, lines) else {
            return Err(NoMemory);
        };
        let at = run.at;
        let activation = Activation {
            function: run.function,
            input: run.input,
            serves: run.serves,
            sandbox: Some(sandbox),
            used: 0,
        };
        self.arrive(lent, label, at, activation, lines)
    }

    /// The end of a turn in which so many units were given. Where they are used, the activation has used all its fuel
    /// and is stopped, or it waits.
    pub(crate) fn close(
        &mut self,
        lent: &Lent,
        run: Run,
        given: u32,
        end: Ending,
        lines: &mut Lines,
    ) -> Result<(), NoMemory>
        requires sound { IsSound F.limits lent.now self.old }
        requires run { IsRun lent.now self.old.requests run }
        requires some { 0 < length (list_of self.old.queues run.at.number) }
        requires sum { run.used + given < 2 ^ 32 }
        requires end { IsFitEnd (module_in lent.now run.function) (count lent.now.policy.lattice) end }
        ensures moved { (before : Option Thread) →
            MakesFrom F.rows lent.now result self.old self.new lines.old lines.new
            (run_closes lent.now run before given end) }
        ensures sound { IsSound F.limits lent.now self.new }
        ensures labelled { KeepsLabelled (count lent.now.policy.lattice) lines.old lines.new }
        ensures numbers { HasSameNumbers self.old self.new }
    {
        match end {
            Ending::Ended => self.finish(lent, &run, Outcome::Ended, lines),
            Ending::Trapped(cause) => self.finish(lent, &run, Outcome::Trapped(cause), lines),
            Ending::Raised(sandbox, label) => self.raise(lent, run, sandbox, label, lines),
            Ending::Spent(sandbox) => {
                if run.used + given == lent.limits(run.at).fuel {
                    self.finish(lent, &run, Outcome::Trapped(Cause::Fuel), lines)
                } else {
                    self.wait(lent, run, given, sandbox, lines)
                }
            }
        }
    }
}
