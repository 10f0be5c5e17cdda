//! A stint: the front activation of a label's list runs for some units.

ghost use Rattle.std.specs.Prelude.{Option, IfOk};
ghost use Rattle.label_lattice.specs.Order.{count};
ghost use Rattle.wasm_semantics.specs.Threads.{Thread};
ghost use Rattle.sandbox.specs.Threads.{IsReady, IsWaiting};
ghost use Rattle.host_rules.specs.States.{State};
ghost use Rattle.host_rules.specs.Turns.{Stint};
ghost use Rattle.trapeze_host.specs.Adding.{KeepsLabelled};
ghost use Rattle.trapeze_host.specs.Loans.{module_in};
ghost use Rattle.trapeze_host.specs.Keeping.{Keeps, IsSound, HasSameNumbers, KeepsMembers};
ghost use Rattle.trapeze_host.specs.Turning.{run_calls, run_stint, IsRun, LeadsOn, FinishesStint};
ghost use Rattle.trapeze_host.specs.Turning.{IsFitEnd, IsFitReached};

use crate::causes::{cause_of_call, cause_of_unit};
use crate::kept::Kept;
use crate::lent::Lent;
use crate::runs::{Ending, Reached, Run};
use facet_list::Facets;
use host_rules::stints_go_by_runs;
use sandbox::{Going, Sandbox, Suspended, Went};
use shim_calls::{Performed, perform};
use trapeze_io::NoMemory;
use trapeze_lines::Lines;
use wasm_semantics::units_are_counted;

impl<F: Facets> Kept<F> {
    /// Carries out the host call that a run waits for.
    fn call(
        &mut self,
        lent: &Lent,
        run: &Run,
        suspended: Suspended,
        lines: &mut Lines,
    ) -> Result<Reached, NoMemory>
        requires sound { IsSound F.limits lent.now self.old }
        requires run { IsRun lent.now self.old.requests run.now }
        requires waits { IsWaiting (module_in lent.now run.now.function) suspended }
        ensures reached { (before : Option Thread) (rest : Thread → State Thread → Stint Thread) (s : State Thread) →
            Keeps F.rows lent.now self.old s → LeadsOn F.rows lent.now (module_in lent.now run.now.function) rest
            (run_calls lent.now run.now before suspended rest s) self.new lines.old lines.new result }
        ensures fit { IfOk result
            (IsFitReached (module_in lent.now run.now.function) (count lent.now.policy.lattice)) }
        ensures sound { IsSound F.limits lent.now self.new }
        ensures labelled { KeepsLabelled (count lent.now.policy.lattice) lines.old lines.new }
        ensures numbers { HasSameNumbers self.old self.new }
        ensures members { KeepsMembers self.old self.new }
    {
        let alloc = self.alloc;
        let input = run.input.as_slice();
        let Ok(done) = perform(
            alloc,
            suspended,
            run.at,
            input,
            lent.policy(),
            &mut self.facets,
        ) else {
            return Err(NoMemory);
        };
        match done {
            Performed::Resume(next, effect) => match self.follow(lent, run, effect, lines) {
                Ok(()) => Ok(Reached::Goes(next)),
                Err(refused) => Err(refused),
            },
            Performed::Raise(next, label) => Ok(Reached::Ends(Ending::Raised(next, label))),
            Performed::Trapped(trap) => Ok(Reached::Ends(Ending::Trapped(cause_of_call(trap)))),
        }
    }

    /// At most so many units of a run, with its host calls.
    pub(crate) fn stint(
        &mut self,
        lent: &Lent,
        run: &Run,
        sandbox: Sandbox,
        given: u32,
        lines: &mut Lines,
    ) -> Result<Ending, NoMemory>
        requires sound { IsSound F.limits lent.now self.old }
        requires run { IsRun lent.now self.old.requests run.now }
        requires ready { IsReady (module_in lent.now run.now.function) sandbox }
        ensures finished { (before : Option Thread) (s : State Thread) →
            Keeps F.rows lent.now self.old s → FinishesStint F.rows lent.now (module_in lent.now run.now.function)
            (run_stint lent.now run.now before given sandbox s) self.new lines.old lines.new result }
        ensures fit { IfOk result
            (IsFitEnd (module_in lent.now run.now.function) (count lent.now.policy.lattice)) }
        ensures sound { IsSound F.limits lent.now self.new }
        ensures labelled { KeepsLabelled (count lent.now.policy.lattice) lines.old lines.new }
        ensures numbers { HasSameNumbers self.old self.new }
        ensures members { KeepsMembers self.old self.new }
    {
        stints_go_by_runs();
        units_are_counted();
        let program = lent.program(run.function);
        let pages = lent.limits(run.at).pages;
        let mut sandbox = sandbox;
        let mut left = u64::from(given);
        'units: loop {
            let went = sandbox.go(program, pages, left);
            let Went { used, going } = went;
            left -= used;
            match going {
                Going::Spent(sandbox) => return Ok(Ending::Spent(sandbox)),
                Going::Done => return Ok(Ending::Ended),
                Going::Trapped(trap) => return Ok(Ending::Trapped(cause_of_unit(trap))),
                Going::NoMemory => return Err(NoMemory),
                Going::Asks(suspended) => match self.call(lent, run, suspended, lines) {
                    Ok(Reached::Goes(next)) => sandbox = next,
                    Ok(Reached::Ends(end)) => return Ok(end),
                    Err(refused) => return Err(refused),
                },
            }
        }
    }
}
