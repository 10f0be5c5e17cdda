//! What the host does with the effect of a host call, whose write is in the store already.

ghost use Rattle.std.specs.Prelude.{◌≡◌, ◌<◌, ◌&&◌, not, Option, Some, length, option_map};
ghost use Rattle.label_lattice.specs.Order.{count};
ghost use Rattle.wasm_semantics.specs.Threads.{Thread};
ghost use Rattle.host_rules.specs.Rules.{clearance};
ghost use Rattle.shim_calls.specs.Performing.{IsFitEffect};
ghost use Rattle.trapeze_host.specs.Adding.{KeepsLabelled};
ghost use Rattle.trapeze_host.specs.Loans.{rules_in};
ghost use Rattle.trapeze_host.specs.Requests.{request_of, answered_of};
ghost use Rattle.trapeze_host.specs.Keeping.{serving_of, MakesFrom, CompletesFrom};
ghost use Rattle.trapeze_host.specs.Keeping.{IsServed, IsSound, HasSameNumbers, KeepsMembers};
ghost use Rattle.trapeze_host.specs.Turning.{answering, run_makes, IsRun};

use crate::kept::{Activation, Kept, Serving};
use crate::lent::Lent;
use crate::runs::Run;
use crate::saying::say;
use facet_list::Facets;
use gate_rules::Gate;
use label_lattice::Label;
use shim_calls::Effect;
use trapeze_io::{Bytes, Name, NoMemory};
use trapeze_lines::{Kind, Lines};

impl<F: Facets> Kept<F> {
    /// Whether a reply to a request reaches its client: the label flows to the clearance, and the request is not answered.
    fn reaches(&self, lent: &Lent, at: Label, serving: &Serving) -> bool
        requires sound { IsSound F.limits lent.now self.now }
        requires at { at.number < count lent.now.policy.lattice }
        requires served { IsServed lent.now self.now.requests serving.now }
        ensures { result ≡
            ((rules_in lent.now).flows at.number (clearance (rules_in lent.now) serving.now.client)
            && not (answered_of self.now.requests (request_of serving.now.request))) }
    {
        lent.flows(at, lent.clearance(serving.client))
            && !self.requests.is_answered(serving.request)
    }

    /// A reply to a request, which is answered now if the reply reaches its client.
    fn reply(
        &mut self,
        lent: &Lent,
        at: Label,
        serving: &Serving,
        bytes: Bytes,
        lines: &mut Lines,
    ) -> Result<(), NoMemory>
        requires sound { IsSound F.limits lent.now self.old }
        requires at { at.number < count lent.now.policy.lattice }
        requires served { IsServed lent.now self.old.requests serving.now }
        ensures moved { MakesFrom F.rows lent.now result self.old self.new lines.old lines.new
            (answering lent.now at.number (Some (serving_of serving.now)) bytes) }
        ensures sound { IsSound F.limits lent.now self.new }
        ensures labelled { KeepsLabelled (count lent.now.policy.lattice) lines.old lines.new }
        ensures numbers { HasSameNumbers self.old self.new }
        ensures members { KeepsMembers self.old self.new }
    {
        let client = lent.client_name(serving.client);
        let id = serving.id;
        if !self.reaches(lent, at, serving) {
            return say(lent, at, Kind::Answer { client, id, bytes }, lines);
        }
        let Ok(copy) = bytes.duplicate() else {
            return Err(NoMemory);
        };
        let Ok(()) = say(lent, at, Kind::Answer { client, id, bytes }, lines) else {
            return Err(NoMemory);
        };
        self.requests.answer(serving.request);
        let kind = Kind::Reply {
            client,
            id,
            bytes: copy,
        };
        say(lent, lent.clearance(serving.client), kind, lines)
    }

    /// A reply of a run, which says nothing where the run serves no request.
    fn answer(
        &mut self,
        lent: &Lent,
        run: &Run,
        bytes: Bytes,
        lines: &mut Lines,
    ) -> Result<(), NoMemory>
        requires sound { IsSound F.limits lent.now self.old }
        requires run { IsRun lent.now self.old.requests run.now }
        ensures moved { MakesFrom F.rows lent.now result self.old self.new lines.old lines.new
            (answering lent.now run.now.at.number (option_map serving_of run.now.serves) bytes) }
        ensures sound { IsSound F.limits lent.now self.new }
        ensures labelled { KeepsLabelled (count lent.now.policy.lattice) lines.old lines.new }
        ensures numbers { HasSameNumbers self.old self.new }
        ensures members { KeepsMembers self.old self.new }
    {
        match &run.serves {
            None => Ok(()),
            Some(serving) => self.reply(lent, run.at, serving, bytes, lines),
        }
    }

    /// A message of a run into a channel, which arrives unless it vanishes.
    fn send(
        &mut self,
        lent: &Lent,
        run: &Run,
        channel: Name,
        bytes: Bytes,
        to: Option<(Label, u32)>,
        lines: &mut Lines,
    ) -> Result<(), NoMemory>
        requires sound { IsSound F.limits lent.now self.old }
        requires run { IsRun lent.now self.old.requests run.now }
        requires effect { IsFitEffect (count lent.now.policy.lattice) (length lent.now.policy.functions)
            (Some (Effect.Sent channel bytes to)) }
        ensures moved { (before : Option Thread) →
            MakesFrom F.rows lent.now result self.old self.new lines.old lines.new
            (run_makes lent.now run.now before (Some (Effect.Sent channel bytes to))) }
        ensures sound { IsSound F.limits lent.now self.new }
        ensures labelled { KeepsLabelled (count lent.now.policy.lattice) lines.old lines.new }
        ensures numbers { HasSameNumbers self.old self.new }
        ensures members { KeepsMembers self.old self.new }
    {
        let Some((label, function)) = to else {
            return say(lent, run.at, Kind::Send { channel, bytes }, lines);
        };
        let Ok(input) = bytes.duplicate() else {
            return Err(NoMemory);
        };
        let Ok(()) = say(lent, run.at, Kind::Send { channel, bytes }, lines) else {
            return Err(NoMemory);
        };
        let activation = Activation {
            function,
            input,
            serves: run.serves,
            sandbox: None,
            used: 0,
        };
        self.arrive(lent, label, run.at, activation, lines)
    }

    /// Bytes that passed a gate arrive at its target.
    fn let_in(
        &mut self,
        lent: &Lent,
        run: &Run,
        gate: Gate,
        bytes: Bytes,
        lines: &mut Lines,
    ) -> Result<(), NoMemory>
        requires sound { IsSound F.limits lent.now self.old }
        requires run { IsRun lent.now self.old.requests run.now }
        requires effect { IsFitEffect (count lent.now.policy.lattice) (length lent.now.policy.functions)
            (Some (Effect.Released gate bytes)) }
        ensures moved { (before : Option Thread) →
            MakesFrom F.rows lent.now result self.old self.new lines.old lines.new
            (run_makes lent.now run.now before (Some (Effect.Released gate bytes))) }
        ensures sound { IsSound F.limits lent.now self.new }
        ensures labelled { KeepsLabelled (count lent.now.policy.lattice) lines.old lines.new }
        ensures numbers { HasSameNumbers self.old self.new }
        ensures members { KeepsMembers self.old self.new }
    {
        let _run = run;
        let activation = Activation {
            function: gate.function,
            input: bytes,
            serves: None,
            sandbox: None,
            used: 0,
        };
        self.arrive(lent, gate.target, gate.source, activation, lines)
    }

    /// What the host does with an effect.
    fn effect(
        &mut self,
        lent: &Lent,
        run: &Run,
        effect: Effect,
        lines: &mut Lines,
    ) -> Result<(), NoMemory>
        requires sound { IsSound F.limits lent.now self.old }
        requires run { IsRun lent.now self.old.requests run.now }
        requires effect { IsFitEffect (count lent.now.policy.lattice) (length lent.now.policy.functions) (Some effect) }
        ensures moved { (before : Option Thread) →
            CompletesFrom F.rows lent.now result self.old self.new lines.old lines.new
            (run_makes lent.now run.now before (Some effect)) }
        ensures sound { IsSound F.limits lent.now self.new }
        ensures labelled { KeepsLabelled (count lent.now.policy.lattice) lines.old lines.new }
        ensures numbers { HasSameNumbers self.old self.new }
        ensures members { KeepsMembers self.old self.new }
    {
        match effect {
            Effect::Wrote { key, value } => say(lent, run.at, Kind::Write { key, value }, lines),
            Effect::Full { key } => say(lent, run.at, Kind::Full { key }, lines),
            Effect::Read { key, value } => say(lent, run.at, Kind::Read { key, value }, lines),
            Effect::Sent { channel, bytes, to } => self.send(lent, run, channel, bytes, to, lines),
            Effect::Answered { bytes } => self.answer(lent, run, bytes, lines),
            Effect::Released { gate, bytes } => self.let_in(lent, run, gate, bytes, lines),
        }
    }

    /// What the host does with an effect, if there is one.
    pub(crate) fn follow(
        &mut self,
        lent: &Lent,
        run: &Run,
        effect: Option<Effect>,
        lines: &mut Lines,
    ) -> Result<(), NoMemory>
        requires sound { IsSound F.limits lent.now self.old }
        requires run { IsRun lent.now self.old.requests run.now }
        requires effect { IsFitEffect (count lent.now.policy.lattice) (length lent.now.policy.functions) effect }
        ensures moved { (before : Option Thread) →
            CompletesFrom F.rows lent.now result self.old self.new lines.old lines.new
            (run_makes lent.now run.now before effect) }
        ensures sound { IsSound F.limits lent.now self.new }
        ensures labelled { KeepsLabelled (count lent.now.policy.lattice) lines.old lines.new }
        ensures numbers { HasSameNumbers self.old self.new }
        ensures members { KeepsMembers self.old self.new }
    {
        match effect {
            None => Ok(()),
            Some(effect) => self.effect(lent, run, effect, lines),
        }
    }
}
