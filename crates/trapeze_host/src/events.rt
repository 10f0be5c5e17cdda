//! One event.

ghost use Rattle.label_lattice.specs.Order.{count};
ghost use Rattle.event_file.specs.Script.{IsFit};
ghost use Rattle.host_rules.specs.States.{Happens};
ghost use Rattle.host_rules.specs.Play.{step};
ghost use Rattle.trapeze_host.specs.Adding.{KeepsLabelled};
ghost use Rattle.trapeze_host.specs.Loans.{known_in, rules_in, guest_in};
ghost use Rattle.trapeze_host.specs.Keeping.{MakesFrom, IsSound, MayBeRaised, RaisesNumbers};

use crate::kept::Kept;
use crate::lent::Lent;
use event_file::Event;
use facet_list::Facets;
use trapeze_io::NoMemory;
use trapeze_lines::Lines;

impl<F: Facets> Kept<F> {
    /// An event.
    pub(crate) fn play(
        &mut self,
        lent: &Lent,
        event: &Event,
        lines: &mut Lines,
    ) -> Result<(), NoMemory>
        requires sound { IsSound F.limits lent.now self.old }
        requires few { MayBeRaised self.old }
        requires event { IsFit (known_in lent.now.policy) event.now }
        ensures moved { MakesFrom F.rows lent.now result self.old self.new lines.old lines.new
            (λ s. step (rules_in lent.now) (guest_in lent.now) s (Happens event.now)) }
        ensures sound { IsSound F.limits lent.now self.new }
        ensures labelled { KeepsLabelled (count lent.now.policy.lattice) lines.old lines.new }
        ensures raised { RaisesNumbers self.old self.new }
    {
        match event {
            Event::Put { label, key, value } => self.put(lent, *label, key, value, lines),
            Event::Ask {
                label,
                client,
                function,
                id,
                body,
            } => self.ask(lent, *label, *client, *function, *id, body, lines),
            Event::Turn { label } => self.turn(lent, *label, lines),
        }
    }
}
