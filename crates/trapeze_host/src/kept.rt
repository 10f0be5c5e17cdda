//! What the host keeps, and arrivals.

ghost use Rattle.std.specs.Prelude.{◌≡◌, ◌<◌, option_map};
ghost use Rattle.label_lattice.specs.Order.{count};
ghost use Rattle.host_rules.specs.Effects.{arrive as arrived};
ghost use Rattle.trapeze_host.specs.Adding.{KeepsLabelled};
ghost use Rattle.trapeze_host.specs.Loans.{rules_in};
ghost use Rattle.trapeze_host.specs.Keeping.{serving_of, activation_of, MakesFrom};
ghost use Rattle.trapeze_host.specs.Keeping.{IsFitActivation, IsSound, HasSameNumbers, KeepsMembers};

use crate::lent::Lent;
use crate::requests::{Request, Requests};
use crate::saying::say;
use facet_list::Facets;
use label_lattice::Label;
use label_queues::{Queues, Refused};
use sandbox::Sandbox;
use std::alloc::Global;
use trapeze_io::{Bytes, Name, NoMemory};
use trapeze_lines::{Kind, Lines};

/// The request that an activation serves, with its client and its id.
#[derive(Clone, Copy, Drop)]
pub(crate) struct Serving {
    pub(crate) request: Request,
    pub(crate) client: u32,
    pub(crate) id: Name,
}

/// One run of a function on an input. It has a sandbox from its first turn on.
#[derive(Drop)]
pub(crate) struct Activation {
    pub(crate) function: u32,
    pub(crate) input: Bytes,
    pub(crate) serves: Option<Serving>,
    pub(crate) sandbox: Option<Sandbox>,
    pub(crate) used: u32,
}

/// What the host keeps.
#[derive(Drop)]
pub(crate) struct Kept<F> {
    pub(crate) facets: F,
    pub(crate) queues: Queues<Activation>,
    pub(crate) turns: Vec<u64>,
    pub(crate) requests: Requests,
    pub(crate) alloc: Global,
}

/// The id of the request that is served, if there is one.
pub(crate) fn id_of(serves: Option<Serving>) -> Option<Name>
    ensures { result ≡ option_map (λ x. x.id) (option_map serving_of serves) }
{
    match serves {
        Some(serving) => Some(serving.id),
        None => None,
    }
}

impl<F: Facets> Kept<F> {
    /// Arrival: a new activation arrives at a label from another.
    pub(crate) fn arrive(
        &mut self,
        lent: &Lent,
        at: Label,
        from: Label,
        activation: Activation,
        lines: &mut Lines,
    ) -> Result<(), NoMemory>
        requires sound { IsSound F.limits lent.now self.old }
        requires at { at.number < count lent.now.policy.lattice }
        requires from { from.number < count lent.now.policy.lattice }
        requires fit { IsFitActivation lent.now self.old.requests activation }
        requires unused { activation.used ≡ 0 }
        ensures moved { MakesFrom F.rows lent.now result self.old self.new lines.old lines.new
            (arrived (rules_in lent.now) at.number from.number (activation_of lent.now activation)) }
        ensures sound { IsSound F.limits lent.now self.new }
        ensures labelled { KeepsLabelled (count lent.now.policy.lattice) lines.old lines.new }
        ensures numbers { HasSameNumbers self.old self.new }
        ensures members { KeepsMembers self.old self.new }
    {
        let function = lent.function_name(activation.function);
        let id = id_of(activation.serves);
        let _within = self.queues.len(at);
        match self.queues.arrive(at, activation) {
            Ok(()) => {
                let kind = Kind::Start { from, function, id };
                say(lent, at, kind, lines)
            }
            Err((_, Refused::Full)) => {
                let kind = Kind::Dropped { function, id };
                say(lent, at, kind, lines)
            }
            Err((_, Refused::NoMemory)) => Err(NoMemory),
        }
    }
}
