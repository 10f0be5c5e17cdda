//! The host.

ghost use Rattle.std.specs.Prelude.{◌≡◌, ◌<◌, ◌+◌, ◌^◌, ℕ, false, List, length, All};
ghost use Rattle.std.specs.Prelude.{IfOk, OnOk, OnErr, is_err};

use crate::facets::add_facets;
use crate::kept::Kept;
use crate::lent::Lent;
use event_file::Event;
use facet_list::Facets;
use host_rules::{hidden_events_show_releases, visible_items_show_the_same};
use policy_toml::Policy;
use std::alloc::Global;
use std::marker::Model;
use trapeze_io::NoMemory;
use trapeze_lines::Lines;
use wasm_validate::ValidModule;

/// A host.
#[derive(Drop)]
pub struct Host<'a, F: Facets> {
    lent: Lent<'a>,
    kept: Kept<F>,
    spent: bool,
    played: u64,
}

impl<'a, F: Facets> Model for Host<'a, F> {
    ghost use Rattle.std.specs.Coded.{codes};
    ghost use Rattle.wasm_ast.specs.contracts.modules.Module as programs;
    ghost use Rattle.trapeze_host.specs.Keeping.{HostParts, IsHeld};

    ghost Value = { HostParts F };

    ghost coded = { Prim.hlevel (codes, programs.the_row.coded) };

    ghost view = { λ h. record { lent = h.lent; kept = h.kept; spent = h.spent; played = h.played } };

    ghost invariant = { λ h. IsHeld F.limits (record { lent = h.lent; kept = h.kept; spent = h.spent; played = h.played }) };
}

impl<'a, F: Facets> Host<'a, F> {
    ghost use Rattle.label_lattice.specs.Order.{count};
    ghost use Rattle.facet_list.specs.Store.{Write};
    ghost use Rattle.facet_list.specs.Rows.{rows_of};
    ghost use Rattle.event_file.specs.Script.{IsFit};
    ghost use Rattle.trapeze_lines.specs.Lines.{IsLabelled};
    ghost use Rattle.wasm_semantics.specs.Threads.{Thread};
    ghost use Rattle.host_rules.specs.Policies.{rules_of};
    ghost use Rattle.host_rules.specs.Modules.{guest_of};
    ghost use Rattle.host_rules.specs.Stores.{facet_lines};
    ghost use Rattle.host_rules.specs.States.{State, Happens, start};
    ghost use Rattle.host_rules.specs.Play.{step};
    ghost use Rattle.trapeze_host.specs.Standing.{policy_lent, modules_lent, is_spent, played_in, known_in};
    ghost use Rattle.trapeze_host.specs.Standing.{Stands, Moves, Adds};
    ghost use Rattle.trapeze_host.specs.Observing.{Hides, Mirrors};

    /// A host that has played nothing, over the writes that the store has.
    pub fn start(
        alloc: Global,
        policy: &'a Policy,
        modules: &'a [ValidModule],
        facets: F,
    ) -> Result<Host<'a, F>, NoMemory>
        requires programs { length modules.now ≡ length policy.now.functions }
        requires limits { F.limits facets ≡ policy.now.limits }
        ensures starts { IfOk result
            (λ host. (w : List Write) → F.rows facets ≡ rows_of w → Stands F.rows host (start w)) }
        ensures lent { IfOk result
            (λ host. (policy_lent host ≡ policy.now) × (modules_lent host ≡ modules.now)) }
        ensures fresh { IfOk result (λ host. (is_spent host ≡ false) × (played_in host ≡ 0)) }
    {
        let lent = Lent::new(policy, modules);
        match Kept::start(alloc, &lent, facets) {
            Ok(kept) => Ok(Host {
                lent,
                kept,
                spent: false,
                played: 0,
            }),
            Err(refused) => Err(refused),
        }
    }

    /// Whether a call of `play` was out of memory.
    pub fn spent(&self) -> bool
        ensures { result ≡ is_spent self.now }
    {
        self.spent
    }

    /// How many calls of `play` answered Ok.
    pub fn played(&self) -> u64
        ensures { result ≡ played_in self.now }
    {
        self.played
    }

    /// Plays an event, and appends its lines of all kinds.
    ///
    /// # Errors
    ///
    /// Out of memory: the first of the lines were appended, the host is spent, and no event more counts as played.
    pub fn play(&mut self, event: &Event, lines: &mut Lines) -> Result<(), NoMemory>
        requires unspent { is_spent self.old ≡ false }
        requires few { played_in self.old < 2 ^ 62 }
        requires event { IsFit (known_in (policy_lent self.old)) event.now }
        ensures moved { (s : State Thread) → Stands F.rows self.old s → Moves F.rows result
            (step (rules_of (policy_lent self.old)) (guest_of (modules_lent self.old)) s (Happens event.now))
            self.new lines.old lines.new }
        ensures labelled { All (IsLabelled (count (policy_lent self.old).lattice)) lines.old →
            All (IsLabelled (count (policy_lent self.old).lattice)) lines.new }
        ensures spent { is_spent self.new ≡ is_err result }
        ensures counted { OnOk result (played_in self.new ≡ played_in self.old + 1) }
        ensures lent { (policy_lent self.new ≡ policy_lent self.old) × (modules_lent self.new ≡ modules_lent self.old) }
        ensures hidden { OnOk result ((o : ℕ) (s : State Thread) → Stands F.rows self.old s →
            Hides (rules_of (policy_lent self.old)) (guest_of (modules_lent self.old)) o s event.now
            lines.old lines.new) }
        ensures seen { OnOk result ((o : ℕ) (s : State Thread) → Stands F.rows self.old s →
            Mirrors (rules_of (policy_lent self.old)) (guest_of (modules_lent self.old)) o s event.now
            lines.old lines.new) }
        ensures uncounted { OnErr result (played_in self.new ≡ played_in self.old) }
    {
        hidden_events_show_releases();
        visible_items_show_the_same();
        self.lent.is_ordered();
        let done = self.kept.play(&self.lent, event, lines);
        match done {
            Ok(()) => {
                self.played += 1;
                Ok(())
            }
            Err(refused) => {
                self.spent = true;
                Err(refused)
            }
        }
    }

    /// Appends the lines of the facets in the end: one of each live facet, by key in byte order and then by label.
    ///
    /// # Errors
    ///
    /// Out of memory: the first of the lines were appended.
    pub fn facet_lines(&self, lines: &mut Lines) -> Result<(), NoMemory>
        requires unspent { is_spent self.now ≡ false }
        ensures added { (s : State Thread) → Stands F.rows self.now s →
            Adds result (facet_lines s.store) lines.old lines.new }
        ensures labelled { All (IsLabelled (count (policy_lent self.now).lattice)) lines.old →
            All (IsLabelled (count (policy_lent self.now).lattice)) lines.new }
    {
        add_facets(self.kept.alloc, &self.kept.facets, lines)
    }
}
