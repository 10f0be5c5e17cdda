//! What a host is lent.

ghost use Rattle.std.specs.Prelude.{◌≡◌, ◌<◌, length};
ghost use Rattle.label_lattice.specs.Order.{count};
ghost use Rattle.host_rules.specs.Rules.{IsOrdered, limits_at, function_name, client_name, clearance};
ghost use Rattle.policy_toml.specs.Parts.{IsPolicy};
ghost use Rattle.trapeze_host.specs.Loans.{rules_in, module_in};

use host_rules::labels_are_ordered;
use label_lattice::Label;
use label_limits::Limits;
use policy_toml::Policy;
use std::marker::Model;
use trapeze_io::Name;
use wasm_validate::ValidModule;

/// The policy, and a module for each of its functions.
#[derive(Drop)]
pub(crate) struct Lent<'a> {
    policy: &'a Policy,
    modules: &'a [ValidModule],
}

impl<'a> Model for Lent<'a> {
    ghost use Rattle.std.specs.Prelude.{◌≡◌, length};
    ghost use Rattle.std.specs.Coded.{codes};
    ghost use Rattle.wasm_ast.specs.contracts.modules.Module as programs;
    ghost use Rattle.trapeze_host.specs.Loans.{Loan};

    ghost Value = { Loan };

    ghost coded = { Prim.hlevel (codes, programs.the_row.coded) };

    ghost view = { λ l. record { policy = l.policy.now; modules = l.modules.now } };

    ghost invariant = { λ l. length l.modules.now ≡ length l.policy.now.functions };
}

impl<'a> Lent<'a> {
    /// A policy, and a module for each of its functions.
    pub(crate) fn new(policy: &'a Policy, modules: &'a [ValidModule]) -> Lent<'a>
        requires { length modules.now ≡ length policy.now.functions }
        ensures { result ≡ record { policy = policy.now; modules = modules.now } }
    {
        Lent { policy, modules }
    }

    /// The policy.
    pub(crate) fn policy(&self) -> &Policy
        ensures { result.now ≡ self.now.policy }
    {
        self.policy
    }

    /// The labels of the policy are ordered.
    pub(crate) fn is_ordered(&self)
        ensures ordered { IsOrdered (rules_in self.now) }
        ensures policy { IsPolicy self.now.policy }
    {
        let _count = self.policy.lattice().count();
        labels_are_ordered();
    }

    /// Whether a label flows to another.
    pub(crate) fn flows(&self, from: Label, to: Label) -> bool
        requires from { from.number < count self.now.policy.lattice }
        requires to { to.number < count self.now.policy.lattice }
        ensures { result ≡ (rules_in self.now).flows from.number to.number }
    {
        self.policy.lattice().flows(from, to)
    }

    /// The limits of a label.
    pub(crate) fn limits(&self, at: Label) -> Limits
        requires { at.number < count self.now.policy.lattice }
        ensures { result ≡ limits_at (rules_in self.now) at.number }
    {
        self.policy.limits()[at.number() as usize]
    }

    /// The module of a function.
    pub(crate) fn program(&self, function: u32) -> &ValidModule
        requires { function < length self.now.policy.functions }
        ensures { result.now ≡ module_in self.now function }
    {
        &self.modules[function as usize]
    }

    /// The name of a function.
    pub(crate) fn function_name(&self, function: u32) -> Name
        requires { function < length self.now.policy.functions }
        ensures { result ≡ function_name (rules_in self.now) function }
    {
        self.policy.functions()[function as usize]
    }

    /// The name of a client.
    pub(crate) fn client_name(&self, client: u32) -> Name
        requires { client < length self.now.policy.clients }
        ensures { result ≡ client_name (rules_in self.now) client }
    {
        self.policy.clients()[client as usize]
    }

    /// The clearance of a client.
    pub(crate) fn clearance(&self, client: u32) -> Label
        requires { client < length self.now.policy.clients }
        ensures label { result.number ≡ clearance (rules_in self.now) client }
        ensures within { result.number < count self.now.policy.lattice }
    {
        self.policy.clearance(client)
    }
}
