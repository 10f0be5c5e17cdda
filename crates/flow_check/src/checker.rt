//! A checker that takes one line after the other.

ghost use Rattle.std.specs.Prelude.{◌≡◌, ◌<◌, ◌^◌, ◌++◌, ◌∷◌, [], List, length, IfOk, OnOk, OnErr};
ghost use Rattle.label_lattice.specs.Order.{count};
ghost use Rattle.trapeze_lines.specs.declared.line.Line.{Line as Told};
ghost use Rattle.trapeze_lines.specs.Lines.{IsLabelled};
ghost use Rattle.policy_toml.specs.Parts.{Parts};
ghost use Rattle.host_rules.specs.Policies.{rules_of};
ghost use Rattle.flow_check.specs.Verdicts.{IsVerdict};
ghost use Rattle.flow_check.specs.Taken.{IsFor, Knows, HasTaken};

use crate::last::{Last, keep, may_follow};
use crate::note::note;
use crate::rules::fault;
use crate::verdict::{Rule, Verdict};
use facet_rows::FacetRows;
use policy_toml::Policy;
use std::alloc::Global;
use trapeze_io::NoMemory;
use trapeze_lines::Line;

/// A check that goes on: the rows of the writes so far, how many turns each label had, what is kept of the last line, and the
/// verdict. It keeps no line, and what a line costs does not grow with those before it. Once a line fails, it only reads on.
#[derive(Drop)]
pub struct Checker {
    pub(crate) rows: FacetRows,
    pub(crate) turns: Vec<u64>,
    pub(crate) last: Last,
    pub(crate) taken: u64,
    pub(crate) verdict: Verdict,
}

impl Checker {
    /// A check of no line yet.
    pub fn new(alloc: Global, policy: &Policy) -> Result<Checker, NoMemory>
        ensures labels { IfOk result (IsFor (count policy.now.lattice)) }
        ensures lines { IfOk result (HasTaken policy.now []) }
    {
        let mut turns = Vec::new(alloc);
        turns.resize(policy.lattice().count() as usize, 0)?;
        Ok(Checker {
            rows: FacetRows::new(alloc),
            turns,
            last: Last::Other,
            taken: 0,
            verdict: Verdict::Sound,
        })
    }

    /// Takes the next line. A refusal changes nothing.
    pub fn take(&mut self, policy: &Policy, line: &Line) -> Result<(), NoMemory>
        requires labels { IsFor (count policy.now.lattice) self.old }
        requires labelled { IsLabelled (count policy.now.lattice) line.now }
        ensures labels { IsFor (count policy.now.lattice) self.new }
        ensures ok { OnOk result ((lines : List Told) → length lines < 2 ^ 63 →
            HasTaken policy.now lines self.old → HasTaken policy.now (lines ++ line.now ∷ []) self.new) }
        ensures err { OnErr result ((lines : List Told) → HasTaken policy.now lines self.old → HasTaken policy.now lines self.new) }
    {
        match self.judged(policy, line) {
            Verdict::Sound => self.keep_line(policy, line),
            Verdict::Unsound { line, rule } => {
                self.verdict = Verdict::Unsound { line, rule };
                Ok(())
            }
        }
    }

    /// The verdict after the next line.
    fn judged(&self, policy: &Policy, line: &Line) -> Verdict
        requires labels { IsFor (count policy.now.lattice) self.now }
        requires labelled { IsLabelled (count policy.now.lattice) line.now }
        ensures sound { result ≡ Verdict.Sound → self.now.verdict ≡ Verdict.Sound }
        ensures verdict { (lines : List Told) → length lines < 2 ^ 63 → HasTaken policy.now lines self.now →
            IsVerdict (rules_of policy.now) (lines ++ line.now ∷ []) result }
    {
        match self.verdict {
            Verdict::Sound => self.judged_sound(policy, line),
            Verdict::Unsound { line, rule } => Verdict::Unsound { line, rule },
        }
    }

    /// The verdict after the next line, where the lines so far are sound.
    fn judged_sound(&self, policy: &Policy, line: &Line) -> Verdict
        requires labels { IsFor (count policy.now.lattice) self.now }
        requires labelled { IsLabelled (count policy.now.lattice) line.now }
        requires sound { self.now.verdict ≡ Verdict.Sound }
        ensures { (lines : List Told) → length lines < 2 ^ 63 → HasTaken policy.now lines self.now →
            IsVerdict (rules_of policy.now) (lines ++ line.now ∷ []) result }
    {
        if !may_follow(&self.last, line) {
            return Verdict::Unsound {
                line: self.taken,
                rule: Rule::Send,
            };
        }
        match fault(policy, &self.rows, &self.turns, &self.last, line) {
            Some(rule) => Verdict::Unsound {
                line: self.taken.saturating_add(1),
                rule,
            },
            None => Verdict::Sound,
        }
    }

    /// Keeps what the next lines need of a line. A refusal changes nothing.
    fn keep_line(&mut self, policy: &Policy, line: &Line) -> Result<(), NoMemory>
        requires labels { IsFor (count policy.now.lattice) self.old }
        requires at { line.now.label.number < count policy.now.lattice }
        ensures labels { IsFor (count policy.now.lattice) self.new }
        ensures verdict { self.new.verdict ≡ self.old.verdict }
        ensures ok { OnOk result ((lines : List Told) → length lines < 2 ^ 63 →
            Knows policy.now lines self.old → Knows policy.now (lines ++ line.now ∷ []) self.new) }
        ensures err { OnErr result ((lines : List Told) → Knows policy.now lines self.old → Knows policy.now lines self.new) }
    {
        let last = keep(policy, line)?;
        note(&mut self.rows, &mut self.turns, line)?;
        self.last = last;
        self.taken = self.taken.saturating_add(1);
        Ok(())
    }

    /// What is said of the lines so far: `Sound` where each passes its rule, else the first that does not.
    pub fn finish(self) -> Verdict
        ensures { (policy : Parts) → (lines : List Told) → HasTaken policy lines self → IsVerdict (rules_of policy) lines result }
    {
        self.verdict
    }
}
