//! The check of a list of lines.

ghost use Rattle.std.specs.Prelude.{All, IfOk};
ghost use Rattle.label_lattice.specs.Order.{count};
ghost use Rattle.trapeze_lines.specs.Lines.{IsLabelled};
ghost use Rattle.host_rules.specs.Policies.{rules_of};
ghost use Rattle.flow_check.specs.Verdicts.{IsVerdict};

use crate::checker::Checker;
use crate::verdict::Verdict;
use policy_toml::Policy;
use std::alloc::Global;
use trapeze_io::NoMemory;
use trapeze_lines::Line;

/// Whether each line passes its rule, or the first that does not.
pub fn check_lines(alloc: Global, policy: &Policy, lines: &[Line]) -> Result<Verdict, NoMemory>
    requires labelled { All (IsLabelled (count policy.now.lattice)) lines.now }
    ensures { IfOk result (IsVerdict (rules_of policy.now) lines.now) }
{
    let mut checker = Checker::new(alloc, policy)?;
    'lines: for line in lines {
        checker.take(policy, line)?;
    }
    Ok(checker.finish())
}
