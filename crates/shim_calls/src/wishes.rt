//! What a guest asks for: its ranges from the left, and then its name. No store is looked at.

ghost use Rattle.std.specs.Prelude.{◌≡◌, ◌<◌, ◌≤◌, false, length, IfOk};
ghost use Rattle.trapeze_io.specs.Answers.{Answers};
ghost use Rattle.label_lattice.specs.Order.{count};
ghost use Rattle.wasm_exec.specs.Asking.{has_answer};
ghost use Rattle.sandbox.specs.Threads.{memory_of, asked_of};
ghost use Rattle.host_rules.specs.Policies.{rules_of};
ghost use Rattle.host_rules.specs.Wishes.{wish};
ghost use Rattle.trapeze_io.specs.Sizes.{longest_value};
ghost use Rattle.shim_calls.specs.Performing.{asked_in};
ghost use Rattle.shim_calls.specs.Wished.{fault_of, wished, sends, raises, releases};
ghost use Rattle.shim_calls.specs.Wished.{IsFitWish, wants_answer};

use crate::effect::ShimTrap;
use crate::ranges::{NameBytes, source};
use crate::wish::{Refused, Wish};
use gate_rules::Passage;
use label_lattice::Label;
use labelled_channel::Delivery;
use policy_toml::Policy;
use sandbox::Suspended;
use std::alloc::Global;
use trapeze_io::{Bytes, LONGEST_KEY, LONGEST_VALUE, Name};
use wasm_ast::HostName;

/// A message into the channel with this name.
fn sent(policy: &Policy, at: Label, name: &[u8], bytes: Bytes) -> Result<Wish, Refused>
    requires at { at.number < count policy.now.lattice }
    requires few { length bytes ≤ longest_value }
    ensures wish { let P = rules_of policy.now in
        Answers fault_of (wished P at.number (sends P name.now bytes)) result }
    ensures wants { IfOk result (λ wish. wants_answer wish ≡ false) }
    ensures fit { IfOk result (IsFitWish (count policy.now.lattice) (length policy.now.functions)) }
{
    let delivery = policy.channels().deliver(policy.lattice(), at, name);
    let Some(channel) = Name::read(name) else {
        return Err(Refused::Trapped(ShimTrap::Unknown));
    };
    let to = match delivery {
        Delivery::Start(label, function) => Some((label, function)),
        Delivery::Vanishes => None,
        Delivery::Unknown => return Err(Refused::Trapped(ShimTrap::Unknown)),
    };
    Ok(Wish::Send { channel, bytes, to })
}

/// The label with this name.
fn raised(policy: &Policy, at: Label, name: &[u8]) -> Result<Wish, Refused>
    ensures wish { let P = rules_of policy.now in
        Answers fault_of (wished P at.number (raises P name.now)) result }
    ensures wants { IfOk result (λ wish. wants_answer wish ≡ false) }
    ensures fit { IfOk result (IsFitWish (count policy.now.lattice) (length policy.now.functions)) }
{
    match policy.lattice().find(name) {
        Some(label) => Ok(Wish::Raise { label }),
        None => Err(Refused::Trapped(ShimTrap::Unknown)),
    }
}

/// A release through the gate with this name.
fn released(policy: &Policy, at: Label, name: &[u8], bytes: Bytes) -> Result<Wish, Refused>
    requires at { at.number < count policy.now.lattice }
    requires few { length bytes ≤ longest_value }
    ensures wish { let P = rules_of policy.now in
        Answers fault_of (wished P at.number (releases P name.now bytes)) result }
    ensures wants { IfOk result (λ wish. wants_answer wish ≡ false) }
    ensures fit { IfOk result (IsFitWish (count policy.now.lattice) (length policy.now.functions)) }
{
    match policy
        .gates()
        .pass(policy.lattice(), at, name, bytes.as_slice())
    {
        Err(_) => Err(Refused::NoMemory),
        Ok(Passage::Pass { gate, bytes }) => Ok(Wish::Release { gate, bytes }),
        Ok(Passage::Vanishes) => Ok(Wish::Nothing),
        Ok(Passage::Unknown) => Err(Refused::Trapped(ShimTrap::Unknown)),
    }
}

/// What a guest asks for.
pub(crate) fn wish(
    alloc: Global,
    suspended: &Suspended,
    at: Label,
    policy: &Policy,
) -> Result<Wish, Refused>
    requires at { at.number < count policy.now.lattice }
    ensures wish { let P = rules_of policy.now in let asked = asked_in (asked_of suspended.now) in
        Answers fault_of (wished P at.number (wish P (memory_of suspended.now) asked)) result }
    ensures wants { IfOk result (λ wish. wants_answer wish ≡ has_answer (asked_of suspended.now).name) }
    ensures fit { IfOk result (IsFitWish (count policy.now.lattice) (length policy.now.functions)) }
{
    let asked = suspended.asked();
    let [x, y, z, w] = asked.args;
    match asked.name {
        HostName::Input => Ok(Wish::Input { at: x, cap: y }),
        HostName::Read => {
            let key = source(alloc, suspended, LONGEST_KEY, x, y)?;
            Ok(Wish::Read { key, at: z, cap: w })
        }
        HostName::Write => {
            let key = source(alloc, suspended, LONGEST_KEY, x, y)?;
            let value = source(alloc, suspended, LONGEST_VALUE, z, w)?;
            Ok(Wish::Write {
                key,
                value: Some(value),
            })
        }
        HostName::Delete => {
            let key = source(alloc, suspended, LONGEST_KEY, x, y)?;
            Ok(Wish::Write { key, value: None })
        }
        HostName::Send => {
            let name = NameBytes::fetch(suspended, x, y)?;
            let bytes = source(alloc, suspended, LONGEST_VALUE, z, w)?;
            sent(policy, at, name.as_slice(), bytes)
        }
        HostName::Raise => {
            let name = NameBytes::fetch(suspended, x, y)?;
            raised(policy, at, name.as_slice())
        }
        HostName::Reply => {
            let bytes = source(alloc, suspended, LONGEST_VALUE, x, y)?;
            Ok(Wish::Reply { bytes })
        }
        HostName::OwnLabel => Ok(Wish::OwnLabel { at: x, cap: y }),
        HostName::Release => {
            let name = NameBytes::fetch(suspended, x, y)?;
            let bytes = source(alloc, suspended, LONGEST_VALUE, z, w)?;
            released(policy, at, name.as_slice(), bytes)
        }
    }
}
