//! Reads and writes of a store.

ghost use Rattle.std.specs.Prelude.{◌≡◌, ◌<◌, List, ℕ, length, true, IfOk, OnErr};
ghost use Rattle.std.specs.Option.{option_copied};
ghost use Rattle.label_lattice.specs.Order.{count};
ghost use Rattle.wasm_ast.specs.declared.modules.Module.{Module};
ghost use Rattle.wasm_exec.specs.Asking.{has_answer};
ghost use Rattle.sandbox.specs.Threads.{IsWaiting, asked_of};
ghost use Rattle.host_rules.specs.Wishes.{Reads, Writes};
ghost use Rattle.host_rules.specs.Policies.{rules_of};
ghost use Rattle.trapeze_io.specs.Sizes.{IsKey, IsValue};
ghost use Rattle.shim_calls.specs.Performing.{IsFitPerformed, IsReadyPerformed};
ghost use Rattle.shim_calls.specs.Wished.{Grants};

use crate::copying::copied;
use crate::effect::{Effect, Performed};
use facet_list::{Facets, Wrote, rows_tell_fits, rows_tell_reads};
use label_lattice::Label;
use policy_toml::Policy;
use sandbox::Suspended;
use std::alloc::Global;
use trapeze_io::{Bytes, NoMemory};

/// Reads a key at a label, and copies its value, the latest visible facet, to a range of the guest.
pub(crate) fn read<F: Facets>(
    alloc: Global,
    suspended: Suspended,
    at: Label,
    policy: &Policy,
    facets: &F,
    key: Bytes,
    place: u32,
    cap: u32,
) -> Result<Performed, NoMemory>
    requires at { at.number < count policy.now.lattice }
    requires limits { F.limits facets.now ≡ policy.now.limits }
    requires wants { has_answer (asked_of suspended).name ≡ true }
    ensures performed { IfOk result
        (λ done. (input : List ℕ) → Grants (rules_of policy.now) at.number suspended input
        (Reads key place cap) (F.rows facets.now) (F.rows facets.now) done) }
    ensures ready { IfOk result
        (λ done. (m : Module) → IsWaiting m suspended → IsReadyPerformed m done) }
    ensures fit { IfOk result
        (IsFitPerformed (count policy.now.lattice) (length policy.now.functions)) }
{
    rows_tell_reads();
    match facets.read(policy.lattice(), at, key.as_slice()) {
        None => {
            let effect = Effect::Read { key, value: None };
            Ok(Performed::Resume(suspended.answer(Some(u32::MAX)), Some(effect)))
        }
        Some(value) => {
            let Ok(copy) = Bytes::copy(alloc, value) else {
                return Err(NoMemory);
            };
            let effect = Effect::Read {
                key,
                value: Some(copy),
            };
            copied(suspended, place, cap, value, Some(effect))
        }
    }
}

/// Writes a key at a label, where the write fits.
pub(crate) fn write<F: Facets>(
    suspended: Suspended,
    at: Label,
    policy: &Policy,
    facets: &mut F,
    key: Bytes,
    value: Option<Bytes>,
) -> Result<Performed, NoMemory>
    requires at { at.number < length policy.now.limits }
    requires limits { F.limits facets.old ≡ policy.now.limits }
    requires key { IsKey key }
    requires value { IsValue value }
    requires wants { has_answer (asked_of suspended).name ≡ true }
    ensures performed { IfOk result
        (λ done. (input : List ℕ) → Grants (rules_of policy.now) at.number suspended input
        (Writes key value) (F.rows facets.old) (F.rows facets.new) done) }
    ensures ready { IfOk result
        (λ done. (m : Module) → IsWaiting m suspended → IsReadyPerformed m done) }
    ensures fit { IfOk result
        (IsFitPerformed (count policy.now.lattice) (length policy.now.functions)) }
    ensures refused { OnErr result (F.rows facets.new ≡ F.rows facets.old) }
    ensures limits { F.limits facets.new ≡ F.limits facets.old }
{
    rows_tell_fits();
    match facets.write(at, key.as_slice(), lent(&value)) {
        Err(_) => Err(NoMemory),
        Ok(Wrote::Done) => {
            let effect = Effect::Wrote { key, value };
            Ok(Performed::Resume(suspended.answer(Some(0)), Some(effect)))
        }
        Ok(Wrote::Full) => {
            let effect = Effect::Full { key };
            Ok(Performed::Resume(suspended.answer(Some(1)), Some(effect)))
        }
    }
}

/// The bytes of a value, if there is one.
fn lent(value: &Option<Bytes>) -> Option<&[u8]>
    ensures { option_copied result ≡ value.now }
{
    match value {
        None => None,
        Some(value) => Some(value.as_slice()),
    }
}
