//! What is granted to a guest.

ghost use Rattle.std.specs.Prelude.{◌≡◌, ◌<◌, ◌≤◌, ℕ, List, length, false, IfOk, OnErr};
ghost use Rattle.label_lattice.specs.Order.{count};
ghost use Rattle.facet_list.specs.Rows.{Rows, rows_of};
ghost use Rattle.wasm_ast.specs.declared.modules.Module.{Module};
ghost use Rattle.wasm_semantics.specs.Threads.{Thread};
ghost use Rattle.wasm_exec.specs.Asking.{has_answer};
ghost use Rattle.sandbox.specs.Threads.{waiting, IsWaiting, asked_of};
ghost use Rattle.host_rules.specs.States.{Activation, State};
ghost use Rattle.host_rules.specs.Wishes.{Wish as Wished, Raises};
ghost use Rattle.host_rules.specs.Calls.{shim};
ghost use Rattle.host_rules.specs.Policies.{rules_of};
ghost use Rattle.host_rules.specs.Modules.{guest_of};
ghost use Rattle.trapeze_io.specs.Sizes.{longest_value};
ghost use Rattle.shim_calls.specs.Performing.{asked_in, Performs, IsFitPerformed, IsReadyPerformed};
ghost use Rattle.shim_calls.specs.Wished.{shown, wants_answer, IsFitWish, Grants};

use crate::copying::copied;
use crate::effect::{Effect, Performed};
use crate::storing::{read, write};
use crate::wish::{Refused, Wish};
use crate::wishes::wish;
use facet_list::Facets;
use label_lattice::Label;
use policy_toml::Policy;
use sandbox::Suspended;
use std::alloc::Global;
use trapeze_io::NoMemory;

/// Raises a guest to the join of its label and another, or lets it go on where it is there.
fn raise(suspended: Suspended, at: Label, policy: &Policy, label: Label) -> Performed
    requires at { at.number < count policy.now.lattice }
    requires label { label.number < count policy.now.lattice }
    requires wants { has_answer (asked_of suspended).name ≡ false }
    ensures performed { (input : List ℕ) (rows : Rows) →
        Grants (rules_of policy.now) at.number suspended input (Raises label.number) rows rows result }
    ensures ready { (m : Module) → IsWaiting m suspended → IsReadyPerformed m result }
    ensures fit { IsFitPerformed (count policy.now.lattice) (length policy.now.functions) result }
{
    let new = policy.lattice().join(at, label);
    let sandbox = suspended.answer(None);
    if new.number() == at.number() {
        Performed::Resume(sandbox, None)
    } else {
        Performed::Raise(sandbox, new)
    }
}

/// Grants what a guest asks for.
fn grant<F: Facets>(
    alloc: Global,
    suspended: Suspended,
    at: Label,
    input: &[u8],
    policy: &Policy,
    facets: &mut F,
    wish: Wish,
) -> Result<Performed, NoMemory>
    requires at { at.number < count policy.now.lattice }
    requires input { length input.now ≤ longest_value }
    requires limits { F.limits facets.old ≡ policy.now.limits }
    requires wants { wants_answer wish ≡ has_answer (asked_of suspended).name }
    requires fit { IsFitWish (count policy.now.lattice) (length policy.now.functions) wish }
    ensures performed { IfOk result
        (λ done. let P = rules_of policy.now in (x : Wished) → wish ≡ shown P at.number x →
        Grants P at.number suspended input.now x (F.rows facets.old) (F.rows facets.new) done) }
    ensures ready { IfOk result
        (λ done. (m : Module) → IsWaiting m suspended → IsReadyPerformed m done) }
    ensures fit { IfOk result
        (IsFitPerformed (count policy.now.lattice) (length policy.now.functions)) }
    ensures refused { OnErr result (F.rows facets.new ≡ F.rows facets.old) }
    ensures limits { F.limits facets.new ≡ F.limits facets.old }
{
    let lattice = policy.lattice();
    match wish {
        Wish::Input { at: place, cap } => copied(suspended, place, cap, input, None),
        Wish::Read {
            key,
            at: place,
            cap,
        } => read(alloc, suspended, at, policy, facets, key, place, cap),
        Wish::Write { key, value } => write(suspended, at, policy, facets, key, value),
        Wish::Send { channel, bytes, to } => {
            let effect = Effect::Sent { channel, bytes, to };
            Ok(Performed::Resume(suspended.answer(None), Some(effect)))
        }
        Wish::Raise { label } => Ok(raise(suspended, at, policy, label)),
        Wish::Reply { bytes } => {
            let effect = Effect::Answered { bytes };
            Ok(Performed::Resume(suspended.answer(None), Some(effect)))
        }
        Wish::OwnLabel { at: place, cap } => {
            let name = lattice.name(at);
            copied(suspended, place, cap, name.as_bytes(), None)
        }
        Wish::Release { gate, bytes } => {
            let effect = Effect::Released { gate, bytes };
            Ok(Performed::Resume(suspended.answer(None), Some(effect)))
        }
        Wish::Nothing => Ok(Performed::Resume(suspended.answer(None), None)),
    }
}

/// Carries out the host call that a guest of an activation at a label asks for. The answer says whether the guest goes on, and
/// what the call does besides; where it writes, the store has changed. Out of memory the guest is gone, and the store as it was.
pub fn perform<F: Facets>(
    alloc: Global,
    suspended: Suspended,
    at: Label,
    input: &[u8],
    policy: &Policy,
    facets: &mut F,
) -> Result<Performed, NoMemory>
    requires at { at.number < count policy.now.lattice }
    requires input { length input.now ≤ longest_value }
    requires limits { F.limits facets.old ≡ policy.now.limits }
    ensures performed { IfOk result
        (λ done. (m : Module) (modules : List Module) (a : Activation Thread) (s : State Thread) →
        IsWaiting m suspended → a.input ≡ input.now → F.rows facets.old ≡ rows_of s.store →
        (let P = rules_of policy.now in let asked = asked_in (asked_of suspended) in
        Performs P m at.number a s
        (shim P (guest_of modules) at.number a s.store asked (waiting m suspended))
        (F.rows facets.new) done)) }
    ensures ready { IfOk result
        (λ done. (m : Module) → IsWaiting m suspended → IsReadyPerformed m done) }
    ensures fit { IfOk result
        (IsFitPerformed (count policy.now.lattice) (length policy.now.functions)) }
    ensures refused { OnErr result (F.rows facets.new ≡ F.rows facets.old) }
    ensures limits { F.limits facets.new ≡ F.limits facets.old }
{
    suspended.memory_is();
    match wish(alloc, &suspended, at, policy) {
        Err(Refused::Trapped(trap)) => Ok(Performed::Trapped(trap)),
        Err(Refused::NoMemory) => Err(NoMemory),
        Ok(wish) => grant(alloc, suspended, at, input, policy, facets, wish),
    }
}
