//! What is copied to a guest.

ghost use Rattle.std.specs.Prelude.{◌≡◌, ℕ, ◌≤◌, length, take, true, IfOk};
ghost use Rattle.wasm_ast.specs.declared.modules.Module.{Module};
ghost use Rattle.wasm_exec.specs.Asking.{has_answer};
ghost use Rattle.sandbox.specs.Threads.{IsWaiting, asked_of};
ghost use Rattle.trapeze_io.specs.Sizes.{longest_value};
ghost use Rattle.shim_calls.specs.Performing.{IsFitEffect, IsFitPerformed, IsReadyPerformed};
ghost use Rattle.shim_calls.specs.Wished.{Copies};

use crate::effect::{Effect, Performed, ShimTrap};
use sandbox::{StoreError, Suspended};
use trapeze_io::NoMemory;

/// Copies the first bytes to a destination, a range of the guest, and answers how many there are.
pub(crate) fn copied(
    mut suspended: Suspended,
    at: u32,
    cap: u32,
    bytes: &[u8],
    effect: Option<Effect>,
) -> Result<Performed, NoMemory>
    requires few { length bytes.now ≤ longest_value }
    requires wants { has_answer (asked_of suspended).name ≡ true }
    ensures performed { IfOk result (Copies suspended at cap bytes.now effect) }
    ensures ready { IfOk result
        (λ done. (m : Module) → IsWaiting m suspended → IsReadyPerformed m done) }
    ensures fit { IfOk result (λ done. (labels functions : ℕ) →
        IsFitEffect labels functions effect → IsFitPerformed labels functions done) }
{
    suspended.memory_is();
    match suspended.put(at, front(bytes, cap)) {
        Ok(()) => Ok(Performed::Resume(suspended.answer(Some(bytes.len() as u32)), effect)),
        Err(StoreError::Bounds) => Ok(Performed::Trapped(ShimTrap::Memory)),
        Err(StoreError::NoMemory) => Err(NoMemory),
    }
}

/// The first bytes, at most so many.
fn front(bytes: &[u8], cap: u32) -> &[u8]
    ensures { result.now ≡ take cap bytes.now }
{
    if bytes.len() <= cap as usize {
        bytes
    } else {
        &bytes[..cap as usize]
    }
}
