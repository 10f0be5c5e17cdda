//! Sandboxes from their beginning to their end, with ample memory.

ghost use Rattle.std.specs.Prelude.{IfOk, IfSome};
ghost use Rattle.sandbox.specs.Threads.{IsReady, IsWaiting};

use crate::codes;
use crate::played::valid;
use sandbox::{Begun, Going, Sandbox, Suspended, Trap, Went};
use std::alloc::Global;
use std::test::Fail;
use wasm_ast::HostName;
use wasm_validate::ValidModule;

/// The module with this code.
fn module_of(alloc: Global, code: &'static [u8]) -> Result<ValidModule, Fail> {
    valid(
        alloc,
        &[
            (codes::FRONT, 1),
            (codes::ELEMENTS, 1),
            (code, 1),
            (codes::DATA, 1),
        ],
    )
}

/// A sandbox that may have so many pages; none where those are too few.
fn fresh(alloc: Global, module: &ValidModule, pages: u32) -> Result<Option<Sandbox>, Fail>
    ensures { IfOk result (λ begun. IfSome begun (IsReady module.now)) }
{
    match Sandbox::fresh(alloc, module, pages)? {
        Begun::Ready(sandbox) => Ok(Some(sandbox)),
        Begun::Pages => Ok(None),
    }
}

/// The sandbox once it asks the host, where it does so with the last of so many units.
fn asking(module: &ValidModule, sandbox: Sandbox, units: u64) -> Option<Suspended>
    requires { IsReady module.now sandbox }
    ensures { IfSome result (IsWaiting module.now) }
{
    let Went { used, going } = sandbox.go(module, 256, 100);
    match going {
        Going::Asks(suspended) if used == units => Some(suspended),
        _ => None,
    }
}

/// Whether it asks this.
fn asks(suspended: &Suspended, name: HostName, args: [u32; 4]) -> bool {
    let asked = suspended.asked();
    asked.name == name && asked.args == args
}

/// Six bytes of its memory from a place on.
fn six(suspended: &Suspended, at: u32) -> Option<[u8; 6]> {
    let mut bytes = [0; 6];
    match suspended.fetch(at, &mut bytes) {
        Ok(()) => Some(bytes),
        Err(_) => None,
    }
}

#[test]
fn too_few_pages(rt: HostRuntime) -> Result<(), Fail> {
    let module = module_of(rt.alloc(), codes::ECHO)?;
    assert!(rt; fresh(rt.alloc(), &module, 0)?.is_none());
    assert!(rt; fresh(rt.alloc(), &module, 1)?.is_some());
    Ok(())
}

/// Whether a new sandbox has the memory of the module, once it is written to.
fn begins_anew(alloc: Global, module: &ValidModule) -> Result<bool, Fail> {
    let Some(sandbox) = fresh(alloc, module, 256)? else {
        return Ok(false);
    };
    let Some(mut suspended) = asking(module, sandbox, 4) else {
        return Ok(false);
    };
    let is_first = six(&suspended, 0) == Some(*b"abcdef") && six(&suspended, 6) == Some([0; 6]);
    Ok(is_first && suspended.put(4, b"earlier").is_ok())
}

/// Whether each of two new sandboxes has it.
fn begin_anew(alloc: Global, module: &ValidModule) -> Result<bool, Fail> {
    Ok(begins_anew(alloc, module)? && begins_anew(alloc, module)?)
}

#[test]
fn a_fresh_memory_is_that_of_the_module(rt: HostRuntime) -> Result<(), Fail> {
    let module = module_of(rt.alloc(), codes::ECHO)?;
    assert!(rt; begin_anew(rt.alloc(), &module)?);
    Ok(())
}

/// The sandbox once a unit is spent, where it goes on then.
fn spends_one(module: &ValidModule, sandbox: Sandbox) -> Option<Sandbox>
    requires { IsReady module.now sandbox }
    ensures { IfSome result (IsReady module.now) }
{
    let Went { used, going } = sandbox.go(module, 256, 1);
    match going {
        Going::Spent(sandbox) if used == 1 => Some(sandbox),
        _ => None,
    }
}

/// Whether it spends one unit, and traps with the next.
fn traps_then(alloc: Global, module: &ValidModule) -> Result<bool, Fail> {
    let Some(sandbox) = fresh(alloc, module, 256)? else {
        return Ok(false);
    };
    let Some(sandbox) = spends_one(module, sandbox) else {
        return Ok(false);
    };
    let Went { used, going } = sandbox.go(module, 256, 9);
    Ok(used == 1 && matches!(going, Going::Trapped(Trap::Unreachable)))
}

#[test]
fn units_spent_and_a_trap(rt: HostRuntime) -> Result<(), Fail> {
    let module = module_of(rt.alloc(), codes::STOPS)?;
    assert!(rt; traps_then(rt.alloc(), &module)?);
    Ok(())
}

/// It goes on behind a call of `input`, where it waits for that, with two bytes and the answer 2.
fn given(mut input: Suspended, module: &ValidModule) -> Option<Sandbox>
    requires { IsWaiting module.now input }
    ensures { IfSome result (IsReady module.now) }
{
    if !asks(&input, HostName::Input, [0, 65_536, 0, 0]) || input.memory_len() != 65_536 {
        return None;
    }
    if input.put(2, b"xy").is_err() || input.put(65_535, b"xy").is_ok() {
        return None;
    }
    match input.asked().name {
        HostName::Input => Some(input.answer(Some(2))),
        _ => None,
    }
}

/// It goes on behind a call of `reply`, where it waits for that with these two bytes.
fn replied(reply: Suspended, module: &ValidModule) -> Option<Sandbox>
    requires { IsWaiting module.now reply }
    ensures { IfSome result (IsReady module.now) }
{
    let has_bytes = six(&reply, 0) == Some(*b"abxyef") && six(&reply, 65_531).is_none();
    if !asks(&reply, HostName::Reply, [0, 2, 0, 0]) || !has_bytes {
        return None;
    }
    match reply.asked().name {
        HostName::Reply => Some(reply.answer(None)),
        _ => None,
    }
}

/// How it ends once it has asked for its input and replied with it.
fn ended(module: &ValidModule, sandbox: Sandbox) -> Option<Went>
    requires { IsReady module.now sandbox }
{
    let input = asking(module, sandbox, 4)?;
    let sandbox = given(input, module)?;
    let reply = asking(module, sandbox, 1)?;
    let sandbox = replied(reply, module)?;
    Some(sandbox.go(module, 256, 9))
}

/// Whether it ends then, with one unit more.
fn ends(alloc: Global, module: &ValidModule) -> Result<bool, Fail> {
    match fresh(alloc, module, 256)? {
        Some(sandbox) => Ok(is_done(ended(module, sandbox))),
        None => Ok(false),
    }
}

fn is_done(went: Option<Went>) -> bool {
    matches!(
        went,
        Some(Went {
            used: 1,
            going: Going::Done
        })
    )
}

#[test]
fn what_it_asks_and_how_it_ends(rt: HostRuntime) -> Result<(), Fail> {
    let module = module_of(rt.alloc(), codes::ECHO)?;
    assert!(rt; ends(rt.alloc(), &module)?);
    Ok(())
}
