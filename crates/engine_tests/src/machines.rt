//! Machines that run functions from their beginning to their end, with ample memory.

ghost use Rattle.std.specs.Prelude.{◌≡◌, OnOk};
ghost use Rattle.wasm_exec.specs.Machines.{IsReady};

use crate::codes;
use crate::played::{Part, answer_to, valid};
use crate::runs::{
    BRANCHING, CALLED, EXTENDED, End, GROWING, MIXED, Row, SINKING, STARTED, TRAPS, WORKED,
};
use std::alloc::Global;
use std::test::Fail;
use wasm_exec::{Asked, Machine, Stop};
use wasm_validate::ValidModule;

/// One run, and the answer of what it asked.
fn turn(
    module: &ValidModule,
    machine: &mut Machine,
    pages: u32,
    units: u64,
) -> Result<(u64, Option<Asked>), (u64, End)>
    requires { IsReady module.now machine.old }
    ensures { OnOk result (IsReady module.now machine.new) }
{
    let ran = machine.run(module, pages, units);
    match ran.stop {
        Stop::Spent => Ok((ran.used, None)),
        Stop::Call(asked) => {
            machine.resume(answer_to(asked.name));
            Ok((ran.used, Some(asked)))
        }
        Stop::Done => Err((ran.used, End::Done)),
        Stop::Trapped(trap) => Err((ran.used, End::Trapped(trap))),
        Stop::NoMemory => Err((ran.used, End::NoMemory)),
    }
}

/// Whether the machine's memory begins with these bytes.
fn begins_with(machine: &Machine, bytes: &[u8; 6]) -> bool {
    let mut six = [0; 6];
    machine.memory().copy_out(0, &mut six).is_ok() && six == *bytes
}

/// Whether a thread of the module comes to what the row wants, given so many units first, and so many each time after that.
fn comes(
    alloc: Global,
    module: &ValidModule,
    row: &Row,
    first: u64,
    each: u64,
) -> Result<bool, Fail> {
    let mut machine = Machine::begin(alloc, module)?;
    let mut asked = 0_usize;
    let mut used = 0_u64;
    let mut units = first;
    'runs: for _ in 0..5_000 {
        match turn(module, &mut machine, row.pages, units) {
            Ok((more, call)) => {
                used = used.wrapping_add(more);
                units = each;
                if let Some(call) = call {
                    if row.asks.get(asked) != Some(&(call.name, call.args)) {
                        return Ok(false);
                    }
                    asked = asked.wrapping_add(1);
                }
            }
            Err((more, end)) => {
                let is_told = used.wrapping_add(more) == row.used && end == row.end;
                let is_asked = asked == row.asks.len();
                return Ok(is_told && is_asked && begins_with(&machine, row.memory));
            }
        }
    }
    Ok(false)
}

/// The module with this code section.
fn module_of(alloc: Global, of_two: bool, code: &'static [u8]) -> Result<ValidModule, Fail> {
    let front = if of_two {
        codes::FRONT_OF_TWO
    } else {
        codes::FRONT
    };
    let parts = [
        (front, 1),
        (codes::ELEMENTS, 1),
        (code, 1),
        (codes::DATA, 1),
    ];
    valid(alloc, &parts)
}

/// Whether a thread of the row's module comes to what it wants.
fn plays(alloc: Global, row: &Row) -> Result<bool, Fail> {
    let module = module_of(alloc, row.of_two, row.code)?;
    comes(alloc, &module, row, 100_000, 100_000)
}

/// Whether a thread of each row's module comes to what the row wants.
fn all_play(alloc: Global, rows: &[Row]) -> Result<bool, Fail> {
    for row in rows {
        if !plays(alloc, row)? {
            return Ok(false);
        }
    }
    Ok(true)
}

#[test]
fn the_worked_functions_ask_the_host(rt: HostRuntime) -> Result<(), Fail> {
    assert!(rt; all_play(rt.alloc(), &WORKED)?);
    Ok(())
}

#[test]
fn each_trap(rt: HostRuntime) -> Result<(), Fail> {
    assert!(rt; all_play(rt.alloc(), &TRAPS)?);
    Ok(())
}

#[test]
fn the_first_frame_value_and_block_too_many(rt: HostRuntime) -> Result<(), Fail> {
    assert!(rt; all_play(rt.alloc(), &SINKING)?);
    Ok(())
}

#[test]
fn a_memory_grows_to_the_pages_given_and_to_its_maximum(rt: HostRuntime) -> Result<(), Fail> {
    assert!(rt; all_play(rt.alloc(), &GROWING)?);
    Ok(())
}

#[test]
fn branches_and_copies(rt: HostRuntime) -> Result<(), Fail> {
    assert!(rt; all_play(rt.alloc(), &BRANCHING)?);
    Ok(())
}

#[test]
fn calls_and_returns(rt: HostRuntime) -> Result<(), Fail> {
    assert!(rt; all_play(rt.alloc(), &CALLED)?);
    Ok(())
}

#[test]
fn low_bits_by_their_sign(rt: HostRuntime) -> Result<(), Fail> {
    assert!(rt; all_play(rt.alloc(), &EXTENDED)?);
    Ok(())
}

/// Whether its thread ends the same wherever it is cut.
fn cut_anywhere(alloc: Global, module: &ValidModule) -> Result<bool, Fail> {
    for cut in 0..55 {
        if !comes(alloc, module, &MIXED, cut, 1_000)? {
            return Ok(false);
        }
    }
    Ok(true)
}

/// Whether its thread ends the same in runs of so many units.
fn cut_evenly(alloc: Global, module: &ValidModule) -> Result<bool, Fail> {
    for each in 1..6 {
        if !comes(alloc, module, &MIXED, each, each)? {
            return Ok(false);
        }
    }
    Ok(true)
}

#[test]
fn a_run_that_is_cut_anywhere_ends_the_same(rt: HostRuntime) -> Result<(), Fail> {
    let module = module_of(rt.alloc(), false, codes::MIXED)?;
    assert!(rt; cut_anywhere(rt.alloc(), &module)?);
    assert!(rt; cut_evenly(rt.alloc(), &module)?);
    Ok(())
}

/// Whether an endless loop uses all its units each time.
fn spins(alloc: Global, given: &[u64]) -> Result<bool, Fail> {
    let module = valid(
        alloc,
        &[(codes::FRONT, 1), (codes::ELEMENTS, 1), (codes::SPIN, 1)],
    )?;
    let mut machine = Machine::begin(alloc, &module)?;
    'runs: for units in given {
        match turn(&module, &mut machine, 0, *units) {
            Ok((used, None)) if used == *units => {}
            _ => return Ok(false),
        }
    }
    Ok(true)
}

#[test]
fn an_endless_loop_uses_all_its_units(rt: HostRuntime) -> Result<(), Fail> {
    assert!(rt; spins(rt.alloc(), &[3, 4, 0, 1_000])?);
    Ok(())
}

/// The parts of its module.
static STARTED_PARTS: [Part; 5] = [
    (codes::FRONT, 1),
    (codes::START, 1),
    (codes::ELEMENTS, 1),
    (codes::STARTED, 1),
    (codes::DATA, 1),
];

#[test]
fn a_start_function_runs_before_handle(rt: HostRuntime) -> Result<(), Fail> {
    let module = valid(rt.alloc(), &STARTED_PARTS)?;
    assert!(rt; comes(rt.alloc(), &module, &STARTED, 4, 1_000)?);
    Ok(())
}
