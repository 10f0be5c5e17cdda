//! Sandboxes that run.

ghost use Rattle.std.specs.Prelude.{◌≡◌, ◌≤◌, IfOk, OnErr};
ghost use Rattle.wasm_ast.specs.Spaces.{first_pages};
ghost use Rattle.wasm_semantics.specs.Units.{units as units_of};
ghost use Rattle.sandbox.specs.Threads.{thread_of, IsReady};
ghost use Rattle.sandbox.specs.Going.{Begins, EndsAs};

use crate::going::{Begun, Going, Went};
use crate::suspended::Suspended;
use std::alloc::Global;
use wasm_ast::{Module, NoMemory};
use wasm_exec::{Machine, Stop};
use wasm_validate::ValidModule;

/// A thread of a module that goes on. Nothing else can reach what it holds.
#[derive(Drop)]
pub struct Sandbox {
    pub(crate) machine: Machine,
}

/// How many pages the memory begins with.
fn least_pages(program: &Module) -> u32
    ensures { result ≡ first_pages program.now }
{
    match program.memories().first() {
        Some(limits) => limits.minimum(),
        None => 0,
    }
}

impl Sandbox {
    /// The thread that a module begins with, where its memory may have so many pages.
    ///
    /// # Errors
    ///
    /// Out of memory, where the memory may have so many pages.
    pub fn fresh(alloc: Global, module: &ValidModule, pages: u32) -> Result<Begun, NoMemory>
        ensures begins { IfOk result (Begins module.now pages) }
        ensures room { OnErr result (first_pages module.now ≤ pages) }
    {
        if least_pages(module.module()) > pages {
            return Ok(Begun::Pages);
        }
        let machine = Machine::begin(alloc, module)?;
        Ok(Begun::Ready(Sandbox { machine }))
    }

    /// Takes units, up to a number of them, where the memory may have so many pages. The sandbox is spent; what is left of it comes back.
    pub fn go(self, module: &ValidModule, pages: u32, units: u64) -> Went
        requires ready { IsReady module.now self }
        ensures ends { EndsAs module.now (units_of module.now pages (thread_of module.now self) units) result.used result.going }
        ensures within { result.used ≤ units }
    {
        let Sandbox { mut machine } = self;
        let ran = machine.run(module, pages, units);
        let going = match ran.stop {
            Stop::Spent => Going::Spent(Sandbox { machine }),
            Stop::Done => Going::Done,
            Stop::Trapped(trap) => Going::Trapped(trap),
            Stop::Call(asked) => Going::Asks(Suspended { machine, asked }),
            Stop::NoMemory => Going::NoMemory,
        };
        Went {
            used: ran.used,
            going,
        }
    }
}
