//! A sink in memory, which tells what was written and fails where it is told to.

ghost use Rattle.std.specs.Prelude.{◌≡◌, ◌∷◌, ◌++◌, [], length, max, min, OnOk, OnErr, IfOk, IsErr, Some};
ghost use Rattle.trapeze_io.specs.Plan.{FailsNext, after_call, no_plan};

use crate::failures::{Failed, NoMemory, count_fault};
use crate::plan::Plan;
use crate::streams::Sink;
use std::alloc::Global;
use std::marker::Model;

/// A sink in memory, which tells the bytes written.
///
/// A write fails only where `fail_at` names it, or where the memory for its bytes was refused.
#[derive(Drop)]
pub struct MemSink {
    bytes: Vec<u8>,
    faults: u64,
    plan: Plan,
}

impl Model for MemSink {
    ghost use Rattle.trapeze_io.specs.Memory.{SinkState};

    ghost Value = { SinkState };

    ghost view = { λ s. record { written = s.bytes.items; faults = s.faults; plan = s.plan } };
}

impl MemSink {
    /// Nothing written.
    pub fn new(alloc: Global) -> MemSink
        ensures { result ≡ record { written = []; faults = 0; plan = no_plan usize.MAX } }
    {
        MemSink {
            bytes: Vec::new(alloc),
            faults: 0,
            plan: Plan::new(alloc),
        }
    }

    /// Lets the write with this number fail, counting from 1.
    pub fn fail_at(&mut self, call: u32) -> Result<(), NoMemory>
        ensures ok { OnOk result (self.new
            ≡ record self.old { plan = record self.old.plan { failing = self.old.plan.failing ++ call ∷ [] } }) }
        ensures err { OnErr result (self.new ≡ self.old) }
    {
        self.plan.fail_at(call)
    }

    /// Lets a write take at most that many bytes, and at least 1.
    pub fn step(&mut self, most: u32)
        ensures { self.new ≡ record self.old { plan = record self.old.plan { most = max most 1 } } }
    {
        self.plan.step(most);
    }

    /// The bytes written.
    pub fn written(&self) -> &[u8]
        ensures { result.now ≡ self.now.written }
    {
        self.bytes.as_slice()
    }
}

impl Sink for MemSink {
    ghost use Rattle.trapeze_io.specs.Causes.{HasCause, one_more};
    ghost use Rattle.trapeze_io.specs.Sinks.{AppendsFirst, WritesSome};

    ghost written = { λ s. Some s.written };

    ghost faults = { λ s. s.faults };

    fn write(&mut self, piece: &[u8]) -> Result<usize, Failed>
        ensures bytes { AppendsFirst (Some self.old.written) (Some self.new.written) result piece.now }
        ensures some { WritesSome result piece.now }
        ensures cause { HasCause self.old.faults self.new.faults result }
        ensures plan { self.new.plan ≡ after_call self.old.plan }
        ensures planned { FailsNext self.old.plan → IsErr result }
        ensures step { IfOk result (λ n. n ≡ min (length piece.now) self.old.plan.most) }
        ensures taken { OnOk result (self.new.faults ≡ self.old.faults) }
        ensures failed { OnErr result (self.new.faults ≡ one_more self.old.faults) }
    {
        let count = piece.len().min(self.plan.most());
        if !self.plan.next_fails() && self.bytes.extend_from_slice(&piece[..count]).is_ok() {
            return Ok(count);
        }
        Err(count_fault(&mut self.faults))
    }
}
