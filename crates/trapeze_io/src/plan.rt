//! Which calls of a form in memory fail, and how much its calls move.

ghost use Rattle.std.specs.Prelude.{◌≡◌, ◌∷◌, ◌++◌, ◌==◌, [], ◌<◌, OnOk, OnErr, max};
ghost use Rattle.std.specs.List.{list_any};
ghost use Rattle.trapeze_io.specs.Plan.{Plan, fails_next, after_call, no_plan};

use crate::failures::NoMemory;
use std::alloc::Global;
use std::marker::Model;

/// Which calls fail, how many were made, and the most bytes that one moves.
#[derive(Drop)]
pub(crate) struct Plan {
    failing: Vec<u32>,
    calls: u64,
    most: usize,
}

impl Model for Plan {
    ghost use Rattle.std.specs.Prelude.{◌<◌};
    ghost use Rattle.trapeze_io.specs.Plan.{Plan};

    ghost Value = { Plan };

    ghost view = { λ s. record { failing = s.failing.items; calls = s.calls; most = s.most } };

    ghost invariant = { λ s. 0 < s.most };
}

impl Plan {
    /// No call fails.
    pub(crate) fn new(alloc: Global) -> Plan
        ensures { result ≡ no_plan usize.MAX }
    {
        Plan {
            failing: Vec::new(alloc),
            calls: 0,
            most: usize::MAX,
        }
    }

    /// Lets the call with this number fail.
    pub(crate) fn fail_at(&mut self, call: u32) -> Result<(), NoMemory>
        ensures ok { OnOk result (self.new ≡ record self.old { failing = self.old.failing ++ call ∷ [] }) }
        ensures err { OnErr result (self.new ≡ self.old) }
    {
        match self.failing.push(call) {
            Ok(()) => Ok(()),
            Err(_) => Err(NoMemory),
        }
    }

    /// Lets a call move at most that many bytes, and at least 1.
    pub(crate) fn step(&mut self, most: u32)
        ensures { self.new ≡ record self.old { most = max most 1 } }
    {
        self.most = (most as usize).max(1);
    }

    /// Counts one more call, and tells whether it fails.
    pub(crate) fn next_fails(&mut self) -> bool
        ensures counted { self.new ≡ after_call self.old }
        ensures fails { result ≡ fails_next self.old }
    {
        self.calls = self.calls.saturating_add(1);
        is_among(&self.failing, self.calls)
    }

    /// The most bytes that a call moves.
    pub(crate) fn most(&self) -> usize
        ensures most { result ≡ self.now.most }
        ensures some { 0 < result }
    {
        self.most
    }
}

fn is_among(failing: &[u32], number: u64) -> bool
    ensures { result ≡ list_any (λ call. call == number) failing.now }
{
    failing.iter().any(|call| u64::from(*call) == number)
}
