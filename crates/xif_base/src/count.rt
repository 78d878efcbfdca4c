//! Counts of faults, and, only for the outside in memory, the numbers of the calls that fail.
ghost use Rattle.std.specs.Prelude.{◌≡◌, ◌≤◌, ℕ, IfOk};
ghost use Rattle.xif_base.specs.Faults.{raised};
ghost use Rattle.xif_base.specs.Calls.{first_call, is_failing, after_call};

use crate::NoMemory;
use std::alloc::Global;
use std::marker::Model;

/// How many faults there were. The count stays at its largest value, once there.
#[derive(Drop)]
pub(crate) struct FaultCount {
    count: u64,
}

impl Model for FaultCount {
    ghost Value = { ℕ };

    ghost view = { λ c. c.count };
}

impl FaultCount {
    pub(crate) fn new() -> Self
        ensures { result ≡ 0 }
    {
        FaultCount { count: 0 }
    }

    pub(crate) fn raise(&mut self)
        ensures raised { self.new ≡ raised self.old }
        ensures later { self.old ≤ self.new }
    {
        self.count = self.count.saturating_add(1);
    }
}

/// The numbers of the calls that fail, counted from 0, and the number of the next call.
#[derive(Drop)]
pub(crate) struct FailingCalls {
    failing: Vec<u64>,
    next: u64,
}

impl Model for FailingCalls {
    ghost use Rattle.xif_base.specs.Calls.{CallPlan, call_plan_code};

    ghost Value = { CallPlan };

    ghost coded = { call_plan_code };

    ghost view = { λ s. record { failing = s.failing.items; next = s.next } };
}

impl FailingCalls {
    pub(crate) fn new(alloc: Global, failing: &[u64]) -> Result<Self, NoMemory>
        ensures { IfOk result (λ calls. calls ≡ first_call failing.now) }
    {
        Ok(FailingCalls {
            failing: Vec::from_slice(alloc, failing)?,
            next: 0,
        })
    }

    /// Counts a call, and returns whether it fails.
    pub(crate) fn fails(&mut self) -> bool
        ensures fails { result ≡ is_failing self.old }
        ensures counted { self.new ≡ after_call self.old }
    {
        let fails = self.failing.contains(&self.next);
        self.next = self.next.saturating_add(1);
        fails
    }
}
