//! A sink in memory.

use crate::plan::FaultPlan;
use crate::sinks::{PutAnswer, Sink};
use oc_values::Items;
use std::alloc::Global;
use std::marker::Model;

/// A sink in memory that tells what it took. The calls whose numbers it was made with fail.
#[derive(Debug, Drop)]
pub struct MemorySink {
    plan: FaultPlan,
    most: usize,
    bytes: Vec<u8>,
}

impl Model for MemorySink {
    ghost use Rattle.std.specs.Prelude.{◌<◌};
    ghost use Rattle.oc_outside.specs.MemorySink.{SinkState};

    ghost Value = { SinkState };

    ghost view = { λ s. record { written = s.bytes.items; calls = s.plan.calls; failing = s.plan.failing; faults = s.plan.faults; most = s.most } };

    ghost invariant = { λ s. 0 < s.most };
}

impl MemorySink {
    ghost use Rattle.std.specs.Prelude.{◌≡◌, [], ◌<◌};

    /// A sink that takes at most `most` bytes at once, and whose calls with the numbers `failing`,
    /// counted from 0, fail.
    pub fn new(alloc: Global, failing: Items<u64>, most: usize) -> MemorySink
        requires { 0 < most }
        ensures { result ≡ record { written = []; calls = 0; failing = failing; faults = 0; most = most } }
    {
        MemorySink {
            plan: FaultPlan::new(failing),
            most,
            bytes: Vec::new(alloc),
        }
    }

    /// The bytes that it took.
    pub fn written(&self) -> &[u8]
        ensures { result.now ≡ self.now.written }
    {
        self.bytes.as_slice()
    }
}

impl Sink for MemorySink {
    ghost use Rattle.std.specs.Prelude.{◌≡◌, ◌↔◌, ◌+◌, ◌-◌, ◌^◌, ◌<◌, ◌≤◌, Contains, Some, length, take, min};
    ghost use Rattle.oc_outside.specs.Counts.{Rose};
    ghost use Rattle.oc_outside.specs.Told.{appended};
    ghost use Rattle.oc_outside.specs.Sinks.{IfTook, OnPutFailed, UnlessPutFailed, UnlessTook};

    ghost faults = { λ s. s.faults };

    ghost written = { λ s. Some s.written };

    fn write(&mut self, piece: &[u8]) -> PutAnswer
        ensures never_falls { self.old.faults ≤ self.new.faults }
        ensures below_end { self.new.faults < 2 ^ 64 }
        ensures failed { OnPutFailed result (Rose self.old.faults self.new.faults) }
        ensures no_fault { UnlessPutFailed result (self.new.faults ≡ self.old.faults) }
        ensures planned { (result ≡ PutAnswer.Failed) ↔ Contains self.old.failing self.old.calls }
        ensures calls { self.new.calls ≡ min (self.old.calls + 1) (2 ^ 64 - 1) }
        ensures failing { self.new.failing ≡ self.old.failing }

        ensures within { IfTook result (λ n. n ≤ length piece.now) }
        ensures progress { IfTook result (λ n. 0 < length piece.now → 0 < n) }
        ensures at_most { IfTook result (λ n. n ≡ min (length piece.now) self.old.most) }
        ensures most { self.new.most ≡ self.old.most }
        ensures took { IfTook result (λ n. Some self.new.written ≡ appended (take n piece.now) (Some self.old.written)) }
        ensures refused { UnlessTook result (Some self.new.written ≡ Some self.old.written) }
    {
        if self.plan.next_fails() {
            return PutAnswer::Failed;
        }
        let n = piece.len().min(self.most);
        match self.bytes.extend_from_slice(&piece[..n]) {
            Ok(()) => PutAnswer::Took(n),
            Err(_) => PutAnswer::NoMemory,
        }
    }
}
