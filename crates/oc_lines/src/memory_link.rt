//! A line in memory.

ghost use Rattle.std.specs.Prelude.{◌≡◌, length, take, min};

use crate::plan::FaultPlan;
use oc_outside::{Link, PutAnswer, RecvAnswer};
use oc_values::Items;
use std::alloc::Global;
use std::marker::Model;

/// A line in memory that tells what was sent, what arrived and what still comes. The calls whose numbers it was made with
/// fail.
#[derive(Debug, Drop)]
pub struct MemoryLink {
    plan: FaultPlan,
    most: usize,
    sent: Vec<u8>,
    bytes: Items<u8>,
    at: usize,
    ends: u64,
}

impl Model for MemoryLink {
    ghost use Rattle.std.specs.Prelude.{◌≤◌, ◌<◌, take, drop, length};
    ghost use Rattle.oc_lines.specs.MemoryLines.{MemoryLine};

    ghost Value = { MemoryLine };

    ghost view = { λ l. record {
      sent = l.sent.items;
      arrived = take l.at l.bytes;
      coming = drop l.at l.bytes;
      ends = l.ends;
      most = l.most;
      calls = l.plan.calls;
      failing = l.plan.failing;
      faults = l.plan.faults;
    } };

    ghost invariant = { λ l. (l.at ≤ length l.bytes) × (0 < l.most) };
}

// Copies as many of the bytes as the buffer holds, and at most `most`, into its front, and says how many.
fn copy_front(into: &mut [u8], bytes: &[u8], most: usize) -> usize
    ensures count { result ≡ min most (min (length into.old) (length bytes.now)) }
    ensures front { take result into.new ≡ take result bytes.now }
{
    let n = into.len().min(bytes.len()).min(most);
    into[..n].copy_from_slice(&bytes[..n]);
    n
}

impl MemoryLink {
    ghost use Rattle.std.specs.Prelude.{◌<◌};
    ghost use Rattle.oc_lines.specs.MemoryLines.{unused_line};

    /// A line on which these bytes come, which gives and takes at most `most` bytes at once, and whose calls with the
    /// numbers `failing`, counted from 0 over both of its calls together, fail.
    pub fn new(alloc: Global, coming: Items<u8>, most: usize, failing: Items<u64>) -> MemoryLink
        requires { 0 < most }
        ensures { result ≡ unused_line coming most failing }
    {
        MemoryLink {
            plan: FaultPlan::new(failing),
            most,
            sent: Vec::new(alloc),
            bytes: coming,
            at: 0,
            ends: 0,
        }
    }

    /// The bytes that were sent.
    pub fn sent(&self) -> &[u8]
        ensures { result.now ≡ self.now.sent }
    {
        self.sent.as_slice()
    }
}

impl Link for MemoryLink {
    ghost use Rattle.std.specs.Prelude.{◌≡◌, ◌↔◌, ◌+◌, ◌-◌, ◌^◌, ◌<◌, ◌≤◌, [], Contains, Some, IfSome, length, take, min};
    ghost use Rattle.oc_outside.specs.Counts.{Rose};
    ghost use Rattle.oc_outside.specs.Told.{appended, preceded};
    ghost use Rattle.oc_outside.specs.Sinks.{IfTook, OnPutFailed, UnlessPutFailed, UnlessTook};
    ghost use Rattle.oc_outside.specs.Links.{IfGot, OnEnded, OnRecvFailed, UnlessEnded, UnlessGot, UnlessRecvFailed};

    ghost faults = { λ l. l.faults };

    ghost ends = { λ l. l.ends };

    ghost sent = { λ l. Some l.sent };

    ghost arrived = { λ l. Some l.arrived };

    ghost coming = { λ l. Some l.coming };

    fn send(&mut self, piece: &[u8]) -> PutAnswer
        ensures never_falls { self.old.faults ≤ self.new.faults }
        ensures below_end { self.new.faults < 2 ^ 64 }
        ensures failed { OnPutFailed result (Rose self.old.faults self.new.faults) }
        ensures fault { OnPutFailed result (self.new.faults ≡ min (self.old.faults + 1) (2 ^ 64 - 1)) }
        ensures no_fault { UnlessPutFailed result (self.new.faults ≡ self.old.faults) }
        ensures planned { (result ≡ PutAnswer.Failed) ↔ Contains self.old.failing self.old.calls }
        ensures calls { self.new.calls ≡ min (self.old.calls + 1) (2 ^ 64 - 1) }
        ensures failing { self.new.failing ≡ self.old.failing }

        ensures within { IfTook result (λ n. n ≤ length piece.now) }
        ensures progress { IfTook result (λ n. 0 < length piece.now → 0 < n) }
        ensures at_most { IfTook result (λ n. n ≡ min (length piece.now) self.old.most) }
        ensures most { self.new.most ≡ self.old.most }
        ensures took { IfTook result (λ n. Some self.new.sent ≡ appended (take n piece.now) (Some self.old.sent)) }
        ensures refused { UnlessTook result (Some self.new.sent ≡ Some self.old.sent) }

        ensures arrived { Some self.new.arrived ≡ Some self.old.arrived }
        ensures coming { Some self.new.coming ≡ Some self.old.coming }
        ensures ends { self.new.ends ≡ self.old.ends }
    {
        if self.plan.next_fails() {
            return PutAnswer::Failed;
        }
        let n = piece.len().min(self.most);
        match self.sent.extend_from_slice(&piece[..n]) {
            Ok(()) => PutAnswer::Took(n),
            Err(_) => PutAnswer::NoMemory,
        }
    }

    fn recv(&mut self, into: &mut [u8]) -> RecvAnswer
        requires { 0 < length into.old }
        ensures never_falls { self.old.faults ≤ self.new.faults }
        ensures below_end { self.new.faults < 2 ^ 64 }
        ensures failed { OnRecvFailed result (Rose self.old.faults self.new.faults) }
        ensures fault { OnRecvFailed result (self.new.faults ≡ min (self.old.faults + 1) (2 ^ 64 - 1)) }
        ensures no_fault { UnlessRecvFailed result (self.new.faults ≡ self.old.faults) }
        ensures planned { (result ≡ RecvAnswer.Failed) ↔ Contains self.old.failing self.old.calls }
        ensures calls { self.new.calls ≡ min (self.old.calls + 1) (2 ^ 64 - 1) }
        ensures failing { self.new.failing ≡ self.old.failing }

        ensures ends_never_fall { self.old.ends ≤ self.new.ends }
        ensures ends_below_end { self.new.ends < 2 ^ 64 }
        ensures ended { OnEnded result (Rose self.old.ends self.new.ends) }
        ensures end { OnEnded result (self.new.ends ≡ min (self.old.ends + 1) (2 ^ 64 - 1)) }
        ensures no_end { UnlessEnded result (self.new.ends ≡ self.old.ends) }
        ensures nothing_more { OnEnded result (IfSome (Some self.old.coming) (λ more. more ≡ [])) }

        ensures progress { IfGot result (λ n. 0 < n) }
        ensures within { IfGot result (λ n. n ≤ length into.old) }
        ensures available { IfGot result (λ n. IfSome (Some self.old.coming) (λ more. n ≤ length more)) }
        ensures at_most { IfGot result (λ n. n ≡ min self.old.most (min (length into.old) (length self.old.coming))) }
        ensures most { self.new.most ≡ self.old.most }
        ensures arrived { IfGot result (λ n. Some self.new.arrived ≡ appended (take n into.new) (Some self.old.arrived)) }
        ensures taken { IfGot result (λ n. Some self.old.coming ≡ preceded (take n into.new) (Some self.new.coming)) }

        ensures refused_arrived { UnlessGot result (Some self.new.arrived ≡ Some self.old.arrived) }
        ensures refused_coming { UnlessGot result (Some self.new.coming ≡ Some self.old.coming) }
        ensures sent { Some self.new.sent ≡ Some self.old.sent }
    {
        if self.plan.next_fails() {
            return RecvAnswer::Failed;
        }
        if self.at >= self.bytes.len() {
            self.ends = self.ends.saturating_add(1);
            return RecvAnswer::Ended;
        }
        let n = copy_front(into, &self.bytes.as_slice()[self.at..], self.most);
        self.at += n;
        RecvAnswer::Got(n)
    }
}
