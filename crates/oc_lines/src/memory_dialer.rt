//! A dialer in memory.

ghost use Rattle.std.specs.Prelude.{◌≡◌, ◌+◌, ◌-◌, ◌^◌, ◌<◌, ◌≤◌, [], ◌∷◌, ◌++◌, min, All, Some};
ghost use Rattle.oc_outside.specs.Dialers.{IfLine, OnDialFailed, OnDialNoMemory};
ghost use Rattle.oc_lines.specs.MemoryLines.{IsUnused, IsDue, unused_line};

use crate::memory_link::MemoryLink;
use crate::plan::FaultPlan;
use oc_outside::{Asked, DialAnswer, Dialer};
use oc_values::{Items, Name, NoMemory};
use std::alloc::Global;
use std::collections::VecDeque;
use std::marker::Model;

/// A dialer in memory that hands out the lines that it was made with, in their order. The calls whose numbers it was made
/// with fail, and so does each call that finds no line left.
#[derive(Drop)]
pub struct MemoryDialer {
    alloc: Global,
    plan: FaultPlan,
    lines: VecDeque<MemoryLink>,
    asked: Items<Asked>,
    handed: u64,
    closed: u64,
    last: MemoryLink,
}

impl Model for MemoryDialer {
    ghost use Rattle.std.specs.Prelude.{◌^◌, ◌<◌, All};
    ghost use Rattle.oc_lines.specs.MemoryLines.{MemoryDialing, IsUnused};

    ghost Value = { MemoryDialing };

    ghost view = { λ d. record {
      lines = d.lines.items;
      asked = d.asked;
      handed = d.handed;
      closed = d.closed;
      last = d.last;
      calls = d.plan.calls;
      failing = d.plan.failing;
      faults = d.plan.faults;
    } };

    ghost invariant = { λ d. All IsUnused d.lines.items × (d.plan.faults < 2 ^ 64) };
}

impl MemoryDialer {
    /// A dialer that hands out these lines, which weren't used yet, and whose calls with the numbers `failing`, counted
    /// from 0 over `listen` and `connect` together, fail. A call that finds no memory isn't counted. The last line is at
    /// first one on which nothing comes.
    pub fn new(alloc: Global, lines: VecDeque<MemoryLink>, failing: Items<u64>) -> MemoryDialer
        requires { All IsUnused lines.items }
        ensures { result ≡ record {
          lines = lines.items;
          asked = [];
          handed = 0;
          closed = 0;
          last = unused_line [] 1 [];
          calls = 0;
          failing = failing;
          faults = 0;
        } }
    {
        MemoryDialer {
            alloc,
            plan: FaultPlan::new(failing),
            lines,
            asked: Items::new(alloc),
            handed: 0,
            closed: 0,
            last: MemoryLink::new(alloc, Items::new(alloc), 1, Items::new(alloc)),
        }
    }

    /// What it was asked for, in order.
    pub fn asked(&self) -> &[Asked]
        ensures { result.now ≡ self.now.asked }
    {
        self.asked.as_slice()
    }

    /// The line that was closed last.
    pub fn last(&self) -> &MemoryLink
        ensures { result.now ≡ self.now.last }
    {
        &self.last
    }

    fn hand_out(&mut self, asked: Asked) -> DialAnswer<MemoryLink>
        ensures line { IfLine result (λ line. self.old.lines ≡ line ∷ self.new.lines) }
        ensures unused { IfLine result IsUnused }
        ensures due { IfLine result (λ _. IsDue self.old) }
        ensures handed { IfLine result (λ _. self.new ≡ record self.old {
          lines = self.new.lines;
          asked = self.old.asked ++ asked ∷ [];
          handed = min (self.old.handed + 1) (2 ^ 64 - 1);
          calls = min (self.old.calls + 1) (2 ^ 64 - 1);
        }) }
        ensures not_due { OnDialFailed result (IsDue self.old → ⊥) }
        ensures failed { OnDialFailed result (self.new ≡ record self.old {
          asked = self.old.asked ++ asked ∷ [];
          calls = min (self.old.calls + 1) (2 ^ 64 - 1);
          faults = min (self.old.faults + 1) (2 ^ 64 - 1);
        }) }
        ensures unchanged { OnDialNoMemory result (self.new ≡ self.old) }
        ensures never_falls { self.old.faults ≤ self.new.faults }
        ensures below_end { self.new.faults < 2 ^ 64 }
    {
        if self.asked.push(asked).is_err() {
            return DialAnswer::NoMemory;
        }
        if self.plan.next_fails() {
            return DialAnswer::Failed;
        }
        match self.lines.pop_front() {
            Some(line) => {
                self.handed = self.handed.saturating_add(1);
                DialAnswer::Line(line)
            }
            None => {
                self.plan.count_fault();
                DialAnswer::Failed
            }
        }
    }
}

impl Dialer for MemoryDialer {
    ghost use Rattle.std.specs.Prelude.{IfSome};
    ghost use Rattle.oc_outside.specs.Counts.{Rose};
    ghost use Rattle.oc_outside.specs.Told.{appended};
    ghost use Rattle.oc_outside.specs.Dialers.{UnlessDialFailed, UnlessDialNoMemory, UnlessLine};
    ghost use Rattle.oc_outside.specs.declared.dialers.Asked.{Asked};

    type Line = MemoryLink;

    ghost faults = { λ d. d.faults };

    ghost handed = { λ d. d.handed };

    ghost closed = { λ d. d.closed };

    ghost asked = { λ d. Some d.asked };

    ghost last_sent = { λ d. Some d.last.sent };

    ghost last_arrived = { λ d. Some d.last.arrived };

    ghost last_faults = { λ d. d.last.faults };

    ghost last_ends = { λ d. d.last.ends };

    fn listen(&mut self, address: &str) -> DialAnswer<MemoryLink>
        ensures never_falls { self.old.faults ≤ self.new.faults }
        ensures below_end { self.new.faults < 2 ^ 64 }
        ensures failed { OnDialFailed result (Rose self.old.faults self.new.faults) }
        ensures fault { OnDialFailed result (self.new.faults ≡ min (self.old.faults + 1) (2 ^ 64 - 1)) }
        ensures no_fault { UnlessDialFailed result (self.new.faults ≡ self.old.faults) }
        ensures handed { IfLine result (λ _. self.new.handed ≡ min (self.old.handed + 1) (2 ^ 64 - 1)) }
        ensures none_handed { UnlessLine result (self.new.handed ≡ self.old.handed) }
        ensures asked { UnlessDialNoMemory result (Some self.new.asked ≡ appended (Asked.Listen address.now ∷ []) (Some self.old.asked)) }
        ensures not_asked { OnDialNoMemory result (Some self.new.asked ≡ Some self.old.asked) }
        ensures closed { self.new.closed ≡ self.old.closed }
        ensures last { self.new.last ≡ self.old.last }
        ensures last_sent { Some self.new.last.sent ≡ Some self.old.last.sent }
        ensures last_arrived { Some self.new.last.arrived ≡ Some self.old.last.arrived }
        ensures last_faults { self.new.last.faults ≡ self.old.last.faults }
        ensures last_ends { self.new.last.ends ≡ self.old.last.ends }

        ensures line { IfLine result (λ line. self.old.lines ≡ line ∷ self.new.lines) }
        ensures no_line { UnlessLine result (self.new.lines ≡ self.old.lines) }
        ensures due { IfLine result (λ _. IsDue self.old) }
        ensures not_due { OnDialFailed result (IsDue self.old → ⊥) }
        ensures calls { UnlessDialNoMemory result (self.new.calls ≡ min (self.old.calls + 1) (2 ^ 64 - 1)) }
        ensures not_counted { OnDialNoMemory result (self.new.calls ≡ self.old.calls) }
        ensures failing { self.new.failing ≡ self.old.failing }

        ensures no_faults { IfLine result (λ line. line.faults ≡ 0) }
        ensures no_ends { IfLine result (λ line. line.ends ≡ 0) }
        ensures none_sent { IfLine result (λ line. IfSome (Some line.sent) (λ list. list ≡ [])) }
        ensures none_arrived { IfLine result (λ line. IfSome (Some line.arrived) (λ list. list ≡ [])) }
    {
        match Name::from_bytes(self.alloc, address.as_bytes()) {
            Ok(name) => self.hand_out(Asked::Listen(name)),
            Err(NoMemory) => DialAnswer::NoMemory,
        }
    }

    fn connect(&mut self, address: &str) -> DialAnswer<MemoryLink>
        ensures never_falls { self.old.faults ≤ self.new.faults }
        ensures below_end { self.new.faults < 2 ^ 64 }
        ensures failed { OnDialFailed result (Rose self.old.faults self.new.faults) }
        ensures fault { OnDialFailed result (self.new.faults ≡ min (self.old.faults + 1) (2 ^ 64 - 1)) }
        ensures no_fault { UnlessDialFailed result (self.new.faults ≡ self.old.faults) }
        ensures handed { IfLine result (λ _. self.new.handed ≡ min (self.old.handed + 1) (2 ^ 64 - 1)) }
        ensures none_handed { UnlessLine result (self.new.handed ≡ self.old.handed) }
        ensures asked { UnlessDialNoMemory result (Some self.new.asked ≡ appended (Asked.Connect address.now ∷ []) (Some self.old.asked)) }
        ensures not_asked { OnDialNoMemory result (Some self.new.asked ≡ Some self.old.asked) }
        ensures closed { self.new.closed ≡ self.old.closed }
        ensures last { self.new.last ≡ self.old.last }
        ensures last_sent { Some self.new.last.sent ≡ Some self.old.last.sent }
        ensures last_arrived { Some self.new.last.arrived ≡ Some self.old.last.arrived }
        ensures last_faults { self.new.last.faults ≡ self.old.last.faults }
        ensures last_ends { self.new.last.ends ≡ self.old.last.ends }

        ensures line { IfLine result (λ line. self.old.lines ≡ line ∷ self.new.lines) }
        ensures no_line { UnlessLine result (self.new.lines ≡ self.old.lines) }
        ensures due { IfLine result (λ _. IsDue self.old) }
        ensures not_due { OnDialFailed result (IsDue self.old → ⊥) }
        ensures calls { UnlessDialNoMemory result (self.new.calls ≡ min (self.old.calls + 1) (2 ^ 64 - 1)) }
        ensures not_counted { OnDialNoMemory result (self.new.calls ≡ self.old.calls) }
        ensures failing { self.new.failing ≡ self.old.failing }

        ensures no_faults { IfLine result (λ line. line.faults ≡ 0) }
        ensures no_ends { IfLine result (λ line. line.ends ≡ 0) }
        ensures none_sent { IfLine result (λ line. IfSome (Some line.sent) (λ list. list ≡ [])) }
        ensures none_arrived { IfLine result (λ line. IfSome (Some line.arrived) (λ list. list ≡ [])) }
    {
        match Name::from_bytes(self.alloc, address.as_bytes()) {
            Ok(name) => self.hand_out(Asked::Connect(name)),
            Err(NoMemory) => DialAnswer::NoMemory,
        }
    }

    fn close(&mut self, line: MemoryLink)
        ensures never_falls { self.old.faults ≤ self.new.faults }
        ensures below_end { self.new.faults < 2 ^ 64 }
        ensures closed { self.new.closed ≡ min (self.old.closed + 1) (2 ^ 64 - 1) }
        ensures handed { self.new.handed ≡ self.old.handed }
        ensures asked { Some self.new.asked ≡ Some self.old.asked }
        ensures last { self.new.last ≡ line }
        ensures last_sent { Some self.new.last.sent ≡ Some line.sent }
        ensures last_arrived { Some self.new.last.arrived ≡ Some line.arrived }
        ensures last_faults { self.new.last.faults ≡ line.faults }
        ensures last_ends { self.new.last.ends ≡ line.ends }

        ensures no_fault { self.new.faults ≡ self.old.faults }
        ensures lines { self.new.lines ≡ self.old.lines }
        ensures calls { self.new.calls ≡ self.old.calls }
        ensures failing { self.new.failing ≡ self.old.failing }
    {
        self.closed = self.closed.saturating_add(1);
        self.last = line;
    }
}
