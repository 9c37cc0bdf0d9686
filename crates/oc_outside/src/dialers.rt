//! What makes lines.

use crate::links::Link;
use oc_values::Name;

/// What a dialer answers: a line, a fault, or want of memory.
#[derive(Debug, Drop)]
pub enum DialAnswer<L> {
    Line(L),
    Failed,
    NoMemory,
}

/// What a dialer was asked for: which call, and with which address.
#[derive(Debug, Drop)]
pub enum Asked {
    Listen(Name),
    Connect(Name),
}

/// What makes lines to the other party.
pub trait Dialer {
    ghost use Rattle.std.specs.Prelude.{◌≡◌, ℕ, ◌+◌, ◌-◌, ◌^◌, min, ◌<◌, ◌≤◌, List, [], ◌∷◌, Option, IfSome};
    ghost use Rattle.oc_outside.specs.Counts.{Rose};
    ghost use Rattle.oc_outside.specs.Told.{appended};
    ghost use Rattle.oc_outside.specs.Dialers.{IfLine, OnDialFailed, OnDialNoMemory, UnlessDialFailed, UnlessDialNoMemory, UnlessLine};
    ghost use Rattle.oc_outside.specs.declared.dialers.Asked.{Asked};

    type Line: Link;

    // How many faults there were, how many lines were handed out, and how many were closed.
    ghost faults: { Self → ℕ };

    ghost handed: { Self → ℕ };

    ghost closed: { Self → ℕ };

    // What it was asked for in each call that found memory, in order, where it is told.
    ghost asked: { Self → Option (List Asked) };

    // The lists and counts of the line that was closed last.
    ghost last_sent: { Self → Option (List ℕ) };

    ghost last_arrived: { Self → Option (List ℕ) };

    ghost last_faults: { Self → ℕ };

    ghost last_ends: { Self → ℕ };

    /// Waits at the address for the other party.
    fn listen(&mut self, address: &str) -> DialAnswer<Self::Line>
        ensures never_falls { faults self.old ≤ faults self.new }
        ensures below_end { faults self.new < 2 ^ 64 }
        ensures failed { OnDialFailed result (Rose (faults self.old) (faults self.new)) }
        ensures no_fault { UnlessDialFailed result (faults self.new ≡ faults self.old) }
        ensures handed { IfLine result (λ _. handed self.new ≡ min (handed self.old + 1) (2 ^ 64 - 1)) }
        ensures none_handed { UnlessLine result (handed self.new ≡ handed self.old) }
        ensures asked { UnlessDialNoMemory result (asked self.new ≡ appended (Asked.Listen address.now ∷ []) (asked self.old)) }
        ensures not_asked { OnDialNoMemory result (asked self.new ≡ asked self.old) }
        ensures closed { closed self.new ≡ closed self.old }
        ensures last_sent { last_sent self.new ≡ last_sent self.old }
        ensures last_arrived { last_arrived self.new ≡ last_arrived self.old }
        ensures last_faults { last_faults self.new ≡ last_faults self.old }
        ensures last_ends { last_ends self.new ≡ last_ends self.old }

        ensures no_faults { IfLine result (λ line. Self.Line.faults line ≡ 0) }
        ensures no_ends { IfLine result (λ line. Self.Line.ends line ≡ 0) }
        ensures none_sent { IfLine result (λ line. IfSome (Self.Line.sent line) (λ list. list ≡ [])) }
        ensures none_arrived { IfLine result (λ line. IfSome (Self.Line.arrived line) (λ list. list ≡ [])) };

    /// Calls the other party at the address.
    fn connect(&mut self, address: &str) -> DialAnswer<Self::Line>
        ensures never_falls { faults self.old ≤ faults self.new }
        ensures below_end { faults self.new < 2 ^ 64 }
        ensures failed { OnDialFailed result (Rose (faults self.old) (faults self.new)) }
        ensures no_fault { UnlessDialFailed result (faults self.new ≡ faults self.old) }
        ensures handed { IfLine result (λ _. handed self.new ≡ min (handed self.old + 1) (2 ^ 64 - 1)) }
        ensures none_handed { UnlessLine result (handed self.new ≡ handed self.old) }
        ensures asked { UnlessDialNoMemory result (asked self.new ≡ appended (Asked.Connect address.now ∷ []) (asked self.old)) }
        ensures not_asked { OnDialNoMemory result (asked self.new ≡ asked self.old) }
        ensures closed { closed self.new ≡ closed self.old }
        ensures last_sent { last_sent self.new ≡ last_sent self.old }
        ensures last_arrived { last_arrived self.new ≡ last_arrived self.old }
        ensures last_faults { last_faults self.new ≡ last_faults self.old }
        ensures last_ends { last_ends self.new ≡ last_ends self.old }

        ensures no_faults { IfLine result (λ line. Self.Line.faults line ≡ 0) }
        ensures no_ends { IfLine result (λ line. Self.Line.ends line ≡ 0) }
        ensures none_sent { IfLine result (λ line. IfSome (Self.Line.sent line) (λ list. list ≡ [])) }
        ensures none_arrived { IfLine result (λ line. IfSome (Self.Line.arrived line) (λ list. list ≡ [])) };

    /// Ends the use of a line.
    fn close(&mut self, line: Self::Line)
        ensures never_falls { faults self.old ≤ faults self.new }
        ensures below_end { faults self.new < 2 ^ 64 }
        ensures closed { closed self.new ≡ min (closed self.old + 1) (2 ^ 64 - 1) }
        ensures handed { handed self.new ≡ handed self.old }
        ensures asked { asked self.new ≡ asked self.old }
        ensures last_sent { last_sent self.new ≡ Self.Line.sent line }
        ensures last_arrived { last_arrived self.new ≡ Self.Line.arrived line }
        ensures last_faults { last_faults self.new ≡ Self.Line.faults line }
        ensures last_ends { last_ends self.new ≡ Self.Line.ends line };
}
