//! Lines to the other party.

use crate::sinks::PutAnswer;

/// What receiving answers: how many bytes came, that the line ended, or a fault.
#[derive(Clone, Copy, Debug, PartialEq, Eq)]
pub enum RecvAnswer {
    Got(usize),
    Ended,
    Failed,
}

/// A line to the other party.
pub trait Link {
    ghost use Rattle.std.specs.Prelude.{◌≡◌, ℕ, ◌^◌, ◌<◌, ◌≤◌, List, [], ◌++◌, length, take, Option, IfSome};
    ghost use Rattle.oc_outside.specs.Counts.{Rose};
    ghost use Rattle.oc_outside.specs.Told.{appended, preceded};
    ghost use Rattle.oc_outside.specs.Sinks.{IfTook, OnPutFailed, UnlessPutFailed, UnlessTook};
    ghost use Rattle.oc_outside.specs.Links.{IfGot, OnEnded, OnRecvFailed, UnlessEnded, UnlessGot, UnlessRecvFailed};

    // How many faults there were, and how often the line was found ended.
    ghost faults: { Self → ℕ };

    ghost ends: { Self → ℕ };

    // The bytes that were sent, those that arrived, and those that still come, each where it is told.
    ghost sent: { Self → Option (List ℕ) };

    ghost arrived: { Self → Option (List ℕ) };

    ghost coming: { Self → Option (List ℕ) };

    /// Takes some bytes from the front of the piece, at least one where it isn't empty.
    fn send(&mut self, piece: &[u8]) -> PutAnswer
        ensures never_falls { faults self.old ≤ faults self.new }
        ensures below_end { faults self.new < 2 ^ 64 }
        ensures failed { OnPutFailed result (Rose (faults self.old) (faults self.new)) }
        ensures no_fault { UnlessPutFailed result (faults self.new ≡ faults self.old) }

        ensures within { IfTook result (λ n. n ≤ length piece.now) }
        ensures progress { IfTook result (λ n. 0 < length piece.now → 0 < n) }
        ensures took { IfTook result (λ n. sent self.new ≡ appended (take n piece.now) (sent self.old)) }
        ensures refused { UnlessTook result (sent self.new ≡ sent self.old) }

        ensures arrived { arrived self.new ≡ arrived self.old }
        ensures coming { coming self.new ≡ coming self.old }
        ensures ends { ends self.new ≡ ends self.old };

    /// Puts the next bytes that come into the front of the buffer. What the buffer holds behind them is unknown.
    fn recv(&mut self, into: &mut [u8]) -> RecvAnswer
        requires { 0 < length into.old }
        ensures never_falls { faults self.old ≤ faults self.new }
        ensures below_end { faults self.new < 2 ^ 64 }
        ensures failed { OnRecvFailed result (Rose (faults self.old) (faults self.new)) }
        ensures no_fault { UnlessRecvFailed result (faults self.new ≡ faults self.old) }

        ensures ends_never_fall { ends self.old ≤ ends self.new }
        ensures ends_below_end { ends self.new < 2 ^ 64 }
        ensures ended { OnEnded result (Rose (ends self.old) (ends self.new)) }
        ensures no_end { UnlessEnded result (ends self.new ≡ ends self.old) }
        ensures nothing_more { OnEnded result (IfSome (coming self.old) (λ more. more ≡ [])) }

        ensures progress { IfGot result (λ n. 0 < n) }
        ensures within { IfGot result (λ n. n ≤ length into.old) }
        ensures available { IfGot result (λ n. IfSome (coming self.old) (λ more. n ≤ length more)) }
        ensures arrived { IfGot result (λ n. arrived self.new ≡ appended (take n into.new) (arrived self.old)) }
        ensures taken { IfGot result (λ n. coming self.old ≡ preceded (take n into.new) (coming self.new)) }

        ensures refused_arrived { UnlessGot result (arrived self.new ≡ arrived self.old) }
        ensures refused_coming { UnlessGot result (coming self.new ≡ coming self.old) }
        ensures sent { sent self.new ≡ sent self.old };
}
