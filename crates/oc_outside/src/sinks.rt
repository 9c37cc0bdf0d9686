//! Where bytes go.

ghost use Rattle.std.specs.Prelude.{◌≡◌, ℕ, ◌≤◌, length, take};
ghost use Rattle.oc_outside.specs.Counts.{Rose};
ghost use Rattle.oc_outside.specs.Told.{appended};
ghost use Rattle.oc_outside.specs.Sinks.{OnDone, OnEndFailed, UnlessDone, UnlessEndFailed};

/// What a sink answers: how many bytes of the piece it took, a fault, or want of memory.
#[derive(Clone, Copy, Debug, PartialEq, Eq)]
pub enum PutAnswer {
    Took(usize),
    Failed,
    NoMemory,
}

/// How a whole write ended.
#[derive(Clone, Copy, Debug, PartialEq, Eq)]
pub enum PutEnd {
    Done,
    Failed,
    NoMemory,
}

/// Where bytes go.
pub trait Sink {
    ghost use Rattle.std.specs.Prelude.{◌≡◌, ℕ, ◌^◌, ◌<◌, ◌≤◌, List, length, take, Option};
    ghost use Rattle.oc_outside.specs.Counts.{Rose};
    ghost use Rattle.oc_outside.specs.Told.{appended};
    ghost use Rattle.oc_outside.specs.Sinks.{IfTook, OnPutFailed, UnlessPutFailed, UnlessTook};

    // How many faults there were.
    ghost faults: { Self → ℕ };

    // The bytes that were taken, where they are told.
    ghost written: { Self → Option (List ℕ) };

    /// Takes some bytes from the front of the piece, at least one where it isn't empty.
    fn write(&mut self, piece: &[u8]) -> PutAnswer
        ensures never_falls { faults self.old ≤ faults self.new }
        ensures below_end { faults self.new < 2 ^ 64 }
        ensures failed { OnPutFailed result (Rose (faults self.old) (faults self.new)) }
        ensures no_fault { UnlessPutFailed result (faults self.new ≡ faults self.old) }

        ensures within { IfTook result (λ n. n ≤ length piece.now) }
        ensures progress { IfTook result (λ n. 0 < length piece.now → 0 < n) }
        ensures took { IfTook result (λ n. written self.new ≡ appended (take n piece.now) (written self.old)) }
        ensures refused { UnlessTook result (written self.new ≡ written self.old) };
}

/// Writes all of the bytes, piece after piece, until all are taken or the sink refuses.
pub fn write_all<S: Sink>(sink: &mut S, bytes: &[u8]) -> PutEnd
    ensures never_falls { S.faults sink.old ≤ S.faults sink.new }
    ensures done { OnDone result (S.written sink.new ≡ appended bytes.now (S.written sink.old)) }
    ensures failed { OnEndFailed result (Rose (S.faults sink.old) (S.faults sink.new)) }
    ensures no_fault { UnlessEndFailed result (S.faults sink.new ≡ S.faults sink.old) }
    ensures refused { UnlessDone result ((n : ℕ) × (n ≤ length bytes.now)
        × (S.written sink.new ≡ appended (take n bytes.now) (S.written sink.old))) }
{
    let mut at = 0;
    while at < bytes.len() {
        match sink.write(&bytes[at..]) {
            PutAnswer::Took(n) => at += n,
            PutAnswer::Failed => return PutEnd::Failed,
            PutAnswer::NoMemory => return PutEnd::NoMemory,
        }
    }
    PutEnd::Done
}
