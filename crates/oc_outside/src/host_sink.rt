//! A writer as a sink.

ghost use Rattle.std.specs.Prelude.{◌≤◌, length, IfOk};

use crate::sinks::{PutAnswer, Sink};
use std::io::{ErrorKind, Write};
use std::marker::Model;

/// A writer as a sink. It tells nothing of what it wrote, and is seen as its count of faults.
#[derive(Drop)]
pub struct HostSink<W> {
    writer: W,
    faults: u64,
}

impl<W> Model for HostSink<W> {
    ghost use Rattle.std.specs.Prelude.{ℕ, ◌^◌, ◌<◌};

    ghost Value = { ℕ };

    ghost view = { λ s. s.faults };

    ghost invariant = { λ s. s.faults < 2 ^ 64 };
}

impl<W: Write> HostSink<W> {
    ghost use Rattle.std.specs.Prelude.{◌≡◌};

    /// This writer. It is never flushed, so it should hold nothing back.
    pub fn new(writer: W) -> HostSink<W>
        ensures { result ≡ 0 }
    {
        HostSink { writer, faults: 0 }
    }
}

// One write, tried again where it was interrupted.
fn write_once<W: Write>(writer: &mut W, piece: &[u8]) -> Result<usize, ErrorKind>
    ensures { IfOk result (λ n. n ≤ length piece.now) }
{
    for _ in 0..u64::MAX {
        match writer.write(piece) {
            Ok(n) => return Ok(n),
            Err(error) => match error.kind() {
                ErrorKind::Interrupted => {}
                kind => return Err(kind),
            },
        }
    }
    Err(ErrorKind::Interrupted)
}

impl<W: Write> Sink for HostSink<W> {
    ghost use Rattle.std.specs.Prelude.{None};

    ghost faults = { λ s. s };

    ghost written = { λ _. None };

    /// An interrupted write is tried again. A write of 0 bytes of a piece that isn't empty is a fault,
    /// and so is every other failure but want of memory.
    fn write(&mut self, piece: &[u8]) -> PutAnswer {
        match write_once(&mut self.writer, piece) {
            Ok(n) => {
                if n > 0 || piece.is_empty() {
                    return PutAnswer::Took(n);
                }
            }
            Err(ErrorKind::OutOfMemory) => return PutAnswer::NoMemory,
            Err(_) => {}
        }
        self.faults = self.faults.saturating_add(1);
        PutAnswer::Failed
    }
}
