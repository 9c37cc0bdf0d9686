//! A line over TCP.

ghost use Rattle.std.specs.Prelude.{◌≤◌, length, IfOk};

use oc_outside::{Link, PutAnswer, RecvAnswer};
use std::io::{ErrorKind, Read, Write};
use std::marker::Model;

/// A connected stream as a line. It tells no bytes, and is seen as its counts.
#[derive(Drop)]
pub struct TcpLink<S> {
    stream: S,
    faults: u64,
    ends: u64,
}

impl<S> Model for TcpLink<S> {
    ghost use Rattle.std.specs.Prelude.{◌^◌, ◌<◌};
    ghost use Rattle.oc_lines.specs.TcpLines.{TcpLine};

    ghost Value = { TcpLine };

    ghost view = { λ l. record { faults = l.faults; ends = l.ends } };

    ghost invariant = { λ l. (l.faults < 2 ^ 64) × (l.ends < 2 ^ 64) };
}

impl<S: Read + Write> TcpLink<S> {
    ghost use Rattle.std.specs.Prelude.{◌≡◌};

    /// The line of this stream, on which nothing was sent or received yet.
    pub fn new(stream: S) -> TcpLink<S>
        ensures { result ≡ record { faults = 0; ends = 0 } }
    {
        TcpLink {
            stream,
            faults: 0,
            ends: 0,
        }
    }
}

impl<S> TcpLink<S> {
    ghost use Rattle.std.specs.Prelude.{◌≡◌};

    /// How many calls failed.
    pub fn faults(&self) -> u64
        ensures { result ≡ self.now.faults }
    {
        self.faults
    }

    /// How often it was found ended.
    pub fn ends(&self) -> u64
        ensures { result ≡ self.now.ends }
    {
        self.ends
    }
}

// One write, tried again where it was interrupted.
fn write_once<S: Write>(stream: &mut S, piece: &[u8]) -> Result<usize, ErrorKind>
    ensures { IfOk result (λ n. n ≤ length piece.now) }
{
    for _ in 0..u64::MAX {
        match stream.write(piece) {
            Ok(n) => return Ok(n),
            Err(error) => match error.kind() {
                ErrorKind::Interrupted => {}
                kind => return Err(kind),
            },
        }
    }
    Err(ErrorKind::Interrupted)
}

// One read, tried again where it was interrupted.
fn read_once<S: Read>(stream: &mut S, into: &mut [u8]) -> Result<usize, ErrorKind>
    ensures { IfOk result (λ n. n ≤ length into.old) }
{
    for _ in 0..u64::MAX {
        match stream.read(into) {
            Ok(n) => return Ok(n),
            Err(error) => match error.kind() {
                ErrorKind::Interrupted => {}
                kind => return Err(kind),
            },
        }
    }
    Err(ErrorKind::Interrupted)
}

impl<S: Read + Write> Link for TcpLink<S> {
    ghost use Rattle.std.specs.Prelude.{None};

    ghost faults = { λ l. l.faults };

    ghost ends = { λ l. l.ends };

    ghost sent = { λ _. None };

    ghost arrived = { λ _. None };

    ghost coming = { λ _. None };

    /// An interrupted write is tried again. A write of 0 bytes of a piece that isn't empty is a fault, and so is every other
    /// failure but want of memory.
    fn send(&mut self, piece: &[u8]) -> PutAnswer {
        match write_once(&mut self.stream, piece) {
            Ok(n) => {
                if n > 0 || piece.is_empty() {
                    return PutAnswer::Took(n);
                }
            }
            Err(ErrorKind::OutOfMemory) => return PutAnswer::NoMemory,
            Err(_) => {}
        }
        self.faults = self.faults.saturating_add(1);
        PutAnswer::Failed
    }

    /// An interrupted read is tried again. A read of 0 bytes is the end of the line, and every failure a fault.
    fn recv(&mut self, into: &mut [u8]) -> RecvAnswer {
        match read_once(&mut self.stream, into) {
            Ok(0) => {
                self.ends = self.ends.saturating_add(1);
                RecvAnswer::Ended
            }
            Ok(n) => RecvAnswer::Got(n),
            Err(_) => {
                self.faults = self.faults.saturating_add(1);
                RecvAnswer::Failed
            }
        }
    }
}
