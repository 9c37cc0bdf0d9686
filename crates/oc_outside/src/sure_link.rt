//! A line in memory that never fails.

ghost use Rattle.std.specs.Prelude.{◌≡◌, length, take, min};

use crate::links::{Link, RecvAnswer};
use crate::sinks::PutAnswer;
use oc_values::Items;
use std::alloc::Global;
use std::marker::Model;

/// A line in memory that never fails: it takes all that is sent, gives the bytes that come, and then
/// ends.
#[derive(Debug, Drop)]
pub struct SureLink {
    sent: Vec<u8>,
    bytes: Items<u8>,
    at: usize,
    ends: u64,
}

impl Model for SureLink {
    ghost use Rattle.std.specs.Prelude.{◌≤◌, take, drop, length};
    ghost use Rattle.oc_outside.specs.Lines.{LineState};

    ghost Value = { LineState };

    ghost view = { λ l. record { sent = l.sent.items; arrived = take l.at l.bytes; coming = drop l.at l.bytes; ends = l.ends } };

    ghost invariant = { λ l. l.at ≤ length l.bytes };
}

// Copies as many of the bytes as the buffer holds into its front, and says how many.
fn copy_front(into: &mut [u8], bytes: &[u8]) -> usize
    ensures count { result ≡ min (length into.old) (length bytes.now) }
    ensures front { take result into.new ≡ take result bytes.now }
{
    let n = into.len().min(bytes.len());
    into[..n].copy_from_slice(&bytes[..n]);
    n
}

impl SureLink {
    ghost use Rattle.oc_outside.specs.Lines.{new_line};

    /// A line on which these bytes come.
    pub fn new(alloc: Global, coming: Items<u8>) -> SureLink
        ensures { result ≡ new_line coming }
    {
        SureLink {
            sent: Vec::new(alloc),
            bytes: coming,
            at: 0,
            ends: 0,
        }
    }

    /// The bytes that were sent.
    pub fn sent(&self) -> &[u8]
        ensures { result.now ≡ self.now.sent }
    {
        self.sent.as_slice()
    }
}

impl Link for SureLink {
    ghost use Rattle.std.specs.Prelude.{Some};

    ghost faults = { λ _. 0 };

    ghost ends = { λ l. l.ends };

    ghost sent = { λ l. Some l.sent };

    ghost arrived = { λ l. Some l.arrived };

    ghost coming = { λ l. Some l.coming };

    fn send(&mut self, piece: &[u8]) -> PutAnswer {
        match self.sent.extend_from_slice(piece) {
            Ok(()) => PutAnswer::Took(piece.len()),
            Err(_) => PutAnswer::NoMemory,
        }
    }

    fn recv(&mut self, into: &mut [u8]) -> RecvAnswer {
        if self.at >= self.bytes.len() {
            self.ends = self.ends.saturating_add(1);
            return RecvAnswer::Ended;
        }
        let n = copy_front(into, &self.bytes.as_slice()[self.at..]);
        self.at += n;
        RecvAnswer::Got(n)
    }
}
