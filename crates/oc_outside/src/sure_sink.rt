//! A sink in memory that never fails.

ghost use Rattle.std.specs.Prelude.{◌≡◌, []};

use crate::sinks::{PutAnswer, Sink};
use std::alloc::Global;
use std::marker::Model;

/// A sink in memory that never fails and tells what it took, seen as these bytes.
#[derive(Debug, Drop)]
pub struct SureSink {
    bytes: Vec<u8>,
}

impl Model for SureSink {
    ghost use Rattle.std.specs.Prelude.{ℕ, List};

    ghost Value = { List ℕ };

    ghost view = { λ s. s.bytes.items };
}

impl SureSink {
    /// A sink that holds no bytes yet.
    pub fn new(alloc: Global) -> SureSink
        ensures { result ≡ [] }
    {
        SureSink {
            bytes: Vec::new(alloc),
        }
    }

    /// The bytes that it took.
    pub fn written(&self) -> &[u8]
        ensures { result.now ≡ self.now }
    {
        self.bytes.as_slice()
    }
}

impl Sink for SureSink {
    ghost use Rattle.std.specs.Prelude.{Some};

    ghost faults = { λ _. 0 };

    ghost written = { λ s. Some s };

    fn write(&mut self, piece: &[u8]) -> PutAnswer {
        match self.bytes.extend_from_slice(piece) {
            Ok(()) => PutAnswer::Took(piece.len()),
            Err(_) => PutAnswer::NoMemory,
        }
    }
}
