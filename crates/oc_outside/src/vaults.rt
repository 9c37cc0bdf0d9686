//! Files by name.

use oc_values::Items;
use std::alloc::Global;

/// What reading a file answers: its bytes, that the name holds nothing, a fault, or want of memory.
#[derive(Debug, Drop)]
pub enum FileAnswer {
    Bytes(Items<u8>),
    Absent,
    Failed,
    NoMemory,
}

/// What writing a file answers: that it was written, a fault, or want of memory.
#[derive(Clone, Copy, Debug, PartialEq, Eq)]
pub enum WriteAnswer {
    Written,
    Failed,
    NoMemory,
}

/// Files by name, as far as the outside tells what they hold.
pub trait Vault {
    ghost use Rattle.std.specs.Prelude.{◌≡◌, ◌≢◌, ℕ, ◌^◌, ◌<◌, ◌≤◌, List, length, take, Option, Some, None, IfSome, IsSomeAnd};
    ghost use Rattle.oc_outside.specs.Counts.{Rose};
    ghost use Rattle.oc_outside.specs.Vaults.{IfBytes, OnAbsent, OnReadFailed, UnlessReadFailed, OnWritten, OnWriteFailed, UnlessWriteFailed, OnWriteNoMemory};

    // How many faults there were.
    ghost faults: { Self → ℕ };

    // What a name holds: None where nothing is told, Some None where it holds nothing.
    ghost contents: { Self → List ℕ → Option (Option (List ℕ)) };

    // The name in the last call that answered `Failed`, where it is told and there was one.
    ghost failed: { Self → Option (List ℕ) };

    /// The contents of the name where they have at most `limit` bytes, and else their first `limit`
    /// bytes.
    fn read_file(&mut self, alloc: Global, name: &str, limit: u64) -> FileAnswer
        ensures never_falls { faults self.old ≤ faults self.new }
        ensures below_end { faults self.new < 2 ^ 64 }

        ensures failed { OnReadFailed result (Rose (faults self.old) (faults self.new)) }
        ensures named { OnReadFailed result (IfSome (failed self.new) (λ last. last ≡ name.now)) }
        ensures no_fault { UnlessReadFailed result (faults self.new ≡ faults self.old) }
        ensures others { UnlessReadFailed result (failed self.new ≡ failed self.old) }

        ensures bytes { IfBytes result (λ bytes. IfSome (contents self.old name.now)
            (λ held. IsSomeAnd held (λ whole. bytes ≡ take limit whole))) }
        ensures within { IfBytes result (λ bytes. length bytes ≤ limit) }
        ensures absent { OnAbsent result (IfSome (contents self.old name.now) (λ held. held ≡ None)) }
        ensures unchanged { contents self.new ≡ contents self.old };

    /// Makes the bytes the contents of the name. After `Failed` these contents are unknown.
    fn write_file(&mut self, name: &str, bytes: &[u8]) -> WriteAnswer
        ensures never_falls { faults self.old ≤ faults self.new }
        ensures below_end { faults self.new < 2 ^ 64 }

        ensures failed { OnWriteFailed result (Rose (faults self.old) (faults self.new)) }
        ensures named { OnWriteFailed result (IfSome (failed self.new) (λ last. last ≡ name.now)) }
        ensures no_fault { UnlessWriteFailed result (faults self.new ≡ faults self.old) }
        ensures others { UnlessWriteFailed result (failed self.new ≡ failed self.old) }

        ensures written { OnWritten result (IfSome (contents self.new name.now) (λ held. held ≡ Some bytes.now)) }
        ensures elsewhere { (n : List ℕ) → n ≢ name.now → contents self.new n ≡ contents self.old n }
        ensures no_memory { OnWriteNoMemory result (contents self.new ≡ contents self.old) };
}
