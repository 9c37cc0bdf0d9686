//! Writing the files that a command makes.

ghost use Rattle.std.specs.Prelude.{◌≡◌, ◌≢◌, ◌≤◌, ℕ, List};
ghost use Rattle.oblivc_main.specs.Making.{Puts};

use crate::status::Status;
use oc_outside::{Vault, WriteAnswer};

/// Writes a file.
pub fn make_file<'n, V: Vault>(files: &mut V, name: &'n str, bytes: &[u8]) -> Result<(), Status<'n>>
    ensures end { Puts (record {
      before = V.contents files.old;
      after = V.contents files.new;
      faults_before = V.faults files.old;
      faults_after = V.faults files.new;
      failed = V.failed files.new;
    }) name.now bytes.now result }
    ensures never_falls { V.faults files.old ≤ V.faults files.new }
    ensures elsewhere { (n : List ℕ) → n ≢ name.now → V.contents files.new n ≡ V.contents files.old n }
{
    match files.write_file(name, bytes) {
        WriteAnswer::Written => Ok(()),
        WriteAnswer::Failed => Err(Status::File(name)),
        WriteAnswer::NoMemory => Err(Status::NoMemory),
    }
}
