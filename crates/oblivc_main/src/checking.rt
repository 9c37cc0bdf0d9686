//! The command `check`.

ghost use Rattle.std.specs.Prelude.{◌≡◌};
ghost use Rattle.oblivcc_commands.specs.declared.asked.Asked.TheVariants as commands;
ghost use Rattle.oblivc_main.specs.Endings.{Ends};

use crate::printing::print_line;
use crate::reading::read_source;
use crate::status::Status;
use oblivcc_commands::CheckWords;
use oc_outside::{PutEnd, Sink, Vault};
use std::alloc::Global;

/// Reads the source of a command, and prints `ok` where it is accepted.
pub fn check<'w, V: Vault, S: Sink>(
    alloc: Global,
    asked: &CheckWords<'w>,
    files: &mut V,
    out: &mut S,
) -> Status<'w>
    ensures end { Ends (record {
      told = V.contents files.old;
      told_after = V.contents files.new;
      faults_before = V.faults files.old;
      faults_after = V.faults files.new;
      failed = V.failed files.new;
      out = record { faults_before = S.faults out.old; faults_after = S.faults out.new; before = S.written out.old; after = S.written out.new };
    }) (commands.Check asked.now) result }
    ensures unchanged { V.contents files.new ≡ V.contents files.old }
{
    let _accepted = match read_source(alloc, files, asked.file) {
        Ok(accepted) => accepted,
        Err(status) => return status,
    };
    match print_line(out, "ok\n") {
        PutEnd::Done => Status::Done,
        PutEnd::Failed => Status::Output,
        PutEnd::NoMemory => Status::NoMemory,
    }
}
