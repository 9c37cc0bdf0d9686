//! Reading the files of a command.

ghost use Rattle.std.specs.Prelude.{◌≡◌, ◌≤◌};
ghost use Rattle.std.specs.Option.{option_map};
ghost use Rattle.oblivc_main.specs.declared.status.Status.TheVariants as statuses;
ghost use Rattle.oblivc_main.specs.Sources.{status_of};
ghost use Rattle.oblivc_main.specs.Forms.{source_content, words};
ghost use Rattle.oblivc_main.specs.Reading.{Fetches};
ghost use Rattle.oblivc_main.specs.Steps.{Reads, source_step, input_step};
ghost use Rattle.oblivc_main.specs.Clearing.{ReadsGiven};

use crate::refusal::Refusal;
use crate::status::Status;
use accepted_sources::{AcceptedSource, SourceFault, accept};
use input_words::{MAX_BYTES, WordsFault, read_words};
use oc_outside::{FileAnswer, Vault};
use oc_values::Items;
use std::alloc::Global;

/// How many bytes of a source are read: one more than it may have.
const SOURCE_LIMIT: u64 = 1_048_577;

/// The bytes of a file, or the first of them where it has more than this many.
fn read_bytes<'n, V: Vault>(
    alloc: Global,
    files: &mut V,
    name: &'n str,
    limit: u64,
) -> Result<Items<u8>, Status<'n>>
    ensures end { Fetches (record {
      told = V.contents files.old;
      faults_before = V.faults files.old;
      faults_after = V.faults files.new;
      failed = V.failed files.new;
    }) name.now limit result }
    ensures never_falls { V.faults files.old ≤ V.faults files.new }
    ensures unchanged { V.contents files.new ≡ V.contents files.old }
{
    match files.read_file(alloc, name, limit) {
        FileAnswer::Bytes(bytes) => Ok(bytes),
        FileAnswer::Absent | FileAnswer::Failed => Err(Status::File(name)),
        FileAnswer::NoMemory => Err(Status::NoMemory),
    }
}

/// The end of a command at a source that isn't accepted.
fn not_accepted(fault: SourceFault) -> Status<'static>
    ensures { result ≡ status_of fault }
{
    match fault {
        SourceFault::Refused { rule, spot } => Status::Refused(Refusal { rule, spot }),
        SourceFault::NoMemory => Status::NoMemory,
    }
}

/// A source that is accepted, or why it isn't.
pub fn read_source<'n, V: Vault>(
    alloc: Global,
    files: &mut V,
    name: &'n str,
) -> Result<AcceptedSource, Status<'n>>
    ensures end { Reads source_content (record {
      told = V.contents files.old;
      faults_before = V.faults files.old;
      faults_after = V.faults files.new;
      failed = V.failed files.new;
    }) (source_step name.now) result }
    ensures never_falls { V.faults files.old ≤ V.faults files.new }
    ensures unchanged { V.contents files.new ≡ V.contents files.old }
{
    let bytes = read_bytes(alloc, files, name, SOURCE_LIMIT)?;
    match accept(alloc, bytes.as_slice()) {
        Ok(accepted) => Ok(accepted),
        Err(fault) => Err(not_accepted(fault)),
    }
}

/// The words of an input file, or why there are none.
fn read_input<'n, V: Vault>(
    alloc: Global,
    files: &mut V,
    name: &'n str,
) -> Result<Items<i64>, Status<'n>>
    ensures end { Reads words (record {
      told = V.contents files.old;
      faults_before = V.faults files.old;
      faults_after = V.faults files.new;
      failed = V.failed files.new;
    }) (input_step name.now) result }
    ensures never_falls { V.faults files.old ≤ V.faults files.new }
    ensures unchanged { V.contents files.new ≡ V.contents files.old }
{
    let bytes = read_bytes(alloc, files, name, MAX_BYTES)?;
    match read_words(alloc, bytes.as_slice()) {
        Ok(list) => Ok(list),
        Err(WordsFault::Wrong(line)) => Err(Status::Input(line)),
        Err(WordsFault::NoMemory) => Err(Status::NoMemory),
    }
}

/// The words of a party: none where no input is named.
pub fn read_given<'n, V: Vault>(
    alloc: Global,
    files: &mut V,
    name: Option<&'n str>,
) -> Result<Items<i64>, Status<'n>>
    ensures end { ReadsGiven (record {
      told = V.contents files.old;
      faults_before = V.faults files.old;
      faults_after = V.faults files.new;
      failed = V.failed files.new;
    }) (option_map (λ n. n.now) name.entry) result }
    ensures never_falls { V.faults files.old ≤ V.faults files.new }
    ensures unchanged { V.contents files.new ≡ V.contents files.old }
{
    match name {
        Some(name) => read_input(alloc, files, name),
        None => Ok(Items::new(alloc)),
    }
}
