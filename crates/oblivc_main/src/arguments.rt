//! Serving a process, whose words are read first.

ghost use Rattle.std.specs.Prelude.{◌≡◌, ◌≤◌, ◌-◌, ◌^◌, ◌<◌};
ghost use Rattle.oblivc_main.specs.Arguments.{ReadsWords, Served};

use crate::program::oblivcc;
use crate::saying::report;
use crate::status::Status;
use oblivcc_commands::find_break;
use oc_outside::{Arguments, Dialer, Sink, Vault, WordAnswer};
use std::alloc::Global;

/// The words of a command line, as far as they are text.
#[derive(Drop)]
enum Words {
    All(Vec<String>),
    /// The words before the first that isn't text.
    UpTo(Vec<String>),
    NoMemory,
}

/// The words of a process.
fn read_words<A: Arguments>(alloc: Global, arguments: &A) -> Words
    ensures { ReadsWords (A.words arguments.now) result }
{
    let mut words = Vec::new(alloc);
    for index in 0..usize::MAX {
        let bytes = match arguments.word(alloc, index) {
            WordAnswer::Word(bytes) => bytes,
            WordAnswer::End => return Words::All(words),
            WordAnswer::NoMemory => return Words::NoMemory,
        };
        let Ok(text) = String::from_utf8(bytes) else {
            return Words::UpTo(words);
        };
        if words.push(text).is_err() {
            return Words::NoMemory;
        }
    }
    Words::NoMemory
}

/// Does what the words that a process was started with ask for, and answers the status to exit with. A
/// word that isn't text begins no command.
pub fn serve_process<A: Arguments, V: Vault, D: Dialer, S: Sink, E: Sink>(
    alloc: Global,
    arguments: &A,
    files: &mut V,
    dialer: &mut D,
    out: &mut S,
    err: &mut E,
) -> u8
    requires { D.closed dialer.old < 2 ^ 64 - 1 }
    ensures served { Served (A.words arguments.now) (record {
      told = V.contents files.old;
      told_after = V.contents files.new;
      faults_before = V.faults files.old;
      faults_after = V.faults files.new;
      failed = V.failed files.new;
      out = record { faults_before = S.faults out.old; faults_after = S.faults out.new; before = S.written out.old; after = S.written out.new };
    }) (record {
      faults_before = E.faults err.old;
      faults_after = E.faults err.new;
      before = E.written err.old;
      after = E.written err.new;
    }) result }
    ensures dialer { dialer.new ≡ dialer.old }
{
    match read_words(alloc, arguments) {
        Words::All(words) => oblivcc(alloc, words.as_slice(), files, dialer, out, err),
        Words::UpTo(words) => {
            let k = find_break(words.as_slice());
            report(alloc, Status::NoCommand(k), err)
        }
        Words::NoMemory => report(alloc, Status::NoMemory, err),
    }
}
