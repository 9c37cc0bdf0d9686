//! The whole program, over any outside.

ghost use Rattle.std.specs.Prelude.{◌≡◌, ◌≤◌, ◌-◌, ◌^◌, ◌<◌};
ghost use Rattle.command_grammar.specs.Grammar.{texts};
ghost use Rattle.oblivc_main.specs.Statuses.{Answered, Serves};

use crate::checking::check;
use crate::clearing::clear;
use crate::dealing::deal;
use crate::saying::report;
use crate::status::Status;
use oblivcc_commands::{Asked, read_command};
use oc_outside::{Dialer, Sink, Vault};
use std::alloc::Global;

/// Does what the words of a command line ask for.
fn serve<'w, V: Vault, S: Sink>(
    alloc: Global,
    words: &'w [String],
    files: &mut V,
    out: &mut S,
) -> Status<'w>
    ensures { Serves (texts words.now) (record {
      told = V.contents files.old;
      told_after = V.contents files.new;
      faults_before = V.faults files.old;
      faults_after = V.faults files.new;
      failed = V.failed files.new;
      out = record { faults_before = S.faults out.old; faults_after = S.faults out.new; before = S.written out.old; after = S.written out.new };
    }) result }
{
    match read_command(words) {
        Ok(Asked::Check(asked)) => check(alloc, &asked, files, out),
        Ok(Asked::Clear(asked)) => clear(alloc, &asked, files, out),
        Ok(Asked::Deal(asked)) => deal(alloc, &asked, files),
        Err(k) => Status::NoCommand(k),
    }
}

/// Does what the words of a command line ask for, and answers the status to exit with.
///
/// `check FILE` reads the source of that name, and prints `ok` and a newline to `out` where it is accepted.
/// `clear FILE` reads the source of that name, and the words of the parties from the files of `--input1 F` and `--input2 F`,
/// runs the program in the clear, with the public words of `--public LIST`, within the budget of `--steps N` and with the dealt
/// transfers of `--dealt N`, and prints to `out` what it shows. `deal --key K --count N --out1 F --out2 F` writes the
/// sender's half of N transfers that is dealt of the key K to the first file, and then the receiver's half to the
/// second; it prints nothing. Options stand in any order. The statuses:
///
/// - 0: all was printed or written to the files, and nothing was written to `err`;
/// - 1: the source is refused; `err` says `refused RULE LINE:COLUMN`, with the first rule that it breaks and where:
///   L1 to L6 of its tokens, G1 and G2 of its tree, T1 to T12 of its types, F1 to F5 of its hidden scopes and frozen
///   places;
/// - 2: the words aren't a command; `err` says `usage K`, with the least K such that no command begins
///   with the words 0 to K, or the number of words;
/// - 3: the run met a trap; `err` says `trap KIND LINE:COLUMN`;
/// - 4: the run spent its budget; `err` says `steps N`, with the budget;
/// - 5: a file is absent, or reading or writing it failed; `err` says `file NAME`;
/// - 8: the run needed more than the dealt transfers; `err` says `dealt N`, with their number;
/// - 9: an input file isn't one word a line; `err` says `input LINE`, with the first wrong line, or 65,537 where it has more
///   than 65,536;
/// - 10: want of memory, which may come at any point; `err` says `memory` where that can be written;
/// - 11: writing to `out` failed; `err` says `output`.
///
/// Where writing to `err` fails the status stays, and where it finds no memory the status is 10. The
/// contents of the vault stay as they are, but those of the files that `deal` makes, and the dialer isn't used.
pub fn oblivcc<V: Vault, D: Dialer, S: Sink, E: Sink>(
    alloc: Global,
    words: &[String],
    files: &mut V,
    dialer: &mut D,
    out: &mut S,
    err: &mut E,
) -> u8
    requires { D.closed dialer.old < 2 ^ 64 - 1 }
    ensures answered { Answered (texts words.now) (record {
      told = V.contents files.old;
      told_after = V.contents files.new;
      faults_before = V.faults files.old;
      faults_after = V.faults files.new;
      failed = V.failed files.new;
      out = record { faults_before = S.faults out.old; faults_after = S.faults out.new; before = S.written out.old; after = S.written out.new };
    }) (record {
      faults_before = E.faults err.old;
      faults_after = E.faults err.new;
      before = E.written err.old;
      after = E.written err.new;
    }) result }
    ensures dialer { dialer.new ≡ dialer.old }
{
    let status = serve(alloc, words, files, out);
    report(alloc, status, err)
}
