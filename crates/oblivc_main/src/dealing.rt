//! The command `deal`.

ghost use Rattle.std.specs.Prelude.{◌≡◌, ◌≤◌, ℕ, List, IfOk};
ghost use Rattle.dealt_transfer.specs.Halves.{most_transfers};
ghost use Rattle.dealt_transfer.specs.Dealing.{sender_dealt, receiver_dealt};
ghost use Rattle.dealt_transfer.specs.Files.{sender_file, receiver_file};
ghost use Rattle.oblivcc_commands.specs.Views.{deal_of};
ghost use Rattle.oblivc_main.specs.Dealing.{dealt_files};
ghost use Rattle.oblivc_main.specs.Making.{IsElsewhere, Makes};

use crate::making::make_file;
use crate::status::Status;
use dealt_transfer::{deal as deal_halves, write_receiver_half, write_sender_half};
use oblivcc_commands::DealWords;
use oc_outside::Vault;
use oc_values::{Items, NoMemory};
use std::alloc::Global;

/// The bytes of both files.
fn make_halves(
    alloc: Global,
    key: &[u8; 32],
    count: u32,
) -> Result<(Items<u8>, Items<u8>), NoMemory>
    requires { count ≤ most_transfers }
    ensures first { IfOk result (λ files. files.0 ≡ sender_file (sender_dealt key.now count)) }
    ensures second { IfOk result (λ files. files.1 ≡ receiver_file (receiver_dealt key.now count)) }
{
    let (sender, receiver) = deal_halves(alloc, key, count)?;
    let first = write_sender_half(alloc, &sender)?;
    let second = write_receiver_half(alloc, &receiver)?;
    Ok((first, second))
}

/// Deals, and writes both files, the first one first.
pub fn deal<'w, V: Vault>(alloc: Global, asked: &DealWords<'w>, files: &mut V) -> Status<'w>
    requires { asked.now.count ≤ most_transfers }
    ensures end { Makes (record {
      before = V.contents files.old;
      after = V.contents files.new;
      faults_before = V.faults files.old;
      faults_after = V.faults files.new;
      failed = V.failed files.new;
    }) (dealt_files (deal_of asked.now)) result }
    ensures elsewhere { (n : List ℕ) → IsElsewhere n (dealt_files (deal_of asked.now)) → V.contents files.new n ≡ V.contents files.old n }
{
    let (first, second) = match make_halves(alloc, &asked.key, asked.count) {
        Ok(made) => made,
        Err(_) => return Status::NoMemory,
    };
    if let Err(status) = make_file(files, asked.first, first.as_slice()) {
        return status;
    }
    match make_file(files, asked.second, second.as_slice()) {
        Ok(()) => Status::Done,
        Err(status) => status,
    }
}
