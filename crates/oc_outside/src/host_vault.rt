//! The file system as a vault.

ghost use Rattle.std.specs.Prelude.{◌≡◌, ◌≤◌, length, take, IfOk, IfSome};

use crate::vaults::{FileAnswer, Vault, WriteAnswer};
use oc_values::Items;
use std::alloc::Global;
use std::fs::File;
use std::io;
use std::io::{ErrorKind, Read};
use std::marker::Model;
use std::rt::Files;

/// The files of the runtime that it holds. It tells no contents, and is seen as its count of faults.
#[derive(Drop)]
pub struct HostVault<R> {
    rt: R,
    faults: u64,
}

impl<R> Model for HostVault<R> {
    ghost use Rattle.std.specs.Prelude.{ℕ, ◌^◌, ◌<◌};

    ghost Value = { ℕ };

    ghost view = { λ v. v.faults };

    ghost invariant = { λ v. v.faults < 2 ^ 64 };
}

impl<R: Files> HostVault<R> {
    ghost use Rattle.std.specs.Prelude.{◌≡◌};

    /// The files of this runtime.
    pub fn new(rt: R) -> HostVault<R>
        ensures { result ≡ 0 }
    {
        HostVault { rt, faults: 0 }
    }
}

// At most the first `limit` bytes that the reader gives.
fn read_front<F: Read + Drop>(alloc: Global, reader: F, limit: u64) -> io::Result<Items<u8>>
    ensures within { IfOk result (λ bytes. length bytes ≤ limit) }
    ensures front { IfOk result (λ bytes. IfSome (F.remaining reader) (λ whole. bytes ≡ take limit whole)) }
{
    let mut bytes = Vec::new(alloc);
    let mut front = reader.take(limit);
    front.read_to_end(&mut bytes)?;
    // This changes nothing: no clause of `take` says that it gives at most its limit.
    bytes.truncate(limit as usize);
    Ok(Items::from_vec(bytes))
}

impl<R: Files> Vault for HostVault<R> {
    ghost use Rattle.std.specs.Prelude.{None};

    ghost faults = { λ v. v };

    ghost contents = { λ _ _. None };

    ghost failed = { λ _. None };

    /// A file that isn't there is `Absent`, and every other failure but want of memory a fault.
    fn read_file(&mut self, alloc: Global, name: &str, limit: u64) -> FileAnswer {
        let error = match File::open(&self.rt, name) {
            Ok(file) => match read_front(alloc, file, limit) {
                Ok(bytes) => return FileAnswer::Bytes(bytes),
                Err(error) => error.kind(),
            },
            Err(error) => match error.kind() {
                ErrorKind::NotFound => return FileAnswer::Absent,
                kind => kind,
            },
        };
        if error == ErrorKind::OutOfMemory {
            return FileAnswer::NoMemory;
        }
        self.faults = self.faults.saturating_add(1);
        FileAnswer::Failed
    }

    /// Every failure is a fault.
    fn write_file(&mut self, name: &str, bytes: &[u8]) -> WriteAnswer {
        match std::fs::write(&self.rt, name, bytes) {
            Ok(()) => WriteAnswer::Written,
            Err(_) => {
                self.faults = self.faults.saturating_add(1);
                WriteAnswer::Failed
            }
        }
    }
}
