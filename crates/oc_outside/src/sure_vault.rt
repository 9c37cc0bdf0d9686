//! A vault in memory that never fails.

use crate::stored_files::StoredFiles;
use crate::vaults::{FileAnswer, Vault, WriteAnswer};
use oc_values::NoMemory;
use std::alloc::Global;

/// A vault in memory that never fails and tells what each name holds.
#[derive(Drop)]
pub struct SureVault {
    files: StoredFiles,
}

impl SureVault {
    ghost use Rattle.std.specs.Prelude.{◌≡◌, ◌≢◌, ℕ, List, Some, None, IfSome, IfNone, OnOk, OnErr};

    /// A vault that holds nothing.
    pub fn new(alloc: Global) -> SureVault
        ensures { (name : List ℕ) → ⟦<SureVault as Vault>⟧.contents result name ≡ Some None }
    {
        SureVault {
            files: StoredFiles::new(alloc),
        }
    }

    /// Makes the bytes what the name holds.
    pub fn put(&mut self, name: &str, bytes: &[u8]) -> Result<(), NoMemory>
        ensures put { OnOk result (⟦<SureVault as Vault>⟧.contents self.new name.now ≡ Some (Some bytes.now)) }
        ensures elsewhere { (n : List ℕ) → n ≢ name.now
            → ⟦<SureVault as Vault>⟧.contents self.new n ≡ ⟦<SureVault as Vault>⟧.contents self.old n }
        ensures err { OnErr result ((n : List ℕ)
            → ⟦<SureVault as Vault>⟧.contents self.new n ≡ ⟦<SureVault as Vault>⟧.contents self.old n) }
    {
        self.files.set(name, bytes)
    }

    /// What the name holds.
    pub fn holds(&self, name: &str) -> Option<&[u8]>
        ensures some { IfSome result (λ bytes. ⟦<SureVault as Vault>⟧.contents self.now name.now ≡ Some (Some bytes.now)) }
        ensures none { IfNone result (⟦<SureVault as Vault>⟧.contents self.now name.now ≡ Some None) }
    {
        self.files.get(name)
    }
}

impl Vault for SureVault {
    ghost use Rattle.std.specs.Prelude.{Some, None};
    ghost use Rattle.oc_outside.specs.Files.{held};

    ghost faults = { λ _. 0 };

    ghost contents = { λ v name. Some (held v.files.files name) };

    ghost failed = { λ _. None };

    fn read_file(&mut self, alloc: Global, name: &str, limit: u64) -> FileAnswer {
        self.files.read(alloc, name, limit)
    }

    fn write_file(&mut self, name: &str, bytes: &[u8]) -> WriteAnswer {
        match self.files.set(name, bytes) {
            Ok(()) => WriteAnswer::Written,
            Err(NoMemory) => WriteAnswer::NoMemory,
        }
    }
}
