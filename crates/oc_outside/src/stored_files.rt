//! Files in memory.

ghost use Rattle.std.specs.Prelude.{◌≡◌, ◌≢◌, ℕ, List, take, Some, None, IfSome, IfNone, OnOk, OnErr};
ghost use Rattle.oc_outside.specs.Vaults.{IfBytes, OnAbsent, OnReadFailed};
ghost use Rattle.oc_outside.specs.Files.{held};

use crate::vaults::FileAnswer;
use oc_values::{Items, NoMemory};
use std::alloc::Global;
use std::collections::BTreeMap;

/// The bytes under each name.
#[derive(Drop)]
pub(crate) struct StoredFiles {
    pub(crate) alloc: Global,
    pub(crate) files: BTreeMap<String, Items<u8>>,
}

impl StoredFiles {
    pub(crate) fn new(alloc: Global) -> StoredFiles
        ensures { (name : List ℕ) → held result.files name ≡ None }
    {
        StoredFiles {
            alloc,
            files: BTreeMap::new(alloc),
        }
    }

    /// What the name holds.
    pub(crate) fn get(&self, name: &str) -> Option<&[u8]>
        ensures some { IfSome result (λ bytes. held self.now.files name.now ≡ Some bytes.now) }
        ensures none { IfNone result (held self.now.files name.now ≡ None) }
    {
        match self.files.get(name) {
            Some(bytes) => Some(bytes.as_slice()),
            None => None,
        }
    }

    /// A copy of the first `limit` bytes of what the name holds.
    pub(crate) fn read(&self, alloc: Global, name: &str, limit: u64) -> FileAnswer
        ensures bytes { IfBytes result (λ bytes. (whole : List ℕ)
            × (held self.now.files name.now ≡ Some whole) × (bytes ≡ take limit whole)) }
        ensures absent { OnAbsent result (held self.now.files name.now ≡ None) }
        ensures never_failed { OnReadFailed result ⊥ }
    {
        let whole = match self.get(name) {
            Some(whole) => whole,
            None => return FileAnswer::Absent,
        };
        let n = limit.min(whole.len() as u64) as usize;
        match Items::from_slice(alloc, &whole[..n]) {
            Ok(bytes) => FileAnswer::Bytes(bytes),
            Err(_) => FileAnswer::NoMemory,
        }
    }

    /// Makes the bytes what the name holds.
    pub(crate) fn set(&mut self, name: &str, bytes: &[u8]) -> Result<(), NoMemory>
        ensures written { OnOk result (held self.new.files name.now ≡ Some bytes.now) }
        ensures elsewhere { (n : List ℕ) → n ≢ name.now → held self.new.files n ≡ held self.old.files n }
        ensures err { OnErr result ((n : List ℕ) → held self.new.files n ≡ held self.old.files n) }
    {
        let bytes = Items::from_slice(self.alloc, bytes)?;
        let name = String::from_str(self.alloc, name)?;
        self.files.insert(name, bytes)?;
        Ok(())
    }
}
