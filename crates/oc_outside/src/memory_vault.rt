//! A vault in memory.

use crate::plan::FaultPlan;
use crate::stored_files::StoredFiles;
use crate::vaults::{FileAnswer, Vault, WriteAnswer};
use oc_values::{Items, Name, NoMemory};
use std::alloc::Global;

/// A vault in memory that tells what each name holds. The calls whose numbers it was made with fail,
/// and change no contents.
#[derive(Drop)]
pub struct MemoryVault {
    plan: FaultPlan,
    files: StoredFiles,
    failed: Option<Name>,
}

impl MemoryVault {
    ghost use Rattle.std.specs.Prelude.{◌≡◌, ◌≢◌, ℕ, List, Some, None, IfSome, IfNone, OnOk, OnErr};
    ghost use Rattle.oc_outside.specs.MemoryVault.{contents_of, calls_of, failing_of, faults_of, failed_of};

    /// A vault that holds nothing, and whose calls with the numbers `failing`, counted from 0, fail.
    pub fn new(alloc: Global, failing: Items<u64>) -> MemoryVault
        ensures failing { failing_of result ≡ failing }
        ensures calls { calls_of result ≡ 0 }
        ensures faults { faults_of result ≡ 0 }
        ensures failed { failed_of result ≡ None }
        ensures empty { (name : List ℕ) → contents_of result name ≡ Some None }
    {
        MemoryVault {
            plan: FaultPlan::new(failing),
            files: StoredFiles::new(alloc),
            failed: None,
        }
    }

    /// Makes the bytes what the name holds. This counts as no call, so it never fails by plan.
    pub fn put(&mut self, name: &str, bytes: &[u8]) -> Result<(), NoMemory>
        ensures put { OnOk result (contents_of self.new name.now ≡ Some (Some bytes.now)) }
        ensures elsewhere { (n : List ℕ) → n ≢ name.now → contents_of self.new n ≡ contents_of self.old n }
        ensures err { OnErr result ((n : List ℕ) → contents_of self.new n ≡ contents_of self.old n) }
        ensures calls { calls_of self.new ≡ calls_of self.old }
        ensures failing { failing_of self.new ≡ failing_of self.old }
        ensures faults { faults_of self.new ≡ faults_of self.old }
        ensures failed { failed_of self.new ≡ failed_of self.old }
    {
        self.files.set(name, bytes)
    }

    /// What the name holds.
    pub fn holds(&self, name: &str) -> Option<&[u8]>
        ensures some { IfSome result (λ bytes. contents_of self.now name.now ≡ Some (Some bytes.now)) }
        ensures none { IfNone result (contents_of self.now name.now ≡ Some None) }
    {
        self.files.get(name)
    }
}

impl Vault for MemoryVault {
    ghost use Rattle.std.specs.Prelude.{◌≡◌, ◌≢◌, ℕ, ◌+◌, ◌-◌, ◌^◌, ◌<◌, ◌≤◌, ◌↔◌, List, length, take, min, Contains, Some, None, IfSome, IsSomeAnd};
    ghost use Rattle.oc_outside.specs.Counts.{Rose};
    ghost use Rattle.oc_outside.specs.Vaults.{IfBytes, OnAbsent, OnReadFailed, UnlessReadFailed, OnWritten, OnWriteFailed, UnlessWriteFailed, OnWriteNoMemory};
    ghost use Rattle.oc_outside.specs.MemoryVault.{contents_of, calls_of, failing_of, faults_of, failed_of};

    ghost faults = { faults_of };

    ghost contents = { contents_of };

    ghost failed = { failed_of };

    fn read_file(&mut self, alloc: Global, name: &str, limit: u64) -> FileAnswer
        ensures never_falls { faults_of self.old ≤ faults_of self.new }
        ensures below_end { faults_of self.new < 2 ^ 64 }

        ensures planned { (result ≡ FileAnswer.Failed) ↔ Contains (failing_of self.old) (calls_of self.old) }
        ensures calls { calls_of self.new ≡ min (calls_of self.old + 1) (2 ^ 64 - 1) }
        ensures failing { failing_of self.new ≡ failing_of self.old }
        ensures failed { OnReadFailed result (Rose (faults_of self.old) (faults_of self.new)) }
        ensures named { OnReadFailed result (IfSome (failed_of self.new) (λ last. last ≡ name.now)) }
        ensures no_fault { UnlessReadFailed result (faults_of self.new ≡ faults_of self.old) }
        ensures others { UnlessReadFailed result (failed_of self.new ≡ failed_of self.old) }

        ensures bytes { IfBytes result (λ bytes. IfSome (contents_of self.old name.now)
            (λ held. IsSomeAnd held (λ whole. bytes ≡ take limit whole))) }
        ensures within { IfBytes result (λ bytes. length bytes ≤ limit) }
        ensures absent { OnAbsent result (IfSome (contents_of self.old name.now) (λ held. held ≡ None)) }
        ensures unchanged { contents_of self.new ≡ contents_of self.old }
    {
        if self.plan.next_fails() {
            self.failed = Name::from_bytes(alloc, name.as_bytes()).ok();
            return FileAnswer::Failed;
        }
        self.files.read(alloc, name, limit)
    }

    fn write_file(&mut self, name: &str, bytes: &[u8]) -> WriteAnswer
        ensures never_falls { faults_of self.old ≤ faults_of self.new }
        ensures below_end { faults_of self.new < 2 ^ 64 }

        ensures planned { (result ≡ WriteAnswer.Failed) ↔ Contains (failing_of self.old) (calls_of self.old) }
        ensures calls { calls_of self.new ≡ min (calls_of self.old + 1) (2 ^ 64 - 1) }
        ensures failing { failing_of self.new ≡ failing_of self.old }
        ensures failed { OnWriteFailed result (Rose (faults_of self.old) (faults_of self.new)) }
        ensures named { OnWriteFailed result (IfSome (failed_of self.new) (λ last. last ≡ name.now)) }
        ensures no_fault { UnlessWriteFailed result (faults_of self.new ≡ faults_of self.old) }
        ensures others { UnlessWriteFailed result (failed_of self.new ≡ failed_of self.old) }

        ensures written { OnWritten result (IfSome (contents_of self.new name.now) (λ held. held ≡ Some bytes.now)) }
        ensures elsewhere { (n : List ℕ) → n ≢ name.now → contents_of self.new n ≡ contents_of self.old n }
        ensures no_memory { OnWriteNoMemory result (contents_of self.new ≡ contents_of self.old) }
        ensures kept { OnWriteFailed result (contents_of self.new ≡ contents_of self.old) }
    {
        if self.plan.next_fails() {
            self.failed = Name::from_bytes(self.files.alloc, name.as_bytes()).ok();
            return WriteAnswer::Failed;
        }
        match self.files.set(name, bytes) {
            Ok(()) => WriteAnswer::Written,
            Err(NoMemory) => WriteAnswer::NoMemory,
        }
    }
}
