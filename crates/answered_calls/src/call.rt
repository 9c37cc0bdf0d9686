//! One call of the program over objects in memory, and its answer.

use oblivc_main::serve_process;
use oc_outside::{Arguments, MemorySink, MemoryVault, SureDialer, WordAnswer};
use oc_values::{Items, NoMemory};
use std::alloc::Global;

/// A file by its name, with its bytes.
pub type Stored<'c> = (&'c str, &'c [u8]);

/// The words of a process for which there is no memory.
#[derive(Clone, Copy)]
pub struct NoRoom;

impl Arguments for NoRoom {
    ghost use Rattle.std.specs.Prelude.{None};

    ghost words = { λ _. None };

    fn word(&self, _alloc: Global, _index: usize) -> WordAnswer {
        WordAnswer::NoMemory
    }
}

/// What a call finds, beside its words.
#[derive(Clone, Copy)]
pub struct Found<'c> {
    pub files: &'c [Stored<'c>],
    /// The numbers of the calls of the vault, of the output and of the error stream that fail, counted from 0.
    pub failing: [&'c [u64]; 3],
    /// How many bytes a stream takes at once.
    pub most: usize,
}

/// What a call answers and writes.
#[derive(Clone, Copy)]
pub struct Answer<'c> {
    pub status: u8,
    pub out: &'c [u8],
    pub err: &'c [u8],
    /// Whether it is asked how long the files `one` and `two` are after it.
    pub has_sizes: bool,
    /// How long `one` is then, if it is there.
    pub first: Option<usize>,
    /// How long `two` is then, if it is there.
    pub second: Option<usize>,
}

/// The vault of these files.
fn vault_of(alloc: Global, files: &[Stored<'_>], failing: &[u64]) -> Result<MemoryVault, NoMemory> {
    let mut vault = MemoryVault::new(alloc, Items::from_slice(alloc, failing)?);
    for (name, bytes) in files {
        vault.put(name, bytes)?;
    }
    Ok(vault)
}

/// How long a file is, if it is there.
fn size_of(vault: &MemoryVault, name: &str) -> Option<usize> {
    match vault.holds(name) {
        Some(bytes) => Some(bytes.len()),
        None => None,
    }
}

/// Whether both files have their sizes, where that is asked.
fn have_sizes(vault: &MemoryVault, answer: &Answer<'_>) -> bool {
    !answer.has_sizes
        || (size_of(vault, "one") == answer.first && size_of(vault, "two") == answer.second)
}

/// Whether the call answers so.
pub fn answers<A: Arguments>(
    alloc: Global,
    words: &A,
    found: &Found<'_>,
    answer: &Answer<'_>,
) -> Result<bool, NoMemory> {
    let [vault_fails, out_fails, err_fails] = found.failing;
    let mut files = vault_of(alloc, found.files, vault_fails)?;
    let mut dialer = SureDialer::new(alloc, Items::new(alloc));
    let mut out = MemorySink::new(
        alloc,
        Items::from_slice(alloc, out_fails)?,
        found.most.max(1),
    );
    let mut err = MemorySink::new(
        alloc,
        Items::from_slice(alloc, err_fails)?,
        found.most.max(1),
    );
    let status = serve_process(alloc, words, &mut files, &mut dialer, &mut out, &mut err);
    Ok(
        status == answer.status
            && out.written() == answer.out
            && err.written() == answer.err
            && have_sizes(&files, answer),
    )
}
