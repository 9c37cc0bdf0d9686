//! The outside: files, writers and lines, of the host and in memory.

use crate::tally::Tally;
use oc_outside::{
    Asked, DialAnswer, Dialer, FileAnswer, HostSink, HostVault, Link, MemorySink, MemoryVault,
    PutAnswer, PutEnd, RecvAnswer, Sink, SureDialer, SureSink, SureVault, Vault, WriteAnswer,
    write_all,
};
use oc_values::{Items, NoMemory};
use std::alloc::{AllocError, Global};
use std::io::{Error, ErrorKind, Write};
use std::{env, fs, io, process};

// The bytes of an answer that has bytes.
fn bytes_of(answer: FileAnswer) -> Option<Items<u8>> {
    match answer {
        FileAnswer::Bytes(bytes) => Some(bytes),
        _ => None,
    }
}

fn line_of<L: Drop>(answer: DialAnswer<L>) -> Option<L> {
    match answer {
        DialAnswer::Line(line) => Some(line),
        _ => None,
    }
}

// Whether it was asked to listen, and at which address.
fn call_of(asked: &Asked) -> (bool, &[u8]) {
    match asked {
        Asked::Listen(address) => (true, address.as_bytes()),
        Asked::Connect(address) => (false, address.as_bytes()),
    }
}

fn is_absent(answer: FileAnswer) -> bool {
    matches!(&answer, FileAnswer::Absent)
}

fn is_failed(answer: FileAnswer) -> bool {
    matches!(&answer, FileAnswer::Failed)
}

// Writes a name, and reads it with several limits.
fn write_and_read<V: Vault>(tally: &mut Tally, alloc: Global, vault: &mut V, name: &str) {
    tally.row(is_absent(vault.read_file(alloc, name, 100)));
    tally.row(vault.write_file(name, b"first text") == WriteAnswer::Written);
    tally.row(vault.write_file(name, b"hello") == WriteAnswer::Written);
    for (limit, want) in [(100, "hello"), (5, "hello"), (3, "hel"), (0, "")] {
        let found = bytes_of(vault.read_file(alloc, name, limit));
        tally.row(found.is_some());
        if let Some(bytes) = found {
            tally.row(bytes.as_slice() == want.as_bytes());
        }
    }
}

/// The rows of files of the host.
pub fn files_of_the_host(rt: &HostRuntime, tally: &mut Tally) -> io::Result<()> {
    let alloc = rt.alloc();
    let directory = env::temp_dir(rt)?;
    let path = directory.as_path().as_str();
    let id = process::id(rt.process());
    let name = format!(in alloc; "{path}/oc_outside_{id}")?;
    let mut vault = HostVault::new(rt);
    write_and_read(tally, alloc, &mut vault, name.as_str());
    fs::remove_file(rt, name.as_str())?;
    tally.row(is_absent(vault.read_file(alloc, name.as_str(), 100)));
    // A directory is no file.
    tally.row(is_failed(vault.read_file(alloc, path, 100)));
    tally.row(vault.write_file(path, b"x") == WriteAnswer::Failed);
    Ok(())
}

// A writer whose calls answer by this list: a number of bytes that it takes, or an error. After the
// list it takes one byte a call.
#[derive(Drop)]
struct Listed<'a> {
    answers: &'a [Result<usize, ErrorKind>],
    calls: usize,
    taken: &'a mut Vec<u8>,
}

impl Write for Listed<'_> {
    fn write(&mut self, piece: &[u8]) -> io::Result<usize> {
        let answer = self.answers.get(self.calls).copied().unwrap_or(Ok(1));
        self.calls = self.calls.saturating_add(1);
        match answer {
            Ok(n) => {
                let n = n.min(piece.len());
                self.taken.extend_from_slice(&piece[..n])?;
                Ok(n)
            }
            Err(kind) => Err(Error::from(kind)),
        }
    }

    fn flush(&mut self) -> io::Result<()> {
        Ok(())
    }
}

fn writers_of_the_host(alloc: Global, tally: &mut Tally) {
    let answers = [
        Err(ErrorKind::Interrupted),
        Ok(2),
        Err(ErrorKind::BrokenPipe),
        Ok(0),
        Err(ErrorKind::OutOfMemory),
        Ok(0),
    ];
    let mut taken = Vec::new(alloc);
    {
        let mut sink = HostSink::new(Listed {
            answers: &answers,
            calls: 0,
            taken: &mut taken,
        });
        tally.row(sink.write(b"abc") == PutAnswer::Took(2));
        tally.row(sink.write(b"c") == PutAnswer::Failed);
        tally.row(sink.write(b"c") == PutAnswer::Failed);
        tally.row(sink.write(b"c") == PutAnswer::NoMemory);
        tally.row(sink.write(b"") == PutAnswer::Took(0));
        tally.row(write_all(&mut sink, b"cde") == PutEnd::Done);
    }
    tally.row(taken.as_slice() == b"abcde".as_slice());
    let mut plain = Vec::new(alloc);
    {
        let mut sink = HostSink::new(&mut plain);
        tally.row(write_all(&mut sink, b"hello") == PutEnd::Done);
    }
    tally.row(plain.as_slice() == b"hello".as_slice());
}

fn vaults_in_memory(alloc: Global, tally: &mut Tally) -> Result<(), NoMemory> {
    let mut sure = SureVault::new(alloc);
    write_and_read(tally, alloc, &mut sure, "a");
    sure.put("b", b"other")?;
    tally.row(sure.holds("a") == Some(b"hello".as_slice()));
    tally.row(sure.holds("b") == Some(b"other".as_slice()));
    tally.row(sure.holds("c") == None);

    let mut vault = MemoryVault::new(alloc, Items::from_slice(alloc, &[1, 3])?);
    vault.put("a", b"hello")?;
    tally.row(bytes_of(vault.read_file(alloc, "a", 9)).is_some());
    tally.row(is_failed(vault.read_file(alloc, "a", 9)));
    tally.row(is_absent(vault.read_file(alloc, "b", 9)));
    tally.row(vault.write_file("a", b"new") == WriteAnswer::Failed);
    tally.row(vault.holds("a") == Some(b"hello".as_slice()));
    tally.row(vault.write_file("a", b"new") == WriteAnswer::Written);
    tally.row(vault.holds("a") == Some(b"new".as_slice()));
    tally.row(vault.holds("b") == None);
    Ok(())
}

fn sinks_in_memory(alloc: Global, tally: &mut Tally) -> Result<(), NoMemory> {
    let mut sure = SureSink::new(alloc);
    tally.row(sure.write(b"hel") == PutAnswer::Took(3));
    tally.row(write_all(&mut sure, b"lo") == PutEnd::Done);
    tally.row(sure.written() == b"hello".as_slice());

    // One byte a call, and the fourth call fails.
    let mut sink = MemorySink::new(alloc, Items::from_slice(alloc, &[3])?, 1);
    tally.row(sink.write(b"hello") == PutAnswer::Took(1));
    tally.row(write_all(&mut sink, b"ello") == PutEnd::Failed);
    tally.row(sink.written() == b"hel".as_slice());
    tally.row(write_all(&mut sink, b"lo") == PutEnd::Done);
    tally.row(sink.written() == b"hello".as_slice());
    Ok(())
}

fn lines_in_memory(alloc: Global, tally: &mut Tally) -> Result<(), NoMemory> {
    let mut dialer = SureDialer::new(alloc, Items::from_slice(alloc, b"hello")?);
    let mut line = line_of(dialer.connect("there:1")).ok_or(NoMemory)?;
    let mut buffer = [0u8; 3];
    tally.row(line.send(b"ping") == PutAnswer::Took(4));
    tally.row(line.recv(&mut buffer) == RecvAnswer::Got(3));
    tally.row(buffer == [104, 101, 108]);
    tally.row(line.recv(&mut buffer) == RecvAnswer::Got(2));
    tally.row(buffer == [108, 111, 108]);
    tally.row(line.recv(&mut buffer) == RecvAnswer::Ended);
    dialer.close(line);
    tally.row(dialer.last().sent() == b"ping".as_slice());
    let other = line_of(dialer.listen("here:2")).ok_or(NoMemory)?;
    dialer.close(other);
    tally.row(dialer.last().sent() == b"".as_slice());
    let asked = dialer.asked();
    tally.row(asked.len() == 2);
    if let Some(first) = asked.get(0) {
        tally.row(call_of(first) == (false, b"there:1".as_slice()));
    }
    if let Some(second) = asked.get(1) {
        tally.row(call_of(second) == (true, b"here:2".as_slice()));
    }
    Ok(())
}

/// All rows of the outside that want no host.
pub fn compare_in_memory(alloc: Global, tally: &mut Tally) -> Result<(), NoMemory> {
    writers_of_the_host(alloc, tally);
    vaults_in_memory(alloc, tally)?;
    sinks_in_memory(alloc, tally)?;
    lines_in_memory(alloc, tally)
}
