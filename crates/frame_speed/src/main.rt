//! A benchmark: moves bytes through an outbox, a line in memory and an inbox, as often as its words say.
//! `bench/frames.py` times it.
//!
//! Its words are `line`, `boxes` (with plain memory in place of the line) or `copy`, how many bytes a piece has, how many
//! pieces there are, and how many bytes stand in both boxes all the while. It prints how many bytes came through. Without
//! words it fills and empties boxes and batches, and prints what they hold.
#![tactic(auto)]

use half_gates::Label;
use oc_lines::MemoryLink;
use oc_outside::{Link, PutAnswer, RecvAnswer};
use oc_values::{Items, NoMemory};
use party_frames::{
    ByteBox, FrameKind, Inbox, MOST_ROWS, Outbox, PrintBox, TableBatch, write_bits,
};
use std::alloc::Global;
use std::{env, io};

/// How many bytes go over one line in memory, which keeps what was sent.
const LINE_BYTES: usize = 1_048_576;

/// Puts the piece as often as there is room for it, and says how often.
fn fill_box<const MOST: usize>(bytes: &mut ByteBox<MOST>, piece: &[u8]) -> u32 {
    let mut count = 0u32;
    for _ in 0..16_384u32 {
        if piece.len() <= bytes.room() as usize {
            bytes.put(piece);
            count = count.saturating_add(1);
        }
    }
    count
}

/// Lets go of so many bytes, or of all where there are fewer.
fn empty_box<const MOST: usize>(bytes: &mut ByteBox<MOST>, count: usize) {
    if let Ok(n) = u32::try_from(bytes.held().len().min(count)) {
        bytes.drop_front(n);
    }
}

/// Carries as many bytes from the outbox to the inbox as are held, fit and have a place in the memory between them.
fn carry(from: &mut Outbox, memory: &mut [u8], to: &mut Inbox) -> usize {
    let n = from.held().len().min(memory.len()).min(to.room() as usize);
    memory[..n].copy_from_slice(&from.held()[..n]);
    from.drop_front(n as u32);
    to.put(&memory[..n]);
    n
}

/// Puts so many bytes into both boxes, as far as there is room.
fn stand(outbox: &mut Outbox, inbox: &mut Inbox, standing: usize) {
    for _ in 0..standing {
        if outbox.room() > 0 && inbox.room() > 0 {
            outbox.put(&[1]);
            inbox.put(&[1]);
        }
    }
}

/// Sends what the outbox holds, receives into the inbox, and says how many bytes came.
fn exchange(
    outbox: &mut Outbox,
    line: &mut MemoryLink,
    memory: &mut [u8],
    inbox: &mut Inbox,
) -> usize {
    if let PutAnswer::Took(n) = line.send(outbox.held()) {
        outbox.drop_front(n as u32);
    }
    if memory.is_empty() {
        return 0;
    }
    match line.recv(memory) {
        RecvAnswer::Got(n) => {
            let n = n.min(inbox.room() as usize);
            inbox.put(&memory[..n]);
            n
        }
        RecvAnswer::Ended | RecvAnswer::Failed => 0,
    }
}

/// How many bytes come over one line of so many pieces.
fn through_one_line(
    alloc: Global,
    piece: &[u8],
    count: u64,
    outbox: &mut Outbox,
    inbox: &mut Inbox,
) -> Result<u64, NoMemory> {
    let mut memory = Vec::from_elem(alloc, 0u8, piece.len())?;
    let coming = Vec::from_elem(alloc, 7u8, LINE_BYTES)?;
    let most = piece.len().max(1);
    let mut line = MemoryLink::new(alloc, Items::from_vec(coming), most, Items::new(alloc));
    let mut came = 0u64;
    for _ in 0..count {
        if piece.len() <= outbox.room() as usize {
            outbox.put(piece);
        }
        let n = exchange(outbox, &mut line, memory.as_mut_slice(), inbox);
        empty_box(inbox, n);
        came = came.wrapping_add(n as u64);
    }
    Ok(came)
}

/// How many bytes come through both boxes and a line in memory, with a new line where one has given all its bytes.
fn through_lines(alloc: Global, size: usize, count: u64, standing: usize) -> Result<u64, NoMemory> {
    let mut outbox = Outbox::new(alloc)?;
    let mut inbox = Inbox::new(alloc)?;
    let piece = Vec::from_elem(alloc, 7u8, size)?;
    stand(&mut outbox, &mut inbox, standing);
    let most = (LINE_BYTES / size.max(1)).max(1) as u64;
    let mut came = 0u64;
    for _ in 0..count / most {
        let more = through_one_line(alloc, piece.as_slice(), most, &mut outbox, &mut inbox)?;
        came = came.wrapping_add(more);
    }
    let rest = count % most;
    let more = through_one_line(alloc, piece.as_slice(), rest, &mut outbox, &mut inbox)?;
    Ok(came.wrapping_add(more))
}

/// How many bytes come through both boxes, in which some stand all the while.
fn through_boxes(alloc: Global, size: usize, count: u64, standing: usize) -> Result<u64, NoMemory> {
    let mut outbox = Outbox::new(alloc)?;
    let mut inbox = Inbox::new(alloc)?;
    let piece = Vec::from_elem(alloc, 7u8, size)?;
    let mut memory = Vec::from_elem(alloc, 0u8, size)?;
    stand(&mut outbox, &mut inbox, standing);
    let mut came = 0u64;
    for _ in 0..count {
        if piece.len() <= outbox.room() as usize {
            outbox.put(piece.as_slice());
        }
        let n = carry(&mut outbox, memory.as_mut_slice(), &mut inbox);
        empty_box(&mut inbox, n);
        came = came.wrapping_add(n as u64);
    }
    Ok(came)
}

/// How many bytes come through a plain copy.
fn through_copies(alloc: Global, size: usize, count: u64) -> Result<u64, NoMemory> {
    let piece = Vec::from_elem(alloc, 7u8, size)?;
    let mut first = Vec::from_elem(alloc, 0u8, size)?;
    let mut came = 0u64;
    for _ in 0..count {
        if piece.len() == first.len() {
            first.as_mut_slice().copy_from_slice(piece.as_slice());
        }
        came = came.wrapping_add(size as u64);
    }
    Ok(came)
}

/// The rows 1 and 2, 3 and 4, and so on.
fn batch_of(count: u32) -> TableBatch {
    let mut batch = TableBatch::new();
    for i in 0..count {
        if batch.rows().len() < MOST_ROWS {
            let place = Label::from(i);
            batch.put(2 * place + 1, 2 * place + 2);
        }
    }
    batch
}

/// Writes the rows, and fills the other batch with them; whether both are then the same.
fn write_and_fill(batch: &TableBatch, outbox: &mut Outbox, again: &mut TableBatch) -> bool {
    if batch.rows().is_empty() || 5 + 32 * batch.rows().len() > outbox.room() as usize {
        return false;
    }
    batch.write(outbox);
    let Some(payload) = outbox.held().get(5..) else {
        return false;
    };
    if payload.len() % 32 != 0 || payload.len() > 32 * MOST_ROWS {
        return false;
    }
    again.fill(payload);
    again.rows() == batch.rows()
}

fn show_boxes(rt: &HostRuntime, alloc: Global) -> io::Result<()> {
    let Ok(mut prints) = PrintBox::new(alloc) else {
        return Ok(());
    };
    let first = fill_box(&mut prints, b"abc");
    let second = fill_box(&mut prints, b"d");
    println!(rt; "{first} {second} {}", prints.room())?;
    for n in [1usize, 16_000, 380] {
        empty_box(&mut prints, n);
    }
    println!(rt; "{:?}", prints.held())?;
    let third = fill_box(&mut prints, b"efgh");
    println!(rt; "{third} {}", prints.room())?;
    empty_box(&mut prints, 16_375);
    println!(rt; "{:?}", prints.held())
}

fn show_frames(rt: &HostRuntime, alloc: Global) -> io::Result<()> {
    let Ok(mut outbox) = Outbox::new(alloc) else {
        return Ok(());
    };
    let mut bits = [true; 32];
    bits[0] = false;
    if outbox.held().is_empty() {
        write_bits(&mut outbox, FrameKind::Shown, &bits);
    }
    println!(rt; "{:?}", outbox.held())?;
    let mut again = batch_of(3);
    for count in [0u32, 1, 32, 1_023, 1_024] {
        empty_box(&mut outbox, 327_680);
        let same = write_and_fill(&batch_of(count), &mut outbox, &mut again);
        println!(rt;
            "{count} {same} {:?} {}",
            outbox.held().get(..5),
            again.rows().len()
        )?;
    }
    Ok(())
}

fn main(rt: HostRuntime) -> io::Result<()> {
    let alloc = rt.alloc();
    let mut words = env::args(&rt)?.skip(1);
    let (Some(what), Some(size), Some(count), Some(standing)) = (
        words.next(),
        words.next(),
        words.next(),
        words.next(),
    ) else {
        show_boxes(&rt, alloc)?;
        return show_frames(&rt, alloc);
    };
    if let (Ok(size), Ok(count), Ok(standing)) = (
        size.as_str().parse::<usize>(),
        count.as_str().parse::<u64>(),
        standing.as_str().parse::<usize>(),
    ) {
        let came = match what.as_str() {
            "line" => through_lines(alloc, size, count, standing),
            "boxes" => through_boxes(alloc, size, count, standing),
            _ => through_copies(alloc, size, count),
        };
        if let Ok(came) = came {
            println!(rt; "{came}")?;
        }
    }
    Ok(())
}
