//! Batches of table rows.

ghost use Rattle.std.specs.Prelude.{◌≡◌, ◌+◌, ◌*◌, ◌%◌, ◌<◌, ◌≤◌, ℕ, List, ◌++◌, [], ◌∷◌, length, take, drop};
ghost use Rattle.std.specs.List.{AllByRecursion, flat_map};
ghost use Rattle.arrayvec.specs.ArrayVec.{array_vec_len};
ghost use Rattle.dealt_transfer.specs.Files.{label_bytes, pair_bytes};
ghost use Rattle.dealt_transfer.specs.Halves.{IsLabel, IsPair};
ghost use Rattle.party_frames.specs.Frames.{frame_bytes, most_frame_bytes, most_rows};
ghost use Rattle.party_frames.specs.declared.frames.FrameKind.TheVariants.{Tables as TablesKind};

use crate::boxes::Outbox;
use crate::frames::{FrameKind, Header};
use arrayvec::ArrayVec;
use byteorder::{ByteOrder, LittleEndian};
use half_gates::Label;
use std::marker::Model;

/// How many pairs of rows a batch holds at most.
pub const MOST_ROWS: usize = 1024;

/// At most 1,024 pairs of rows of AND gates, the generator's row first, which contracts see as a list.
#[derive(Drop)]
pub struct TableBatch {
    rows: ArrayVec<(Label, Label), MOST_ROWS>,
}

impl Model for TableBatch {
    ghost use Rattle.std.specs.Prelude.{List, ℕ};

    ghost Value = { List (ℕ × ℕ) };

    ghost view = { λ s. s.rows.items };
}

// The label that stands at a place, its lowest byte first.
fn label_at(bytes: &[u8], at: usize) -> Label
    requires { at + 16 ≤ length bytes.now }
    ensures bytes { label_bytes result ≡ take 16 (drop at bytes.now) }
    ensures label { IsLabel result }
{
    LittleEndian::read_u128(&bytes[at..])
}

// The bytes of a label, the lowest first.
#[tactic(auto, unfolding(dealt_transfer::specs::Files::label_bytes))]
fn label_field(label: Label) -> [u8; 16]
    ensures { result ≡ label_bytes label }
{
    let mut field = [0; 16];
    LittleEndian::write_u128(&mut field, label);
    field
}

// Appends the bytes of pairs of rows.
fn put_rows(outbox: &mut Outbox, rows: &[(Label, Label)])
    requires { length outbox.old + 32 * length rows.now ≤ most_frame_bytes }
    ensures { outbox.new ≡ outbox.old ++ flat_map pair_bytes rows.now }
{
    for (tg, te) in rows {
        outbox.put(&label_field(*tg));
        outbox.put(&label_field(*te));
    }
}

// Makes the rows those that the payload spells.
fn fill_rows(rows: &mut ArrayVec<(Label, Label), MOST_ROWS>, payload: &[u8])
    requires whole { length payload.now % 32 ≡ 0 }
    requires fits { length payload.now ≤ 32 * most_rows }
    ensures bytes { flat_map pair_bytes rows.new.items ≡ payload.now }
    ensures labels { AllByRecursion IsPair rows.new.items }
{
    rows.clear();
    for i in 0..payload.len() / 32 {
        let at = 32 * i;
        rows.push((label_at(payload, at), label_at(payload, at + 16)));
    }
}

impl TableBatch {
    /// An empty batch.
    pub fn new() -> TableBatch
        ensures { result ≡ [] }
    {
        TableBatch {
            rows: ArrayVec::new(),
        }
    }

    /// The pairs of rows, in the order of their gates.
    pub fn rows(&self) -> &[(Label, Label)]
        ensures value { result.now ≡ self.now }
        ensures fits { length result.now ≤ most_rows }
    {
        self.rows.as_slice()
    }

    /// Appends a pair of rows, the generator's and the evaluator's.
    pub fn put(&mut self, tg: Label, te: Label)
        requires { length self.old < most_rows }
        ensures { self.new ≡ self.old ++ (tg, te) ∷ [] }
    {
        self.rows.push((tg, te));
    }

    /// Lets go of all rows.
    pub fn clear(&mut self)
        ensures { self.new ≡ [] }
    {
        self.rows.clear();
    }

    /// Appends the one Tables frame of the rows.
    pub fn write(&self, outbox: &mut Outbox)
        requires some { 0 < length self.now }
        requires fits { length outbox.old + (5 + 32 * length self.now) ≤ most_frame_bytes }
        ensures { outbox.new ≡ outbox.old ++ frame_bytes (record { kind = TablesKind; payload = flat_map pair_bytes self.now }) }
    {
        let rows = self.rows.as_slice();
        let header = Header {
            kind: FrameKind::Tables,
            length: 32 * (rows.len() as u32),
        };
        outbox.put(&header.write());
        put_rows(outbox, rows);
    }

    /// Makes the rows those that the payload spells, in place of the ones that were there.
    pub fn fill(&mut self, payload: &[u8])
        requires whole { length payload.now % 32 ≡ 0 }
        requires fits { length payload.now ≤ 32 * most_rows }
        ensures bytes { flat_map pair_bytes self.new ≡ payload.now }
        ensures labels { AllByRecursion IsPair self.new }
        ensures again { (rows : List (ℕ × ℕ)) → AllByRecursion IsPair rows → flat_map pair_bytes rows ≡ payload.now → self.new ≡ rows }
    {
        fill_rows(&mut self.rows, payload);
    }
}
