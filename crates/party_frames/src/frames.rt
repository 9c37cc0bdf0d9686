//! Frames and their headers.

ghost use Rattle.std.specs.Prelude.{◌≡◌, ℕ, ◌+◌, ◌<◌, ◌≤◌, ◌^◌, List, ◌++◌, ◌↔◌, Some, IsSome, IfSome, length, slice_index};
ghost use Rattle.oc_values.specs.Packing.{byte_count as bytes_for, pack};
ghost use Rattle.party_frames.specs.declared.frames.Header.{Header as HeaderOf};
ghost use Rattle.party_frames.specs.Frames.{frame_bytes, header_bytes, kind_byte, most_frame_bytes};
ghost use Rattle.party_frames.specs.Forms.{FindsFirst, Form, first_wrong};

use crate::boxes::Outbox;
use byteorder::{BigEndian, ByteOrder};
use oc_values::packing::{byte_count, pack_byte};

/// What a frame is for.
#[derive(Clone, Copy, Debug, PartialEq, Eq)]
pub enum FrameKind {
    /// What a party is to run, and what it has.
    Hello,
    /// The active labels of a private word of the first party.
    Labels,
    /// The choices of a private word of the second party, hidden.
    Choice,
    /// Both labels of each bit of such a word, hidden.
    Pairs,
    /// The rows of AND gates.
    Tables,
    /// The bits that turn the colours of labels into a value.
    Decode,
    /// A value that the second party read.
    Shown,
    /// The colours of active labels.
    Colours,
    /// How the run ended.
    End,
}

impl FrameKind {
    /// The byte that a frame of this kind begins with.
    pub fn byte(self) -> u8
        ensures { result ≡ kind_byte self }
    {
        match self {
            FrameKind::Hello => 1,
            FrameKind::Labels => 2,
            FrameKind::Choice => 3,
            FrameKind::Pairs => 4,
            FrameKind::Tables => 5,
            FrameKind::Decode => 6,
            FrameKind::Shown => 7,
            FrameKind::Colours => 8,
            FrameKind::End => 9,
        }
    }

    /// The kind of the frames that begin with this byte.
    pub fn from_byte(byte: u8) -> Option<FrameKind>
        ensures kind { IfSome result (λ kind. kind_byte kind ≡ byte) }
        ensures kinds { IsSome result ↔ ((1 ≤ byte) × (byte ≤ 9)) }
    {
        match byte {
            1 => Some(FrameKind::Hello),
            2 => Some(FrameKind::Labels),
            3 => Some(FrameKind::Choice),
            4 => Some(FrameKind::Pairs),
            5 => Some(FrameKind::Tables),
            6 => Some(FrameKind::Decode),
            7 => Some(FrameKind::Shown),
            8 => Some(FrameKind::Colours),
            9 => Some(FrameKind::End),
            _ => None,
        }
    }
}

/// What a frame begins with.
#[derive(Clone, Copy, Debug, PartialEq, Eq)]
pub struct Header {
    /// What the frame is for.
    pub kind: FrameKind,
    /// How many bytes its payload has.
    pub length: u32,
}

impl Header {
    /// The five bytes of the header: the kind, and the length in four bytes, the highest first.
    #[tactic(auto, unfolding(crate::specs::Frames::header_bytes))]
    pub fn write(&self) -> [u8; 5]
        ensures { result ≡ header_bytes self.now }
    {
        let mut bytes = [0; 5];
        bytes[0] = self.kind.byte();
        BigEndian::write_u32(&mut bytes[1..], self.length);
        bytes
    }

    /// The header that these bytes are, or none where the first of them isn't 1 to 9.
    #[tactic(auto, unfolding(crate::specs::Frames::header_bytes))]
    pub fn read(bytes: &[u8; 5]) -> Option<Header>
        ensures header { IfSome result (λ header. header_bytes header ≡ bytes.now) }
        ensures kinds { IsSome result ↔ ((1 ≤ slice_index bytes.now 0) × (slice_index bytes.now 0 ≤ 9)) }
        ensures again { (header : HeaderOf) → header.length < 2 ^ 32 → bytes.now ≡ header_bytes header → result ≡ Some header }
    {
        match FrameKind::from_byte(bytes[0]) {
            None => None,
            Some(kind) => Some(Header {
                kind,
                length: BigEndian::read_u32(&bytes[1..]),
            }),
        }
    }
}

/// Appends a frame.
pub fn write_frame(outbox: &mut Outbox, kind: FrameKind, payload: &[u8])
    requires { length outbox.old + (5 + length payload.now) ≤ most_frame_bytes }
    ensures { outbox.new ≡ outbox.old ++ frame_bytes (record { kind = kind; payload = payload.now }) }
{
    let header = Header {
        kind,
        length: payload.len() as u32,
    };
    outbox.put(&header.write());
    outbox.put(payload);
}

/// Appends a frame whose payload is the bits, eight to a byte, the low bit first, and the rest of the last byte 0.
pub fn write_bits(outbox: &mut Outbox, kind: FrameKind, bits: &[bool])
    requires { length outbox.old + (5 + bytes_for (length bits.now)) ≤ most_frame_bytes }
    ensures { outbox.new ≡ outbox.old ++ frame_bytes (record { kind = kind; payload = pack bits.now }) }
{
    let header = Header {
        kind,
        length: byte_count(bits.len()) as u32,
    };
    outbox.put(&header.write());
    let mut rest = bits;
    while rest.len() > 8 {
        let (front, others) = rest.split_at(8);
        outbox.put(&[pack_byte(front)]);
        rest = others;
    }
    if !rest.is_empty() {
        outbox.put(&[pack_byte(rest)]);
    }
}

/// The first byte of a list that isn't as its form wants is the first such byte, and where there is none, each byte that
/// has a form is as that wants.
pub fn first_wrong_byte_is_first()
    ensures { (forms : List Form) (bytes : List ℕ) → FindsFirst forms bytes (first_wrong forms bytes) }
{}
