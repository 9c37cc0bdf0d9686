use super::*;
use oc_values::Items;
use std::test::Fail;

/// A header of each kind, and its bytes.
static HEADERS: [(FrameKind, u32, [u8; 5]); 9] = [
    (FrameKind::Hello, 57, [1, 0, 0, 0, 57]),
    (FrameKind::Labels, 512, [2, 0, 0, 2, 0]),
    (FrameKind::Choice, 4, [3, 0, 0, 0, 4]),
    (FrameKind::Pairs, 2_048, [4, 0, 0, 8, 0]),
    (FrameKind::Tables, 1_024, [5, 0, 0, 4, 0]),
    (FrameKind::Decode, 0, [6, 0, 0, 0, 0]),
    (FrameKind::Shown, 0x0102_0304, [7, 1, 2, 3, 4]),
    (FrameKind::Colours, u32::MAX, [8, 255, 255, 255, 255]),
    (FrameKind::End, 1, [9, 0, 0, 0, 1]),
];

/// The words and the budget of some setups of an empty source.
static SETUPS: [(&[i64], u64); 3] = [(&[], 0), (&[-1], 0), (&[], 1_000_000_000)];

/// The digest of each, by an independent model.
static DIGESTS: [[u8; 32]; 3] = [
    [
        0x9d, 0x90, 0x8e, 0xcf, 0xb6, 0xb2, 0x56, 0xde, 0xf8, 0xb4, 0x9a, 0x7c, 0x50, 0x4e, 0x6c,
        0x88, 0x9c, 0x4b, 0x0e, 0x41, 0xfe, 0x6c, 0xe3, 0xe0, 0x18, 0x63, 0xdd, 0x7b, 0x61, 0xa2,
        0x0a, 0xa0,
    ],
    [
        0xe8, 0x67, 0xf4, 0x65, 0xfc, 0x1c, 0x9c, 0x8d, 0x72, 0x07, 0x8b, 0x06, 0xbf, 0xff, 0xc7,
        0x0c, 0x94, 0x8a, 0xce, 0x21, 0x19, 0x29, 0x48, 0x6e, 0xd8, 0xf1, 0x96, 0x06, 0x75, 0x83,
        0x8a, 0xcd,
    ],
    [
        0x3b, 0x1d, 0x95, 0xe9, 0xf2, 0xdf, 0xb2, 0x81, 0x21, 0x4a, 0xbd, 0xa7, 0x67, 0x65, 0x7b,
        0x47, 0x44, 0x9e, 0xa7, 0xd5, 0xa2, 0xb0, 0x5f, 0x87, 0x19, 0x22, 0x5a, 0x08, 0x0e, 0x40,
        0x9b, 0xfd,
    ],
];

#[test]
fn headers(rt: HostRuntime) -> Result<(), Fail> {
    for (kind, length, bytes) in HEADERS.iter() {
        let header = Header {
            kind: *kind,
            length: *length,
        };
        assert_eq!(rt; header.write(), *bytes);
        assert_eq!(rt; Header::read(bytes), Some(header));
    }
    for byte in [0u8, 10, 255] {
        assert_eq!(rt; Header::read(&[byte, 0, 0, 0, 57]), None);
    }
    Ok(())
}

#[test]
fn setup_digests(rt: HostRuntime) -> Result<(), Fail> {
    for ((words, budget), wanted) in SETUPS.iter().zip(DIGESTS.iter()) {
        let public = Items::from_vec(Vec::from_slice(rt.alloc(), words)?);
        assert_eq!(rt; setup_digest(&[], &public, *budget), *wanted);
    }
    Ok(())
}

#[test]
fn shown(rt: HostRuntime) -> Result<(), Fail> {
    let mut outbox = Outbox::new(rt.alloc())?;
    let mut bits = [true; 32];
    bits[0] = false;
    write_bits(&mut outbox, FrameKind::Shown, &bits);
    let frame = [7u8, 0, 0, 0, 4, 0xfe, 0xff, 0xff, 0xff];
    assert_eq!(rt; outbox.held(), frame.as_slice());
    Ok(())
}
