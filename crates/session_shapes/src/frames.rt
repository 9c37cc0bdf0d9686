//! A frame as it is seen on the line.

use party_frames::FrameKind;

/// A frame as everybody sees it: the party that sends it, 1 or 2, what it is for, and how many bytes of payload it has.
#[derive(Clone, Copy, Debug, PartialEq, Eq)]
pub struct SeenFrame {
    pub sender: u8,
    pub kind: FrameKind,
    pub length: u32,
}
