//! What two parties say to each other, byte for byte: frames, boxes of bytes, batches of table rows, and the digest of
//! what both are to run.
//!
//! A frame is a header and a payload (`Header`, `write_frame`, `write_bits`). `Inbox`, `Outbox` and `PrintBox` hold bytes
//! that came and weren't taken yet, that were written and weren't sent yet, and that were printed and weren't shown yet.
//! A `TableBatch` holds the pairs of rows of one frame of AND gates. `setup_digest` is what both parties compare before
//! they begin. Only the boxes' `new` takes memory. Nothing here knows of programs.
#![tactic(auto)]

mod batches;
mod both_parties;
mod boxes;
mod frames;
mod setup;

pub use batches::{MOST_ROWS, TableBatch};
pub use both_parties::{Duet, DuetFault, Move};
pub use boxes::{ByteBox, Inbox, MOST_FRAME_BYTES, MOST_PRINT_BYTES, Outbox, PrintBox};
pub use frames::{FrameKind, Header, first_wrong_byte_is_first, write_bits, write_frame};
pub use setup::setup_digest;

#[cfg(test)]
mod tests;
