//! Dealt transfers: the halves that a dealer makes, their files, and the transfers of a session.
//!
//! A dealer makes two halves (`deal`). The sender's half has a pair of pads for each transfer, the receiver's a
//! bit and the pad of that bit. Each is written to a file and read from it (`write_sender_half`,
//! `read_sender_half` and the same for the receiver). In a session the receiver sends a choice bit hidden by its
//! bit (`choice_bit`), the sender answers both messages hidden by its pads (`mask_pair`), and the receiver takes
//! out the one that it chose (`open_pair`). The sender's labels are drawn from its coin key (`CoinLabels`). `form` has
//! what finds the first fault of a file of such fields. After D. Beaver, *Precomputing Oblivious Transfer* (Crypto 1995).
#![tactic(auto)]

pub mod coins;
mod dealing;
mod fault;
pub mod form;
mod half;
pub mod hiding;
mod reading;
mod stream;
mod transfer;
mod writing;

pub use coins::{CoinLabels, coin_label};
pub use dealing::deal;
pub use fault::{HalfFault, HalfRule};
pub use half::{MOST_TRANSFERS, ReceiverHalf, SenderHalf};
pub use reading::{read_receiver_half, read_sender_half};
pub use transfer::{choice_bit, first_unmatched, mask_pair, open_pair};
pub use writing::{write_receiver_half, write_sender_half};
