//! Lines and their dialers: in memory, with calls that fail by number, and over TCP.
//!
//! `MemoryLink` and `MemoryDialer` tell all their lists, and fail at exactly the calls that they were made to fail at.
//! `TcpLink` and `TcpDialer` reach real sockets, count their faults and tell nothing else. All four meet the traits `Link`
//! and `Dialer` of `oc_outside`. What a run says of the dialer that it was handed stands in `specs/Dialed.antt`, over any
//! dialer.
#![tactic(auto)]

mod memory_dialer;
mod memory_link;
mod plan;
mod tcp_dialer;
mod tcp_link;

pub use memory_dialer::MemoryDialer;
pub use memory_link::MemoryLink;
pub use tcp_dialer::TcpDialer;
pub use tcp_link::TcpLink;

#[cfg(test)]
mod tests;
