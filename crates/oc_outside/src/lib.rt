//! The outside: files by name, where bytes go, lines to the other party, and what makes them.
//!
//! Four traits, `Vault`, `Sink`, `Link` and `Dialer`, are all that the layers above see of it, beside the words that a program is
//! started with (`Arguments`). Each of the four has a count of faults that never falls, and an answer `Failed` comes only
//! where the count rose in that call. What else a trait says, it says of lists that an object may tell or not: the contents of
//! each name, the bytes written, sent, arrived and still coming, the words. Want of memory is an answer of its own.
//!
//! `MemoryVault` and `MemorySink` tell all, and fail at the calls that they were made with. `SureVault`,
//! `SureSink`, `SureLink` and `SureDialer` tell all and have no faults. `HostVault` and `HostSink` reach
//! real files and writers, count their faults and tell nothing else. `write_all` writes to any sink
//! until all is taken or the sink refuses. `MemoryArguments` tell their words, `HostArguments` reach those of the process and tell
//! nothing.
#![tactic(auto)]

pub mod arguments;
pub mod dialers;
pub mod host_sink;
pub mod host_vault;
pub mod links;
pub mod memory_sink;
pub mod memory_vault;
mod plan;
pub mod sinks;
mod stored_files;
pub mod sure_dialer;
pub mod sure_link;
pub mod sure_sink;
pub mod sure_vault;
pub mod vaults;

pub use arguments::{Arguments, HostArguments, MemoryArguments, WordAnswer};
pub use dialers::{Asked, DialAnswer, Dialer};
pub use host_sink::HostSink;
pub use host_vault::HostVault;
pub use links::{Link, RecvAnswer};
pub use memory_sink::MemorySink;
pub use memory_vault::MemoryVault;
pub use sinks::{PutAnswer, PutEnd, Sink, write_all};
pub use sure_dialer::SureDialer;
pub use sure_link::SureLink;
pub use sure_sink::SureSink;
pub use sure_vault::SureVault;
pub use vaults::{FileAnswer, Vault, WriteAnswer};
