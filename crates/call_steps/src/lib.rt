//! What calls are of their typed arguments, in code: calls by their names, formats, what arguments give.
#![tactic(auto)]

pub mod builtins;
pub mod formats;
pub mod functions;
pub mod given;
pub mod own_calls;
pub mod prints;

pub use builtins::{own_called, private_word};
pub use formats::{Format, read_format};
pub use functions::function_called;
pub use given::{
    Given, NamedParty, both_parts, given_as, given_none, given_size, given_value, given_wrong,
    join, want_of,
};
pub use own_calls::own_call;
pub use prints::{
    Printed, asked, join_printed, print_without_text, printed_none, printed_only, printed_value,
    text_print,
};
