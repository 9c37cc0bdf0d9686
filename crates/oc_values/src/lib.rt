//! What every layer speaks of: lists, names, want of memory, and whole numbers in two's complement.
//!
//! Nothing here knows of programs. `Items` is a list, `Name` a list of bytes, `NoMemory` the one answer
//! for want of memory; `Shared` is a value with several owners. `IntKind` is a kind of integer of the
//! language. `wrap`, `convert`, `operate`, `operate_one` and `public_op` are its arithmetic, by the definitions
//! of `specs/Integers.antt`, and `promoted` and `common` the kinds of operands, by those of `specs/Kinds.antt`.
//! `packing` puts bits into bytes, by the definitions of `specs/Packing.antt`.
#![tactic(auto)]

pub mod arithmetic;
pub mod integers;
pub mod kinds;
pub mod lists;
pub mod packing;
pub mod shared;

pub use arithmetic::{operate, operate_one, public_op};
pub use integers::{BinaryOp, IntKind, OneOp, ZeroDivisor, convert, is_of_kind, wrap};
pub use kinds::{common, promoted, same_kind};
pub use lists::{Boxed, Items, Name, NoMemory};
pub use shared::Shared;
