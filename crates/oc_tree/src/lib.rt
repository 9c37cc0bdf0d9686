//! The trees of a program and what it means, handed on from the crates in which they stand.
//!
//! A source's parsed tree is that of `oc_source`, types and memory are those of `oc_cells`, the typed tree is that of
//! `oc_typed` and, well typed, of `oc_typing`. What a typed program means stands in `oc_walk` and `oc_meanings`:
//! `specs/Meanings.antt` has the clear meaning, the word events with their integers and the plain meaning of a typed tree.
#![tactic(auto)]

pub use oc_cells::{
    Address, Block, CType, Cell, CellValue, FieldType, SlotType, StructType, TrapKind,
};
pub use oc_source::{Literal, Program, Spot, parsed};
pub use oc_typed::{
    Builtin, PrintPiece, TDeclared, TExpr, TExprNode, TForInit, TPlace, TPlaceNode, TStmt,
    TStmtNode, TypedFunction,
};
pub use oc_typing::Typed;
pub use oc_values::{
    BinaryOp, IntKind, Items, Name, NoMemory, OneOp, ZeroDivisor, convert, public_op, wrap,
};
pub use oc_walk::{ClearSetup, Flow, Outcome, ShownItem, Value};
