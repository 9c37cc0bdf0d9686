//! The typed tree of a program: what the checker makes, and what every meaning of a program is a walk of.
#![tactic(auto)]

pub mod typed;

pub use typed::{
    Builtin, PrintPiece, TDeclared, TExpr, TExprNode, TForInit, TPlace, TPlaceNode, TStmt,
    TStmtNode, TypedFunction,
};
