//! The memory of a run: numbered blocks of cells, over any content of the hidden cells.
//!
//! A block is made with a leaf (an integer or pointer type) and a value for each cell, and is live until it ends
//! or is freed. Every access says with which leaf it reads or writes, and a wrong one is answered by the one trap
//! that the language names for it; the blocks are then as they were. What each call answers is written in the
//! definitions of memory of `oc_cells`, over the list of blocks that contracts see.
#![tactic(auto)]

pub mod blocks;
mod cells;
mod copying;
pub mod hidden;
pub mod laws;
mod layout;

pub use blocks::{Blocks, MakeRefusal};
pub use hidden::{HiddenCell, copy_value};
pub use laws::operands_agree;
pub use oc_cells::{Address, CType, Cell, CellValue, StructType, TrapKind};
