//! Laws of memory, each the contract of a function that does nothing.

ghost use Rattle.block_memory.specs.Laws.{OperandsAgree};

/// A memory of integers and one of operands that stand for them answer each call alike.
pub fn operands_agree()
    ensures { OperandsAgree }
{}
