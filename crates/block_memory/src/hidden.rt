//! What stands for a hidden integer.

ghost use Rattle.std.specs.Prelude.{◌≡◌};

use oc_cells::CellValue;
use oc_values::IntKind;

/// What a hidden integer is to whoever keeps the blocks.
pub trait HiddenCell {
    ghost use Rattle.oc_values.specs.declared.integers.IntKind.{IntKind};

    // Holds of each value that `zero` may answer for a kind.
    ghost is_zero_of: { IntKind → Self → Type 0 };

    /// A 0 of a kind, which a new cell holds. Takes no memory.
    fn zero(kind: IntKind) -> Self
        ensures { is_zero_of kind result };

    /// An equal value. Takes no memory.
    fn copy(&self) -> Self
        ensures { result ≡ self.now };
}

/// A copy of what a cell holds.
pub fn copy_value<C: HiddenCell>(value: &CellValue<C>) -> CellValue<C>
    ensures { result ≡ value.now }
{
    match value {
        CellValue::Int(n) => CellValue::Int(*n),
        CellValue::Pointer(at) => CellValue::Pointer(*at),
        CellValue::Hidden(hidden) => CellValue::Hidden(hidden.copy()),
    }
}

/// The direct run keeps hidden integers as they are.
impl HiddenCell for i128 {
    ghost use Rattle.std.specs.Prelude.{◌≡◌, pos};

    ghost is_zero_of = { λ kind value. value ≡ pos 0 };

    fn zero(_kind: IntKind) -> i128 {
        0
    }

    fn copy(&self) -> i128 {
        *self
    }
}
