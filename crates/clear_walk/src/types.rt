//! Tests of types.

ghost use Rattle.std.specs.Prelude.{◌≡◌};
ghost use Rattle.oc_values.specs.declared.integers.BinaryOp.{BinaryOp};
ghost use Rattle.oc_values.specs.Kinds.{is_minus, is_shift};
ghost use Rattle.oc_cells.specs.Layout.{size_of};
ghost use Rattle.oc_cells.specs.Types.{kind_of, is_hidden, is_integer, is_pointer, is_struct, target};
ghost use Rattle.oc_typed.specs.Static.{working_kind};

use clear_actions::Store;
use oc_cells::CType;
use oc_values::{BinaryOp, IntKind, promoted};

/// The kind of an integer type, and `I32` of any other one.
pub fn kind_of(ty: &CType) -> IntKind
    ensures { result ≡ kind_of ty.now }
{
    match ty {
        CType::Int { kind, .. } => *kind,
        _ => IntKind::I32,
    }
}

/// Whether a type is a hidden integer.
pub fn is_hidden(ty: &CType) -> bool
    ensures { result ≡ is_hidden ty.now }
{
    match ty {
        CType::Int { obliv, .. } => *obliv,
        _ => false,
    }
}

/// Whether a type is an integer.
pub fn is_integer(ty: &CType) -> bool
    ensures { result ≡ is_integer ty.now }
{
    matches!(ty, CType::Int { .. })
}

/// Whether a type is a pointer.
pub fn is_pointer(ty: &CType) -> bool
    ensures { result ≡ is_pointer ty.now }
{
    matches!(ty, CType::Pointer { .. })
}

/// Whether a type is a struct.
pub fn is_struct(ty: &CType) -> bool
    ensures { result ≡ is_struct ty.now }
{
    matches!(ty, CType::Struct(_))
}

/// How many cells an element has to which a pointer of this type leads, and 0 where it leads to none.
pub fn element_size(store: &Store<'_>, ty: &CType) -> u32
    ensures { result ≡ size_of store.now.blocks.structs (target ty.now) }
{
    match ty {
        CType::Pointer { frozen: _, to } => store.blocks.size_of(to.get()),
        _ => 0,
    }
}

/// Whether an operator subtracts.
pub fn is_minus(op: BinaryOp) -> bool
    ensures { result ≡ is_minus op }
{
    matches!(op, BinaryOp::Sub)
}

/// The kind at which an update of a place of the first type by a value of the second is computed.
pub fn working_kind(op: BinaryOp, place: &CType, value: &CType) -> IntKind
    ensures { result ≡ working_kind op place.now value.now }
{
    if matches!(op, BinaryOp::Shl | BinaryOp::Shr) {
        promoted(kind_of(place))
    } else {
        kind_of(value)
    }
}
