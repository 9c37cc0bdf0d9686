//! What arguments are in their places, beside the cycle of expressions.

ghost use Rattle.std.specs.Prelude.{◌≡◌, ◌&&◌, ◌||◌, is_some, option_map, slice_get};
ghost use Rattle.std.specs.Option.{option_copied};
ghost use Rattle.type_rules.specs.Calls.{called, is_private_call};
ghost use Rattle.type_rules.specs.Rules.{is_private_node, has_sizeof, is_product, is_size, sizeof_type, text_of, way, counted, sized};
ghost use Rattle.type_steps.specs.Answering.{Answers};
ghost use Rattle.written_types.specs.Each.{mapped};
ghost use Rattle.written_types.specs.Known.{lookup};
ghost use Rattle.call_steps.specs.Given.{given_of};
ghost use Rattle.typed_expressions.specs.Sites.{site_lookup};
ghost use Rattle.call_steps.specs.Printed.{printed_of};
ghost use Rattle.typed_expressions.specs.Arguments.{taken_by, shown_by};
ghost use Rattle.typed_expressions.specs.Ways.{way_of};

use crate::called::{Called, meaning_of};
use crate::site::Site;
use call_steps::{Given, Printed, given_size, given_value, printed_only, printed_value};
use oc_cells::SlotType;
use oc_source::{Expr, ExprNode, TypeName};
use oc_typed::TExpr;
use oc_values::{BinaryOp, Boxed, IntKind, Items, Name};
use std::alloc::Global;
use type_rules::{OwnCall, Want};
use type_steps::TypeFault;
use type_steps::needs::need_public;
use type_steps::values::convert;
use written_types::{Known, type_name};

/// How an argument is judged: by its value, as the `ocPrivate` of a feed, or by the `sizeof` in it.
#[derive(Clone, Copy, Debug, PartialEq, Eq)]
pub enum Way {
    ByValue,
    ByPrivate,
    BySize,
}

/// Whether an expression is an `ocPrivate`.
fn is_private(site: &Site<'_, '_>, e: &Expr) -> bool
    ensures { result ≡ is_private_node (site_lookup site.now) e.now.node }
{
    match &e.node {
        ExprNode::Call { name, .. } => is_private_name(site, name.as_bytes()),
        _ => false,
    }
}

/// Whether a called name is that of `ocPrivate`.
fn is_private_name(site: &Site<'_, '_>, name: &[u8]) -> bool
    ensures { result ≡ is_private_call (called (site_lookup site.now) name.now) }
{
    match meaning_of(site, name) {
        Called::Own(OwnCall::Private) => true,
        _ => false,
    }
}

/// The type that `sizeof` names, where an expression is one.
pub fn size_name(e: &Expr) -> Option<&TypeName>
    ensures { option_copied result ≡ sizeof_type e.now.node }
{
    match &e.node {
        ExprNode::SizeOf(written) => Some(written),
        _ => None,
    }
}

/// The text that an expression is, if it is one.
pub fn text_of(e: &Expr) -> Option<&Name>
    ensures { option_copied result ≡ text_of e.now.node }
{
    match &e.node {
        ExprNode::Text(text) => Some(text),
        _ => None,
    }
}

/// Whether an expression is a `sizeof`, or a product with one.
fn has_size(e: &Expr) -> bool
    ensures { result ≡ has_sizeof e.now.node }
{
    match &e.node {
        ExprNode::SizeOf(_) => true,
        ExprNode::Binary { op, left, right } => is_sized_product(*op, left.get(), right.get()),
        _ => false,
    }
}

/// Whether an operator is the product and one of its operands a `sizeof`.
fn is_sized_product(op: BinaryOp, left: &Expr, right: &Expr) -> bool
    ensures { result ≡ (is_product op && (is_some (sizeof_type left.now.node) || is_some (sizeof_type right.now.node))) }
{
    match op {
        BinaryOp::Mul => size_name(left).is_some() || size_name(right).is_some(),
        _ => false,
    }
}

/// Whether an expression is a `sizeof`.
fn is_size(e: &Expr) -> bool
    ensures { result ≡ is_size e.now.node }
{
    match &e.node {
        ExprNode::SizeOf(_) => true,
        _ => false,
    }
}

/// How an argument is judged where this is wanted.
pub fn judged_by(site: &Site<'_, '_>, want: Want, e: &Expr) -> Way
    ensures { way_of result ≡ way (site_lookup site.now) want e.now.node }
{
    match want {
        Want::Word(_) => {
            if is_private(site, e) {
                Way::ByPrivate
            } else {
                Way::ByValue
            }
        }
        Want::Bytes => {
            if has_size(e) {
                Way::BySize
            } else {
                Way::ByValue
            }
        }
        Want::Size => {
            if is_size(e) {
                Way::BySize
            } else {
                Way::ByValue
            }
        }
        _ => Way::ByValue,
    }
}

/// The type of `sizeof` where it may stand.
pub fn sized(alloc: Global, known: &Known<'_, '_>, written: &TypeName) -> Result<Given, TypeFault>
    ensures { Answers (sized (lookup known.now) written.now) (mapped given_of result) }
{
    let ty = type_name(alloc, known, written)?;
    Ok(given_size(alloc, ty)?)
}

/// A number of cells.
pub fn counted(alloc: Global, value: Boxed<TExpr>) -> Result<Given, TypeFault>
    ensures { Answers (counted value) (mapped given_of result) }
{
    let spot = value.get().spot;
    need_public(spot, &value)?;
    Ok(given_value(alloc, value)?)
}

/// A value as a parameter takes it, if there is one.
pub fn take(
    alloc: Global,
    param: Option<&SlotType>,
    value: Boxed<TExpr>,
) -> Result<Boxed<TExpr>, TypeFault>
    ensures { Answers (taken_by (option_map (λ s. s.ty) (option_copied param.entry)) value) result }
{
    match param {
        None => Ok(value),
        Some(param) => convert(alloc, &param.ty, value),
    }
}

/// A value as a piece prints it, if one asks for it.
pub fn show(alloc: Global, kind: Option<IntKind>, value: Boxed<TExpr>) -> Result<Printed, TypeFault>
    ensures { Answers (shown_by kind value) (mapped printed_of result) }
{
    match kind {
        None => Ok(printed_only(alloc, value)?),
        Some(kind) => printed_value(alloc, kind, value),
    }
}

/// The kind of a number, if there is one.
pub fn kind_at(kinds: &Items<IntKind>, at: usize) -> Option<IntKind>
    ensures { result ≡ slice_get kinds.now at }
{
    kinds.get(at).copied()
}
