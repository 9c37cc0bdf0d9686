//! What a node does with the values of its parts.

ghost use Rattle.std.specs.Prelude.{◌≡◌, ◌&&◌, not, false};
ghost use Rattle.oc_values.specs.Integers.{is_zero, number_of};
ghost use Rattle.oc_values.specs.declared.integers.IntKind.TheVariants.{Bool as KBool};
ghost use Rattle.oc_cells.specs.declared.memory.Address.TheVariants.{At};
ghost use Rattle.oc_cells.specs.Layout.{size_of};
ghost use Rattle.oc_cells.specs.Types.{alike, target};
ghost use Rattle.oc_walk.specs.declared.run.Value.TheVariants.{Hidden};
ghost use Rattle.oc_walk.specs.Walking.{bind, pure, still};
ghost use Rattle.oc_walk.specs.Cells.{Only, fetches, moves, puts};
ghost use Rattle.oc_walk.specs.Operations.{condition};
ghost use Rattle.oc_walk.specs.Expressions.{converted, turned, stepping, assigns, initializes, readied, renewed, both_or_one, decided};
ghost use Rattle.oc_walk.specs.Walk.{zero_value, value_back};
ghost use Rattle.clear_actions.specs.Acting.{bare};
ghost use Rattle.clear_walk.specs.Runs.{Acts, integer_of, renewed_integer, source_in};

use crate::types::{
    element_size, is_hidden, is_integer, is_minus, is_pointer, is_struct, kind_of, working_kind,
};
use clear_actions::cells::{put_cell, read_cell, write_cell};
use clear_actions::operations::{hidden_condition, operate_binary, turn};
use clear_actions::places::move_address;
use clear_actions::{Fault, Machine, copy_struct};
use oc_cells::{Address, CType};
use oc_source::Spot;
use oc_typed::{Builtin, TExpr, TExprNode};
use oc_values::{BinaryOp, IntKind, same_kind};
use oc_walk::{Flow, Source, Value};

/// What the first argument is to a feed.
pub fn find_source(args: &[TExpr]) -> Source
    ensures { result ≡ source_in args.now }
{
    match args.first() {
        Some(
            TExpr {
                spot,
                node: TExprNode::Builtin {
                    which: Builtin::Private,
                    ..
                },
                ..
            },
        ) => Source::Word(*spot),
        _ => Source::Public,
    }
}

/// What is read of a place; of a struct, where it stands.
pub fn fetch(m: &Machine<'_>, spot: Spot, ty: &CType, at: Address) -> Result<Value<i128>, Fault>
    ensures { Acts (λ x. still (fetches bare spot ty.now (Only at))) m.now result m.now }
{
    if is_struct(ty) {
        return Ok(Value::Pointer(at));
    }
    read_cell(&m.store, spot, ty, at)
}

/// A value of the first kind as one of the second.
fn turn_value(
    m: &Machine<'_>,
    spot: Spot,
    from: IntKind,
    to: IntKind,
    value: Value<i128>,
) -> Result<Value<i128>, Fault>
    ensures { Acts (λ x. turned bare spot from to value) m.now result m.now }
{
    if same_kind(from, to) {
        return Ok(value);
    }
    turn(&m.store, spot, from, to, false, value)
}

/// A value of the first type as one of the second: a pointer stays what it is.
pub fn convert_value(
    m: &Machine<'_>,
    spot: Spot,
    from: &CType,
    to: &CType,
    value: Value<i128>,
) -> Result<Value<i128>, Fault>
    ensures { Acts (λ x. converted bare spot from.now to.now value) m.now result m.now }
{
    if !is_integer(to) {
        return Ok(value);
    }
    let lift = is_hidden(to) && !is_hidden(from);
    turn(&m.store, spot, kind_of(from), kind_of(to), lift, value)
}

/// A pointer moved by so many elements of what a pointer of this type leads to.
pub fn step_pointer(
    m: &Machine<'_>,
    spot: Spot,
    ty: &CType,
    back: bool,
    pointer: Value<i128>,
    amount: Value<i128>,
) -> Result<Value<i128>, Fault>
    ensures { Acts (λ x. stepping bare spot (size_of x.run.structs (target ty.now)) back pointer amount) m.now result m.now }
{
    let size = element_size(&m.store, ty);
    let moved = move_address(&m.store, spot, size, back, pointer, amount)?;
    Ok(Value::Pointer(moved))
}

/// Where the element of this type stands, counted from a pointer.
pub fn find_element(
    m: &Machine<'_>,
    spot: Spot,
    ty: &CType,
    pointer: Value<i128>,
    amount: Value<i128>,
) -> Result<Address, Fault>
    ensures { Acts (λ x. still (moves bare spot (size_of x.run.structs ty.now) false pointer amount)) m.now result m.now }
{
    let size = m.store.blocks.size_of(ty);
    move_address(&m.store, spot, size, false, pointer, amount)
}

/// Whether two truth values are the same.
pub fn alike(a: bool, b: bool) -> bool
    ensures { result ≡ alike a b }
{
    if a { b } else { !b }
}

/// The value of `&&` or `||` where its left operand decides it.
pub fn decided(holds: bool) -> Value<i128>
    ensures { result ≡ decided bare holds }
{
    Value::Int(IntKind::I32, if holds { 1 } else { 0 })
}

/// The operator of a hidden `&&` or `||`.
pub fn both_or_one(all: bool) -> BinaryOp
    ensures { result ≡ both_or_one bare all }
{
    if all { BinaryOp::And } else { BinaryOp::Or }
}

/// The write of an assignment, and what is then in the place.
pub fn assign(
    m: &mut Machine<'_>,
    enabled: bool,
    place: Spot,
    spot: Spot,
    ty: &CType,
    at: Address,
    value: Value<i128>,
) -> Result<Value<i128>, Fault>
    ensures { Acts (λ x. assigns bare x enabled place spot ty.now (Only at) value) m.old result m.new }
{
    if is_struct(ty) {
        copy_struct(m, spot, enabled, ty, at, value)?;
        return Ok(Value::Pointer(at));
    }
    write_cell(&mut m.store, place, enabled, ty, at, value)
}

/// The write of an initialiser to the start of a variable's block, which no enable holds back.
pub fn initialize(
    m: &mut Machine<'_>,
    spot: Spot,
    ty: &CType,
    block: u64,
    value: Value<i128>,
) -> Result<(), Fault>
    ensures { Acts (λ x. initializes bare spot x.run.structs ty.now (At block 0) value) m.old result m.new }
{
    let at = Address::At { block, offset: 0 };
    if is_struct(ty) {
        return copy_struct(m, spot, true, ty, at, value);
    }
    put_cell(&mut m.store, spot, ty, at, value)?;
    Ok(())
}

/// The write of a value to the only cell of a new variable.
pub fn fill(
    m: &mut Machine<'_>,
    spot: Spot,
    ty: &CType,
    block: u64,
    value: Value<i128>,
) -> Result<(), Fault>
    ensures { Acts (λ x. bind (still (puts bare spot ty.now (At block 0) value)) (λ _. pure tt)) m.old result m.new }
{
    put_cell(
        &mut m.store,
        spot,
        ty,
        Address::At { block, offset: 0 },
        value,
    )?;
    Ok(())
}

/// A hidden condition: its integer.
#[derive(Clone, Copy, Debug)]
pub struct Condition {
    pub value: i128,
}

/// A hidden condition of this value.
pub fn take_condition(m: &Machine<'_>, spot: Spot, value: Value<i128>) -> Result<Condition, Fault>
    ensures { Acts (λ x. still (condition bare spot value)) m.now (integer_of result) m.now }
{
    let integer = hidden_condition(&m.store, spot, value)?;
    Ok(Condition { value: integer })
}

/// The enable of the first part of an `obliv if` with this condition, from the outer one.
pub fn first_enable(enabled: bool, condition: Condition) -> bool
    ensures { result ≡ (enabled && not (is_zero condition.value)) }
{
    enabled && condition.value != 0
}

/// The enable of the second part.
pub fn second_enable(enabled: bool, condition: Condition) -> bool
    ensures { result ≡ (enabled && is_zero condition.value) }
{
    enabled && condition.value == 0
}

/// An enable as a hidden truth value.
pub fn held(enabled: bool) -> Value<i128>
    ensures { result ≡ Hidden KBool (number_of enabled) }
{
    Value::Hidden(IntKind::Bool, if enabled { 1 } else { 0 })
}

/// An update's old value as its operator takes it.
pub fn ready(
    m: &Machine<'_>,
    spot: Spot,
    op: BinaryOp,
    place: &CType,
    ty: &CType,
    old: Value<i128>,
) -> Result<Value<i128>, Fault>
    ensures { Acts (λ x. readied bare spot op place.now ty.now old) m.now result m.now }
{
    if is_pointer(place) {
        return Ok(old);
    }
    turn_value(m, spot, kind_of(place), working_kind(op, place, ty), old)
}

/// The new value of an update of an integer.
fn operate_update(
    m: &Machine<'_>,
    spot: Spot,
    op: BinaryOp,
    place: &CType,
    ty: &CType,
    old: Value<i128>,
    value: Value<i128>,
) -> Result<Value<i128>, Fault>
    ensures { Acts (λ x. renewed_integer spot op place.now ty.now old value) m.now result m.now }
{
    let kind = working_kind(op, place, ty);
    let new = operate_binary(&m.store, spot, op, kind, is_hidden(place), old, value)?;
    turn_value(m, spot, kind, kind_of(place), new)
}

/// An update's new value, of the old one and the operand.
pub fn renew(
    m: &Machine<'_>,
    spot: Spot,
    op: BinaryOp,
    place: &CType,
    ty: &CType,
    old: Value<i128>,
    value: Value<i128>,
) -> Result<Value<i128>, Fault>
    ensures { Acts (λ x. renewed bare x spot op place.now ty.now old value) m.now result m.now }
{
    if is_pointer(place) {
        return step_pointer(m, spot, place, is_minus(op), old, value);
    }
    operate_update(m, spot, op, place, ty, old, value)
}

/// What a function that ends without `return` gives: zero or null.
fn zero_value(ty: &CType) -> Value<i128>
    ensures { result ≡ zero_value bare ty.now }
{
    match ty {
        CType::Int { kind, obliv: false } => Value::Int(*kind, 0),
        CType::Int { kind, obliv: true } => Value::Hidden(*kind, 0),
        CType::Pointer { .. } => Value::Pointer(Address::Null),
        _ => Value::Nothing,
    }
}

/// The value of a call whose body ends so.
pub fn value_back(ty: &CType, flow: Flow<i128>) -> Value<i128>
    ensures { result ≡ value_back bare ty.now flow }
{
    match flow {
        Flow::Back(value) => value,
        _ => zero_value(ty),
    }
}
