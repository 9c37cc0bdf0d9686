//! Functions, and whole programs.

ghost use Rattle.std.specs.Prelude.{◌≡◌, OnOk, IfOk};
ghost use Rattle.oc_cells.specs.Layout.{struct_leaves};
ghost use Rattle.oc_code.specs.Lower.{function_code, functions_code, lowered};
ghost use Rattle.cond_lowering.specs.Pieces.{Adds};
ghost use Rattle.cond_lowering.specs.Statements.{coding, listed_of};

use crate::statements::emit_turn_of;
use crate::ways::{Exit, emit_end};
use oc_cells::{CType, Leaf, Row, SlotType, table_of};
use oc_code::{CodeFunction, Line};
use oc_typed::{TStmt, TypedFunction};
use oc_typing::Typed;
use oc_values::{Items, NoMemory};
use std::alloc::Global;
use type_steps::types::share_type;

/// The code of a function's own body.
fn emit_body<'t>(
    alloc: Global,
    table: &Row<Row<Leaf<'t>>>,
    slots: &Items<SlotType>,
    gives: &CType,
    code: &mut Items<Line>,
    body: &[TStmt],
) -> Result<(), NoMemory>
    ensures { OnOk result (Adds code.old (listed_of (coding table.now slots.now) gives.now body.now) code.new) }
{
    let mut exits: Items<Exit> = Items::new(alloc);
    for i in 0..body.len() {
        let s = &body[i];
        emit_turn_of(alloc, table, slots, gives, code, &mut exits, 0, s)?;
    }
    emit_end(code, gives)
}

/// The slots of a function once more.
fn copy_slots(alloc: Global, slots: &[SlotType]) -> Result<Items<SlotType>, NoMemory>
    ensures { IfOk result (λ copy. copy ≡ slots.now) }
{
    let mut copy: Items<SlotType> = Items::new(alloc);
    for i in 0..slots.len() {
        let slot = copy_slot(&slots[i])?;
        copy.push(slot)?;
    }
    Ok(copy)
}

/// A slot once more.
fn copy_slot(slot: &SlotType) -> Result<SlotType, NoMemory>
    ensures { IfOk result (λ copy. copy ≡ slot.now) }
{
    let ty = share_type(&slot.ty)?;
    Ok(SlotType {
        ty,
        frozen: slot.frozen,
    })
}

/// The lines of a function.
fn lower_body<'t>(
    alloc: Global,
    table: &Row<Row<Leaf<'t>>>,
    f: &TypedFunction,
) -> Result<Items<Line>, NoMemory>
    ensures { IfOk result (λ code. code ≡ listed_of (coding table.now f.now.slots) f.now.result f.now.body 0) }
{
    let mut code: Items<Line> = Items::new(alloc);
    emit_body(
        alloc,
        table,
        &f.slots,
        &f.result,
        &mut code,
        f.body.as_slice(),
    )?;
    Ok(code)
}

/// The code of a function.
fn lower_function<'t>(
    alloc: Global,
    table: &Row<Row<Leaf<'t>>>,
    f: &TypedFunction,
) -> Result<CodeFunction, NoMemory>
    ensures { IfOk result (λ new. new ≡ function_code table.now f.now) }
{
    let code = lower_body(alloc, table, f)?;
    let slots = copy_slots(alloc, f.slots.as_slice())?;
    let name = f.name.share()?;
    Ok(CodeFunction {
        name,
        slots,
        params: f.params,
        obliv: f.obliv,
        code,
    })
}

/// The code of functions, in order.
fn lower_functions<'t>(
    alloc: Global,
    table: &Row<Row<Leaf<'t>>>,
    fs: &[TypedFunction],
) -> Result<Items<CodeFunction>, NoMemory>
    ensures { IfOk result (λ all. all ≡ functions_code table.now fs.now) }
{
    let mut all: Items<CodeFunction> = Items::new(alloc);
    for i in 0..fs.len() {
        let new = lower_function(alloc, table, &fs[i])?;
        all.push(new)?;
    }
    Ok(all)
}

/// The code of a program's functions.
pub fn lower_all(alloc: Global, typed: &Typed) -> Result<Items<CodeFunction>, NoMemory>
    ensures { IfOk result (λ all. all ≡ lowered typed.now.structs typed.now.functions) }
{
    let table = table_of(alloc, &typed.structs)?;
    lower_functions(alloc, &table, typed.functions.as_slice())
}
