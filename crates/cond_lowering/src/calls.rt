//! Calls of the language's own, once their arguments are there.

ghost use Rattle.std.specs.Prelude.{◌≡◌, ◌≤◌, [], ◌∷◌, OnOk, IfOk, length};
ghost use Rattle.oc_code.specs.Machine.{asked};
ghost use Rattle.oc_code.specs.Lower.{feed_code, perform_code, wrong_code};
ghost use Rattle.oc_walk.specs.Builtins.{source_at as source_at_node};
ghost use Rattle.cond_lowering.specs.Pieces.{Adds, fixed};
ghost use Rattle.cond_lowering.specs.Forms.{first_source as first_source_of, takes as takes_in, performed, reveal_code, make_code, malloc_code, print_line};

use crate::writing::put;
use oc_cells::CType;
use oc_code::{Instr, Line};
use oc_source::Spot;
use oc_typed::{Builtin, PrintPiece, TExpr, TExprNode};
use oc_values::{IntKind, Items, NoMemory};
use oc_walk::Source;
use std::alloc::Global;
use type_steps::types::target_of;

/// What an argument is to a feed.
fn source_at(e: &TExpr) -> Source
    ensures { result ≡ source_at_node e.now.spot e.now.node }
{
    match &e.node {
        TExprNode::Builtin {
            which: Builtin::Private,
            args: _,
        } => Source::Word(e.spot),
        _ => Source::Public,
    }
}

/// What the first argument is to a feed.
fn first_source(args: &[TExpr]) -> Source
    ensures { result ≡ first_source_of args.now }
{
    match args.first() {
        Some(first) => source_at(first),
        None => Source::Public,
    }
}

/// How many arguments a piece of a format takes.
fn asked_at(piece: &PrintPiece) -> usize
    ensures value { result ≡ asked (piece.now ∷ []) }
    ensures bound { result ≤ 1 }
{
    match piece {
        PrintPiece::Text(_) => 0,
        PrintPiece::Decimal(_) => 1,
        PrintPiece::Byte => 1,
    }
}

/// How many arguments the pieces of a format take.
fn asked_by(pieces: &[PrintPiece]) -> usize
    ensures { result ≡ asked pieces.now }
{
    let mut count = 0;
    for i in 0..pieces.len() {
        count += asked_at(&pieces[i]);
    }
    count
}

/// Whether a call of the language's own has as many arguments as it takes.
fn takes(which: &Builtin, count: usize) -> bool
    ensures { result ≡ takes_in which.now count }
{
    match which {
        Builtin::Private => count == 1,
        Builtin::Feed { kind: _, party: _ } => count == 1,
        Builtin::Reveal { kind: _ } => count == 2,
        Builtin::Give { kind: _, party: _ } => count == 1,
        Builtin::PrivateCount { party: _ } => count == 0,
        Builtin::PublicCount => count == 0,
        Builtin::PublicWord => count == 1,
        Builtin::Print { pieces } => count == asked_by(pieces.as_slice()),
        Builtin::Calloc => count == 1,
        Builtin::Malloc => count <= 1,
        Builtin::Free => count == 1,
    }
}

/// A piece of a format once more; its text is shared.
fn copy_piece(piece: &PrintPiece) -> Result<PrintPiece, NoMemory>
    ensures { IfOk result (λ copy. copy ≡ piece.now) }
{
    match piece {
        PrintPiece::Text(bytes) => Ok(PrintPiece::Text(bytes.share()?)),
        PrintPiece::Decimal(kind) => Ok(PrintPiece::Decimal(*kind)),
        PrintPiece::Byte => Ok(PrintPiece::Byte),
    }
}

/// The pieces of a format once more.
fn copy_pieces(alloc: Global, pieces: &[PrintPiece]) -> Result<Items<PrintPiece>, NoMemory>
    ensures { IfOk result (λ copy. copy ≡ pieces.now) }
{
    let mut copy: Items<PrintPiece> = Items::new(alloc);
    for i in 0..pieces.len() {
        let piece = copy_piece(&pieces[i])?;
        copy.push(piece)?;
    }
    Ok(copy)
}

/// A feed: of a private word, or of a public value, which needs no instruction.
fn emit_feed(
    code: &mut Items<Line>,
    source: Source,
    kind: IntKind,
    party: u8,
) -> Result<(), NoMemory>
    ensures { OnOk result (Adds code.old (fixed (feed_code source kind party)) code.new) }
{
    match source {
        Source::Word(spot) => put(code, spot, Instr::Feed { kind, party }),
        Source::Public => Ok(()),
    }
}

/// A hidden value is shown, and written.
fn emit_reveal(code: &mut Items<Line>, spot: Spot, kind: IntKind) -> Result<(), NoMemory>
    ensures { OnOk result (Adds code.old (fixed (reveal_code spot kind)) code.new) }
{
    put(code, spot, Instr::Reveal { kind })?;
    put(code, spot, Instr::Store(CType::Int { kind, obliv: false }))
}

/// A new block of what a pointer type leads to.
fn emit_make(code: &mut Items<Line>, spot: Spot, ty: &CType) -> Result<(), NoMemory>
    ensures { OnOk result (Adds code.old (fixed (make_code spot ty.now)) code.new) }
{
    let target = target_of(ty)?;
    put(code, spot, Instr::Make(target))
}

/// A new block, of one element where the call has no argument.
fn emit_malloc(code: &mut Items<Line>, spot: Spot, ty: &CType, count: usize) -> Result<(), NoMemory>
    ensures { OnOk result (Adds code.old (fixed (malloc_code spot ty.now count)) code.new) }
{
    if count == 0 {
        put(
            code,
            spot,
            Instr::Push {
                kind: IntKind::I32,
                value: 1,
            },
        )?;
    }
    emit_make(code, spot, ty)
}

/// A print.
fn emit_print(
    alloc: Global,
    code: &mut Items<Line>,
    spot: Spot,
    pieces: &Items<PrintPiece>,
) -> Result<(), NoMemory>
    ensures { OnOk result (Adds code.old (fixed (print_line spot pieces.now)) code.new) }
{
    let copy = copy_pieces(alloc, pieces.as_slice())?;
    put(code, spot, Instr::Print { pieces: copy })
}

/// A call of the language's own that has as many arguments as it takes.
fn emit_performed(
    alloc: Global,
    code: &mut Items<Line>,
    spot: Spot,
    ty: &CType,
    source: Source,
    which: &Builtin,
    count: usize,
) -> Result<(), NoMemory>
    ensures { OnOk result (Adds code.old (fixed (performed spot ty.now source which.now count)) code.new) }
{
    match which {
        Builtin::Private => Ok(()),
        Builtin::Feed { kind, party } => emit_feed(code, source, *kind, *party),
        Builtin::Reveal { kind } => emit_reveal(code, spot, *kind),
        Builtin::Give { kind, party } => put(
            code,
            spot,
            Instr::Give {
                kind: *kind,
                party: *party,
            },
        ),
        Builtin::PrivateCount { party } => put(code, spot, Instr::Count { party: *party }),
        Builtin::PublicCount => put(code, spot, Instr::PublicCount),
        Builtin::PublicWord => put(code, spot, Instr::PublicWord),
        Builtin::Print { pieces } => emit_print(alloc, code, spot, pieces),
        Builtin::Calloc => emit_make(code, spot, ty),
        Builtin::Malloc => emit_malloc(code, spot, ty, count),
        Builtin::Free => put(code, spot, Instr::Free),
    }
}

/// What ends a run at a node with another number of arguments than it takes.
fn emit_wrong(code: &mut Items<Line>, spot: Spot) -> Result<(), NoMemory>
    ensures { OnOk result (Adds code.old (fixed (wrong_code spot)) code.new) }
{
    put(code, spot, Instr::Make(CType::Nothing))
}

/// A call of the language's own on these arguments.
pub fn perform(
    alloc: Global,
    code: &mut Items<Line>,
    spot: Spot,
    ty: &CType,
    which: &Builtin,
    args: &[TExpr],
) -> Result<(), NoMemory>
    ensures { OnOk result (Adds code.old (fixed (perform_code spot ty.now (first_source_of args.now) which.now (length args.now))) code.new) }
{
    if takes(which, args.len()) {
        let source = first_source(args);
        return emit_performed(alloc, code, spot, ty, source, which, args.len());
    }
    emit_wrong(code, spot)
}
