//! Prints.

ghost use Rattle.std.specs.Prelude.{◌≡◌, ◌∷◌, ◌++◌, [], IfOk, OnOk, true, false, Some, None, length, nat_eq, nat_le, ◌&&◌};
ghost use Rattle.oc_values.specs.Integers.{width};
ghost use Rattle.oc_values.specs.Kinds.{promoted};
ghost use Rattle.oc_cells.specs.Types.{kind_of as kind_in};
ghost use Rattle.oc_typed.specs.declared.typed.TExprNode as node;
ghost use Rattle.type_rules.specs.Judging.{needs};
ghost use Rattle.type_rules.specs.Lookup.{is};
ghost use Rattle.type_rules.specs.Prints as rules;
ghost use Rattle.type_rules.specs.Prints.{format_of, asked, printed_value, printed_both, print_called};
ghost use Rattle.type_steps.specs.Answering.{Answers};
ghost use Rattle.written_types.specs.Each.{mapped};
ghost use Rattle.call_steps.specs.Printed.{printed_of, format_seen};

use crate::formats::Format;
use crate::given::joined_args;
use oc_cells::CType;
use oc_source::Spot;
use oc_typed::{Builtin, PrintPiece, TExpr, TExprNode};
use oc_values::{Boxed, IntKind, Items, NoMemory, promoted};
use std::alloc::Global;
use type_rules::{Found, TypeRule};
use type_steps::TypeFault;
use type_steps::needs::needs;
use type_steps::types::kind_of;
use type_steps::values::{convert, new_value};

/// How many values a print has at most.
const MOST_VALUES: usize = 64;

/// How many bytes the text of a print has at most.
const LONGEST_TEXT: usize = 4000;

/// The values of a print, and whether each has the width that is asked for.
#[derive(Drop)]
pub struct Printed {
    pub args: Items<TExpr>,
    pub fit: bool,
}

/// Appends the kind that a piece asks for, if it asks for one.
fn push_asked(kinds: &mut Items<IntKind>, piece: &PrintPiece) -> Result<(), NoMemory>
    ensures { OnOk result (kinds.new ≡ kinds.old ++ asked (piece.now ∷ [])) }
{
    match piece {
        PrintPiece::Text(_) => Ok(()),
        PrintPiece::Decimal(kind) => Ok(kinds.push(*kind)?),
        PrintPiece::Byte => Ok(kinds.push(IntKind::I32)?),
    }
}

/// The kinds that the pieces of a format ask for.
pub fn asked(alloc: Global, pieces: &Items<PrintPiece>) -> Result<Items<IntKind>, NoMemory>
    ensures { IfOk result (λ ks. ks ≡ asked pieces.now) }
{
    let mut kinds = Items::new(alloc);
    for piece in pieces.as_slice() {
        push_asked(&mut kinds, piece)?;
    }
    Ok(kinds)
}

/// No value.
pub fn printed_none(alloc: Global) -> Printed
    ensures { printed_of result ≡ record { args = []; fit = true } }
{
    Printed {
        args: Items::new(alloc),
        fit: true,
    }
}

/// A value, and whether it has the width that is asked for.
fn printed_one(alloc: Global, value: Boxed<TExpr>, fit: bool) -> Result<Printed, NoMemory>
    ensures { IfOk result (λ a. printed_of a ≡ record { args = value ∷ []; fit = fit }) }
{
    let mut args = Items::new(alloc);
    args.push(value.into_inner())?;
    Ok(Printed { args, fit })
}

/// Whether the promoted width of a value is that of a kind.
fn has_width(kind: IntKind, value: &Boxed<TExpr>) -> bool
    ensures { result ≡ nat_eq (width (promoted (kind_in value.now.ty))) (width kind) }
{
    promoted(kind_of(&value.get().ty)).width() == kind.width()
}

/// A value that no piece asks for.
pub fn printed_only(alloc: Global, value: Boxed<TExpr>) -> Result<Printed, NoMemory>
    ensures { IfOk result (λ a. printed_of a ≡ record { args = value ∷ []; fit = true }) }
{
    printed_one(alloc, value, true)
}

/// A value that is printed as this kind, whose promoted width it has.
pub fn printed_value(
    alloc: Global,
    kind: IntKind,
    value: Boxed<TExpr>,
) -> Result<Printed, TypeFault>
    ensures { Answers (printed_value kind value) (mapped printed_of result) }
{
    let fit = has_width(kind, &value);
    let value = convert(alloc, &CType::Int { kind, obliv: false }, value)?;
    Ok(printed_one(alloc, value, fit)?)
}

/// The values of two parts of a print.
pub fn join_printed(first: Printed, second: Printed) -> Result<Printed, NoMemory>
    ensures { IfOk result (λ a. printed_of a ≡ printed_both (printed_of first) (printed_of second)) }
{
    let args = joined_args(first.args, second.args)?;
    Ok(Printed {
        args,
        fit: first.fit && second.fit,
    })
}

/// A print stands alone.
fn need_alone(spot: Spot, alone: bool) -> Result<(), TypeFault>
    ensures { Answers (needs spot TypeRule.T3 alone) result }
{
    needs(spot, TypeRule::T3, alone)
}

/// A print whose first argument, if there is `any`, is no text.
pub fn print_without_text(alone: bool, spot: Spot, any: bool) -> Result<Boxed<Found>, TypeFault>
    ensures { (printed : rules.Printed) → Answers (print_called alone spot any None printed) result }
{
    need_alone(spot, alone)?;
    needs(spot, TypeRule::T7, any)?;
    Err(TypeFault::Refused {
        rule: TypeRule::T8,
        spot,
    })
}

/// Whether a text is a format that these values fit.
fn fits(text: &[u8], kinds: usize, format: &Format, printed: &Printed) -> bool
    requires { kinds ≡ length (asked format.now.pieces) }
    ensures { result ≡ (format.now.good && printed.now.fit && nat_eq (length printed.now.args) (length (asked format.now.pieces)) && nat_le (length printed.now.args) 64 && nat_le (length text.now) 4000) }
{
    format.good
        && printed.fit
        && printed.args.len() == kinds
        && printed.args.len() <= MOST_VALUES
        && text.len() <= LONGEST_TEXT
}

/// A text that is a format which these values fit.
fn need_fit(
    alloc: Global,
    spot: Spot,
    text: &[u8],
    format: &Format,
    printed: &Printed,
) -> Result<(), TypeFault>
    ensures { Answers (needs spot TypeRule.T8 (format.now.good && printed.now.fit && nat_eq (length printed.now.args) (length (asked format.now.pieces)) && nat_le (length printed.now.args) 64 && nat_le (length text.now) 4000)) result }
{
    let kinds = asked(alloc, &format.pieces)?;
    needs(spot, TypeRule::T8, fits(text, kinds.len(), format, printed))
}

/// A print of values by the pieces of a format.
fn print_value(
    alloc: Global,
    spot: Spot,
    pieces: Items<PrintPiece>,
    args: Items<TExpr>,
) -> Result<Boxed<Found>, TypeFault>
    ensures { Answers (is spot CType.Nothing (node.Builtin (Builtin.Print pieces) args)) result }
{
    let which = Builtin::Print { pieces };
    Ok(new_value(
        alloc,
        spot,
        CType::Nothing,
        TExprNode::Builtin { which, args },
    )?)
}

/// A print of a text, whose format was read.
pub fn text_print(
    alloc: Global,
    alone: bool,
    spot: Spot,
    text: &[u8],
    format: Format,
    printed: Printed,
) -> Result<Boxed<Found>, TypeFault>
    requires { format_seen format ≡ format_of (Some text.now) }
    ensures { Answers (print_called alone spot true (Some text.now) (printed_of printed)) result }
{
    need_alone(spot, alone)?;
    need_fit(alloc, spot, text, &format, &printed)?;
    print_value(alloc, spot, format.pieces, printed.args)
}
