//! Expressions.

ghost use Rattle.std.specs.Prelude.{◌≡◌, ◌∷◌, [], false, true, Ok, Some, None, option_map};
ghost use Rattle.std.specs.Option.{option_copied};
ghost use Rattle.type_rules.specs.Calls.{called, function_called, given_as, given_value, own_called, private_word, types_of, wants};
ghost use Rattle.type_rules.specs.Judging.{next, breaks};
ghost use Rattle.type_rules.specs.Operators.{unary, bump, operate, logic, choice, assign, index, field, arrow, cast};
ghost use Rattle.type_rules.specs.Prints.{asked, format_of, print_called};
ghost use Rattle.type_rules.specs.Rules.{typed_value, typed_alone, private, size, sized, sizeof_type, product, counted, both_parts};
ghost use Rattle.type_rules.specs.Written.{type_name};
ghost use Rattle.type_steps.specs.Answering.{Answers};
ghost use Rattle.written_types.specs.Each.{mapped};
ghost use Rattle.written_types.specs.Known.{lookup};
ghost use Rattle.call_steps.specs.Given.{given_of};
ghost use Rattle.call_steps.specs.Printed.{printed_of};
ghost use Rattle.typed_expressions.specs.Arguments.{call_of, passed_list, passed_one, given_list, given_one, printing_list, printed_list, shown_by};
ghost use Rattle.typed_expressions.specs.Sites.{site_lookup, found};

use crate::called::{Called, meaning_of};
use crate::calls::{Way, counted, judged_by, kind_at, show, size_name, sized, take, text_of};
use crate::leaves::{misplaced_size, named, null_pointer, number};
use crate::site::Site;
use call_steps::{
    Given, Printed, asked, both_parts, function_called, given_as, given_none, given_value,
    given_wrong, join, join_printed, own_called, print_without_text, printed_none, private_word,
    read_format, text_print, want_of,
};
use oc_cells::SlotType;
use oc_source::{Expr, ExprNode, Spot, TypeName, UnaryOp};
use oc_typed::TExpr;
use oc_values::{BinaryOp, Boxed, IntKind, Items, Name};
use std::alloc::Global;
use type_rules::{Found, Heading, OwnCall, TypeRule, Want};
use type_steps::TypeFault;
use type_steps::operators::{assign, bump, cast, choice, index, logic, operate, unary};
use type_steps::values::value_of;
use written_types::{arrow, field, type_name};

/// What an expression is found to be.
#[cycle(exprs)]
pub fn type_expr(
    alloc: Global,
    site: &Site<'_, '_>,
    alone: bool,
    e: &Expr,
) -> Result<Boxed<Found>, TypeFault>
    ensures { Answers (found (site_lookup site.now) alone e.now) result }
{
    let spot = e.spot;
    match &e.node {
        ExprNode::Number(literal) => number(alloc, spot, *literal),
        ExprNode::NullPointer => null_pointer(alloc, spot),
        ExprNode::Text(_) => Err(TypeFault::Refused {
            rule: TypeRule::T8,
            spot,
        }),
        ExprNode::Named(name) => named(alloc, site, spot, name),
        ExprNode::Unary { op, part } => type_unary(alloc, site, spot, *op, part.get()),
        ExprNode::Bump { up, before, part } => type_bump(
            alloc,
            site,
            spot,
            *up,
            *before,
            part.get(),
        ),
        ExprNode::Binary { op, left, right } => type_binary(
            alloc,
            site,
            spot,
            *op,
            left.get(),
            right.get(),
        ),
        ExprNode::Logic { all, left, right } => type_logic(
            alloc,
            site,
            spot,
            *all,
            left.get(),
            right.get(),
        ),
        ExprNode::Choose { cond, yes, no } => type_choice(
            alloc,
            site,
            spot,
            cond.get(),
            yes.get(),
            no.get(),
        ),
        ExprNode::Assign { op, left, right } => type_assign(
            alloc,
            site,
            spot,
            *op,
            left.get(),
            right.get(),
        ),
        ExprNode::Index { part, amount } => type_index(alloc, site, spot, part.get(), amount.get()),
        ExprNode::Field { part, name } => type_field(alloc, site, spot, part.get(), name),
        ExprNode::Arrow { part, name } => type_arrow(alloc, site, spot, part.get(), name),
        ExprNode::Call { name, args } => type_call(
            alloc,
            site,
            alone,
            spot,
            name.as_bytes(),
            args.as_slice(),
        ),
        ExprNode::Cast { to, part } => type_cast(alloc, site, spot, to, part.get()),
        ExprNode::SizeOf(written) => misplaced_size(site.known, spot, written),
    }
}

/// The value of an expression.
#[cycle(exprs)]
pub fn type_value(alloc: Global, site: &Site<'_, '_>, e: &Expr) -> Result<Boxed<TExpr>, TypeFault>
    ensures { Answers (typed_value (site_lookup site.now) e.now) result }
{
    let found = type_expr(alloc, site, false, e)?;
    Ok(value_of(alloc, found)?)
}

/// The value of an expression that stands alone.
pub fn type_alone(alloc: Global, site: &Site<'_, '_>, e: &Expr) -> Result<Boxed<TExpr>, TypeFault>
    ensures { Answers (typed_alone (site_lookup site.now) e.now) result }
{
    let found = type_expr(alloc, site, true, e)?;
    Ok(value_of(alloc, found)?)
}

/// An operator with one operand.
#[cycle(exprs)]
fn type_unary(
    alloc: Global,
    site: &Site<'_, '_>,
    spot: Spot,
    op: UnaryOp,
    part: &Expr,
) -> Result<Boxed<Found>, TypeFault>
    ensures { let g = site_lookup site.now in Answers (next (found g false part.now) (λ f. unary spot op f)) result }
{
    let part = type_expr(alloc, site, false, part)?;
    unary(alloc, spot, op, part)
}

/// `++` or `--`.
#[cycle(exprs)]
fn type_bump(
    alloc: Global,
    site: &Site<'_, '_>,
    spot: Spot,
    up: bool,
    before: bool,
    part: &Expr,
) -> Result<Boxed<Found>, TypeFault>
    ensures { let g = site_lookup site.now in Answers (next (found g false part.now) (λ f. bump spot up before f)) result }
{
    let part = type_expr(alloc, site, false, part)?;
    bump(alloc, spot, up, before, part)
}

/// An operator with two operands.
#[cycle(exprs)]
fn type_binary(
    alloc: Global,
    site: &Site<'_, '_>,
    spot: Spot,
    op: BinaryOp,
    left: &Expr,
    right: &Expr,
) -> Result<Boxed<Found>, TypeFault>
    ensures { let g = site_lookup site.now in Answers (next (typed_value g left.now) (λ x. next (typed_value g right.now) (λ y. operate spot op x y))) result }
{
    let left = type_value(alloc, site, left)?;
    let right = type_value(alloc, site, right)?;
    operate(alloc, spot, op, left, right)
}

/// `&&` or `||`.
#[cycle(exprs)]
fn type_logic(
    alloc: Global,
    site: &Site<'_, '_>,
    spot: Spot,
    all: bool,
    left: &Expr,
    right: &Expr,
) -> Result<Boxed<Found>, TypeFault>
    ensures { let g = site_lookup site.now in Answers (next (typed_value g left.now) (λ x. next (typed_value g right.now) (λ y. logic spot all x y))) result }
{
    let left = type_value(alloc, site, left)?;
    let right = type_value(alloc, site, right)?;
    logic(alloc, spot, all, left, right)
}

/// `?:`.
#[cycle(exprs)]
fn type_choice(
    alloc: Global,
    site: &Site<'_, '_>,
    spot: Spot,
    cond: &Expr,
    yes: &Expr,
    no: &Expr,
) -> Result<Boxed<Found>, TypeFault>
    ensures { let g = site_lookup site.now in Answers (next (typed_value g cond.now) (λ a. next (typed_value g yes.now) (λ b. next (typed_value g no.now) (λ d. choice spot a b d)))) result }
{
    let cond = type_value(alloc, site, cond)?;
    let yes = type_value(alloc, site, yes)?;
    let no = type_value(alloc, site, no)?;
    choice(alloc, spot, cond, yes, no)
}

/// An assignment.
#[cycle(exprs)]
fn type_assign(
    alloc: Global,
    site: &Site<'_, '_>,
    spot: Spot,
    op: Option<BinaryOp>,
    left: &Expr,
    right: &Expr,
) -> Result<Boxed<Found>, TypeFault>
    ensures { let g = site_lookup site.now in Answers (next (found g false left.now) (λ f. next (typed_value g right.now) (λ v. assign spot op f v))) result }
{
    let left = type_expr(alloc, site, false, left)?;
    let right = type_value(alloc, site, right)?;
    assign(alloc, spot, op, left, right)
}

/// An element.
#[cycle(exprs)]
fn type_index(
    alloc: Global,
    site: &Site<'_, '_>,
    spot: Spot,
    part: &Expr,
    amount: &Expr,
) -> Result<Boxed<Found>, TypeFault>
    ensures { let g = site_lookup site.now in Answers (next (typed_value g part.now) (λ x. next (typed_value g amount.now) (λ y. index spot x y))) result }
{
    let part = type_value(alloc, site, part)?;
    let amount = type_value(alloc, site, amount)?;
    index(alloc, spot, part, amount)
}

/// A field of a place.
#[cycle(exprs)]
fn type_field(
    alloc: Global,
    site: &Site<'_, '_>,
    spot: Spot,
    part: &Expr,
    name: &Name,
) -> Result<Boxed<Found>, TypeFault>
    ensures { let g = site_lookup site.now in Answers (next (found g false part.now) (λ f. field (lookup site.now.known.now) spot name.now f)) result }
{
    let part = type_expr(alloc, site, false, part)?;
    field(alloc, site.known, spot, name.as_bytes(), part)
}

/// A field of what a pointer leads to.
#[cycle(exprs)]
fn type_arrow(
    alloc: Global,
    site: &Site<'_, '_>,
    spot: Spot,
    part: &Expr,
    name: &Name,
) -> Result<Boxed<Found>, TypeFault>
    ensures { let g = site_lookup site.now in Answers (next (typed_value g part.now) (λ v. arrow (lookup site.now.known.now) spot name.now v)) result }
{
    let part = type_value(alloc, site, part)?;
    arrow(alloc, site.known, spot, name.as_bytes(), part)
}

/// A cast.
#[cycle(exprs)]
fn type_cast(
    alloc: Global,
    site: &Site<'_, '_>,
    spot: Spot,
    to: &TypeName,
    part: &Expr,
) -> Result<Boxed<Found>, TypeFault>
    ensures { let g = site_lookup site.now in Answers (next (type_name (lookup site.now.known.now) to.now) (λ ty. next (typed_value g part.now) (λ v. cast spot ty v))) result }
{
    let ty = type_name(alloc, site.known, to)?;
    let part = type_value(alloc, site, part)?;
    cast(alloc, spot, ty, part)
}

/// A call, by what its name means.
#[cycle(exprs)]
fn type_call(
    alloc: Global,
    site: &Site<'_, '_>,
    alone: bool,
    spot: Spot,
    name: &[u8],
    args: &[Expr],
) -> Result<Boxed<Found>, TypeFault>
    ensures { let g = site_lookup site.now in Answers (call_of g alone spot (called g name.now) args.now) result }
{
    match meaning_of(site, name) {
        Called::Variable => type_uncalled(alloc, site, spot, TypeRule::T7, args),
        Called::Unknown => type_uncalled(alloc, site, spot, TypeRule::T1, args),
        Called::Print => type_print(alloc, site, alone, spot, args),
        Called::Own(call) => type_own_call(alloc, site, alone, spot, call, args),
        Called::Known { number, heading } => type_function_call(
            alloc, site, alone, spot, number, heading, args,
        ),
    }
}

/// A call of what can't be called, which is a fault after those of its arguments.
#[cycle(exprs)]
fn type_uncalled(
    alloc: Global,
    site: &Site<'_, '_>,
    spot: Spot,
    rule: TypeRule,
    args: &[Expr],
) -> Result<Boxed<Found>, TypeFault>
    ensures { let g = site_lookup site.now in Answers (next (passed_list g [] args.now) (λ _. breaks spot rule)) result }
{
    let _ = type_passed(alloc, site, &Items::new(alloc), args)?;
    Err(TypeFault::Refused { rule, spot })
}

/// A call of a function.
#[cycle(exprs)]
fn type_function_call(
    alloc: Global,
    site: &Site<'_, '_>,
    alone: bool,
    spot: Spot,
    number: u64,
    heading: &Heading,
    args: &[Expr],
) -> Result<Boxed<Found>, TypeFault>
    ensures { let g = site_lookup site.now in Answers (next (passed_list g (types_of heading.now.params) args.now) (λ vs. function_called alone spot number heading.now vs)) result }
{
    let values = type_passed(alloc, site, &heading.params, args)?;
    function_called(alloc, alone, spot, number, heading, values)
}

/// A call of the language's own.
#[cycle(exprs)]
fn type_own_call(
    alloc: Global,
    site: &Site<'_, '_>,
    alone: bool,
    spot: Spot,
    call: OwnCall,
    args: &[Expr],
) -> Result<Boxed<Found>, TypeFault>
    ensures { let g = site_lookup site.now in Answers (next (given_list g (wants call) args.now) (λ a. own_called alone spot call a)) result }
{
    let given = type_given(alloc, site, call, args)?;
    own_called(alloc, alone, spot, call, given)
}

/// The arguments of a function.
#[cycle(exprs)]
fn type_passed(
    alloc: Global,
    site: &Site<'_, '_>,
    params: &Items<SlotType>,
    args: &[Expr],
) -> Result<Items<TExpr>, TypeFault>
    ensures { Answers (passed_list (site_lookup site.now) (types_of params.now) args.now) result }
{
    let mut values = Items::new(alloc);
    for i in 0..args.len() {
        let value = type_passed_one(alloc, site, params.get(i), &args[i])?;
        values.push(value.into_inner())?;
    }
    Ok(values)
}

/// An argument of a function, for a parameter if there is one.
#[cycle(exprs)]
fn type_passed_one(
    alloc: Global,
    site: &Site<'_, '_>,
    param: Option<&SlotType>,
    arg: &Expr,
) -> Result<Boxed<TExpr>, TypeFault>
    ensures { Answers (passed_one (site_lookup site.now) (option_map (λ s. s.ty) (option_copied param.entry)) arg.now) result }
{
    let value = type_value(alloc, site, arg)?;
    take(alloc, param, value)
}

/// The arguments of the language's own call.
#[cycle(exprs)]
fn type_given(
    alloc: Global,
    site: &Site<'_, '_>,
    call: OwnCall,
    args: &[Expr],
) -> Result<Given, TypeFault>
    ensures { Answers (given_list (site_lookup site.now) (wants call) args.now) (mapped given_of result) }
{
    let mut all = given_none(alloc);
    for i in 0..args.len() {
        let given = type_given_one(alloc, site, want_of(call, i as u64), &args[i])?;
        all = join(all, given)?;
    }
    Ok(all)
}

/// An argument of the language's own call, by what is wanted in its place, if something is.
#[cycle(exprs)]
fn type_given_one(
    alloc: Global,
    site: &Site<'_, '_>,
    want: Option<Want>,
    arg: &Expr,
) -> Result<Given, TypeFault>
    ensures { Answers (given_one (site_lookup site.now) want arg.now) (mapped given_of result) }
{
    match want {
        None => type_further(alloc, site, arg),
        Some(want) => match judged_by(site, want, arg) {
            Way::ByValue => type_wanted(alloc, site, want, arg),
            Way::ByPrivate => type_fed(alloc, site, arg),
            Way::BySize => type_size(alloc, site, arg),
        },
    }
}

/// An argument in whose place nothing is wanted.
#[cycle(exprs)]
fn type_further(alloc: Global, site: &Site<'_, '_>, arg: &Expr) -> Result<Given, TypeFault>
    ensures { Answers (next (typed_value (site_lookup site.now) arg.now) (λ v. Ok (given_value v))) (mapped given_of result) }
{
    let value = type_value(alloc, site, arg)?;
    Ok(given_value(alloc, value)?)
}

/// An argument that is judged by its value.
#[cycle(exprs)]
fn type_wanted(
    alloc: Global,
    site: &Site<'_, '_>,
    want: Want,
    arg: &Expr,
) -> Result<Given, TypeFault>
    ensures { Answers (next (typed_value (site_lookup site.now) arg.now) (λ v. given_as want v)) (mapped given_of result) }
{
    let value = type_value(alloc, site, arg)?;
    given_as(alloc, want, value)
}

/// The argument of a feed that is an `ocPrivate`.
#[cycle(exprs)]
fn type_fed(alloc: Global, site: &Site<'_, '_>, arg: &Expr) -> Result<Given, TypeFault>
    ensures { Answers (next (private (site_lookup site.now) arg.now.spot arg.now.node) (λ v. Ok (given_value v))) (mapped given_of result) }
{
    let value = type_private(alloc, site, arg)?;
    Ok(given_value(alloc, value)?)
}

/// The `ocPrivate` that an expression is.
#[cycle(exprs)]
fn type_private(alloc: Global, site: &Site<'_, '_>, e: &Expr) -> Result<Boxed<TExpr>, TypeFault>
    ensures { Answers (private (site_lookup site.now) e.now.spot e.now.node) result }
{
    match &e.node {
        ExprNode::Call { name: _, args } => type_private_call(alloc, site, e.spot, args.as_slice()),
        _ => Err(TypeFault::Refused {
            rule: TypeRule::T9,
            spot: e.spot,
        }),
    }
}

/// A call of `ocPrivate` with its arguments.
#[cycle(exprs)]
fn type_private_call(
    alloc: Global,
    site: &Site<'_, '_>,
    spot: Spot,
    args: &[Expr],
) -> Result<Boxed<TExpr>, TypeFault>
    ensures { Answers (next (given_list (site_lookup site.now) (wants OwnCall.Private) args.now) (λ a. private_word spot a)) result }
{
    let given = type_given(alloc, site, OwnCall::Private, args)?;
    private_word(alloc, spot, given)
}

/// The `sizeof` that an expression is, or its product with a number.
#[cycle(exprs)]
fn type_size(alloc: Global, site: &Site<'_, '_>, e: &Expr) -> Result<Given, TypeFault>
    ensures { Answers (size (site_lookup site.now) e.now.node) (mapped given_of result) }
{
    match &e.node {
        ExprNode::SizeOf(written) => sized(alloc, site.known, written),
        ExprNode::Binary { op: _, left, right } => type_product(
            alloc,
            site,
            left.get(),
            right.get(),
        ),
        _ => Ok(given_wrong(alloc)?),
    }
}

/// A product with a `sizeof`; of two the first is in place.
#[cycle(exprs)]
fn type_product(
    alloc: Global,
    site: &Site<'_, '_>,
    left: &Expr,
    right: &Expr,
) -> Result<Given, TypeFault>
    ensures { let g = site_lookup site.now in Answers (product g (sizeof_type left.now.node) (sizeof_type right.now.node) (found g false left.now) (found g false right.now)) (mapped given_of result) }
{
    match size_name(left) {
        Some(written) => type_size_first(alloc, site, written, right),
        None => match size_name(right) {
            Some(written) => type_size_second(alloc, site, left, written),
            None => Ok(given_wrong(alloc)?),
        },
    }
}

/// A product whose first operand is a `sizeof`.
#[cycle(exprs)]
fn type_size_first(
    alloc: Global,
    site: &Site<'_, '_>,
    written: &TypeName,
    count: &Expr,
) -> Result<Given, TypeFault>
    ensures { let g = site_lookup site.now in Answers (next (sized (lookup site.now.known.now) written.now) (λ a. next (next (typed_value g count.now) (λ v. counted v)) (λ b. Ok (both_parts a b)))) (mapped given_of result) }
{
    let size = sized(alloc, site.known, written)?;
    let count = type_counted(alloc, site, count)?;
    Ok(both_parts(alloc, size, count)?)
}

/// A product whose second operand is a `sizeof`.
#[cycle(exprs)]
fn type_size_second(
    alloc: Global,
    site: &Site<'_, '_>,
    count: &Expr,
    written: &TypeName,
) -> Result<Given, TypeFault>
    ensures { let g = site_lookup site.now in Answers (next (next (typed_value g count.now) (λ v. counted v)) (λ a. next (sized (lookup site.now.known.now) written.now) (λ b. Ok (both_parts a b)))) (mapped given_of result) }
{
    let count = type_counted(alloc, site, count)?;
    let size = sized(alloc, site.known, written)?;
    Ok(both_parts(alloc, count, size)?)
}

/// A number of cells.
#[cycle(exprs)]
fn type_counted(alloc: Global, site: &Site<'_, '_>, e: &Expr) -> Result<Given, TypeFault>
    ensures { Answers (next (typed_value (site_lookup site.now) e.now) (λ v. counted v)) (mapped given_of result) }
{
    let value = type_value(alloc, site, e)?;
    counted(alloc, value)
}

/// A print.
#[cycle(exprs)]
fn type_print(
    alloc: Global,
    site: &Site<'_, '_>,
    alone: bool,
    spot: Spot,
    args: &[Expr],
) -> Result<Boxed<Found>, TypeFault>
    ensures { Answers (printing_list (site_lookup site.now) alone spot args.now) result }
{
    match args {
        [] => print_without_text(alone, spot, false),
        [first, rest @ ..] => type_some_print(alloc, site, alone, spot, first, rest),
    }
}

/// A print with a first argument.
#[cycle(exprs)]
fn type_some_print(
    alloc: Global,
    site: &Site<'_, '_>,
    alone: bool,
    spot: Spot,
    first: &Expr,
    rest: &[Expr],
) -> Result<Boxed<Found>, TypeFault>
    ensures { Answers (printing_list (site_lookup site.now) alone spot (first.now ∷ rest.now)) result }
{
    match text_of(first) {
        Some(text) => type_text_print(alloc, site, alone, spot, text.as_bytes(), rest),
        None => type_other_print(alloc, site, alone, spot, first, rest),
    }
}

/// A print of a text.
#[cycle(exprs)]
fn type_text_print(
    alloc: Global,
    site: &Site<'_, '_>,
    alone: bool,
    spot: Spot,
    text: &[u8],
    rest: &[Expr],
) -> Result<Boxed<Found>, TypeFault>
    ensures { let g = site_lookup site.now in Answers (next (printed_list g (asked (format_of (Some text.now)).pieces) rest.now) (λ a. print_called alone spot true (Some text.now) a)) result }
{
    let format = read_format(alloc, text)?;
    let kinds = asked(alloc, &format.pieces)?;
    let printed = type_printed(alloc, site, &kinds, rest)?;
    text_print(alloc, alone, spot, text, format, printed)
}

/// A print whose first argument is no text.
#[cycle(exprs)]
fn type_other_print(
    alloc: Global,
    site: &Site<'_, '_>,
    alone: bool,
    spot: Spot,
    first: &Expr,
    rest: &[Expr],
) -> Result<Boxed<Found>, TypeFault>
    ensures { let g = site_lookup site.now in Answers (next (typed_value g first.now) (λ _. next (printed_list g [] rest.now) (λ a. print_called alone spot true None a))) result }
{
    let _ = type_value(alloc, site, first)?;
    let _ = type_printed(alloc, site, &Items::new(alloc), rest)?;
    print_without_text(alone, spot, true)
}

/// The arguments after the text of a print.
#[cycle(exprs)]
fn type_printed(
    alloc: Global,
    site: &Site<'_, '_>,
    kinds: &Items<IntKind>,
    args: &[Expr],
) -> Result<Printed, TypeFault>
    ensures { Answers (printed_list (site_lookup site.now) kinds.now args.now) (mapped printed_of result) }
{
    let mut all = printed_none(alloc);
    for i in 0..args.len() {
        let printed = type_printed_one(alloc, site, kind_at(kinds, i), &args[i])?;
        all = join_printed(all, printed)?;
    }
    Ok(all)
}

/// An argument after the text of a print, by the kind that a piece asks for, if one does.
#[cycle(exprs)]
fn type_printed_one(
    alloc: Global,
    site: &Site<'_, '_>,
    kind: Option<IntKind>,
    arg: &Expr,
) -> Result<Printed, TypeFault>
    ensures { Answers (next (typed_value (site_lookup site.now) arg.now) (λ v. shown_by kind v)) (mapped printed_of result) }
{
    let value = type_value(alloc, site, arg)?;
    show(alloc, kind, value)
}
