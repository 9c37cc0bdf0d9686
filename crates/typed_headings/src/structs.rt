//! The structs of a program, as functions see them.

ghost use Rattle.std.specs.Prelude.{◌≡◌, true, None};
ghost use Rattle.type_rules.specs.Written.{is_before, count_before};
ghost use Rattle.typed_headings.specs.Order.{follows, ordered_after};

use oc_source::{Spot, StructDef};
use written_types::{Names, Shapes};

/// Whether a spot stands before another.
fn is_before(spot: Spot, other: Spot) -> bool
    ensures { result ≡ is_before spot other }
{
    spot.line < other.line || (spot.line == other.line && spot.column < other.column)
}

/// Whether a spot stands after another one, if there is one.
fn follows(last: Option<Spot>, spot: Spot) -> bool
    ensures { result ≡ follows last spot }
{
    match last {
        None => true,
        Some(last) => is_before(last, spot),
    }
}

/// Whether each struct stands after the one before it.
fn are_ordered(defs: &[StructDef]) -> bool
    ensures { result ≡ ordered_after None defs.now }
{
    let mut last = None;
    for def in defs {
        if !follows(last, def.spot) {
            return false;
        }
        last = Some(def.spot);
    }
    true
}

/// How many structs stand before a spot, whatever their order is.
fn count_each(defs: &[StructDef], spot: Spot) -> u64
    ensures { result ≡ count_before spot defs.now }
{
    let mut count: u64 = 0;
    for def in defs {
        if is_before(def.spot, spot) {
            count += 1;
        }
    }
    count
}

/// How many structs stand before a spot, where each stands after the one before it.
fn count_ordered(defs: &[StructDef], spot: Spot) -> u64
    requires { ordered_after None defs.now ≡ true }
    ensures { result ≡ count_before spot defs.now }
{
    defs.partition_point(|def| is_before(def.spot, spot)) as u64
}

/// The structs of a program: their names, their types, and whether each stands after the one before it.
#[derive(Drop)]
pub struct Structs<'s, 'p> {
    pub names: &'s Names<'p>,
    pub shapes: &'s Shapes<'p>,
    pub in_order: bool,
    ghost ordered: { in_order ≡ ordered_after None names.now.defs.now },
}

impl<'s, 'p> Structs<'s, 'p> {
    /// These structs.
    pub fn new(names: &'s Names<'p>, shapes: &'s Shapes<'p>) -> Structs<'s, 'p>
        ensures names { result.names.now ≡ names.now }
        ensures shapes { result.shapes.now ≡ shapes.now }
    {
        Structs {
            names,
            shapes,
            in_order: are_ordered(names.defs),
        }
    }

    /// How many structs stand before a spot.
    pub fn count_before(&self, spot: Spot) -> u64
        ensures { result ≡ count_before spot self.now.names.now.defs.now }
    {
        if self.in_order {
            count_ordered(self.names.defs, spot)
        } else {
            count_each(self.names.defs, spot)
        }
    }
}
