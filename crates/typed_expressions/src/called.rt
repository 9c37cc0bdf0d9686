//! What called names mean.

ghost use Rattle.std.specs.Prelude.{◌≡◌};
ghost use Rattle.type_rules.specs.Calls.{called, called_function, called_own, function_from, own_call};
ghost use Rattle.typed_expressions.specs.Sites.{site_lookup};
ghost use Rattle.typed_expressions.specs.CalledNames.{called_of};

use crate::leaves::find;
use crate::site::Site;
use call_steps::own_call;
use type_rules::{Heading, OwnCall};
use written_types::{Bodies, number_of};

/// What a called name is.
#[derive(Clone, Copy)]
pub enum Called<'s> {
    Variable,
    Unknown,
    Print,
    Own(OwnCall),
    /// The function of this number.
    Known { number: u64, heading: &'s Heading },
}

/// The function of a name, if there is one.
fn function<'s>(bodies: &'s Bodies<'_>, name: &[u8]) -> Called<'s>
    ensures { called_of result ≡ function_from 0 bodies.now.headings name.now }
{
    match number_of(&bodies.numbers, name) {
        None => Called::Unknown,
        Some(number) => match bodies.headings.get(number as usize) {
            None => Called::Unknown,
            Some(heading) => Called::Known { number, heading },
        },
    }
}

/// A call of the language's own.
fn own<'s>(call: OwnCall) -> Called<'s>
    ensures { called_of result ≡ called_own call }
{
    match call {
        OwnCall::Printf => Called::Print,
        _ => Called::Own(call),
    }
}

/// What a name that is no variable means.
fn no_variable<'s>(site: &Site<'s, '_>, name: &[u8]) -> Called<'s>
    ensures { called_of result ≡ called_function (site_lookup site.now) name.now (own_call name.now) }
{
    match own_call(name) {
        Some(call) => own(call),
        None => function(site.known.bodies, name),
    }
}

/// What a called name means, where a variable of this name is looked for first.
pub fn meaning_of<'s>(site: &Site<'s, '_>, name: &[u8]) -> Called<'s>
    ensures { called_of result ≡ called (site_lookup site.now) name.now }
{
    match find(site, name) {
        Some(_) => Called::Variable,
        None => no_variable(site, name),
    }
}
