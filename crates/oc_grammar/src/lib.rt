//! The grammar, and the calls that read single tokens.
//!
//! `specs/Headings.antt` says which tokens spell a program (`Derives`), one case a production, over
//! `Statements`, `Expressions` and `WrittenTypes`; `Tables` says what single signs and keywords stand for. The
//! grammar is a relation: nothing in it says how a parser chooses.
//!
//! `specs/Parsing.antt` says what it is to read a form from the front of a list of tokens, and
//! `specs/Calls.antt` what a call that does so promises (`Reads`). What it answers is spelled by the tokens that
//! it passed, and whatever follows the next token nothing else is. Where it fails, the tokens before that place
//! begin the form, and with the next token they begin none. Each reading call of the crates above has that
//! clause.
//!
//! `taking` passes single tokens, and `tables` has the tables of signs and keywords.
#![tactic(auto)]

pub mod tables;
pub mod taking;

use oc_lexer::Token;
use oc_values::NoMemory;
use std::alloc::{AllocError, AllocFailed};

/// Why a call reads no form.
#[derive(Debug, Drop)]
pub enum ParseError<'t> {
    /// At the first of these tokens, or at the end of the source if there are none.
    Unexpected(&'t [Token]),
    NoMemory,
}

impl<'t> From<AllocError> for ParseError<'t> {
    ghost use Rattle.std.specs.Prelude.{◌≡◌};
    ghost use Rattle.oc_grammar.specs.declared.ParseError.TheVariants.{NoMemory};

    ghost from_gives = { λ _ e. e ≡ NoMemory };

    fn from(_e: AllocError) -> ParseError<'t> {
        ParseError::NoMemory
    }
}

impl<'t> From<NoMemory> for ParseError<'t> {
    ghost use Rattle.std.specs.Prelude.{◌≡◌};
    ghost use Rattle.oc_grammar.specs.declared.ParseError.TheVariants.{NoMemory};

    ghost from_gives = { λ _ e. e ≡ NoMemory };

    fn from(_e: NoMemory) -> ParseError<'t> {
        ParseError::NoMemory
    }
}
