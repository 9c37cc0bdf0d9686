//! The tokens of a source, or the first place at which it is refused.
//!
//! `specs/Sources.antt` says which tokens a source has, as a relation on the whole text: the text is a row of
//! pieces (blanks, comments, directives and the spellings of tokens), each the longest that can start where
//! it stands. `specs/Pieces.antt` has the pieces, and the files that it names their parts. `lex` finds the
//! tokens: `pieces` reads the piece at the front of a text, after its first bytes told what it is (`kinds`),
//! `defines` keeps the names that `#define`s make numbers, `places` where one stands, and `scan` goes from
//! piece to piece.
#![tactic(auto)]

mod bytes;
mod comments;
mod defines;
mod directives;
mod kinds;
mod literals;
mod numbers;
mod pieces;
mod places;
mod scan;
pub mod token;
mod words;

pub use scan::lex;
pub use token::{Keyword, LexFault, LexRule, Lexed, Sign, Token, TokenKind};
