//! Tokens, and why a source has none.

ghost use Rattle.std.specs.Prelude.{◌≡◌};

use oc_source::{Literal, Spot};
use oc_values::{Items, Name, NoMemory};

/// A word that can't be a name.
#[derive(Clone, Copy, Debug, PartialEq, Eq)]
pub enum Keyword {
    Obliv,
    Frozen,
    If,
    Else,
    While,
    For,
    Return,
    Break,
    Continue,
    Struct,
    Void,
    Bool,
    /// `_Bool`
    UnderscoreBool,
    Char,
    Short,
    Int,
    Long,
    Signed,
    Unsigned,
    Sizeof,
    True,
    False,
    /// `NULL`
    Null,
}

/// A bracket, an operator or another mark of punctuation.
#[derive(Clone, Copy, Debug, PartialEq, Eq)]
pub enum Sign {
    /// `(`
    LeftParen,
    /// `)`
    RightParen,
    /// `[`
    LeftBracket,
    /// `]`
    RightBracket,
    /// `{`
    LeftBrace,
    /// `}`
    RightBrace,
    /// `;`
    Semicolon,
    /// `,`
    Comma,
    /// `.`
    Dot,
    /// `->`
    Arrow,
    /// `++`
    PlusPlus,
    /// `--`
    MinusMinus,
    /// `+`
    Plus,
    /// `-`
    Minus,
    /// `*`
    Star,
    /// `/`
    Slash,
    /// `%`
    Percent,
    /// `&`
    Ampersand,
    /// `|`
    Bar,
    /// `^`
    Caret,
    /// `~`
    Tilde,
    /// `!`
    Bang,
    /// `<`
    Less,
    /// `>`
    Greater,
    /// `<=`
    LessEq,
    /// `>=`
    GreaterEq,
    /// `==`
    EqualEqual,
    /// `!=`
    NotEqual,
    /// `<<`
    ShiftLeft,
    /// `>>`
    ShiftRight,
    /// `&&`
    AndAnd,
    /// `||`
    OrOr,
    /// `?`
    Question,
    /// `:`
    Colon,
    /// `=`
    Assign,
    /// `+=`
    PlusAssign,
    /// `-=`
    MinusAssign,
    /// `*=`
    StarAssign,
    /// `/=`
    SlashAssign,
    /// `%=`
    PercentAssign,
    /// `&=`
    AndAssign,
    /// `|=`
    OrAssign,
    /// `^=`
    XorAssign,
    /// `<<=`
    ShiftLeftAssign,
    /// `>>=`
    ShiftRightAssign,
}

/// What a token is, and what it stands for.
#[derive(Debug, Drop)]
pub enum TokenKind {
    /// A name that no `#define` before it names.
    Name(Name),
    Keyword(Keyword),
    /// A number, or a name that a `#define` before it makes one.
    Number(Literal),
    /// The byte that a character literal stands for.
    Character(u8),
    /// The bytes that a text stands for, its escapes resolved.
    Text(Name),
    Sign(Sign),
}

/// A token. Its text is the bytes of the source from place `from` to just before place `to`, places
/// counting from 0, and `spot` is that of its first byte.
#[derive(Debug, Drop)]
pub struct Token {
    pub kind: TokenKind,
    pub from: u32,
    pub to: u32,
    pub spot: Spot,
}

/// The tokens of a source in order, and the spot just after its last byte.
#[derive(Debug, Drop)]
pub struct Lexed {
    pub tokens: Items<Token>,
    pub end: Spot,
}

/// Why a source has no tokens.
#[derive(Clone, Copy, Debug, PartialEq, Eq)]
pub enum LexRule {
    /// A byte that starts no token, or a character or text literal that has not its form: at that byte.
    /// Leave the byte out; close the literal on its line, and write a newline in it as `\n`; put a directive
    /// on a line of its own.
    L1,
    /// A comment that isn't closed: at its start. Write `*/` where it ends; comments don't nest.
    L2,
    /// A digit that starts no number: at the digit. Write whole numbers, octal ones without 8 and 9, with a
    /// suffix of `u` and `l` or `ll` if any, and put a blank before a name.
    L3,
    /// A number that no kind holds: at its start. Write one below 2^63, or below 2^64 with `u`, in octal or in
    /// hexadecimal.
    L4,
    /// A directive that isn't accepted: at its `#`. Include one of the four headers, or define a new name as a
    /// number alone; leave other directives out.
    L5,
    /// A source of more than 1,048,576 bytes: at 1:1. Make it shorter.
    L6,
}

/// Why `lex` gives no tokens.
#[derive(Clone, Copy, Debug, PartialEq, Eq)]
pub enum LexFault {
    /// The first place at which the source breaks a rule.
    Refused { rule: LexRule, spot: Spot },
    NoMemory,
}

impl From<NoMemory> for LexFault {
    ghost use Rattle.oc_lexer.specs.declared.token.LexFault.{LexFault};

    ghost from_gives = { λ _ e. e ≡ LexFault.NoMemory };

    fn from(_error: NoMemory) -> LexFault {
        LexFault::NoMemory
    }
}
