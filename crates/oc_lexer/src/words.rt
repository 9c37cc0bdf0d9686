//! Keywords and signs.

ghost use Rattle.std.specs.Prelude.{◌≡◌};
ghost use Rattle.oc_lexer.specs.Words.{find_keyword, keyword_of, keyword_text, sign_text};
ghost use Rattle.oc_lexer.specs.Scanned.{find_sign, sign_at};

use crate::token::{Keyword, Sign};

const KEYWORDS: [Keyword; 23] = [
    Keyword::Obliv,
    Keyword::Frozen,
    Keyword::If,
    Keyword::Else,
    Keyword::While,
    Keyword::For,
    Keyword::Return,
    Keyword::Break,
    Keyword::Continue,
    Keyword::Struct,
    Keyword::Void,
    Keyword::Bool,
    Keyword::UnderscoreBool,
    Keyword::Char,
    Keyword::Short,
    Keyword::Int,
    Keyword::Long,
    Keyword::Signed,
    Keyword::Unsigned,
    Keyword::Sizeof,
    Keyword::True,
    Keyword::False,
    Keyword::Null,
];

/// Every sign, none before a longer one that begins with it.
const SIGNS: [Sign; 45] = [
    Sign::LeftParen,
    Sign::RightParen,
    Sign::Semicolon,
    Sign::Comma,
    Sign::LeftBracket,
    Sign::RightBracket,
    Sign::LeftBrace,
    Sign::RightBrace,
    Sign::Dot,
    Sign::EqualEqual,
    Sign::Assign,
    Sign::PlusPlus,
    Sign::PlusAssign,
    Sign::Plus,
    Sign::MinusMinus,
    Sign::MinusAssign,
    Sign::Arrow,
    Sign::Minus,
    Sign::ShiftLeftAssign,
    Sign::ShiftLeft,
    Sign::LessEq,
    Sign::Less,
    Sign::ShiftRightAssign,
    Sign::ShiftRight,
    Sign::GreaterEq,
    Sign::Greater,
    Sign::AndAnd,
    Sign::AndAssign,
    Sign::Ampersand,
    Sign::OrOr,
    Sign::OrAssign,
    Sign::Bar,
    Sign::StarAssign,
    Sign::Star,
    Sign::SlashAssign,
    Sign::Slash,
    Sign::PercentAssign,
    Sign::Percent,
    Sign::XorAssign,
    Sign::Caret,
    Sign::NotEqual,
    Sign::Bang,
    Sign::Tilde,
    Sign::Question,
    Sign::Colon,
];

impl Keyword {
    /// How the keyword is spelled.
    pub fn text(self) -> &'static [u8]
        ensures { result.now ≡ keyword_text self }
    {
        match self {
            Keyword::Obliv => b"obliv",
            Keyword::Frozen => b"frozen",
            Keyword::If => b"if",
            Keyword::Else => b"else",
            Keyword::While => b"while",
            Keyword::For => b"for",
            Keyword::Return => b"return",
            Keyword::Break => b"break",
            Keyword::Continue => b"continue",
            Keyword::Struct => b"struct",
            Keyword::Void => b"void",
            Keyword::Bool => b"bool",
            Keyword::UnderscoreBool => b"_Bool",
            Keyword::Char => b"char",
            Keyword::Short => b"short",
            Keyword::Int => b"int",
            Keyword::Long => b"long",
            Keyword::Signed => b"signed",
            Keyword::Unsigned => b"unsigned",
            Keyword::Sizeof => b"sizeof",
            Keyword::True => b"true",
            Keyword::False => b"false",
            Keyword::Null => b"NULL",
        }
    }
}

impl Sign {
    /// How the sign is spelled.
    pub fn text(self) -> &'static [u8]
        ensures { result.now ≡ sign_text self }
    {
        match self {
            Sign::LeftParen => b"(",
            Sign::RightParen => b")",
            Sign::LeftBracket => b"[",
            Sign::RightBracket => b"]",
            Sign::LeftBrace => b"{",
            Sign::RightBrace => b"}",
            Sign::Semicolon => b";",
            Sign::Comma => b",",
            Sign::Dot => b".",
            Sign::Arrow => b"->",
            Sign::PlusPlus => b"++",
            Sign::MinusMinus => b"--",
            Sign::Plus => b"+",
            Sign::Minus => b"-",
            Sign::Star => b"*",
            Sign::Slash => b"/",
            Sign::Percent => b"%",
            Sign::Ampersand => b"&",
            Sign::Bar => b"|",
            Sign::Caret => b"^",
            Sign::Tilde => b"~",
            Sign::Bang => b"!",
            Sign::Less => b"<",
            Sign::Greater => b">",
            Sign::LessEq => b"<=",
            Sign::GreaterEq => b">=",
            Sign::EqualEqual => b"==",
            Sign::NotEqual => b"!=",
            Sign::ShiftLeft => b"<<",
            Sign::ShiftRight => b">>",
            Sign::AndAnd => b"&&",
            Sign::OrOr => b"||",
            Sign::Question => b"?",
            Sign::Colon => b":",
            Sign::Assign => b"=",
            Sign::PlusAssign => b"+=",
            Sign::MinusAssign => b"-=",
            Sign::StarAssign => b"*=",
            Sign::SlashAssign => b"/=",
            Sign::PercentAssign => b"%=",
            Sign::AndAssign => b"&=",
            Sign::OrAssign => b"|=",
            Sign::XorAssign => b"^=",
            Sign::ShiftLeftAssign => b"<<=",
            Sign::ShiftRightAssign => b">>=",
        }
    }
}

/// The keyword among these that a word is.
fn find_keyword(keywords: &[Keyword], word: &[u8]) -> Option<Keyword>
    ensures { result ≡ find_keyword keywords.now word.now }
{
    for keyword in keywords {
        if word == keyword.text() {
            return Some(*keyword);
        }
    }
    None
}

/// The keyword that a word is, none where it may be a name.
#[tactic(auto, unfolding(crate::specs::Words::keyword_of))]
pub fn keyword_of(word: &[u8]) -> Option<Keyword>
    ensures { result ≡ keyword_of word.now }
{
    find_keyword(&KEYWORDS, word)
}

/// The first of these signs with which the text begins.
fn find_sign(signs: &[Sign], text: &[u8]) -> Option<Sign>
    ensures { result ≡ find_sign signs.now text.now }
{
    for sign in signs {
        if text.starts_with(sign.text()) {
            return Some(*sign);
        }
    }
    None
}

/// The longest sign with which the text begins.
#[tactic(auto, unfolding(crate::specs::Scanned::sign_at))]
pub fn sign_at(text: &[u8]) -> Option<Sign>
    ensures { result ≡ sign_at text.now }
{
    find_sign(&SIGNS, text)
}
