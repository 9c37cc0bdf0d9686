//! The tokens of some sources, or the rule and the spot by which they have none: a line for each source.
//!
//! `lex` has a contract that says which tokens a source has. The lines that this program must print come from an
//! independent model of the language, so that they show the definitions of that contract right. A token is shown by
//! its kind and value, its first place, the place after it, and its spot; a text is shown by the hexadecimal digits
//! of its bytes. After the tokens stands the end of the source.
#![tactic(auto)]

use oc_lexer::{LexFault, Lexed, TokenKind, lex};
use std::alloc::{AllocError, Global};
use std::process::ExitCode;
use std::{io, str};

/// Sources, each a text and how often it stands there.
const SOURCES: [(&[u8], u32); 160] = [
    // Blanks, names, every keyword and every sign.
    (
        b"obliv frozen if else while for return break continue struct void bool _Bool char short int long signed unsigned sizeof true false NULL",
        1,
    ),
    (
        b"( ) [ ] { } ; , . -> ++ -- + - * / % & | ^ ~ ! < > <= >= == != << >> && || ? : = += -= *= /= %= &= |= ^= <<= >>=",
        1,
    ),
    (b"", 1),
    (b" \t\x0b\x0c\r\n\n ", 1),
    (b"a", 1),
    (b"\n a_1 _ _0Z ints oblivint", 1),
    (
        b"()[]{};,.->++--+-*/%&|^~!<><=>===!=<<>>&&||?:=+=-=*=/ =%=&=|=^=<<=>>=",
        1,
    ),
    (b"<<<=>>>===!==&&&|||+++---->>=-=>...", 1),
    (b"a-->b", 1),
    (b"x+++++y", 1),
    (b"a/ *b", 1),
    (
        b"void oc_main(void) {\n  obliv int a = feedOblivInt(ocPrivate(0), 1);\n  printf(\"%d\\n\", a << 2u);\n}\n",
        1,
    ),
    // Each form and suffix, at both ends of the kinds.
    (b"0 00 07 0777 1 9 10", 1),
    (b"2147483647 2147483648 9223372036854775807", 1),
    (
        b"017777777777 020000000000 037777777777 040000000000 0777777777777777777777 01000000000000000000000 01777777777777777777777",
        1,
    ),
    (
        b"0x0 0X7fffffff 0x80000000 0xFFFFFFFF 0x100000000 0x7fffffffffffffff 0x8000000000000000 0xffffffffffffffff",
        1,
    ),
    (b"0u 4294967295u 4294967296U 18446744073709551615u", 1),
    (
        b"0xffffffffu 0x100000000u 0xffffffffffffffffU 040000000000u",
        1,
    ),
    (b"0l 1L 9223372036854775807ll 9223372036854775807LL", 1),
    (
        b"0x7fffffffffffffffl 0x8000000000000000L 01777777777777777777777ll",
        1,
    ),
    (
        b"1ul 1uL 1ull 1uLL 1Ul 1UL 1Ull 1ULL 1lu 1Lu 1llu 1LLu 1lU 1LU 1llU 1LLU",
        1,
    ),
    (b"18446744073709551615ull 0xffffffffffffffffLLU", 1),
    (
        b"1u 0x0u 037777777777u 040000000000u 01777777777777777777777u",
        1,
    ),
    (
        b"0x0l 00l 0777777777777777777777l 01000000000000000000000l 0xffffffffffffffffl",
        1,
    ),
    (
        b"0ul 0x0ul 01777777777777777777777ul 0xfffffffffffffffful",
        1,
    ),
    // Runs that are no number, and numbers that no kind holds.
    (b"9223372036854775808", 1),
    (b"9223372036854775808l", 1),
    (b"18446744073709551616u", 1),
    (b"18446744073709551616ull", 1),
    (b"0x10000000000000000", 1),
    (b"02000000000000000000000", 1),
    (b"02000000000000000000000u", 1),
    (b"02000000000000000000000l", 1),
    (b"02000000000000000000000ul", 1),
    (b"0x10000000000000000u", 1),
    (b"0x10000000000000000l", 1),
    (b"0x10000000000000000ul", 1),
    (b"x = 99999999999999999999999999999999;", 1),
    (b"08", 1),
    (b"1lL", 1),
    (b"1Ll", 1),
    (b"1uu", 1),
    (b"1lul", 1),
    (b"0x", 1),
    (b"0xg", 1),
    (b"1.5", 1),
    (b"1e5", 1),
    (b"1_000", 1),
    (b"0b1", 1),
    (b" 12ab", 1),
    (b"a 5u5", 1),
    (b"1.", 1),
    (b"0xull", 1),
    (b"1lll", 1),
    (b"0779", 1),
    (b"08 @", 1),
    (b"/* a */ 1lL /*", 1),
    // Characters and texts.
    (
        b"'a' ' ' '~' '\"' '\\n' '\\t' '\\r' '\\0' '\\\\' '\\'' '\\\"'",
        1,
    ),
    (
        b"\"\" \"a\" \"\\n\\t\\r\\0\\\\\\'\\\"\" \"\t\" \"\x7f\" \"'\" \"a\xe9\xffb\" \"// /* #\"",
        1,
    ),
    (b"''", 1),
    (b"'", 1),
    (b"'ab'", 1),
    (b"'\\'", 1),
    (b"'\\x'", 1),
    (b"'\x7f'", 1),
    (b"'\t'", 1),
    (b"'a", 1),
    (b"x 'a\n'", 1),
    (b"'\\n", 1),
    (b"'\xe9'", 1),
    (b"\"", 1),
    (b"\"a", 1),
    (b"\"a\nb\"", 1),
    (b"\"\\x\"", 1),
    (b"\"\\", 1),
    (b"\"\x01\"", 1),
    (b"\"a\\\"", 1),
    (b" \"ok\" \"no\r\"", 1),
    (b"\"\xe9\" @", 1),
    (b"\"a\n08", 1),
    // Comments, also across lines.
    (b"/**/a", 1),
    (b"/* a */ b /* c\n d */ e", 1),
    (b"// a\nb", 1),
    (b"// a", 1),
    (b"a//b\n//c\nd", 1),
    (b"/* /* */ a", 1),
    (b"/***/a/****/", 1),
    (b"/*/a*/b", 1),
    (b"/* * / */x", 1),
    (b"a/*\n\n*/b", 1),
    (b"/* \" */ \" /* \" x", 1),
    (b"/* x", 1),
    (b"/*", 1),
    (b"/*/", 1),
    (b"a /* b\n c", 1),
    (b"a\n  /* b *", 1),
    (b"/**/ /* /", 1),
    (b"// x\n /*", 1),
    // Directives, and the names that they define.
    (
        b"#include <obliv.oh>\n#include<stdio.h>\n  #include\t <stdlib.h> // c\n#include <stdbool.h> /* a */ /* b\n c */ x",
        1,
    ),
    (
        b"#define N 64\n#define  M\t0x10u /* c */\n \t#define L 7ll//\nN M L N_ NM a N",
        1,
    ),
    (b"a\n#define a 1\na a", 1),
    (b"#define oc_main 3\n#define printf 4\noc_main(printf)", 1),
    (b"#define N 1\n\"N\" 'N' N /* N */", 1),
    (b"#define A 1\n#define B 2\nA B", 1),
    (b"/* a\n*/\n#include <stdio.h>", 1),
    (b"#include <stdio.h>", 1),
    (b"#define A 1", 1),
    // Lines that begin with `#` and aren't a directive, and a `#` elsewhere.
    (b"#", 1),
    (b"# include <stdio.h>", 1),
    (b"#include <x.h>", 1),
    (b"#include \"stdio.h\"", 1),
    (b"#include <stdio.h", 1),
    (b"#include <stdio.h> x", 1),
    (b"#include <stdio.h>x", 1),
    (b"#include < stdio.h>", 1),
    (b"#include\n<stdio.h>", 1),
    (b"#includes <stdio.h>", 1),
    (b"#define", 1),
    (b"#define A", 1),
    (b"#define A\n1", 1),
    (b"#define A 1 2", 1),
    (b"#define A 1+", 1),
    (b"#define A(x) 1", 1),
    (b"#define 1 2", 1),
    (b"#define A B", 1),
    (b"#define A -1", 1),
    (b"#define A 08", 1),
    (b"#define A 99999999999999999999", 1),
    (b"#define A/**/1", 1),
    (b"#defineA 1", 1),
    (b"#define int 1", 1),
    (b"#define A 1\n#define A 1", 1),
    (b"#define A 1\n\n #define A 2", 1),
    (b"#define A 'a'", 1),
    (b"#define A 1 /", 1),
    (b"#undef A", 1),
    (b"#pragma once", 1),
    (b"#include <x.h> /*", 1),
    (b"#include <stdio.h> /*", 1),
    (b"#define A 1 /* b\n\n", 1),
    (b"#define A 1 /* b */ /* c", 1),
    (b"a #include <stdio.h>", 1),
    (b"/* */ #include <stdio.h>", 1),
    (b"/* a\n */ #define A 1", 1),
    (b"#x\n@", 1),
    // Bytes that start nothing.
    (b"int x; # ", 1),
    (b"@", 1),
    (b"a $", 1),
    (b"a\n`", 1),
    (b"\\", 1),
    (b"x\x00", 1),
    (b"\x80", 1),
    (b"ab\n\tc\xe9", 1),
    (b"\x7f", 1),
    (b"\x1b", 1),
    (b"@ 08", 1),
    // The most bytes that a source may have, and one more.
    (b" ", 1048576),
    (b" ", 1048577),
    (b"@", 1048577),
    (b"\n", 1048576),
];

fn source_of(alloc: Global, text: &[u8], count: u32) -> Result<Vec<u8>, AllocError> {
    let mut source = Vec::new(alloc);
    for _ in 0..count {
        source.extend_from_slice(text)?;
    }
    Ok(source)
}

/// The text of ASCII bytes.
fn spelled(bytes: &[u8]) -> &str {
    str::from_utf8(bytes).unwrap_or("?")
}

fn print_digits(rt: &impl Print, bytes: &[u8]) -> io::Result<()> {
    print!(rt; "text ")?;
    for byte in bytes {
        print!(rt; "{:02x}", *byte)?;
    }
    Ok(())
}

fn print_kind(rt: &impl Print, kind: &TokenKind) -> io::Result<()> {
    match kind {
        TokenKind::Name(name) => print!(rt; "name {}", spelled(name.as_bytes())),
        TokenKind::Keyword(keyword) => print!(rt; "keyword {}", spelled(keyword.text())),
        TokenKind::Number(literal) => print!(rt; "{:?} {}", literal.kind, literal.value),
        TokenKind::Character(byte) => print!(rt; "character {}", *byte),
        TokenKind::Text(bytes) => print_digits(rt, bytes.as_bytes()),
        TokenKind::Sign(sign) => print!(rt; "sign {}", spelled(sign.text())),
    }
}

fn print_tokens(rt: &impl Print, lexed: &Lexed) -> io::Result<()> {
    for token in lexed.tokens.as_slice() {
        print_kind(rt, &token.kind)?;
        let (line, column) = (token.spot.line, token.spot.column);
        print!(rt; " {}-{} {line}:{column}; ", token.from, token.to)?;
    }
    println!(rt; "end {}:{}", lexed.end.line, lexed.end.column)
}

fn print_answer(rt: &impl Print, answer: &Result<Lexed, LexFault>) -> io::Result<()> {
    match answer {
        Ok(lexed) => print_tokens(rt, lexed),
        Err(LexFault::Refused { rule, spot }) => println!(rt;
            "{rule:?} {}:{}",
            spot.line, spot.column
        ),
        Err(LexFault::NoMemory) => println!(rt; "memory"),
    }
}

fn main(rt: HostRuntime) -> ExitCode {
    for (text, count) in &SOURCES {
        let Ok(source) = source_of(rt.alloc(), text, *count) else {
            return ExitCode::FAILURE;
        };
        let answer = lex(rt.alloc(), source.as_slice());
        if print_answer(&rt, &answer).is_err() {
            return ExitCode::FAILURE;
        }
    }
    ExitCode::SUCCESS
}
