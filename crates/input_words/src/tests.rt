use super::*;
use std::test::Fail;

/// Files, and their words.
static FILES: [(&str, &[i64]); 6] = [
    ("", &[]),
    ("7", &[7]),
    ("-12\n0\n34", &[-12, 0, 34]),
    ("-0\n007\n", &[0, 7]),
    (
        "9223372036854775807\n-9223372036854775808\n",
        &[i64::MAX, i64::MIN],
    ),
    ("0000000000000000005\n", &[5]),
];

/// Files, and their first wrong line.
static WRONG: [(&str, u32); 10] = [
    ("\n", 1),
    ("-", 1),
    ("1\n\n2\n", 2),
    ("1\n+2\n", 2),
    ("1\n2 \n3", 2),
    ("1\r\n", 1),
    ("--1\n", 1),
    ("1\n2\n9223372036854775808\nx\n", 3),
    ("-9223372036854775809", 1),
    ("00000000000000000005", 1),
];

#[test]
fn files(rt: HostRuntime) -> Result<(), Fail> {
    for (text, wanted) in FILES.iter() {
        match read_words(rt.alloc(), text.as_bytes()) {
            Ok(words) => assert_eq!(rt; words.as_slice(), *wanted),
            Err(fault) => assert_eq!(rt; fault, WordsFault::Wrong(0)),
        }
    }
    for (text, line) in WRONG.iter() {
        match read_words(rt.alloc(), text.as_bytes()) {
            Ok(words) => assert_eq!(rt; words.len(), usize::MAX),
            Err(fault) => assert_eq!(rt; fault, WordsFault::Wrong(*line)),
        }
    }
    long_inputs_are_wrong();
    Ok(())
}

#[test]
fn many_lines(rt: HostRuntime) -> Result<(), Fail> {
    let mut text = Vec::new(rt.alloc());
    for _ in 0..65_536 {
        text.push(b'5')?;
        text.push(b'\n')?;
    }
    match read_words(rt.alloc(), &text) {
        Ok(words) => assert_eq!(rt; words.len(), 65_536),
        Err(fault) => assert_eq!(rt; fault, WordsFault::Wrong(0)),
    }
    text.push(b'x')?;
    match read_words(rt.alloc(), &text) {
        Ok(words) => assert_eq!(rt; words.len(), usize::MAX),
        Err(fault) => assert_eq!(rt; fault, WordsFault::Wrong(65_537)),
    }
    Ok(())
}
