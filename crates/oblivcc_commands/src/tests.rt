//! Expected values are those of a model of the command line that was written apart from this crate.

ghost use Rattle.std.specs.Prelude.{IsTrue};
ghost use Rattle.command_grammar.specs.Sound.{is_sound};
ghost use Rattle.command_grammar.specs.Views.{commands_of};

use super::*;
use command_grammar::{
    Command, CommandOption, Role, WordForm, give_options_once, have_one_reading, list_or_none,
    number_to, role_of, scan,
};
use std::alloc::Global;
use std::test::Fail;

const INPUT_1: CommandOption = CommandOption {
    name: "--input1",
    form: WordForm::Any,
    slots: &[0],
};

const INPUT_2: CommandOption = CommandOption {
    name: "--input2",
    form: WordForm::Any,
    slots: &[1],
};

const PUBLIC: CommandOption = CommandOption {
    name: "--public",
    form: WordForm::IntegerList,
    slots: &[2],
};

const STEPS: CommandOption = CommandOption {
    name: "--steps",
    form: WordForm::Number {
        least: 1,
        most: 1_000_000_000,
    },
    slots: &[3],
};

const DEALT: CommandOption = CommandOption {
    name: "--dealt",
    form: WordForm::Number {
        least: 0,
        most: 1_048_576,
    },
    slots: &[4],
};

const COUNT_1: CommandOption = CommandOption {
    name: "--count1",
    form: WordForm::Number {
        least: 0,
        most: 65_536,
    },
    slots: &[5],
};

const COUNT_2: CommandOption = CommandOption {
    name: "--count2",
    form: WordForm::Number {
        least: 0,
        most: 65_536,
    },
    slots: &[6],
};

const REVEAL: CommandOption = CommandOption {
    name: "--reveal",
    form: WordForm::IntegerList,
    slots: &[7],
};

const KEY: CommandOption = CommandOption {
    name: "--key",
    form: WordForm::Key,
    slots: &[0],
};

const COUNT: CommandOption = CommandOption {
    name: "--count",
    form: WordForm::Number {
        least: 0,
        most: 1_048_576,
    },
    slots: &[1],
};

const OUT_1: CommandOption = CommandOption {
    name: "--out1",
    form: WordForm::Any,
    slots: &[2],
};

const OUT_2: CommandOption = CommandOption {
    name: "--out2",
    form: WordForm::Any,
    slots: &[3],
};

const HALF_1: CommandOption = CommandOption {
    name: "--half1",
    form: WordForm::Any,
    slots: &[5],
};

const HALF_2: CommandOption = CommandOption {
    name: "--half2",
    form: WordForm::Any,
    slots: &[6],
};

const PROTOCOL: CommandOption = CommandOption {
    name: "--protocol",
    form: WordForm::Number { least: 1, most: 3 },
    slots: &[9],
};

const FIRST: CommandOption = CommandOption {
    name: "--role",
    form: WordForm::Number { least: 1, most: 1 },
    slots: &[0, 10],
};

const SECOND: CommandOption = CommandOption {
    name: "--role",
    form: WordForm::Number { least: 2, most: 2 },
    slots: &[0],
};

const LISTEN: CommandOption = CommandOption {
    name: "--listen",
    form: WordForm::Any,
    slots: &[1],
};

const CONNECT: CommandOption = CommandOption {
    name: "--connect",
    form: WordForm::Any,
    slots: &[1],
};

const HALF: CommandOption = CommandOption {
    name: "--half",
    form: WordForm::Any,
    slots: &[4],
};

const INPUT: CommandOption = CommandOption {
    name: "--input",
    form: WordForm::Any,
    slots: &[5],
};

const WATCH: CommandOption = CommandOption {
    name: "--watch",
    form: WordForm::Any,
    slots: &[6],
};

const POOL: CommandOption = CommandOption {
    name: "--pool",
    form: WordForm::Number {
        least: 1,
        most: 1_048_576,
    },
    slots: &[7, 10, 11],
};

const UNSHARED: CommandOption = CommandOption {
    name: "--protocol",
    form: WordForm::Number { least: 1, most: 2 },
    slots: &[9],
};

const SHARED: CommandOption = CommandOption {
    name: "--protocol",
    form: WordForm::Number { least: 3, most: 3 },
    slots: &[9, 11],
};

const EACH: CommandOption = CommandOption {
    name: "--each",
    form: WordForm::Number {
        least: 1,
        most: 1_048_576,
    },
    slots: &[6],
};

const SESSIONS: CommandOption = CommandOption {
    name: "--sessions",
    form: WordForm::Number { least: 1, most: 8 },
    slots: &[7],
};

/// All commands that are ever planned, with all their options. Of two options that rule each other out both take one
/// slot, and so does `--pool` with `--role 1` and with `--protocol 3`.
const PLANNED: [Command<()>; 9] = [
    Command {
        kind: (),
        name: "check",
        operands: &[WordForm::Any],
        options: &[],
        required: &[],
    },
    Command {
        kind: (),
        name: "lower",
        operands: &[WordForm::Any],
        options: &[],
        required: &[],
    },
    Command {
        kind: (),
        name: "clear",
        operands: &[WordForm::Any],
        options: &[INPUT_1, INPUT_2, PUBLIC, STEPS, DEALT],
        required: &[],
    },
    Command {
        kind: (),
        name: "shape",
        operands: &[WordForm::Any],
        options: &[COUNT_1, COUNT_2, PUBLIC, REVEAL, STEPS, DEALT, PROTOCOL],
        required: &[],
    },
    Command {
        kind: (),
        name: "deal",
        operands: &[],
        options: &[KEY, COUNT, OUT_1, OUT_2, PROTOCOL],
        required: &[0, 1, 2, 3],
    },
    Command {
        kind: (),
        name: "run",
        operands: &[WordForm::Any],
        options: &[
            FIRST, SECOND, LISTEN, CONNECT, HALF, INPUT, PUBLIC, STEPS, WATCH, POOL, UNSHARED,
            SHARED,
        ],
        required: &[0, 1, 4],
    },
    Command {
        kind: (),
        name: "duet",
        operands: &[WordForm::Any],
        options: &[HALF_1, HALF_2, INPUT_1, INPUT_2, PUBLIC, STEPS, PROTOCOL],
        required: &[5, 6],
    },
    Command {
        kind: (),
        name: "sample",
        operands: &[
            WordForm::Number {
                least: 0,
                most: 18_446_744_073_709_551_615,
            },
            WordForm::Number {
                least: 1,
                most: 4_096,
            },
        ],
        options: &[],
        required: &[],
    },
    Command {
        kind: (),
        name: "audit",
        operands: &[WordForm::Any, WordForm::Any],
        options: &[PUBLIC, STEPS],
        required: &[],
    },
];

/// The table of serving.
const SERVING: [Command<()>; 1] = [Command {
    kind: (),
    name: "serve",
    operands: &[WordForm::Any],
    options: &[LISTEN, HALF, EACH, SESSIONS, INPUT, PUBLIC, STEPS, UNSHARED],
    required: &[1, 4, 6, 7],
}];

fn planned() -> &'static [Command<()>]
    ensures { IsTrue (is_sound (commands_of result.now)) }
{
    &PLANNED
}

fn serving() -> &'static [Command<()>]
    ensures { IsTrue (is_sound (commands_of result.now)) }
{
    &SERVING
}

/// Stands for no number: each row has fewer words.
const NONE: u64 = 99;

/// How a line of words is changed at one of them.
#[derive(Clone, Copy)]
enum Change {
    LeftOut,
    Doubled,
    Misspelled,
}

/// Commands, and the number that `usage` gives where a word of them is left out, doubled or misspelled, for each word.
const CHANGED: &[(&str, [&str; 3])] = &[
    ("check a.oc", ["0 1", "2 2", "0 -"]),
    ("lower a.oc", ["0 1", "2 2", "0 -"]),
    (
        "clear a.oc --input1 x --input2 y --public 1,-2 --steps 5 --dealt 0",
        [
            "0 2 2 4 4 6 6 7 8 9 10 11",
            "2 2 4 4 6 6 7 8 9 10 11 12",
            "0 - 2 - 4 - 6 7 8 9 10 11",
        ],
    ),
    (
        "shape a.oc --count1 0 --count2 65536 --public 1 --reveal 2 --steps 1 --dealt 1048576 --protocol 3",
        [
            "0 2 2 3 4 5 6 7 8 9 10 11 12 13 14 15",
            "2 2 3 4 5 6 7 8 9 10 11 12 13 14 15 16",
            "0 - 2 3 4 5 6 7 8 9 10 11 12 13 14 15",
        ],
    ),
    (
        "deal --key 00112233445566778899aabbccddeeff00112233445566778899AABBCCDDEEFF --count 8 --out1 s --out2 r --protocol 2",
        [
            "0 1 2 3 4 5 7 7 9 9 10",
            "1 2 3 4 5 7 7 9 9 10 11",
            "0 1 2 3 4 5 - 7 - 9 10",
        ],
    ),
    (
        "run a.oc --role 2 --listen h:1 --half f --input i --public 1 --steps 9 --protocol 2 --watch w --pool 4",
        [
            "0 2 2 3 4 6 6 8 8 10 10 11 12 13 14 15 16 18 18 19",
            "2 2 3 4 6 6 8 8 10 10 11 12 13 14 15 16 18 18 19 20",
            "0 - 2 3 4 - 6 - 8 - 10 11 12 13 14 15 16 - 18 19",
        ],
    ),
    (
        "duet a.oc --half1 s --half2 r --input1 x --input2 y --public 1 --steps 9 --protocol 1",
        [
            "0 2 2 4 4 6 6 8 8 10 10 11 12 13 14 15",
            "2 2 4 4 6 6 8 8 10 10 11 12 13 14 15 16",
            "0 - 2 - 4 - 6 - 8 - 10 11 12 13 14 15",
        ],
    ),
    ("sample 7 4096", ["0 2 2", "1 3 3", "0 1 2"]),
    (
        "audit a.oc t --public 1 --steps 2",
        ["0 3 3 3 4 5 6", "3 3 3 4 5 6 7", "0 - - 3 4 5 6"],
    ),
];

/// A row a line: the number that `usage` gives, or `-` where the words are a command, and the words.
const ROWS: &str = "3 run a.oc --role 3
1 run
2 run a.oc
1 clear
- clear a.oc
2 clear a.oc --input3
1 sample
- sample 0 1
- sample 18446744073709551615 1
1 sample 18446744073709551616 1
2 sample 7 0
2 sample 7 4097
1 sample 07 1
2 sample 7 01
1 sample -1 1
1 sample +7 1
3 sample 7 1 1
1 sample  1
- clear --input1 --input1 --input2
- clear a.oc --input1 --input2 --input2 --input1
- clear a.oc --input2 y --input1 x
2 clear a.oc --input1=x
2 clear a.oc x --input1
3 clear a.oc --steps 0
- clear a.oc --steps 1000000000
3 clear a.oc --steps 1000000001
3 clear a.oc --steps 05
3 clear a.oc --steps
3 clear a.oc --steps 
- clear a.oc --dealt 1048576
3 clear a.oc --dealt 1048577
3 clear a.oc --dealt 00
4 clear a.oc --public 1 --public 1
3 clear a.oc --public 1,2,
3 clear a.oc --public ,1
3 clear a.oc --public 
3 clear a.oc --public -
- clear a.oc --public -0
- clear a.oc --public 007
4 clear a.oc --public 1 2
- clear a.oc --public 9223372036854775807,-9223372036854775808
3 clear a.oc --public 9223372036854775808
3 clear a.oc --public -9223372036854775809
3 clear a.oc --public 1,,2
3 clear a.oc --public 1;2
3 clear a.oc --public --steps
3 shape a.oc --count1 65537
- shape a.oc --reveal 1,0,1
2 shape a.oc --input1 x
3 shape a.oc --protocol 0
3 shape a.oc --protocol 4
7 deal --key 00112233445566778899aabbccddeeff00112233445566778899AABBCCDDEEFF --count 8 --out1 s
- deal --out2 --out1 --out1 --out2 --count 0 --key 00112233445566778899aabbccddeeff00112233445566778899AABBCCDDEEFF
2 deal --key 0112233445566778899aabbccddeeff00112233445566778899AABBCCDDEEFF
2 deal --key 00112233445566778899aabbccddeeff00112233445566778899AABBCCDDEEFF0
2 deal --key g0112233445566778899aabbccddeeff00112233445566778899AABBCCDDEEFF
1 deal a.oc
2 deal --count 1048577
2 deal --count -1
- run a.oc --role 1 --listen x --half h
- run a.oc --role 1 --connect x --half h
6 run a.oc --role 1 --half h
4 run a.oc --listen x --connect
4 run a.oc --connect x --listen
6 run a.oc --listen x --half h
6 run a.oc --role 1 --listen x
4 run a.oc --role 1 --pool
5 run a.oc --pool 5 --role 1
6 run a.oc --pool 5 --role 2
4 run a.oc --protocol 3 --pool
5 run a.oc --pool 5 --protocol 3
3 run a.oc --pool 0
- run a.oc --half --role --role 2 --connect --half
4 run a.oc --role 1 --role 2
4 duet a.oc --half1 s
- duet a.oc --half2 r --half1 s
6 duet a.oc --half1 s --half2 r --dealt 5
1 check
- check --help
0 --help
2 check a.oc b.oc
0 checks a.oc
2 audit a.oc
3 audit a.oc t --input1 x
1 lower
0 serve a.oc
- clear a.oc --public -0000000000000000001
3 clear a.oc --public 00000000000000000001";

/// The same of serving.
const SERVING_CHANGED: (&str, [&str; 3]) = (
    "serve a.oc --listen h:1 --half f --each 32 --sessions 8 --input i --public 1 --steps 3 --protocol 1",
    [
        "0 2 2 4 4 6 6 7 8 9 10 12 12 13 14 15 16 17",
        "2 2 4 4 6 6 7 8 9 10 12 12 13 14 15 16 17 18",
        "0 - 2 - 4 - 6 7 8 9 10 - 12 13 14 15 16 17",
    ],
);

const SERVING_ROWS: &str = "- serve a.oc --listen h --half f --each 1048576 --sessions 1
3 serve a.oc --each 0
3 serve a.oc --each 1048577
3 serve a.oc --sessions 9
3 serve a.oc --sessions 0
3 serve a.oc --protocol 3
8 serve a.oc --listen h --half f --each 1
0 clear a.oc
2 serve a.oc --connect h";

fn words_of(alloc: Global, line: &str) -> Result<Vec<String>, Fail> {
    let mut words = Vec::new(alloc);
    for word in line.split(' ') {
        words.push(String::from_str(alloc, word)?)?;
    }
    Ok(words)
}

/// The words of a line, changed at one of them.
fn changed_words(
    alloc: Global,
    line: &str,
    change: Change,
    at: usize,
) -> Result<Vec<String>, Fail> {
    let mut words = Vec::new(alloc);
    for (i, word) in line.split(' ').enumerate() {
        let mut text = String::from_str(alloc, word)?;
        match change {
            Change::LeftOut if i == at => continue,
            Change::Doubled if i == at => words.push(String::from_str(alloc, word)?)?,
            Change::Misspelled if i == at => text.push_str("x")?,
            _ => {}
        }
        words.push(text)?;
    }
    Ok(words)
}

/// The number that `usage` gives for words, or `NONE` where they are a command.
fn fault_of(table: &[Command<()>], words: &[String]) -> u64
    requires { IsTrue (is_sound (commands_of table.now)) }
{
    match scan(table, words) {
        Ok(_) => NONE,
        Err(k) => k as u64,
    }
}

/// The first word of the line whose change isn't answered by its expected number, or `NONE`.
fn wrong_change(
    alloc: Global,
    table: &[Command<()>],
    line: &str,
    change: Change,
    expected: &str,
) -> Result<u64, Fail>
    requires { IsTrue (is_sound (commands_of table.now)) }
{
    for (at, number) in expected.split(' ').enumerate() {
        let words = changed_words(alloc, line, change, at)?;
        let expected = number_to(NONE, number.as_bytes()).unwrap_or(NONE);
        if fault_of(table, words.as_slice()) != expected {
            return Ok(at as u64);
        }
    }
    Ok(NONE)
}

/// The first row that isn't answered by its number, or `NONE`.
fn wrong_row(alloc: Global, table: &[Command<()>], rows: &str) -> Result<u64, Fail>
    requires { IsTrue (is_sound (commands_of table.now)) }
{
    for (at, row) in rows.split('\n').enumerate() {
        let Some((number, line)) = row.split_once(' ') else {
            return Ok(at as u64);
        };
        let words = words_of(alloc, line)?;
        let expected = number_to(NONE, number.as_bytes()).unwrap_or(NONE);
        if fault_of(table, words.as_slice()) != expected {
            return Ok(at as u64);
        }
    }
    Ok(NONE)
}

#[test]
fn changed_lines(rt: HostRuntime) -> Result<(), Fail> {
    let alloc = rt.alloc();
    for (line, [left_out, doubled, misspelled]) in CHANGED {
        assert_eq!(&rt;
            wrong_change(alloc, planned(), line, Change::LeftOut, left_out)?,
            NONE,
            "{line}"
        );
        assert_eq!(&rt;
            wrong_change(alloc, planned(), line, Change::Doubled, doubled)?,
            NONE,
            "{line}"
        );
        assert_eq!(&rt;
            wrong_change(alloc, planned(), line, Change::Misspelled, misspelled)?,
            NONE,
            "{line}"
        );
    }
    let (line, [left_out, doubled, misspelled]) = SERVING_CHANGED;
    assert_eq!(&rt;
        wrong_change(alloc, serving(), line, Change::LeftOut, left_out)?,
        NONE
    );
    assert_eq!(&rt;
        wrong_change(alloc, serving(), line, Change::Doubled, doubled)?,
        NONE
    );
    assert_eq!(&rt;
        wrong_change(alloc, serving(), line, Change::Misspelled, misspelled)?,
        NONE
    );
    Ok(())
}

#[test]
fn rows(rt: HostRuntime) -> Result<(), Fail> {
    let alloc = rt.alloc();
    assert_eq!(&rt; wrong_row(alloc, planned(), ROWS)?, NONE);
    assert_eq!(&rt; wrong_row(alloc, serving(), SERVING_ROWS)?, NONE);
    assert_eq!(&rt; fault_of(planned(), &[]), 0);
    let mut words = words_of(alloc, "clear a.oc")?;
    for _ in 0..1000 {
        words.push(String::from_str(alloc, "--input1")?)?;
        words.push(String::from_str(alloc, "--input2")?)?;
    }
    assert_eq!(&rt; fault_of(planned(), words.as_slice()), 4);
    have_one_reading(planned());
    give_options_once(serving());
    have_one_meaning();
    Ok(())
}

#[test]
fn built_commands(rt: HostRuntime) -> Result<(), Fail> {
    let alloc = rt.alloc();
    let words = words_of(alloc, "check a.oc")?;
    match read_command(words.as_slice()) {
        Ok(Asked::Check(asked)) => assert_eq!(&rt; asked.file, "a.oc"),
        _ => assert!(&rt; false),
    }
    let words = words_of(alloc, "clear --input1 --input2 b --input1 ")?;
    match read_command(words.as_slice()) {
        Ok(Asked::Clear(asked)) => {
            assert_eq!(&rt;
                (asked.file, asked.first, asked.second, asked.public),
                ("--input1", Some(""), Some("b"), None)
            );
            assert_eq!(&rt; (asked.steps, asked.dealt), (1_000_000_000, 1_048_576));
        }
        _ => assert!(&rt; false),
    }
    let words = words_of(alloc, "clear a.oc --dealt 7 --public 3,10 --steps 5")?;
    match read_command(words.as_slice()) {
        Ok(Asked::Clear(asked)) => {
            assert_eq!(&rt;
                (asked.first, asked.second, asked.public),
                (None, None, Some("3,10"))
            );
            assert_eq!(&rt; (asked.steps, asked.dealt), (5, 7));
        }
        _ => assert!(&rt; false),
    }
    let words = words_of(
        alloc,
        "deal --out2 r --count 1048576 --key 000102030405060708090a0b0c0d0e0f101112131415161718191A1B1C1D1EfF --out1 s",
    )?;
    match read_command(words.as_slice()) {
        Ok(Asked::Deal(asked)) => {
            assert_eq!(&rt;
                (asked.count, asked.first, asked.second),
                (1_048_576, "s", "r")
            );
            assert_eq!(&rt; (asked.key[0], asked.key[27], asked.key[31]), (0, 27, 255));
        }
        _ => assert!(&rt; false),
    }
    let words = words_of(alloc, "deal --key a")?;
    assert_eq!(&rt; read_command(words.as_slice()).err(), Some(2));
    assert_eq!(&rt; find_break(words.as_slice()), 2);
    let list = list_or_none(
        alloc,
        Some("-9223372036854775808,9223372036854775807,-0,007"),
    )?;
    assert_eq!(&rt; list.as_slice(), [i64::MIN, i64::MAX, 0, 7].as_slice());
    assert_eq!(&rt; list_or_none(alloc, None)?.len(), 0);
    assert_eq!(&rt; (role_of(1), role_of(2)), (Role::First, Role::Second));
    Ok(())
}
