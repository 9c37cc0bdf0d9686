//! Calls with their answers.
//!
//! What has to come follows from the language, the forms of files and the table of commands, and was worked out by hand or by
//! a model of them that was written apart from this program.

/// The sum of one word of each party.
pub const SUM: &[u8] = b"void oc_main(void) {
 obliv int a = feedOblivInt(ocPrivate(0), 1);
 obliv int b = feedOblivInt(ocPrivate(0), 2);
 int r;
 revealOblivInt(&r, a + b, 0);
 printf(\"%d\\n\", r);
}
";

/// The same, spelled in another way.
const SPELLED: &[u8] = b"// A sum.
#include <obliv.oh>
#define FIRST 0x1
void\toc_main ( /* nothing */ void )
{ obliv signed int a = feedOblivInt(ocPrivate(00), FIRST);
  obliv signed b = (feedOblivInt(ocPrivate('\\0'), 2)); int\nr;
  revealOblivInt(&(r), (a) + b, 0x0); printf(\"%d\\n\", ((r))); }";

/// The same with a sum of nine names.
const NINE: &[u8] = b"void oc_main(void) {
 obliv int a = feedOblivInt(ocPrivate(0), 1);
 int r;
 revealOblivInt(&r, a + a + a + a + a + a + a + a + a, 0);
}
";

/// The command over the sum.
pub const COMMAND: [&[u8]; 6] = [
    b"clear",
    b"sum.oc",
    b"--input1",
    b"one",
    b"--input2",
    b"two",
];

/// Words of no command, some of which aren't text.
pub const WORDS: [(&[&[u8]], &[u8]); 15] = [
    (&[], b"usage 0\n"),
    (&[b"check"], b"usage 1\n"),
    (&[b"check", b"sum.oc", b"--input1"], b"usage 2\n"),
    (&[b"clear", b"sum.oc", b"--steps", b"0"], b"usage 3\n"),
    (&[b"clear", b"sum.oc", b"--public"], b"usage 3\n"),
    (
        &[
            b"clear",
            b"sum.oc",
            b"--input1",
            b"one",
            b"--input1",
            b"two",
        ],
        b"usage 4\n",
    ),
    (&[b"deal", b"--count", b"1048577"], b"usage 2\n"),
    (&[b"\xff"], b"usage 0\n"),
    (&[b"clear", b"\xc3"], b"usage 1\n"),
    (&[b"clear", b"sum.oc", b"\xed\xa0\x80"], b"usage 2\n"),
    (
        &[
            b"clear",
            b"sum.oc",
            b"--input1",
            b"\x80",
            b"--input2",
            b"two",
        ],
        b"usage 3\n",
    ),
    (
        &[
            b"clear",
            b"sum.oc",
            b"--input1",
            b"one",
            b"--input2",
            b"two\xf5",
        ],
        b"usage 5\n",
    ),
    (
        &[
            b"clear",
            b"sum.oc",
            b"--input1",
            b"one",
            b"--input2",
            b"two",
            b"\xff",
        ],
        b"usage 6\n",
    ),
    (
        &[
            b"clear",
            b"sum.oc",
            b"--input2",
            b"two",
            b"--input2",
            b"\xff",
        ],
        b"usage 4\n",
    ),
    (&[b"no", b"\xff"], b"usage 0\n"),
];

/// A file that is absent.
pub const ABSENT: [(&[&[u8]], &[u8]); 4] = [
    (&[b"check", b"no.oc"], b"file no.oc\n"),
    (
        &[b"clear", b"no.oc", b"--input1", b"one", b"--input2", b"two"],
        b"file no.oc\n",
    ),
    (
        &[
            b"clear",
            b"sum.oc",
            b"--input2",
            b"two",
            b"--input1",
            b"none",
        ],
        b"file none\n",
    ),
    (
        &[b"clear", b"sum.oc", b"--input1", b"one", b"--input2", b""],
        b"file \n",
    ),
];

/// Both inputs, and the status with what is printed and said.
pub const INPUTS: [(&[u8], &[u8], u8, &[u8], &[u8]); 42] = [
    (b"5\n", b"7\n", 0, b"12\n", b""),
    (b"5", b"7", 0, b"12\n", b""),
    (b"2147483647", b"1", 0, b"-2147483648\n", b""),
    (b"-5\n", b"-0", 0, b"-5\n", b""),
    (b"007", b"0000000000000000001", 0, b"8\n", b""),
    (b"4294967297", b"0", 0, b"1\n", b""),
    (b"2147483648", b"0", 0, b"-2147483648\n", b""),
    (b"9223372036854775807", b"0", 0, b"-1\n", b""),
    (b"-9223372036854775808\n", b"3", 0, b"3\n", b""),
    (b"0", b"-4294967297", 0, b"-1\n", b""),
    (b"", b"7", 3, b"", b"trap I1 2:29\n"),
    (b"5", b"", 3, b"", b"trap I1 3:29\n"),
    (b"\n", b"7", 9, b"", b"input 1\n"),
    (b"5", b"\n", 9, b"", b"input 1\n"),
    (b"+5", b"7", 9, b"", b"input 1\n"),
    (b"5", b"+5", 9, b"", b"input 1\n"),
    (b"5x", b"7", 9, b"", b"input 1\n"),
    (b"5", b"5x", 9, b"", b"input 1\n"),
    (b" 5", b"7", 9, b"", b"input 1\n"),
    (b"5", b" 5", 9, b"", b"input 1\n"),
    (b"5 ", b"7", 9, b"", b"input 1\n"),
    (b"5", b"5 ", 9, b"", b"input 1\n"),
    (b"-", b"7", 9, b"", b"input 1\n"),
    (b"5", b"-", 9, b"", b"input 1\n"),
    (b"--5", b"7", 9, b"", b"input 1\n"),
    (b"5", b"--5", 9, b"", b"input 1\n"),
    (b"9223372036854775808", b"7", 9, b"", b"input 1\n"),
    (b"5", b"9223372036854775808", 9, b"", b"input 1\n"),
    (b"-9223372036854775809", b"7", 9, b"", b"input 1\n"),
    (b"5", b"-9223372036854775809", 9, b"", b"input 1\n"),
    (b"00000000000000000005", b"7", 9, b"", b"input 1\n"),
    (b"5", b"00000000000000000005", 9, b"", b"input 1\n"),
    (b"5\n6", b"7", 0, b"12\n", b""),
    (b"5", b"5\n6", 0, b"10\n", b""),
    (b"5\n\n", b"7", 9, b"", b"input 2\n"),
    (b"5", b"5\n\n", 9, b"", b"input 2\n"),
    (b"5\r\n", b"7", 9, b"", b"input 1\n"),
    (b"5", b"5\r\n", 9, b"", b"input 1\n"),
    (b"\xff", b"7", 9, b"", b"input 1\n"),
    (b"5", b"\xff", 9, b"", b"input 1\n"),
    (b"5\xff\n", b"7", 9, b"", b"input 1\n"),
    (b"5", b"5\xff\n", 9, b"", b"input 1\n"),
];

/// A source, and the status with what is printed and said.
pub const SOURCES: [(&[u8], u8, &[u8], &[u8]); 22] = [
    (b"", 1, b"", b"refused T10 1:1\n"),
    (b"/* x", 1, b"", b"refused L2 1:1\n"),
    (b"void oc_main(void) {", 1, b"", b"refused G1 1:21\n"),
    (b"void oc_main(void) {} x", 1, b"", b"refused G1 1:23\n"),
    (b"void oc_main(void) {}\n }", 1, b"", b"refused G1 2:2\n"),
    (
        b"void oc_main(void) { int a; int a; }",
        1,
        b"",
        b"refused T2 1:33\n",
    ),
    (b"void oc_main(void) {} \xff", 1, b"", b"refused L1 1:23\n"),
    (b"void void\n089", 1, b"", b"refused L3 2:1\n"),
    (b"int 9223372036854775808", 1, b"", b"refused L4 1:5\n"),
    (b"\n\n  #include <math.h>\n", 1, b"", b"refused L5 3:3\n"),
    (b"struct s { int a; };", 1, b"", b"refused T10 1:21\n"),
    (
        b"void oc_main(void) { x = 1; }",
        1,
        b"",
        b"refused T1 1:22\n",
    ),
    (
        b"void oc_main(void) { obliv int a; int b = a; }",
        1,
        b"",
        b"refused T4 1:43\n",
    ),
    (
        b"void oc_main(void) { obliv bool c; obliv if (c) printf(\"%d\\n\", 1); }",
        1,
        b"",
        b"refused F3 1:49\n",
    ),
    (
        b"void oc_main(void) { obliv bool c; obliv if (c) return; }",
        1,
        b"",
        b"refused F4 1:49\n",
    ),
    (
        b"void oc_main(void) { frozen int a; a = 1; }",
        1,
        b"",
        b"refused F5 1:36\n",
    ),
    (
        b"void oc_main(void) { frozen int a; a = 1; x = 1; }",
        1,
        b"",
        b"refused T1 1:43\n",
    ),
    (
        b"void oc_main(void) { int a = 1; printf(\"%d\", ++a); a = 1 / (a - 2); }",
        3,
        b"2",
        b"trap Z1 1:56\n",
    ),
    (b"void oc_main(void) { }", 0, b"", b""),
    (NINE, 0, b"", b""),
    (SUM, 0, b"12\n", b""),
    (SPELLED, 0, b"12\n", b""),
];

/// A front, a text that is repeated, and a back, with how often, and the status with what is printed and said.
#[derive(Clone, Copy)]
pub struct Repeated {
    pub text: [&'static [u8]; 3],
    pub times: u32,
    pub status: u8,
    pub out: &'static [u8],
    pub err: &'static [u8],
}

const TWELVES: &[u8] =
    b"12\n12\n12\n12\n12\n12\n12\n12\n12\n12\n12\n12\n12\n12\n12\n12\n12\n12\n12\n12\n12\n12\n12\n12\n12\n12\n12\n12\n12\n12\n12\n12\n12\n12\n12\n12\n12\n12\n12\n12\n12\n12\n12\n12\n12\n12\n12\n12\n12\n12\n12\n12\n12\n12\n12\n12\n12\n12\n12\n12\n12\n12\n12\n12\n12\n12\n12\n12\n12\n12\n12\n12\n12\n12\n12\n12\n12\n12\n12\n12\n12\n12\n12\n12\n12\n12\n12\n12\n12\n12\n12\n12\n12\n12\n12\n12\n";

/// The longest source and one that is a byte longer; many items; the deepest operators and statements, and the deepest calls with one
/// that is a call deeper.
pub const REPEATED: [Repeated; 11] = [
    Repeated {
        text: [SUM, b" ", b""],
        times: 1048402,
        status: 0,
        out: b"12\n",
        err: b"",
    },
    Repeated {
        text: [SUM, b" ", b""],
        times: 1048403,
        status: 1,
        out: b"",
        err: b"refused L6 1:1\n",
    },
    Repeated {
        text: [
            b"void oc_main(void) {\n obliv int a = feedOblivInt(ocPrivate(0), 1);\n obliv int b = feedOblivInt(ocPrivate(0), 2);\n int r;\n revealOblivInt(&r, a + b, 0);\n",
            b" printf(\"%d\\n\", r);\n",
            b"}",
        ],
        times: 96,
        status: 0,
        out: TWELVES,
        err: b"",
    },
    Repeated {
        text: [
            b"void oc_main(void){int a=1;printf(\"%d\\n\",",
            b"!",
            b"a);}",
        ],
        times: 987,
        status: 0,
        out: b"0\n",
        err: b"",
    },
    Repeated {
        text: [
            b"void oc_main(void){int a=1;printf(\"%d\\n\",",
            b"- ",
            b"a);}",
        ],
        times: 987,
        status: 0,
        out: b"-1\n",
        err: b"",
    },
    Repeated {
        text: [
            b"void oc_main(void){int a=1;printf(\"%d\\n\",",
            b"*&",
            b"a);}",
        ],
        times: 493,
        status: 0,
        out: b"1\n",
        err: b"",
    },
    Repeated {
        text: [
            b"void oc_main(void){int a=1;printf(\"%d\\n\",a",
            b"+a",
            b");}",
        ],
        times: 493,
        status: 0,
        out: b"494\n",
        err: b"",
    },
    Repeated {
        text: [b"void oc_main(void){", b"if(1)", b"printf(\"1\\n\");}"],
        times: 247,
        status: 0,
        out: b"1\n",
        err: b"",
    },
    Repeated {
        text: [
            b"void oc_main(void){obliv bool c;obliv int x=1;int r;",
            b"obliv if(c) ",
            b"x=2;revealOblivInt(&r,x,0);printf(\"%d\\n\",r);}",
        ],
        times: 198,
        status: 0,
        out: b"1\n",
        err: b"",
    },
    Repeated {
        text: [
            b"void f(int n){if(n>0)f(n-1);}void oc_main(void){f(332);",
            b"",
            b"printf(\"1\\n\");}",
        ],
        times: 0,
        status: 0,
        out: b"1\n",
        err: b"",
    },
    Repeated {
        text: [
            b"void f(int n){if(n>0)f(n-1);}void oc_main(void){f(333);",
            b"",
            b"printf(\"1\\n\");}",
        ],
        times: 0,
        status: 3,
        out: b"",
        err: b"trap M6 1:22\n",
    },
];

/// Which calls of the vault and of both streams fail, where a stream takes one byte at once.
pub const FAILING: [(&[&[u8]], [&[u64]; 3], u8, &[u8], &[u8]); 13] = [
    (&[b"check", b"sum.oc"], [&[], &[], &[]], 0, b"ok\n", b""),
    (
        &[b"check", b"sum.oc"],
        [&[], &[0], &[]],
        11,
        b"",
        b"output\n",
    ),
    (
        &[b"check", b"sum.oc"],
        [&[], &[2], &[]],
        11,
        b"ok",
        b"output\n",
    ),
    (
        &[b"check", b"sum.oc"],
        [&[0], &[], &[]],
        5,
        b"",
        b"file sum.oc\n",
    ),
    (
        &[
            b"clear",
            b"sum.oc",
            b"--input1",
            b"one",
            b"--input2",
            b"two",
        ],
        [&[], &[], &[]],
        0,
        b"12\n",
        b"",
    ),
    (
        &[
            b"clear",
            b"sum.oc",
            b"--input1",
            b"one",
            b"--input2",
            b"two",
        ],
        [&[], &[0], &[]],
        11,
        b"",
        b"output\n",
    ),
    (
        &[
            b"clear",
            b"sum.oc",
            b"--input1",
            b"one",
            b"--input2",
            b"two",
        ],
        [&[], &[1], &[]],
        11,
        b"1",
        b"output\n",
    ),
    (
        &[
            b"clear",
            b"sum.oc",
            b"--input1",
            b"one",
            b"--input2",
            b"two",
        ],
        [&[], &[2], &[]],
        11,
        b"12",
        b"output\n",
    ),
    (
        &[
            b"clear",
            b"sum.oc",
            b"--input1",
            b"one",
            b"--input2",
            b"two",
        ],
        [&[0], &[], &[]],
        5,
        b"",
        b"file sum.oc\n",
    ),
    (
        &[
            b"clear",
            b"sum.oc",
            b"--input1",
            b"one",
            b"--input2",
            b"two",
        ],
        [&[1], &[], &[]],
        5,
        b"",
        b"file one\n",
    ),
    (
        &[
            b"clear",
            b"sum.oc",
            b"--input1",
            b"one",
            b"--input2",
            b"two",
        ],
        [&[2], &[], &[]],
        5,
        b"",
        b"file two\n",
    ),
    (&[b"clear"], [&[], &[], &[3]], 2, b"", b"usa"),
    (
        &[
            b"clear",
            b"sum.oc",
            b"--input1",
            b"one",
            b"--input2",
            b"two",
        ],
        [&[], &[1], &[0]],
        11,
        b"1",
        b"",
    ),
];

/// `deal` with how long the files `one` and `two` are after it, if they are there.
pub const DEALT: [(&[&[u8]], Option<usize>, Option<usize>); 5] = [
    (
        &[
            b"deal",
            b"--out2",
            b"two",
            b"--count",
            b"0",
            b"--key",
            b"000102030405060708090a0b0c0d0e0f101112131415161718191A1B1C1D1E1F",
            b"--out1",
            b"one",
        ],
        Some(57),
        Some(25),
    ),
    (
        &[
            b"deal",
            b"--out2",
            b"two",
            b"--count",
            b"3",
            b"--key",
            b"000102030405060708090a0b0c0d0e0f101112131415161718191A1B1C1D1E1F",
            b"--out1",
            b"one",
        ],
        Some(153),
        Some(74),
    ),
    (
        &[
            b"deal",
            b"--out2",
            b"two",
            b"--count",
            b"9",
            b"--key",
            b"000102030405060708090a0b0c0d0e0f101112131415161718191A1B1C1D1E1F",
            b"--out1",
            b"one",
        ],
        Some(345),
        Some(171),
    ),
    (
        &[
            b"deal",
            b"--out2",
            b"two",
            b"--count",
            b"32",
            b"--key",
            b"000102030405060708090a0b0c0d0e0f101112131415161718191A1B1C1D1E1F",
            b"--out1",
            b"one",
        ],
        Some(1081),
        Some(541),
    ),
    (
        &[
            b"deal",
            b"--key",
            b"000102030405060708090a0b0c0d0e0f101112131415161718191A1B1C1D1E1F",
            b"--count",
            b"3",
            b"--out1",
            b"two",
            b"--out2",
            b"two",
        ],
        None,
        Some(74),
    ),
];

/// A `deal` to both files.
pub const DEAL: [&[u8]; 9] = [
    b"deal",
    b"--key",
    b"000102030405060708090a0b0c0d0e0f101112131415161718191A1B1C1D1E1F",
    b"--count",
    b"3",
    b"--out1",
    b"one",
    b"--out2",
    b"two",
];
