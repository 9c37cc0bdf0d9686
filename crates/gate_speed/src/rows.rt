//! Worked rows: gates on bits, and each operation on two words of bits, with its ANDs.

ghost use Rattle.std.specs.Prelude.{◌≡◌, length, IsTrue};
ghost use Rattle.word_circuits.specs.Widths.{is_width};

use gate_core::{Gates, PlainBits};
use std::io;
use word_circuits::{
    Word, add, differ, either, equal, flip, greater, greater_equal, is_zero, known_word, less,
    less_equal, meet, multiply, negate, quotient, remainder, resize, select, shift_known,
    shift_word, subtract, to_bool, unequal,
};

// The number that a word's bits spell.
fn number(word: &Word<bool>) -> u64 {
    let mut value: u64 = 0;
    for bit in word.wires().iter().rev() {
        value = value.wrapping_mul(2) | u64::from(*bit);
    }
    value
}

fn print_answer(rt: &impl Print, name: &str, answer: &Word<bool>, made: u64) -> io::Result<()> {
    println!(rt; "  {name} {} {made}", number(answer))
}

fn print_sums(rt: &impl Print, x: &Word<bool>, y: &Word<bool>) -> io::Result<()>
    requires width { IsTrue (is_width (length x.now)) }
    requires same { length x.now ≡ length y.now }
{
    let mut gates = PlainBits::new();
    let answer = add(&mut gates, x, y);
    print_answer(rt, "add", &answer, gates.made())?;
    let mut gates = PlainBits::new();
    let answer = subtract(&mut gates, x, y);
    print_answer(rt, "subtract", &answer, gates.made())?;
    let mut gates = PlainBits::new();
    let answer = negate(&mut gates, x);
    print_answer(rt, "negate", &answer, gates.made())
}

fn print_products(rt: &impl Print, x: &Word<bool>, y: &Word<bool>, signed: bool) -> io::Result<()>
    requires width { IsTrue (is_width (length x.now)) }
    requires same { length x.now ≡ length y.now }
{
    let mut gates = PlainBits::new();
    let answer = multiply(&mut gates, x, y);
    print_answer(rt, "multiply", &answer, gates.made())?;
    let mut gates = PlainBits::new();
    let answer = quotient(&mut gates, x, y, signed);
    print_answer(rt, "quotient", &answer, gates.made())?;
    let mut gates = PlainBits::new();
    let answer = remainder(&mut gates, x, y, signed);
    print_answer(rt, "remainder", &answer, gates.made())
}

fn print_orders(rt: &impl Print, x: &Word<bool>, y: &Word<bool>, signed: bool) -> io::Result<()>
    requires width { IsTrue (is_width (length x.now)) }
    requires same { length x.now ≡ length y.now }
{
    let mut gates = PlainBits::new();
    let answer = less(&mut gates, x, y, signed);
    print_answer(rt, "less", &answer, gates.made())?;
    let mut gates = PlainBits::new();
    let answer = less_equal(&mut gates, x, y, signed);
    print_answer(rt, "less_equal", &answer, gates.made())?;
    let mut gates = PlainBits::new();
    let answer = greater(&mut gates, x, y, signed);
    print_answer(rt, "greater", &answer, gates.made())?;
    let mut gates = PlainBits::new();
    let answer = greater_equal(&mut gates, x, y, signed);
    print_answer(rt, "greater_equal", &answer, gates.made())
}

fn print_equals(rt: &impl Print, x: &Word<bool>, y: &Word<bool>) -> io::Result<()>
    requires width { IsTrue (is_width (length x.now)) }
    requires same { length x.now ≡ length y.now }
{
    let mut gates = PlainBits::new();
    let answer = equal(&mut gates, x, y);
    print_answer(rt, "equal", &answer, gates.made())?;
    let mut gates = PlainBits::new();
    let answer = unequal(&mut gates, x, y);
    print_answer(rt, "unequal", &answer, gates.made())?;
    let mut gates = PlainBits::new();
    let answer = to_bool(&mut gates, x);
    print_answer(rt, "to_bool", &answer, gates.made())?;
    let mut gates = PlainBits::new();
    let answer = is_zero(&mut gates, x);
    print_answer(rt, "is_zero", &answer, gates.made())
}

fn print_choices(rt: &impl Print, x: &Word<bool>, y: &Word<bool>, chosen: bool) -> io::Result<()>
    requires width { IsTrue (is_width (length x.now)) }
    requires same { length x.now ≡ length y.now }
{
    let mut gates = PlainBits::new();
    let answer = meet(&mut gates, x, y);
    print_answer(rt, "meet", &answer, gates.made())?;
    let mut gates = PlainBits::new();
    let answer = either(&mut gates, x, y);
    print_answer(rt, "either", &answer, gates.made())?;
    let mut gates = PlainBits::new();
    let answer = differ(&mut gates, x, y);
    print_answer(rt, "differ", &answer, gates.made())?;
    let mut gates = PlainBits::new();
    let answer = flip(&mut gates, x);
    print_answer(rt, "flip", &answer, gates.made())?;
    let mut gates = PlainBits::new();
    let answer = select(&mut gates, chosen, x, y);
    print_answer(rt, "select", &answer, gates.made())
}

fn print_shifts(rt: &impl Print, x: &Word<bool>, y: &Word<bool>, signed: bool) -> io::Result<()>
    requires width { IsTrue (is_width (length x.now)) }
    requires same { length x.now ≡ length y.now }
{
    let mut gates = PlainBits::new();
    let answer = shift_known(&mut gates, x, 65, true, signed);
    print_answer(rt, "left by 65", &answer, gates.made())?;
    let mut gates = PlainBits::new();
    let answer = shift_known(&mut gates, x, 7, false, signed);
    print_answer(rt, "right by 7", &answer, gates.made())?;
    let mut gates = PlainBits::new();
    let answer = shift_word(&mut gates, x, y, true, signed);
    print_answer(rt, "left", &answer, gates.made())?;
    let mut gates = PlainBits::new();
    let answer = shift_word(&mut gates, x, y, false, signed);
    print_answer(rt, "right", &answer, gates.made())?;
    let mut gates = PlainBits::new();
    let answer = resize(&mut gates, x, 16, signed);
    print_answer(rt, "resize to 16", &answer, gates.made())
}

/// Prints what each operation gives of two numbers at a width, and how many ANDs it makes. `signed` says
/// whether the words have a sign, and whether a choice takes the first.
pub fn print_row(rt: &impl Print, width: u8, signed: bool, left: u64, right: u64) -> io::Result<()>
    requires { IsTrue (is_width width) }
{
    let gates = PlainBits::new();
    let x = known_word(&gates, left, width);
    let y = known_word(&gates, right, width);
    println!(rt; "{width} {signed} {} {}", number(&x), number(&y))?;
    print_sums(rt, &x, &y)?;
    print_products(rt, &x, &y, signed)?;
    print_orders(rt, &x, &y, signed)?;
    print_equals(rt, &x, &y)?;
    print_choices(rt, &x, &y, signed)?;
    print_shifts(rt, &x, &y, signed)
}

/// Prints what each gate gives of two bits.
pub fn print_gates(rt: &impl Print, left: bool, right: bool) -> io::Result<()> {
    let mut gates = PlainBits::new();
    let (a, b) = (gates.known(left), gates.known(right));
    let (both, one, other) = (gates.and(a, b), gates.xor(a, b), gates.not(a));
    println!(rt;
        "{a} {b}: and {both}, xor {one}, not {other}, {} made, room for {}",
        gates.made(),
        gates.room()
    )
}
