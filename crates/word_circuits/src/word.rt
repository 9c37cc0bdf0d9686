//! Words of wires.

ghost use Rattle.std.specs.Prelude.{◌≡◌, ◌<◌, length, get_or, IsTrue, [], ◌∷◌, IfSome, IsSome, ◌↔◌};
ghost use Rattle.word_circuits.specs.Widths.{is_width};

use arrayvec::ArrayVec;
use std::marker::Model;

/// A word of 1, 8, 16, 32 or 64 wires, the lowest first, which contracts see as the list of its wires.
#[derive(Drop)]
pub struct Word<W> {
    wires: ArrayVec<W, 64>,
}

impl<W> Model for Word<W> {
    ghost use Rattle.std.specs.Prelude.{List, length, IsTrue};
    ghost use Rattle.word_circuits.specs.Widths.{is_width};

    ghost Value = { List W };

    ghost view = { λ word. word.wires.items };

    ghost invariant = { λ word. IsTrue (is_width (length word.wires.items)) };
}

impl<W: Copy + Default> Word<W> {
    /// A word of one wire.
    pub fn of_wire(wire: W) -> Word<W>
        ensures { result ≡ wire ∷ [] }
    {
        let mut wires = ArrayVec::new();
        wires.push(wire);
        Word { wires }
    }

    /// The word of these wires, or none where there is no such width.
    pub fn from_wires(wires: &[W]) -> Option<Word<W>>
        ensures word { IfSome result (λ word. word ≡ wires.now) }
        ensures width { IsSome result ↔ IsTrue (is_width (length wires.now)) }
    {
        match wires.len() {
            1 | 8 | 16 | 32 | 64 => Some(Word::of_slice(wires)),
            _ => None,
        }
    }

    /// How many wires there are.
    pub fn width(&self) -> usize
        ensures value { result ≡ length self.now }
        ensures width { IsTrue (is_width result) }
    {
        self.wires.len()
    }

    /// The wires, the lowest first.
    pub fn wires(&self) -> &[W]
        ensures value { result.now ≡ self.now }
        ensures width { IsTrue (is_width (length result.now)) }
    {
        self.wires.as_slice()
    }

    /// The same wires once more.
    pub fn copy(&self) -> Word<W>
        ensures { result ≡ self.now }
    {
        Word::of_slice(self.wires())
    }

    /// The word of these wires, of which there are as many as a width.
    pub fn of_array(wires: ArrayVec<W, 64>) -> Word<W>
        requires { IsTrue (is_width (length wires.items)) }
        ensures { result ≡ wires.items }
    {
        Word { wires }
    }

    /// The word of these wires, of which there are as many as a width.
    pub fn of_slice(wires: &[W]) -> Word<W>
        requires { IsTrue (is_width (length wires.now)) }
        ensures { result ≡ wires.now }
    {
        let mut held = ArrayVec::new();
        let _ = held.try_extend_from_slice(wires);
        Word { wires: held }
    }
}
