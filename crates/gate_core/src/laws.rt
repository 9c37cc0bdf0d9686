//! Laws of gates that were played, each the contract of a function that does nothing.

ghost use Rattle.gate_core.specs.Wiring.{Wiring, StandsForTruth, PlaysOnward, PlaysPutIn, ReadsOnward, ReadsPutIn, RoomSuffices, AffordsOnward};

use crate::Gates;

/// Wires of gates that were played stand for the truth of the operands' bits.
pub fn wires_stand_for_truth<G: Gates>()
    ensures { StandsForTruth G.calls G.stands }
{}

/// One list of gates and then another is played exactly where the first is, and then the other from where it
/// stands.
pub fn gates_join<G: Gates>()
    ensures { PlaysOnward G.calls }
{}

/// What is played on the operands' wires alone is played behind all wires that there are, with the operands'
/// numbers put in.
pub fn operands_are_put_in<G: Gates>()
    ensures { PlaysPutIn G.calls }
{}

/// Whatever the wires are, one list of gates and then another is read as the first, and then the other from
/// where it stands.
pub fn readings_join<W, K>()
    ensures { (wiring : Wiring W K) → ReadsOnward wiring }
{}

/// Whatever the wires are, gates behind all wires, with the operands' numbers put in, are read as on the
/// operands' wires alone.
pub fn operands_are_read<W, K>()
    ensures { (wiring : Wiring W K) → ReadsPutIn wiring }
{}

/// A room of as many ANDs as a list of gates has is room for the list.
pub fn room_suffices<G: Gates>()
    ensures { RoomSuffices G.calls G.room }
{}

/// Room for one list of gates and then another is room for the first, and for the other from where it stands.
pub fn room_goes_on<G: Gates>()
    ensures { AffordsOnward G.calls }
{}
