//! Places in a source.

ghost use Rattle.std.specs.Prelude.{◌≡◌, ◌≤◌, ◌<◌, ◌+◌, length};
ghost use Rattle.oc_lexer.specs.Moving.{passed, stepped};

use crate::bytes::is_space;
use oc_source::Spot;

/// Where a byte stands: its index in the source, its spot, and whether only blanks stand before it on its
/// line.
#[derive(Clone, Copy, Debug)]
pub struct Place {
    pub at: u32,
    pub spot: Spot,
    pub is_fresh: bool,
}

/// Where a source begins.
pub const START: Place = Place {
    at: 0,
    spot: Spot { line: 1, column: 1 },
    is_fresh: true,
};

/// The place after one more byte.
fn stepped(place: Place, byte: u8) -> Place
    requires at { place.at < 4294967295 }
    requires line { place.spot.line < 4294967295 }
    requires column { place.spot.column < 4294967295 }
    ensures { result ≡ stepped place byte }
{
    let at = place.at + 1;
    if byte == b'\n' {
        let spot = Spot {
            line: place.spot.line + 1,
            column: 1,
        };
        Place {
            at,
            spot,
            is_fresh: true,
        }
    } else {
        let spot = Spot {
            line: place.spot.line,
            column: place.spot.column + 1,
        };
        Place {
            at,
            spot,
            is_fresh: place.is_fresh && is_space(byte),
        }
    }
}

/// The place after these bytes.
pub fn passed(place: Place, text: &[u8]) -> Place
    requires at { place.at + length text.now ≤ 4294967295 }
    requires line { place.spot.line + length text.now ≤ 4294967295 }
    requires column { place.spot.column + length text.now ≤ 4294967295 }
    ensures { result ≡ passed place text.now }
{
    let mut after = place;
    for byte in text {
        after = stepped(after, *byte);
    }
    after
}
