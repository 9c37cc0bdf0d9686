//! The hash of a label.

ghost use Rattle.std.specs.Prelude.{◌≡◌};
ghost use Rattle.half_gates.specs.Hash.{hash_of};

use sha2::{Digest, Sha256};

/// A label of a wire: 16 bytes, the lowest first.
pub type Label = u128;

/// The first 16 bytes of the SHA-256 digest (FIPS 180-4) of the label's 16 bytes, the lowest first, and the
/// tweak's 8 bytes, the highest first; read as a label.
pub fn hash_label(label: Label, tweak: u64) -> Label
    ensures { result ≡ hash_of label tweak }
{
    let mut hasher = Sha256::new();
    hasher.update(&label.to_le_bytes());
    hasher.update(&tweak.to_be_bytes());
    let d = hasher.finalize();
    u128::from_le_bytes([
        d[0], d[1], d[2], d[3], d[4], d[5], d[6], d[7], d[8], d[9], d[10], d[11], d[12], d[13],
        d[14], d[15],
    ])
}
