//! The digest of what both parties are to run.

ghost use Rattle.std.specs.Prelude.{◌≡◌};
ghost use Rattle.sha2.specs.Sha256.{sha256};
ghost use Rattle.party_frames.specs.Setup.{setup_bytes};

use oc_values::Items;
use sha2::{Digest, Sha256};

/// The SHA-256 digest (FIPS 180-4) of the source with its length, the public words with their number, and the step
/// budget, each number in 8 bytes, the highest first, a negative one in two's complement.
pub fn setup_digest(source: &[u8], public: &Items<i64>, budget: u64) -> [u8; 32]
    ensures { result ≡ sha256 (setup_bytes source.now public.now budget) }
{
    let mut hasher = Sha256::new();
    hasher.update(&(source.len() as u64).to_be_bytes());
    hasher.update(source);
    hasher.update(&(public.len() as u64).to_be_bytes());
    for word in public.as_slice() {
        hasher.update(&word.to_be_bytes());
    }
    hasher.update(&budget.to_be_bytes());
    hasher.finalize()
}
