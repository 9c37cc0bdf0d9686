//! Words and labels of a ChaCha20 stream.

ghost use Rattle.std.specs.Prelude.{◌≡◌, ◌+◌, ◌%◌, ◌<◌, ◌^◌};
ghost use Rattle.dealt_transfer.specs.Labels.{label_at, word};

use half_gates::Label;
use rand_chacha::ChaCha20Rng;
use rand_core::utils::NextWord;

/// The next word of the stream 0.
#[tactic(auto, unfolding(crate::specs::Labels::word))]
pub fn next(rng: &mut ChaCha20Rng) -> u32
    requires stream { rng.old.stream ≡ 0 }
    requires within { rng.old.word_pos < 2 ^ 68 }
    ensures word { result ≡ word rng.old.key rng.old.word_pos }
    ensures place { rng.new ≡ record rng.old { word_pos = (rng.old.word_pos + 1) % 2 ^ 68 } }
{
    rng.next_word()
}

/// The label of the next four words.
#[tactic(auto, unfolding(crate::specs::Labels::word))]
pub fn next_label(rng: &mut ChaCha20Rng) -> Label
    requires stream { rng.old.stream ≡ 0 }
    requires within { rng.old.word_pos < 2 ^ 68 }
    ensures label { result ≡ label_at rng.old.key rng.old.word_pos }
    ensures place { rng.new ≡ record rng.old { word_pos = (rng.old.word_pos + 4) % 2 ^ 68 } }
{
    let a = next(rng);
    let b = next(rng);
    let c = next(rng);
    let d = next(rng);
    u128::from(a) + (u128::from(b) << 32) + (u128::from(c) << 64) + (u128::from(d) << 96)
}
