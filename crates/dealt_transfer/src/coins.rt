//! Labels that a sender draws from its coin key.

ghost use Rattle.std.specs.Prelude.{◌≡◌};
ghost use Rattle.rand_chacha.specs.ChaCha.{key_of};
ghost use Rattle.dealt_transfer.specs.Labels.{coin_label as label_of};

use crate::stream::next_label;
use half_gates::Label;
use rand_chacha::ChaCha20Rng;
use rand_core::SeedableRng;
use std::marker::Model;

/// The labels of a coin key, in order from any one on. They repeat after 2^66 of them.
#[derive(Drop)]
pub struct CoinLabels {
    rng: ChaCha20Rng,
}

impl Model for CoinLabels {
    ghost use Rattle.std.specs.Prelude.{◌≡◌, ◌/◌, ◌%◌, ◌<◌, ◌^◌};
    ghost use Rattle.dealt_transfer.specs.Labels.{CoinStream};

    ghost Value = { CoinStream };

    ghost view = { λ s. record { key = s.rng.key; next = s.rng.word_pos / 4 } };

    ghost invariant = { λ s. (s.rng.stream ≡ 0) × (s.rng.word_pos % 4 ≡ 0) × (s.rng.word_pos < 2 ^ 68) };
}

impl CoinLabels {
    ghost use Rattle.std.specs.Prelude.{◌+◌, ◌%◌, ◌^◌};

    /// The labels of this key from the label `first` on.
    pub fn new(coin_key: &[u8; 32], first: u64) -> CoinLabels
        ensures { result ≡ record { key = key_of coin_key.now; next = first } }
    {
        let mut rng = ChaCha20Rng::from_seed(*coin_key);
        rng.set_word_pos(4 * u128::from(first));
        CoinLabels { rng }
    }

    /// The next label.
    pub fn draw(&mut self) -> Label
        ensures label { result ≡ label_of self.old.key self.old.next }
        ensures next { self.new ≡ record self.old { next = (self.old.next + 1) % 2 ^ 66 } }
    {
        next_label(&mut self.rng)
    }
}

/// The label `i` of a coin key: the words 4i to 4i + 3 of the ChaCha20 stream 0 of the key, the lowest first.
pub fn coin_label(coin_key: &[u8; 32], i: u64) -> Label
    ensures { result ≡ label_of (key_of coin_key.now) i }
{
    CoinLabels::new(coin_key, i).draw()
}
