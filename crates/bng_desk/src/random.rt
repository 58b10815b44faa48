//! Random octets, drawn sixteen at a time.
ghost use Rattle.std.specs.Prelude.{◌≡◌, ◌+◌, ◌%◌, ◌^◌, ◌<◌, ◌++◌};
ghost use Rattle.std.specs.Int.{w32, to_le_bytes};
ghost use Rattle.rand_chacha.specs.ChaCha.{word_at};
ghost use Rattle.bng_desk.specs.Random.{draw};

use rand_chacha::ChaCha20Rng;
use rand_core::SeedableRng;
use rand_core::utils::NextWord;
use std::marker::Model;

/// The random octets of a run: those of the ChaCha20 generator of a seed, of which each is given once. Contracts see the seed and how
/// many times sixteen octets were drawn.
#[derive(Drop)]
pub struct Draws {
    seed: [u8; 32],
    rng: ChaCha20Rng,
    drawn: u64,
}

impl Model for Draws {
    ghost use Rattle.std.specs.Prelude.{◌≡◌, ◌*◌, ◌^◌, ◌≤◌};
    ghost use Rattle.rand_chacha.specs.ChaCha.{key_of};
    ghost use Rattle.bng_desk.specs.Random.{Drawn};

    ghost Value = { Drawn };

    ghost view = { λ d. record { seed = d.seed; drawn = d.drawn } };

    ghost invariant = { λ d. (d.rng ≡ record { key = key_of d.seed; stream = 0; word_pos = 4 * d.drawn }) × (d.drawn ≤ 2 ^ 62) };
}

// The octets of the next word, the lowest first.
fn word(rng: &mut ChaCha20Rng) -> [u8; 4]
    ensures octets { result ≡ to_le_bytes w32 (word_at 10 rng.old.key rng.old.stream rng.old.word_pos) }
    ensures next { rng.new ≡ record rng.old { word_pos = (rng.old.word_pos + 1) % 2 ^ 68 } }
{
    rng.next_word().to_le_bytes()
}

fn joined(a: [u8; 4], b: [u8; 4], c: [u8; 4], d: [u8; 4]) -> [u8; 16]
    ensures { result ≡ a ++ b ++ c ++ d }
{
    [
        a[0], a[1], a[2], a[3], b[0], b[1], b[2], b[3], c[0], c[1], c[2], c[3], d[0], d[1], d[2],
        d[3],
    ]
}

impl Draws {
    /// Nothing was drawn of this seed yet.
    pub(crate) fn of(seed: [u8; 32]) -> Draws
        ensures { result ≡ record { seed = seed; drawn = 0 } }
    {
        Draws {
            seed,
            rng: ChaCha20Rng::from_seed(seed),
            drawn: 0,
        }
    }

    /// Sixteen octets that were not given before.
    pub(crate) fn sixteen(&mut self) -> [u8; 16]
        requires { self.old.drawn < 2 ^ 62 }
        ensures octets { result ≡ draw self.old.seed self.old.drawn }
        ensures counted { self.new ≡ record self.old { drawn = self.old.drawn + 1 } }
    {
        let a = word(&mut self.rng);
        let b = word(&mut self.rng);
        let c = word(&mut self.rng);
        let d = word(&mut self.rng);
        self.drawn += 1;
        joined(a, b, c, d)
    }
}
