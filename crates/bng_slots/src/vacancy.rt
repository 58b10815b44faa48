//! One bit for each place of a shard, set where the place is free.
ghost use Rattle.std.specs.Prelude.{◌≡◌, ◌<◌, ◌==◌, ℕ, IfSome, IfNone, not, position, if◌then◌else◌};
ghost use Rattle.bng_slots.specs.Bits.{free_bit};

/// The places of a shard that have a session number, by rising number.
pub(crate) const PLACES: usize = 1022;

/// Which places are free.
#[derive(Drop)]
pub(crate) struct Vacancy {
    words: [u64; 16],
}

// The first word that has a bit.
fn first_word(words: &[u64]) -> Option<usize>
    ensures { result ≡ position (λ w. not (w == 0)) words.now }
{
    words.iter().position(|word| *word != 0)
}

impl Vacancy {
    /// All places are free.
    pub(crate) fn open() -> Vacancy
        ensures { (i : ℕ) → i < 1024 → free_bit result.words i ≡ 1 }
    {
        Vacancy {
            words: [u64::MAX; 16],
        }
    }

    /// The lowest free place; none exactly where none is free.
    pub(crate) fn lowest(&self) -> Option<usize>
        ensures within { IfSome result (λ p. p < PLACES) }
        ensures free { IfSome result (λ p. free_bit self.now.words p ≡ 1) }
        ensures lowest { IfSome result (λ p. (i : ℕ) → i < p → free_bit self.now.words i ≡ 0) }
        ensures none { IfNone result ((i : ℕ) → i < PLACES → free_bit self.now.words i ≡ 0) }
    {
        let at = first_word(&self.words)?;
        let place = at * 64 + self.words[at].trailing_zeros() as usize;
        if place < PLACES { Some(place) } else { None }
    }

    /// The place is free no more.
    pub(crate) fn take(&mut self, place: usize)
        requires { place < PLACES }
        ensures { (i : ℕ) → free_bit self.new.words i ≡ (if i == place then 0 else free_bit self.old.words i) }
    {
        self.words[place / 64] &= !(1 << (place % 64));
    }

    /// The place is free again.
    pub(crate) fn give_back(&mut self, place: usize)
        requires { place < PLACES }
        ensures { (i : ℕ) → free_bit self.new.words i ≡ (if i == place then 1 else free_bit self.old.words i) }
    {
        self.words[place / 64] |= 1 << (place % 64);
    }
}
