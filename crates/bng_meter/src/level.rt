//! The numbers of tokens in the buckets.
ghost use Rattle.std.specs.Prelude.{◌≡◌, ◌+◌, ◌-◌, ◌*◌, ◌/◌, ◌^◌, ◌<◌, ◌≤◌, min};

// How many tokens have arrived so many milliseconds after the start.
pub fn arrived(cir: u64, elapsed: u64) -> u128
    ensures { result ≡ (cir * elapsed) / 1000 }
{
    cir as u128 * elapsed as u128 / 1000
}

// A bucket of that size with so many tokens more.
pub fn raised(level: u64, size: u64, tokens: u128) -> u64
    requires { level ≤ size }
    ensures { result ≡ min (level + tokens) size }
{
    let missing = size - level;
    if tokens < missing as u128 {
        level + tokens as u64
    } else {
        size
    }
}

// The tokens for which the bucket has no place.
pub fn left_over(level: u64, size: u64, tokens: u128) -> u128
    requires { level ≤ size }
    ensures { result ≡ tokens - (size - level) }
{
    tokens.saturating_sub((size - level) as u128)
}
