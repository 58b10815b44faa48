//! A number of seconds from a moment on.
ghost use Rattle.std.specs.Prelude.{◌≡◌, ◌<◌, ◌^◌};
ghost use Rattle.bng_term.specs.Lifetimes.{is_over, over_at, seconds_after, earliest};

// The moment so many seconds after that one.
pub fn seconds_after(seconds: u32, since: u64) -> u64
    requires { since < 2 ^ 60 }
    ensures { result ≡ seconds_after seconds since }
{
    since + u64::from(seconds) * 1000
}

// Whether a timeout of so many seconds, 0 for none, is over.
pub fn is_over(seconds: u32, since: u64, now: u64) -> bool
    requires { since < 2 ^ 60 }
    ensures { result ≡ is_over seconds since now }
{
    seconds > 0 && seconds_after(seconds, since) <= now
}

// The first moment at which it is over.
pub fn over_at(seconds: u32, since: u64) -> Option<u64>
    requires { since < 2 ^ 60 }
    ensures { result ≡ over_at seconds since }
{
    if seconds > 0 {
        Some(seconds_after(seconds, since))
    } else {
        None
    }
}

pub fn earliest(a: Option<u64>, b: Option<u64>) -> Option<u64>
    ensures { result ≡ earliest a b }
{
    match (a, b) {
        (Some(x), Some(y)) => Some(x.min(y)),
        (None, other) => other,
        (some, None) => some,
    }
}
