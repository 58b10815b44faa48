//! The peer's Maximum-Receive-Unit (RFC 1661 section 6.1), and what is cut to it.
ghost use Rattle.std.specs.Prelude.{◌≡◌, ◌≤◌, length, take, ◌-◌};
ghost use Rattle.bng_ppp_wire.specs.View.{option_of, options_of};
ghost use Rattle.bng_ppp.specs.MaximumReceiveUnit.{mru_with, mru_of as mru_listed};

use bng_lcp::option::MAXIMUM_RECEIVE_UNIT;
use bng_ppp_wire::Opt;

// The Maximum-Receive-Unit after one option more.
fn mru_after(mru: u16, option: &Opt<'_>) -> u16
    ensures { result ≡ mru_with mru (option_of option.now) }
{
    match (option.kind, option.value) {
        (MAXIMUM_RECEIVE_UNIT, [high, low]) => u16::from_be_bytes([*high, *low]),
        _ => mru,
    }
}

// The Maximum-Receive-Unit that a request lists, else the limit.
pub(crate) fn mru_of(limit: u16, options: &[Opt<'_>]) -> u16
    ensures { result ≡ mru_listed limit (options_of options.now) }
{
    let mut mru = limit;
    for option in options {
        mru = mru_after(mru, option);
    }
    mru
}

/// The octets that are left where so many are kept.
pub(crate) fn cut(octets: &[u8], most: usize) -> &[u8]
    ensures octets { result.now ≡ take most octets.now }
    ensures short { length result.now ≤ most }
    ensures shorter { length result.now ≤ length octets.now }
{
    if octets.len() <= most {
        octets
    } else {
        &octets[..most]
    }
}

/// How many octets the body of a packet has at most that a peer with this Maximum-Receive-Unit takes.
pub(crate) fn body_most(mru: u16) -> usize
    ensures { result ≡ mru - 4 }
{
    usize::from(mru).saturating_sub(4)
}
