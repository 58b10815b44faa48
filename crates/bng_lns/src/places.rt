//! Which place a message is for.
ghost use Rattle.std.specs.Prelude.{◌≡◌, ◌<◌, length, nat_lt, position, if◌then◌else◌};
ghost use Rattle.std.specs.List.{position_or_len};
ghost use Rattle.bng_lns.specs.Places.{number_at, is_free as is_free_at, is_numbered as has_number, is_named as is_named_by, is_again as comes_again, earliest as earliest_of};

use crate::place::{TunnelPlace, deadline_in, is_again, is_free, is_named, is_numbered};
use bng_base::{Peer, TunnelNo};

/// How many tunnels a shard has at most.
pub const TUNNELS_MOST: usize = 16;

// The first place whose number may be given.
fn first_free(places: &[TunnelPlace], now: u64) -> Option<usize>
    ensures { result ≡ position (is_free_at now) places.now }
{
    places.iter().position(|p| is_free(p, now))
}

/// The first place whose number may be given, or the place after the last.
pub(crate) fn free_place(places: &[TunnelPlace], now: u64) -> usize
    ensures { result ≡ position_or_len (is_free_at now) places.now }
{
    match first_free(places, now) {
        Some(at) => at,
        None => places.len(),
    }
}

/// The number of a place; 0 where it is past the last that a shard may have.
pub(crate) fn number_of(shard: u16, at: usize) -> TunnelNo
    requires { shard < 64 }
    ensures { result.0 ≡ (if nat_lt at 16 then number_at shard at else 0) }
{
    if at < TUNNELS_MOST {
        TunnelNo(shard * 1024 + 1 + at as u16)
    } else {
        TunnelNo(0)
    }
}

/// The place of the tunnel with this number.
pub(crate) fn numbered_place(places: &[TunnelPlace], number: TunnelNo) -> Option<usize>
    ensures { result ≡ position (has_number number.0) places.now }
{
    places.iter().position(|p| is_numbered(p, number.0))
}

/// The place of the tunnel with this number, of this peer.
pub(crate) fn named_place(places: &[TunnelPlace], from: Peer, number: u16) -> Option<usize>
    ensures { result ≡ position (is_named_by from number) places.now }
{
    places.iter().position(|p| is_named(p, from, number))
}

/// The place of the tunnel of this peer with this Assigned Tunnel ID.
pub(crate) fn again_place(places: &[TunnelPlace], from: Peer, id: Option<u16>) -> Option<usize>
    ensures { result ≡ position (comes_again from id) places.now }
{
    places.iter().position(|p| is_again(p, from, id))
}

/// The earliest deadline of the tunnels that stand, in milliseconds; 2^64 - 1 where there is none.
pub(crate) fn earliest(places: &[TunnelPlace]) -> u64
    ensures { result ≡ earliest_of places.now }
{
    let mut first = u64::MAX;
    let mut left = places;
    while let [place, after @ ..] = left {
        first = first.min(deadline_in(place));
        left = after;
    }
    first
}
