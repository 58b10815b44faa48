use super::logins::{accepted_by, assert_passes, open_ipcp, with_one};
use super::terms::assert_book;
use super::{Bench, NOTHING, octets, span};
use crate::asserts::{assert_count, assert_holds, assert_octets};
use bng_base::{Book, DropCause, Fate, OutRecord};
use std::alloc::Global;
use std::process::Abort;
use std::test::Fail;

// An Access-Accept with the Filter-Id gold (RFC 2865 section 5.11).
const GOLD: &[u8; 26] = b"\x02\0\0\x1a\0\0\0\0\0\0\0\0\0\0\0\0\0\0\0\0\x0b\x06gold";

// One with the Filter-Id lead and the Framed-Pool x (RFC 2869 section 5.18), of which neither is there; and what PAP makes of the
// refusal, which speaks of the profile.
const LEAD: &[u8; 29] = b"\x02\0\0\x1d\0\0\0\0\0\0\0\0\0\0\0\0\0\0\0\0\x0b\x06lead\x58\x03x";

const NO_PROFILE: &[u8; 17] = b"\xc0\x23\x03\x07\x00\x0f\x0ano profile";

const EXCEEDED: Fate = Fate::Dropped(DropCause::Exceeded);

// Moments in milliseconds, and the fate of a packet then.
// 28 tokens have come once more by 334, 667 and 1,000 milliseconds, and not one millisecond sooner
const METERED: &[(u32, Fate)] = &[
    (1, Fate::Forwarded),
    (333, EXCEEDED),
    (334, Fate::Forwarded),
    (666, EXCEEDED),
    (667, Fate::Forwarded),
    (1000, Fate::Forwarded),
];

// The packets of the first host have these fates.
fn assert_metered(rt: &impl Abort, alloc: Global, bench: &mut Bench) {
    for (now, fate) in METERED {
        assert_passes(rt, alloc, bench, *now, *fate);
    }
}

// A shard whose first host has a term under gold.
fn under_gold(rt: &impl Abort, alloc: Global) -> Result<Bench, Fail> {
    let mut bench = with_one(alloc)?;
    let _accepted = accepted_by(rt, alloc, &mut bench, 1, 1, GOLD);
    open_ipcp(rt, alloc, &mut bench);
    Ok(bench)
}

// What passed.
const PASSED: Book = Book {
    input: 112,
    output: 0,
    input_packets: 4,
    output_packets: 0,
};

#[test]
fn a_term_is_metered_by_the_profile_that_its_accept_names(rt: HostRuntime) -> Result<(), Fail> {
    let alloc = rt.alloc();
    let mut bench = under_gold(&rt, alloc)?;
    assert_metered(&rt, alloc, &mut bench);
    assert_book(&rt, &bench, 0, NOTHING);
    assert_book(&rt, &bench, 1, PASSED);
    Ok(())
}

// The Authenticate-Nak says that there is no profile, and LCP does Close.
fn assert_refused(rt: &impl Abort, outs: &[OutRecord]) {
    assert_count(rt, octets(outs, 0).len(), 37);
    assert_octets(rt, span(outs, 0, 20, 37), NO_PROFILE);
    assert_octets(rt, span(outs, 1, 20, 23), b"\xc0\x21\x05");
}

#[test]
fn an_accept_that_names_no_profile_is_a_refusal(rt: HostRuntime) -> Result<(), Fail> {
    let alloc = rt.alloc();
    let mut bench = with_one(alloc)?;
    let outs = accepted_by(&rt, alloc, &mut bench, 1, 1, LEAD);
    assert_refused(&rt, &outs);
    assert_holds(&rt, bench.fresh().is_none());
    Ok(())
}
