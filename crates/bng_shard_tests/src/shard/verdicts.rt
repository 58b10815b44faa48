ghost use Rattle.std.specs.Prelude.{◌≡◌, ◌≤◌, length};

use super::settings::{ONE, rules, text};
use super::{Bench, NOTHING, item, octets, open_bench, request, span};
use crate::asserts::{assert_count, assert_octets, assert_same};
use arrayvec::ArrayVec;
use bng_base::{Item, ItemKind, OutRecord, SessionNo};
use bng_steps::Handed;
use bng_verdict::QuestionNo;
use std::alloc::Global;
use std::process::Abort;
use std::test::Fail;

// The first host asks for its Maximum-Receive-Unit and a magic number, and takes what the gateway asks for: 1,492 octets, PAP and the
// magic number 00010203 (RFC 1661 section 6).
pub(super) const REQUEST: &[u8; 16] =
    b"\xc0\x21\x01\x02\x00\x0e\x01\x04\x05\xd4\x05\x06\x11\x22\x33\x44";

pub(super) const ACK: &[u8; 20] =
    b"\xc0\x21\x02\x01\x00\x12\x01\x04\x05\xd4\x03\x04\xc0\x23\x05\x06\x00\x01\x02\x03";

// its password twice, under two identifiers (RFC 1334 section 2.2.1)
pub(super) const PASSWORD: &[u8; 14] = b"\xc0\x23\x01\x07\x00\x0c\x02u0\x04pass";

const AGAIN: &[u8; 14] = b"\xc0\x23\x01\x08\x00\x0c\x02u0\x04pass";

// an Access-Accept and an Access-Reject, each with a Reply-Message (RFC 2865 sections 4.2, 4.3 and 5.18), and what PAP makes of them
pub(super) const ACCEPT: &[u8; 24] = b"\x02\x00\x00\x18\0\0\0\0\0\0\0\0\0\0\0\0\0\0\0\0\x12\x04hi";

const ACCEPTED: &[u8; 9] = b"\xc0\x23\x02\x07\x00\x07\x02hi";

const REJECT: &[u8; 24] = b"\x03\x00\x00\x18\0\0\0\0\0\0\0\0\0\0\0\0\0\0\0\0\x12\x04no";

const REJECTED: &[u8; 9] = b"\xc0\x23\x03\x07\x00\x07\x02no";

// What stands before a PPP frame of so many octets in a frame of this host's session, which has the same number.
fn header(host: u8, length: u8) -> [u8; 20] {
    [
        2, 0, 0, 0, 0, 0xfe, 2, 0, 0, 0, 0, host, 0x88, 0x64, 0x11, 0, 0, host, 0, length,
    ]
}

// Appends octets for as long as there is room.
fn append(octets: &mut ArrayVec<u8, 64>, more: &[u8]) {
    for octet in more {
        if !octets.is_full() {
            octets.push(*octet);
        }
    }
}

// A frame of this host's session, which has the same number, with this PPP frame.
pub(super) fn in_session_of(host: u8, ppp: &[u8]) -> Item
    requires { length ppp.now ≤ 44 }
    ensures { result.frame.headroom ≡ 64 }
{
    let length = ppp.len() as u8;
    let mut octets = text(&header(host, length));
    append(&mut octets, ppp);
    item(ItemKind::Access(1), octets.as_slice())
}

// A frame of the first host's session with this PPP frame.
fn in_session(ppp: &[u8]) -> Item
    requires { length ppp.now ≤ 44 }
    ensures { result.frame.headroom ≡ 64 }
{
    in_session_of(1, ppp)
}

// A RADIUS server's reply to this question of this session.
pub(super) fn verdict(session: u16, ask: u64, reply: &[u8]) -> Item
    requires { length reply.now ≤ 4096 }
    ensures { result.frame.headroom ≡ 64 }
{
    let mut told = item(ItemKind::Verdict, reply);
    told.target = session;
    told.ask = ask;
    told
}

// The outs of a round of one item at moment 0.
pub(super) fn hear(rt: &impl Abort, alloc: Global, bench: &mut Bench, item: Item) -> Vec<OutRecord>
    requires whole { item.frame.headroom ≡ 64 }
{
    let mut tally = NOTHING;
    bench.round(rt, alloc, &mut tally, 0, item)
}

// A shard whose rules have no pool.
pub(super) fn opened(alloc: Global) -> Result<Bench, Fail> {
    let rules = rules(alloc)?;
    open_bench(alloc, rules, ONE)
}

// The first host asks for a session, and opens LCP there.
fn open_lcp(rt: &impl Abort, alloc: Global, bench: &mut Bench) {
    let _made = request(rt, alloc, bench, 1);
    let _answered = hear(rt, alloc, bench, in_session(REQUEST));
    let _opened = hear(rt, alloc, bench, in_session(ACK));
}

// A shard whose first host sent its password.
fn asking(rt: &impl Abort, alloc: Global) -> Result<Bench, Fail> {
    let mut bench = opened(alloc)?;
    open_lcp(rt, alloc, &mut bench);
    let _asked = hear(rt, alloc, &mut bench, in_session(PASSWORD));
    Ok(bench)
}

// An item has no outs.
fn assert_silent(rt: &impl Abort, alloc: Global, bench: &mut Bench, item: Item)
    requires whole { item.frame.headroom ≡ 64 }
{
    let outs = hear(rt, alloc, bench, item);
    assert_count(rt, outs.len(), 0);
}

// The number of the next question that is handed out.
fn asked(bench: &Bench, handed: &mut Handed) -> Option<QuestionNo> {
    let ask = bench.shard.asked(handed)?;
    Some(ask.number)
}

const FIRST_QUESTION: QuestionNo = QuestionNo {
    session: SessionNo(1),
    ask: 1,
};

// A peer's password is asked about once, also where it comes again.
fn assert_asks_once(rt: &impl Abort, alloc: Global, bench: &mut Bench) -> Result<(), Fail> {
    let mut handed = Handed::open(alloc)?;
    assert_same(rt, &asked(bench, &mut handed), &Some(FIRST_QUESTION));
    assert_silent(rt, alloc, bench, in_session(AGAIN));
    assert_same(rt, &asked(bench, &mut handed), &None);
    Ok(())
}

// No question is open.
fn assert_asks_nothing(rt: &impl Abort, alloc: Global, bench: &Bench) -> Result<(), Fail> {
    let mut none = Handed::open(alloc)?;
    assert_same(rt, &asked(bench, &mut none), &None);
    Ok(())
}

// The outs of a verdict on a peer's password that was asked about once. A verdict on another question, or of another session, does
// nothing, and neither does a second one.
fn judged(rt: &impl Abort, alloc: Global, reply: &[u8; 24]) -> Result<Vec<OutRecord>, Fail> {
    let mut bench = asking(rt, alloc)?;
    assert_asks_once(rt, alloc, &mut bench)?;
    assert_silent(rt, alloc, &mut bench, verdict(1, 2, reply));
    assert_silent(rt, alloc, &mut bench, verdict(2, 1, reply));
    let outs = hear(rt, alloc, &mut bench, verdict(1, 1, reply));
    assert_asks_nothing(rt, alloc, &bench)?;
    assert_silent(rt, alloc, &mut bench, verdict(1, 1, reply));
    Ok(outs)
}

// The one out says that the password was accepted.
fn assert_accepted(rt: &impl Abort, outs: &[OutRecord]) {
    assert_count(rt, outs.len(), 1);
    assert_count(rt, octets(outs, 0).len(), 29);
    assert_octets(rt, span(outs, 0, 20, 29), ACCEPTED);
}

// The first of two outs says that the password was rejected.
fn assert_rejected(rt: &impl Abort, outs: &[OutRecord]) {
    assert_count(rt, outs.len(), 2);
    assert_count(rt, octets(outs, 0).len(), 29);
    assert_octets(rt, span(outs, 0, 20, 29), REJECTED);
    // after the Authenticate-Nak LCP does Close, by a Terminate-Request
    assert_octets(rt, span(outs, 1, 20, 23), b"\xc0\x21\x05");
}

#[test]
fn a_verdict_counts_for_the_question_of_its_session_alone(rt: HostRuntime) -> Result<(), Fail> {
    let alloc = rt.alloc();
    let accepted = judged(&rt, alloc, ACCEPT)?;
    assert_accepted(&rt, &accepted);
    let refused = judged(&rt, alloc, REJECT)?;
    assert_rejected(&rt, &refused);
    Ok(())
}
