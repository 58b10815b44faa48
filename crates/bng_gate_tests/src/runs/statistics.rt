//! What Control is told of a run: the report without its lines of circuits.
use super::authentication::stop;
use super::changes::{packet_100, run_changes};
use super::reports::{Counted, stats};
use super::{Ended, loopback};
use crate::asserts::{assert_holds, assert_octets, assert_same};
use bng_base::{Datagram, Ip4, Peer, Role};
use bng_plant::Arrival;
use std::alloc::{AllocError, Global};
use std::process::Abort;
use std::test::Fail;

/// Before anything passed, and once a packet of 100 octets has.
const NOTHING: Counted<'static> = Counted {
    octets: "in=0 out=0",
    lines: &["profile bronze in=0 out=0", "profile gold in=0 out=0"],
    drops: &[],
};

const PASSED: Counted<'static> = Counted {
    octets: "in=100 out=0",
    lines: &["profile bronze in=100 out=0", "profile gold in=0 out=0"],
    drops: &[("Malformed", 1)],
};

/// Who may not ask.
const STRANGER: Peer = Peer {
    ip: Ip4(0x0a00_0001),
    port: 5,
};

/// A datagram of this peer to Control.
fn told(from: Peer, octets: &[u8]) -> Arrival {
    Arrival::new(Role::Control, from, octets)
}

/// A packet passes in the first turn, and one octet is no frame. The next turn tells of them.
fn questions(alloc: Global) -> Result<Vec<Arrival>, AllocError> {
    let mut script = Vec::new(alloc);
    script.push(told(loopback(5), b"stats"))?;
    script.push(told(STRANGER, b"stats"))?;
    script.push(told(loopback(5), b"stats\n"))?;
    script.push(told(loopback(5), b"statistics"))?;
    script.push(packet_100())?;
    script.push(Arrival::new(Role::Access(1), loopback(9011), &[0]))?;
    script.push(told(loopback(5), b"stats"))?;
    script.push(stop(0))?;
    Ok(script)
}

/// This is the answer to port 5 of 127.0.0.1 with this text.
fn assert_answer(rt: &impl Abort, found: Option<&Datagram>, text: &[u8]) {
    let answer = found.expect(rt, "an answer");
    assert_same(rt, &answer.peer, &loopback(5));
    assert_octets(rt, answer.octets.as_slice(), text);
}

/// What a run sent from Control are answers with these texts, and no more.
fn answers(rt: &impl Abort, ended: &Ended, wanted: &[&[u8]]) {
    let sent = ended.plant.sent().iter();
    let mut answers = sent.filter(|datagram| datagram.role == Role::Control);
    for text in wanted {
        assert_answer(rt, answers.next(), text);
    }
    assert_holds(rt, answers.next().is_none());
}

#[test]
fn stats_is_answered_by_what_was_counted_so_far(rt: HostRuntime) -> Result<(), Fail> {
    let alloc = rt.alloc();
    let ended = run_changes(&rt, alloc, questions(alloc)?, 10)?;
    let nothing = stats(alloc, &NOTHING)?;
    let passed = stats(alloc, &PASSED)?;
    answers(
        &rt,
        &ended,
        &[
            nothing.as_bytes(),
            nothing.as_bytes(),
            b"unknown\n",
            passed.as_bytes(),
            b"stopping\n",
        ],
    );
    Ok(())
}
