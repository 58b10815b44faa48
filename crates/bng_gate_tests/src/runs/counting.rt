//! What a run has counted, while it serves and in the end.
use super::forwarding::{FROM_CORE, PADDED, SPOOFED};
use super::reports::{Counted, assert_report, stats};
use super::running::{SERVE, run_over};
use super::{Ended, PACKET, TWO_PORTS, a_turn_later, frame_of, has_all, loopback};
use crate::asserts::{assert_count, assert_octets};
use bng_base::Role;
use bng_plant::Arrival;
use std::alloc::{AllocError, Global};
use std::process::Abort;
use std::test::Fail;

/// A Stop (RFC 2866 section 5.1) of the first circuit: 104 octets in two packets in, 20 in one out (sections 5.3, 5.4, 5.8 and 5.9).
const STOP: &[&[u8]] = &[
    &[40, 6, 0, 0, 0, 2],
    &[8, 6, 10, 0, 0, 2],
    &[42, 6, 0, 0, 0, 104],
    &[43, 6, 0, 0, 0, 20],
    &[47, 6, 0, 0, 0, 2],
    &[48, 6, 0, 0, 0, 1],
];

/// A Stop of the second circuit, on which nothing passed.
const EMPTY_STOP: &[&[u8]] = &[
    &[40, 6, 0, 0, 0, 2],
    &[8, 6, 10, 0, 0, 3],
    &[42, 6, 0, 0, 0, 0],
    &[43, 6, 0, 0, 0, 0],
    &[47, 6, 0, 0, 0, 0],
    &[48, 6, 0, 0, 0, 0],
];

/// Of the first circuit a packet of 84 octets, one of 20, and one that is not from its address; to it one of 20; a turn later `stats`,
/// and then `stop`.
fn packets(alloc: Global) -> Result<Vec<Arrival>, AllocError> {
    let whole = frame_of(alloc, &PACKET)?;
    let spoofed = frame_of(alloc, &SPOOFED)?;
    let mut script = Vec::new(alloc);
    script.push(Arrival::new(Role::Access(1), loopback(9011), whole.as_slice()))?;
    script.push(Arrival::new(Role::Access(1), loopback(9011), &PADDED))?;
    script.push(Arrival::new(Role::Access(1), loopback(9011), spoofed.as_slice()))?;
    script.push(Arrival::new(Role::Core, loopback(9001), &FROM_CORE))?;
    script.push(a_turn_later())?;
    script.push(Arrival::new(Role::Control, loopback(5), b"stats"))?;
    script.push(Arrival::new(Role::Control, loopback(5), b"stop"))?;
    Ok(script)
}

/// How many Accounting-Requests a run sent that have all of these.
fn records(ended: &Ended, attributes: &[&[u8]]) -> usize {
    let sent = ended.plant.sent().iter();
    let records = sent.filter(|datagram| datagram.role == Role::Acct);
    records
        .filter(|record| has_all(record.octets.as_slice(), attributes))
        .count()
}

/// The first datagram that a run sent from Control has these octets.
fn first_answer(rt: &impl Abort, ended: &Ended, wanted: &[u8]) {
    let sent = ended.plant.sent().iter();
    let mut answers = sent.filter(|datagram| datagram.role == Role::Control);
    let answer = answers.next().expect(rt, "an answer");
    assert_octets(rt, answer.octets.as_slice(), wanted);
}

#[test]
fn sums_count_octets_packets_terms_stops_and_drops(rt: HostRuntime) -> Result<(), Fail> {
    let alloc = rt.alloc();
    let script = packets(alloc)?;
    let ended = run_over(&rt, alloc, &SERVE, TWO_PORTS, script, &[], &[])?;
    let told = stats(
        alloc,
        &Counted {
            octets: "in=104 out=20",
            lines: &["profile default in=104 out=20"],
            drops: &[("Spoofed", 1)],
        },
    )?;
    first_answer(&rt, &ended, told.as_bytes());
    assert_report(
        &rt,
        alloc,
        &ended,
        &Counted {
            octets: "in=104 out=20",
            lines: &[
                "profile default in=104 out=20",
                "static 10.0.0.2 in=104 out=20",
                "static 10.0.0.3 in=0 out=0",
            ],
            drops: &[("Spoofed", 1)],
        },
    )?;
    // Nobody acknowledges them, so each is sent eleven times.
    assert_count(&rt, records(&ended, STOP), 11);
    assert_count(&rt, records(&ended, EMPTY_STOP), 11);
    Ok(())
}
