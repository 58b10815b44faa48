//! Packets of provisioned circuits, beside a server of accounting that says nothing: so the Stops go out again until the grace is over.
use super::reports::{Counted, assert_report};
use super::running::{SERVE, run_over};
use super::{
    CONFIGURATION, Ended, FALLING_NUMBERS, PACKET, TWO_PORTS, accounts, assert_err, assert_sent,
    assert_status, frame_and_stop, loopback, script_of, sends,
};
use crate::asserts::{assert_count, assert_holds, assert_octets, assert_same};
use bng_base::Role;
use bng_plant::Arrival;
use std::alloc::Global;
use std::process::Abort;
use std::sync::Wait;
use std::test::Fail;
use std::thread::Threads;

/// The same after forwarding.
const FORWARDED: [u8; 20] = [
    0x45, 0, 0, 0x54, 0, 1, 0, 0, 0x3f, 1, 0xaf, 0xa5, 10, 0, 0, 2, 0xc0, 0, 2, 1,
];

/// The same from 10.0.0.3.
pub(super) const SPOOFED: [u8; 20] = [
    0x45, 0, 0, 0x54, 0, 1, 0, 0, 0x40, 1, 0xae, 0xa4, 10, 0, 0, 3, 0xc0, 0, 2, 1,
];

/// Attributes of RFC 2866 section 5: the Acct-Status-Types Start and Stop, the Acct-Session-Id of the circuit's term, and
/// Acct-Input-Octets and Acct-Output-Octets.
const START: &[u8] = b"\x28\x06\x00\x00\x00\x01";

const STOP: &[u8] = b"\x28\x06\x00\x00\x00\x02";

const SESSION_ID: &[u8] = b"\x2c\x1a6553f1000401000000000001";

const NOTHING_IN: &[u8] = b"\x2a\x06\x00\x00\x00\x00";

const PACKET_IN: &[u8] = b"\x2a\x06\x00\x00\x00\x54";

const NOTHING_OUT: &[u8] = b"\x2b\x06\x00\x00\x00\x00";

/// A packet of 20 octets from 10.0.0.2 with TTL 2 in a frame of the circuit, padded to 60 octets.
pub(super) const PADDED: [u8; 60] = [
    0x02, 0, 0, 0, 0, 0xfe, 0x02, 0, 0, 0, 0, 0x01, 0x88, 0x64, 0x11, 0x00, 0x04, 0x01, 0x00, 0x16,
    0x00, 0x21, 0x45, 0, 0, 0x14, 0, 2, 0, 0, 2, 0x11, 0xec, 0xd4, 10, 0, 0, 2, 0xc0, 0, 2, 1, 0,
    0, 0, 0, 0, 0, 0, 0, 0, 0, 0, 0, 0, 0, 0, 0, 0, 0,
];

/// The packet that goes to the core for it.
pub(super) const UP: [u8; 20] = [
    0x45, 0, 0, 0x14, 0, 2, 0, 0, 1, 0x11, 0xed, 0xd4, 10, 0, 0, 2, 0xc0, 0, 2, 1,
];

/// A packet of the core to 10.0.0.2 with TTL 2.
pub(super) const FROM_CORE: [u8; 20] = [
    0x45, 0, 0, 0x14, 0, 2, 0, 0, 2, 0x11, 0xec, 0xd4, 0xc0, 0, 2, 1, 10, 0, 0, 2,
];

/// The frame that goes on the circuit for it.
pub(super) const DOWN: [u8; 42] = [
    0x02, 0, 0, 0, 0, 0x01, 0x02, 0, 0, 0, 0, 0xfe, 0x88, 0x64, 0x11, 0x00, 0x04, 0x01, 0x00, 0x16,
    0x00, 0x21, 0x45, 0, 0, 0x14, 0, 2, 0, 0, 1, 0x11, 0xed, 0xd4, 0xc0, 0, 2, 1, 10, 0, 0, 2,
];

/// A packet of the core to 10.0.0.3 with TTL 2.
const TO_THE_OTHER: [u8; 20] = [
    0x45, 0, 0, 0x14, 0, 2, 0, 0, 2, 0x11, 0xec, 0xd3, 0xc0, 0, 2, 1, 10, 0, 0, 3,
];

/// The frame that goes on the second port's circuit for it.
const DOWN_THE_OTHER: [u8; 42] = [
    0x02, 0, 0, 0, 0, 0x02, 0x02, 0, 0, 0, 0, 0xfd, 0x88, 0x64, 0x11, 0x00, 0x04, 0x02, 0x00, 0x16,
    0x00, 0x21, 0x45, 0, 0, 0x14, 0, 2, 0, 0, 1, 0x11, 0xed, 0xd3, 0xc0, 0, 2, 1, 10, 0, 0, 3,
];

/// A run over this configuration with this script, in which the calls of the plant with these numbers fail, ends with status 6, since no
/// Stop is acknowledged, and reports this.
fn reports<R: Threads + Wait + Sync + Abort>(
    rt: &R,
    alloc: Global,
    configuration: &str,
    script: Vec<Arrival>,
    fails: &[u64],
    counted: &Counted<'_>,
) -> Result<Ended, Fail> {
    let ended = run_over(rt, alloc, &SERVE, configuration, script, fails, &[])?;
    assert_status(rt, &ended, 6);
    assert_report(rt, alloc, &ended, counted)?;
    Ok(ended)
}

/// The same of a run in which these come and then `stop`, and it sends these.
fn passes<R: Threads + Wait + Sync + Abort>(
    rt: &R,
    alloc: Global,
    configuration: &str,
    come: &[(Role, u16, &[u8])],
    fails: &[u64],
    counted: &Counted<'_>,
    wanted: &[(Role, u16, &[u8])],
) -> Result<(), Fail> {
    let script = script_of(alloc, come)?;
    let ended = reports(rt, alloc, configuration, script, fails, counted)?;
    sends(rt, &ended, wanted);
    Ok(())
}

/// The first datagram that a run sent goes to the core, and is the packet of 84 octets after forwarding.
fn forwards_first(rt: &impl Abort, ended: &Ended) {
    let first = ended.plant.sent().first().expect(rt, "a packet");
    assert_same(rt, &first.role, &Role::Core);
    assert_same(rt, &first.peer, &loopback(9001));
    assert_forwarded(rt, first.octets.as_slice());
}

/// A packet has 84 octets: the header after forwarding, and 64 octets of 7.
fn assert_forwarded(rt: &impl Abort, packet: &[u8]) {
    assert_count(rt, packet.len(), 84);
    assert_octets(rt, &packet[..20], FORWARDED.as_slice());
    assert_holds(rt, packet[20..].iter().all(|octet| *octet == 7));
}

/// The third datagram that a run sent is the answer to `stop`.
fn answers_third(rt: &impl Abort, ended: &Ended) {
    let third = ended.plant.sent().get(2).expect(rt, "an answer");
    assert_same(rt, &third.role, &Role::Control);
    assert_octets(rt, third.octets.as_slice(), b"stopping\n".as_slice());
}

/// All datagrams that a run sent after the fourth have the octets of the fourth.
fn repeats_fourth(rt: &impl Abort, ended: &Ended) {
    let fourth = ended.plant.sent().get(3).expect(rt, "a Stop");
    let stop = fourth.octets.as_slice();
    let mut rest = ended.plant.sent().iter().skip(4);
    assert_holds(rt, rest.all(|again| again.octets.as_slice() == stop));
}

#[test]
fn a_packet_is_forwarded_with_ttl_and_sum_changed(rt: HostRuntime) -> Result<(), Fail> {
    let alloc = rt.alloc();
    let script = frame_and_stop(alloc, &PACKET)?;
    let ended = reports(
        &rt,
        alloc,
        CONFIGURATION,
        script,
        &[],
        &Counted {
            octets: "in=84 out=0",
            lines: &["profile default in=84 out=0", "static 10.0.0.2 in=84 out=0"],
            drops: &[],
        },
    )?;
    assert_err(
        &rt,
        &ended,
        b"stop 6553f1000401000000000001 p1/020000000001/1025 10.0.0.2 in=84 out=0\n",
    );
    // The packet, the Start, `stopping` and the Stop, and in 30 s ten times the Stop again, 3 s after the time before.
    assert_sent(&rt, &ended, 14);
    forwards_first(&rt, &ended);
    accounts(&rt, &ended, 1, &[START, SESSION_ID]);
    answers_third(&rt, &ended);
    accounts(&rt, &ended, 3, &[STOP, SESSION_ID, PACKET_IN, NOTHING_OUT]);
    repeats_fourth(&rt, &ended);
    Ok(())
}

/// A packet that passes but for the send to the core is counted as a drop by LinkFailed alone.
fn failed_is_a_drop<R: Threads + Wait + Sync + Abort>(rt: &R, alloc: Global) -> Result<(), Fail> {
    let script = frame_and_stop(alloc, &PACKET)?;
    // Five binds, the receives of Control, of Acct, of Auth, twice of the access port and of the core, and then the send to the core.
    let _failed = reports(
        rt,
        alloc,
        CONFIGURATION,
        script,
        &[12],
        &Counted {
            octets: "in=0 out=0",
            lines: &["profile default in=0 out=0", "static 10.0.0.2 in=0 out=0"],
            drops: &[("LinkFailed", 1)],
        },
    )?;
    Ok(())
}

/// One from another address is counted as a drop by Spoofed alone. The Stop tells of nothing in and nothing out.
fn spoofed_is_a_drop<R: Threads + Wait + Sync + Abort>(rt: &R, alloc: Global) -> Result<(), Fail> {
    let script = frame_and_stop(alloc, &SPOOFED)?;
    let spoofed = reports(
        rt,
        alloc,
        CONFIGURATION,
        script,
        &[],
        &Counted {
            octets: "in=0 out=0",
            lines: &["profile default in=0 out=0", "static 10.0.0.2 in=0 out=0"],
            drops: &[("Spoofed", 1)],
        },
    )?;
    // The Start, `stopping` and eleven times the Stop.
    assert_sent(rt, &spoofed, 13);
    accounts(rt, &spoofed, 2, &[STOP, NOTHING_IN, NOTHING_OUT]);
    Ok(())
}

#[test]
fn a_packet_that_does_not_go_is_counted_as_a_drop_alone(rt: HostRuntime) -> Result<(), Fail> {
    let alloc = rt.alloc();
    failed_is_a_drop(&rt, alloc)?;
    spoofed_is_a_drop(&rt, alloc)
}

/// Two packets of the circuit, and what is sent where the first send fails.
const TWO_PACKETS: &[(Role, u16, &[u8])] = &[
    (Role::Access(1), 9011, &PADDED),
    (Role::Access(1), 9011, &PADDED),
];

const ONE_PASSES: &[(Role, u16, &[u8])] = &[
    (Role::Core, 9001, &UP),
    (Role::Control, 5, b"stopping\n"),
];

#[test]
fn what_comes_after_a_failed_send_is_sent(rt: HostRuntime) -> Result<(), Fail> {
    // Five binds, the receives of Control, of Acct, of Auth, three times of the access port and of the core, and then the first send.
    passes(
        &rt,
        rt.alloc(),
        CONFIGURATION,
        TWO_PACKETS,
        &[13],
        &Counted {
            octets: "in=20 out=0",
            lines: &["profile default in=20 out=0", "static 10.0.0.2 in=20 out=0"],
            drops: &[("LinkFailed", 1)],
        },
        ONE_PASSES,
    )
}

/// A packet each way and an unknown word, and what is sent for them.
const BOTH_WAYS: &[(Role, u16, &[u8])] = &[
    (Role::Access(1), 9011, &PADDED),
    (Role::Core, 9001, &FROM_CORE),
    (Role::Control, 5, b"status"),
];

const BOTH_PASS: &[(Role, u16, &[u8])] = &[
    (Role::Core, 9001, &UP),
    (Role::Access(1), 9011, &DOWN),
    (Role::Control, 5, b"unknown\n"),
    (Role::Control, 5, b"stopping\n"),
];

#[test]
fn packets_pass_both_ways_without_their_padding(rt: HostRuntime) -> Result<(), Fail> {
    passes(
        &rt,
        rt.alloc(),
        CONFIGURATION,
        BOTH_WAYS,
        &[],
        &Counted {
            octets: "in=20 out=20",
            lines: &[
                "profile default in=20 out=20",
                "static 10.0.0.2 in=20 out=20",
            ],
            drops: &[],
        },
        BOTH_PASS,
    )
}

/// A packet of the first circuit on both ports, and one to each circuit; and what is sent for them.
const TO_BOTH: &[(Role, u16, &[u8])] = &[
    (Role::Access(1), 9011, &PADDED),
    (Role::Access(2), 9021, &PADDED),
    (Role::Core, 9001, &TO_THE_OTHER),
    (Role::Core, 9001, &FROM_CORE),
];

const EACH_GETS: &[(Role, u16, &[u8])] = &[
    (Role::Core, 9001, &UP),
    (Role::Access(2), 9021, &DOWN_THE_OTHER),
    (Role::Access(1), 9011, &DOWN),
    (Role::Control, 5, b"stopping\n"),
];

#[test]
fn each_circuit_gets_its_own_packets_on_its_own_port(rt: HostRuntime) -> Result<(), Fail> {
    passes(
        &rt,
        rt.alloc(),
        TWO_PORTS,
        TO_BOTH,
        &[],
        &Counted {
            octets: "in=20 out=40",
            lines: &[
                "profile default in=20 out=40",
                "static 10.0.0.2 in=20 out=20",
                "static 10.0.0.3 in=0 out=20",
            ],
            drops: &[("Malformed", 1)],
        },
        EACH_GETS,
    )
}

/// A packet of the first circuit in `FALLING_NUMBERS`, and the frames that go on the first and on the second for those of the core.
const UP_1026: [u8; 60] = [
    0x02, 0, 0, 0, 0, 0xfe, 0x02, 0, 0, 0, 0, 0x01, 0x88, 0x64, 0x11, 0x00, 0x04, 0x02, 0x00, 0x16,
    0x00, 0x21, 0x45, 0, 0, 0x14, 0, 2, 0, 0, 2, 0x11, 0xec, 0xd4, 10, 0, 0, 2, 0xc0, 0, 2, 1, 0,
    0, 0, 0, 0, 0, 0, 0, 0, 0, 0, 0, 0, 0, 0, 0, 0, 0,
];

const DOWN_1026: [u8; 42] = [
    0x02, 0, 0, 0, 0, 0x01, 0x02, 0, 0, 0, 0, 0xfe, 0x88, 0x64, 0x11, 0x00, 0x04, 0x02, 0x00, 0x16,
    0x00, 0x21, 0x45, 0, 0, 0x14, 0, 2, 0, 0, 1, 0x11, 0xed, 0xd4, 0xc0, 0, 2, 1, 10, 0, 0, 2,
];

const DOWN_1025: [u8; 42] = [
    0x02, 0, 0, 0, 0, 0x02, 0x02, 0, 0, 0, 0, 0xfd, 0x88, 0x64, 0x11, 0x00, 0x04, 0x01, 0x00, 0x16,
    0x00, 0x21, 0x45, 0, 0, 0x14, 0, 2, 0, 0, 1, 0x11, 0xed, 0xd3, 0xc0, 0, 2, 1, 10, 0, 0, 3,
];

/// A packet of the first circuit, and one to each; and what is sent for them.
const FALLING: &[(Role, u16, &[u8])] = &[
    (Role::Access(1), 9011, &UP_1026),
    (Role::Core, 9001, &FROM_CORE),
    (Role::Core, 9001, &TO_THE_OTHER),
];

const FALLING_PASS: &[(Role, u16, &[u8])] = &[
    (Role::Core, 9001, &UP),
    (Role::Access(1), 9011, &DOWN_1026),
    (Role::Access(2), 9021, &DOWN_1025),
    (Role::Control, 5, b"stopping\n"),
];

#[test]
fn circuits_stand_in_any_order(rt: HostRuntime) -> Result<(), Fail> {
    passes(
        &rt,
        rt.alloc(),
        FALLING_NUMBERS,
        FALLING,
        &[],
        &Counted {
            octets: "in=20 out=40",
            lines: &[
                "profile default in=20 out=40",
                "static 10.0.0.2 in=20 out=20",
                "static 10.0.0.3 in=0 out=20",
            ],
            drops: &[],
        },
        FALLING_PASS,
    )
}

/// A PADT of the circuit's session.
const PADT: [u8; 20] = [
    0x02, 0, 0, 0, 0, 0xfe, 0x02, 0, 0, 0, 0, 0x01, 0x88, 0x63, 0x11, 0xa7, 0x04, 0x01, 0, 0,
];

/// A PADI with an empty Service-Name.
const PADI: [u8; 24] = [
    0xff, 0xff, 0xff, 0xff, 0xff, 0xff, 0x02, 0, 0, 0, 0, 0x01, 0x88, 0x63, 0x11, 0x09, 0, 0, 0, 4,
    1, 1, 0, 0,
];

/// A PADT of a session that there is not, a frame of the circuit for another protocol, IPv6, and a packet with TTL 1.
const OTHER_PADT: [u8; 20] = [
    0x02, 0, 0, 0, 0, 0xfe, 0x02, 0, 0, 0, 0, 0x01, 0x88, 0x63, 0x11, 0xa7, 0x04, 0x02, 0, 0,
];

const IPV6: [u8; 60] = [
    0x02, 0, 0, 0, 0, 0xfe, 0x02, 0, 0, 0, 0, 0x01, 0x88, 0x64, 0x11, 0x00, 0x04, 0x01, 0x00, 0x16,
    0x00, 0x57, 0x45, 0, 0, 0x14, 0, 2, 0, 0, 2, 0x11, 0xec, 0xd4, 10, 0, 0, 2, 0xc0, 0, 2, 1, 0,
    0, 0, 0, 0, 0, 0, 0, 0, 0, 0, 0, 0, 0, 0, 0, 0, 0,
];

const EXPIRED: [u8; 60] = [
    0x02, 0, 0, 0, 0, 0xfe, 0x02, 0, 0, 0, 0, 0x01, 0x88, 0x64, 0x11, 0x00, 0x04, 0x01, 0x00, 0x16,
    0x00, 0x21, 0x45, 0, 0, 0x14, 0, 2, 0, 0, 1, 0x11, 0xed, 0xd4, 10, 0, 0, 2, 0xc0, 0, 2, 1, 0,
    0, 0, 0, 0, 0, 0, 0, 0, 0, 0, 0, 0, 0, 0, 0, 0, 0,
];

/// What does not pass: of the circuit's port, from another port to it, and of the core.
const NONE_PASSES: &[(Role, u16, &[u8])] = &[
    (Role::Access(1), 9011, &PADI),
    (Role::Access(1), 9011, &PADT),
    (Role::Access(1), 9011, &IPV6),
    (Role::Access(1), 9011, &OTHER_PADT),
    (Role::Access(1), 9011, &EXPIRED),
    (Role::Access(1), 9012, &PADDED),
    (Role::Core, 9001, &TO_THE_OTHER),
    (Role::Core, 9001, &UP),
    (Role::Core, 9002, &FROM_CORE),
];

/// The first datagram that a run sent has the code of a PADO (RFC 2516 section 5.2).
fn offers_first(rt: &impl Abort, ended: &Ended) {
    let first = ended.plant.sent().first().expect(rt, "an offer");
    assert_same(rt, &first.octets.as_slice().get(15), &Some(&7));
}

#[test]
fn what_does_not_pass_is_counted_by_its_cause(rt: HostRuntime) -> Result<(), Fail> {
    let alloc = rt.alloc();
    let script = script_of(alloc, NONE_PASSES)?;
    let ended = reports(
        &rt,
        alloc,
        CONFIGURATION,
        script,
        &[],
        &Counted {
            octets: "in=0 out=0",
            lines: &["profile default in=0 out=0", "static 10.0.0.2 in=0 out=0"],
            drops: &[("Malformed", 2), ("NoSession", 3), ("Expired", 1)],
        },
    )?;
    assert_sent(&rt, &ended, 14);
    offers_first(&rt, &ended);
    Ok(())
}
