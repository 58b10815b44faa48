//! The link of a session.
use super::assert_status;
use super::authentication::stop;
use super::host::{ACK, ACKED, ASKED, PADS, REQUEST, SESSIONS, session};
use super::reports::{Counted, assert_report};
use super::running::{SERVE, run_over};
use super::sent::{OVER, STOPPING, Sent, sends_list};
use bng_base::Role;
use std::test::Fail;

/// A Configure-Request with an MRU, a magic number and the two field compressions, and its Configure-Reject.
const COMPRESSED: [u8; 20] = [
    0xc0, 0x21, 0x01, 0x01, 0x00, 0x12, 0x01, 0x04, 0x05, 0xd4, 0x05, 0x06, 0x11, 0x22, 0x33, 0x44,
    0x07, 0x02, 0x08, 0x02,
];

const REJECTED: [u8; 10] = [0xc0, 0x21, 0x04, 0x01, 0x00, 0x08, 0x07, 0x02, 0x08, 0x02];

/// A request of IPv6CP, and its Protocol-Reject.
const IPV6CP: [u8; 16] = [
    0x80, 0x57, 0x01, 0x01, 0x00, 0x0e, 0x01, 0x0a, 0x00, 0x00, 0x00, 0x00, 0x00, 0x00, 0x00, 0x01,
];

const PROTOCOL_REJECT: [u8; 22] = [
    0xc0, 0x21, 0x08, 0x02, 0x00, 0x14, 0x80, 0x57, 0x01, 0x01, 0x00, 0x0e, 0x01, 0x0a, 0x00, 0x00,
    0x00, 0x00, 0x00, 0x00, 0x00, 0x01,
];

/// An Echo-Request, and its reply with the gateway's magic number.
pub(super) const ECHO: [u8; 10] = [0xc0, 0x21, 0x09, 0x07, 0x00, 0x08, 0x11, 0x22, 0x33, 0x44];

pub(super) const ECHO_REPLY: [u8; 10] = [
    0xc0, 0x21, 0x0a, 0x07, 0x00, 0x08, 0xa1, 0xb2, 0xc3, 0xd4,
];

/// The Challenge, whose Value is drawn for the fourth item.
pub(super) const CHALLENGE: [u8; 27] = [
    0xc2, 0x23, 0x01, 0x01, 0x00, 0x19, 0x10, 0x23, 0x20, 0x58, 0x76, 0x9d, 0x1f, 0xb8, 0xba, 0xb3,
    0x36, 0x50, 0xe7, 0xe5, 0x55, 0xf2, 0xf5, 0x62, 0x6e, 0x67, 0x31,
];

/// An IPv4 packet.
const PACKET: [u8; 22] = [
    0x00, 0x21, 0x45, 0x00, 0x00, 0x14, 0x00, 0x02, 0x00, 0x00, 0x02, 0x11, 0xec, 0xd4, 0x0a, 0x00,
    0x00, 0x02, 0xc0, 0x00, 0x02, 0x01,
];

/// By these the host brings its link to Opened, and asks for an echo.
const HEARD: &[&[u8]] = &[&COMPRESSED, &REQUEST, &ACK, &IPV6CP, &ECHO, &PACKET];

/// What is sent to it.
const ANSWERED: &[Sent] = &[
    Sent::Octets(Role::Access(1), 9011, &PADS),
    Sent::ToHost(&ASKED),
    Sent::ToHost(&REJECTED),
    Sent::ToHost(&ACKED),
    Sent::ToHost(&CHALLENGE),
    Sent::ToHost(&PROTOCOL_REJECT),
    Sent::ToHost(&ECHO_REPLY),
    STOPPING,
    OVER,
];

#[test]
fn a_link_comes_to_opened_and_answers_echoes(rt: HostRuntime) -> Result<(), Fail> {
    let alloc = rt.alloc();
    let mut script = session(alloc, HEARD)?;
    script.push(stop(0))?;
    let ended = run_over(&rt, alloc, &SERVE, SESSIONS, script, &[], &[])?;
    assert_status(&rt, &ended, 0);
    assert_report(
        &rt,
        alloc,
        &ended,
        &Counted {
            octets: "in=0 out=0",
            lines: &["profile default in=0 out=0"],
            drops: &[("NotOpen", 1)],
        },
    )?;
    sends_list(&rt, alloc, &ended, ANSWERED)
}
