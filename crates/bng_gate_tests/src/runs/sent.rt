//! What a run sends, as the tables of tests name it.
use super::host::{PADT, TO_HOST, framed};
use super::{Ended, assert_datagram, others};
use crate::asserts::assert_same;
use bng_base::{Datagram, Role};
use std::alloc::Global;
use std::process::Abort;
use std::test::Fail;

/// What stands before the low octet of LENGTH in a frame to another host of the same shard.
const TO_OTHER: [u8; 19] = [
    0x02, 0x00, 0x00, 0x00, 0x00, 0x05, 0x02, 0x00, 0x00, 0x00, 0x00, 0xfe, 0x88, 0x64, 0x11, 0x00,
    0x0c, 0x02, 0x00,
];

/// A datagram that a run sends.
#[derive(Clone, Copy)]
pub(super) enum Sent<'a> {
    /// a frame of the host's session with this payload, and one of the other host's
    ToHost(&'a [u8]),
    ToOther(&'a [u8]),
    /// of this role, to this port of 127.0.0.1: with octets that are given in digits, and with these
    Digits(Role, u16, &'a str),
    Octets(Role, u16, &'a [u8]),
}

/// The answer to `stop`, and the PADT of the host's session.
pub(super) const STOPPING: Sent = Sent::Octets(Role::Control, 5, b"stopping\n");

pub(super) const OVER: Sent = Sent::Octets(Role::Access(1), 9011, &PADT);

/// The datagrams that a run sent, but for those of Acct, are these.
pub(super) fn sends_list(
    rt: &impl Abort,
    alloc: Global,
    ended: &Ended,
    wanted: &[Sent<'_>],
) -> Result<(), Fail> {
    assert_same(rt, &others(ended), &wanted.len());
    sends_list_from(rt, alloc, ended, 0, wanted)
}

/// Of these datagrams those that a run sent from this place on, not counting those of Acct, are the first ones.
pub(super) fn sends_list_from(
    rt: &impl Abort,
    alloc: Global,
    ended: &Ended,
    place: usize,
    wanted: &[Sent<'_>],
) -> Result<(), Fail> {
    let sent = ended.plant.sent().iter();
    let others = sent.filter(|datagram| datagram.role != Role::Acct);
    for (datagram, one) in others.skip(place).zip(wanted) {
        is_sent(rt, alloc, datagram, one)?;
    }
    Ok(())
}

/// A datagram is this one.
fn is_sent(
    rt: &impl Abort,
    alloc: Global,
    datagram: &Datagram,
    wanted: &Sent<'_>,
) -> Result<(), Fail> {
    match wanted {
        Sent::ToHost(payload) => has_frame(rt, alloc, datagram, &TO_HOST, payload),
        Sent::ToOther(payload) => has_frame(rt, alloc, datagram, &TO_OTHER, payload),
        Sent::Digits(role, port, octets) => has_digits(rt, alloc, datagram, *role, *port, octets),
        Sent::Octets(role, port, octets) => {
            assert_datagram(rt, datagram, *role, *port, octets);
            Ok(())
        }
    }
}

/// A datagram is a frame of a session, with this before its LENGTH and with this payload, to the peer of access port 1.
fn has_frame(
    rt: &impl Abort,
    alloc: Global,
    datagram: &Datagram,
    front: &[u8; 19],
    payload: &[u8],
) -> Result<(), Fail> {
    let frame = framed(alloc, front, payload)?;
    assert_datagram(rt, datagram, Role::Access(1), 9011, frame.as_slice());
    Ok(())
}

/// A datagram has this role, and goes to this port of 127.0.0.1 with these octets, which are given in digits.
fn has_digits(
    rt: &impl Abort,
    alloc: Global,
    datagram: &Datagram,
    role: Role,
    port: u16,
    octets: &str,
) -> Result<(), Fail> {
    let octets = hex::decode(alloc, octets)?;
    assert_datagram(rt, datagram, role, port, octets.as_slice());
    Ok(())
}
