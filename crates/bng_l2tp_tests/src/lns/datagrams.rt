use crate::asserts::{assert_holds, assert_same};
use bng_base::Frame;
use bng_lns::{TunnelDatagram, carried, datagram_of, put_in_call};
use std::alloc::Global;
use std::process::Abort;
use std::test::Fail;

// a packet's first four octets, framed for session 9 of tunnel 5
fn framed() -> Frame {
    let mut frame = Frame::new();
    frame.set(&[0x45, 0, 0, 20]);
    put_in_call(5, 9, &mut frame);
    frame
}

// the Tunnel ID and the Session ID of a data message
fn call_in(octets: &[u8]) -> Option<(u16, u16)> {
    match datagram_of(false, octets) {
        Some(TunnelDatagram::Data(message)) => Some((message.tunnel, message.session)),
        _ => None,
    }
}

// the packet that a data message carries
fn packet_in(octets: &[u8]) -> Option<&[u8]> {
    match datagram_of(false, octets) {
        Some(TunnelDatagram::Data(message)) => carried(&message),
        _ => None,
    }
}

fn is_control(octets: &[u8]) -> bool {
    matches!(datagram_of(false, octets), Some(TunnelDatagram::Control(_)))
}

// asserts these octets, in hexadecimal digits
fn assert_digits(rt: &impl Abort, alloc: Global, octets: &[u8], wanted: &str) -> Result<(), Fail> {
    let digits = hex::encode(alloc, octets)?;
    assert_same(rt, &digits.as_str(), &wanted);
    Ok(())
}

// asserts that a data message for session 9 of tunnel 5 carries the packet
fn assert_carries(rt: &impl Abort, alloc: Global, octets: &[u8]) -> Result<(), Fail> {
    assert_holds(rt, call_in(octets) == Some((5, 9)));
    let packet = packet_in(octets).ok_or("no packet")?;
    assert_digits(rt, alloc, packet, "45000014")
}

// asserts the frame, which is read as what was framed, and as nothing where it was cut
fn assert_framed(rt: &impl Abort, alloc: Global) -> Result<(), Fail> {
    let frame = framed();
    let octets = frame.payload();
    assert_digits(rt, alloc, octets, "000200050009ff03002145000014")?;
    assert_carries(rt, alloc, octets)?;
    assert_holds(rt, datagram_of(true, octets).is_none());
    Ok(())
}

// asserts that LCP is no packet
fn assert_none_carried(rt: &impl Abort, alloc: Global) -> Result<(), Fail> {
    let lcp = hex::decode(alloc, "000200050009c02109070008")?;
    assert_holds(rt, call_in(lcp.as_slice()).is_some());
    assert_holds(rt, packet_in(lcp.as_slice()).is_none());
    Ok(())
}

#[test]
fn a_packet_is_framed_for_its_call(rt: HostRuntime) -> Result<(), Fail> {
    assert_framed(&rt, rt.alloc())?;
    // LCP is no packet, and four octets are no message
    assert_none_carried(&rt, rt.alloc())?;
    assert_holds(&rt, datagram_of(false, &[0, 2, 0, 5]).is_none());
    let zlb = hex::decode(rt.alloc(), "c802000c0005000000010003")?;
    assert_holds(&rt, is_control(zlb.as_slice()));
    Ok(())
}
