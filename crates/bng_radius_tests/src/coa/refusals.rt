use arrayvec::ArrayVec;
use bng_base::{Ip4, Profile};
use bng_coa::first_refusal;
use bng_radius_wire::read;
use std::alloc::Global;
use std::process::Abort;
use std::test::Fail;

pub(crate) fn profile(name: &[u8]) -> Profile {
    let mut list = ArrayVec::new();
    for octet in name {
        if !list.is_full() {
            list.push(*octet);
        }
    }
    Profile {
        name: list,
        up: None,
        down: None,
    }
}

// Packets to the gateway 192.0.2.1, whose name is gw1 and whose profiles are bronze and gold, each with its first fault, if it has one.
const PACKETS: &[(&str, Option<u16>)] = &[
    // a change by Acct-Session-Id
    (
        "2b010028000000000000000000000000000000000406c000020120056777312c03310b06676f6c64",
        None,
    ),
    // a Disconnect-Request by Framed-IP-Address
    ("2801001a0000000000000000000000000000000008060a000001", None),
    // a Reply-Message of no octets is passed over
    (
        "2b01001f000000000000000000000000000000002c03310b06676f6c641202",
        None,
    ),
    // another NAS-IP-Address, before an unsupported attribute
    (
        "2b010026000000000000000000000000000000001603720406c00002092c03310b06676f6c64",
        Some(403),
    ),
    // another NAS-Identifier
    (
        "2b0100220000000000000000000000000000000020056777322c03310b06676f6c64",
        Some(403),
    ),
    // a Framed-Route, before a wrong length
    (
        "2b010025000000000000000000000000000000002c03310b06676f6c641b05616263160372",
        Some(401),
    ),
    // a Filter-Id in a Disconnect-Request
    (
        "2801001d000000000000000000000000000000002c03310b06676f6c64",
        Some(401),
    ),
    // a Session-Timeout of three octets, before an unknown Filter-Id
    (
        "2b010024000000000000000000000000000000002c03310b0873696c7665721b05616263",
        Some(404),
    ),
    // an unknown Filter-Id, before a missing session
    (
        "2b01001c000000000000000000000000000000000b0873696c766572",
        Some(407),
    ),
    // no session
    (
        "2b01001a000000000000000000000000000000000b06676f6c64",
        Some(402),
    ),
    // no change
    ("2b010017000000000000000000000000000000002c0331", Some(402)),
];

// Asserts the first fault of a packet in hexadecimal digits, or that it has none.
fn assert_first_refusal(
    rt: &impl Abort,
    alloc: Global,
    profiles: &[Profile],
    packet: &str,
    cause: Option<u16>,
) -> Result<(), Fail> {
    let octets = hex::decode(alloc, packet)?;
    match read(octets.as_slice()) {
        Ok(packet) => {
            let refusal = first_refusal(&packet, Ip4(0xc000_0201), b"gw1", profiles);
            assert!(rt; refusal == cause, "{refusal:?}");
        }
        Err(_) => assert!(rt; false, "it is no packet"),
    }
    Ok(())
}

#[test]
fn names_the_first_fault_of_a_packet(rt: HostRuntime) -> Result<(), Fail> {
    let profiles = [profile(b"bronze"), profile(b"gold")];
    for (packet, cause) in PACKETS {
        assert_first_refusal(&rt, rt.alloc(), &profiles, packet, *cause)?;
    }
    Ok(())
}
