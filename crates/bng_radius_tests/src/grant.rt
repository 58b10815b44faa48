use crate::asserts::assert_same;
use bng_base::Ip4;
use bng_grant::{Grant, grant_of};
use std::alloc::{AllocError, Global};
use std::process::Abort;
use std::test::Fail;

// A packet and what it gives, the Class attributes as hexadecimal digits.
#[derive(Drop)]
struct Case {
    packet: &'static str,
    profile: Option<&'static [u8]>,
    pool: Option<&'static [u8]>,
    address: Option<Ip4>,
    timeouts: (u32, u32),
    interim: Option<u32>,
    class: &'static str,
}

const CASES: &[Case] = &[
    // the Access-Accept of RFC 2865 section 7.2: the gateway is to choose the address
    Case {
        packet: "0201003815efbc7dab26cfa3dc34d9c03c8601a40606000000020706000000010806fffffffe0a06000000020d06000000010c06000005dc",
        profile: None,
        pool: None,
        address: None,
        timeouts: (0, 0),
        interim: None,
        class: "",
    },
    // 192.168.1.3, `gold`, the pool `p1`, an hour, five minutes, ten minutes, and two Class attributes
    Case {
        packet: "0200003e86fe220e7624ba2a1005f6bf9b55e0b20806c0a801030b06676f6c64580470311b0600000e1019056162631c060000012c550600000258190358",
        profile: Some(b"gold"),
        pool: Some(b"p1"),
        address: Some(Ip4(0xc0a8_0103)),
        timeouts: (3600, 300),
        interim: Some(600),
        class: "1905616263190358",
    },
    // of each attribute one of a wrong length, and then two of a right one; the first interval is of 59 seconds
    Case {
        packet: "0200006586fe220e7624ba2a1005f6bf9b55e0b20805c0a80108060a00000108060a0000020b020b03610b036258025803635803641b0700000000011b06000000021b06000000031c021c06000000041c06000000055503ff55060000003b55060000ffff",
        profile: Some(b"a"),
        pool: Some(b"c"),
        address: Some(Ip4(0x0a00_0001)),
        timeouts: (2, 4),
        interim: Some(60),
        class: "",
    },
    // the peer is to choose the address, before another one; an interval of 60 seconds
    Case {
        packet: "0200002686fe220e7624ba2a1005f6bf9b55e0b20806ffffffff08060a00000155060000003c",
        profile: None,
        pool: None,
        address: None,
        timeouts: (0, 0),
        interim: Some(60),
        class: "",
    },
    // the first octet of a number is its highest; a Class without octets; behind the packet what would be a pool
    Case {
        packet: "0200001f86fe220e7624ba2a1005f6bf9b55e0b21b060102030419020b0361580371",
        profile: Some(b"a"),
        pool: None,
        address: None,
        timeouts: (16_909_060, 0),
        interim: None,
        class: "1902",
    },
];

// Asserts what a grant gives of a case, but for the Class attributes.
fn assert_gives(rt: &impl Abort, grant: &Grant, case: &Case) {
    assert_same(rt, &grant.profile, &case.profile);
    assert_same(rt, &grant.pool, &case.pool);
    assert_same(rt, &grant.address, &case.address);
    assert_same(rt, &grant.session_timeout, &case.timeouts.0);
    assert_same(rt, &grant.idle_timeout, &case.timeouts.1);
    assert_same(rt, &grant.interim, &case.interim);
}

// Asserts what the packet of a case gives.
fn assert_case(rt: &impl Abort, alloc: Global, case: &Case) -> Result<(), Fail> {
    let octets = hex::decode(alloc, case.packet)?;
    let class = hex::decode(alloc, case.class)?;
    match grant_of(octets.as_slice()) {
        Some(grant) => {
            assert_gives(rt, &grant, case);
            assert_same(rt, &grant.class.as_slice(), &class.as_slice());
        }
        None => assert!(rt; false, "{} gives nothing", case.packet),
    }
    Ok(())
}

#[test]
fn each_attribute_gives_what_its_standard_says(rt: HostRuntime) -> Result<(), Fail> {
    for case in CASES {
        assert_case(&rt, rt.alloc(), case)?;
    }
    Ok(())
}

// Pieces one after the other, each so many times.
fn joined(alloc: Global, pieces: &[(&str, usize)]) -> Result<Vec<u8>, AllocError> {
    let mut digits = Vec::new(alloc);
    for (piece, times) in pieces {
        for _ in 0..*times {
            digits.extend_from_slice(piece.as_bytes())?;
        }
    }
    Ok(digits)
}

const AUTHENTICATOR: &str = "86fe220e7624ba2a1005f6bf9b55e0b2";

// A Class of 32 octets, and one of 33.
const LONG: &str = "1920414141414141414141414141414141414141414141414141414141414141";

const LONGER: &str = "192141414141414141414141414141414141414141414141414141414141414141";

#[test]
fn classes_are_kept_while_they_fit(rt: HostRuntime) -> Result<(), Fail> {
    let cases = [
        // 32 attributes, and 33
        (
            "02000074",
            [("190341", 32), ("", 0), ("", 0)],
            ("190341", 32),
        ),
        (
            "02000077",
            [("190341", 32), ("190342", 1), ("", 0)],
            ("190341", 32),
        ),
        // 512 octets, and 513
        ("02000214", [(LONG, 16), ("", 0), ("", 0)], (LONG, 16)),
        ("02000215", [(LONG, 15), (LONGER, 1), ("", 0)], (LONG, 15)),
        // the first that does not fit ends the list, and another attribute between does not
        (
            "02000218",
            [(LONG, 15), (LONGER, 1), ("190342", 1)],
            (LONG, 15),
        ),
        (
            "0200001d",
            [("190341", 1), ("200367", 1), ("190341", 1)],
            ("190341", 2),
        ),
    ];
    for (front, [first, second, third], class) in cases {
        let packet = [(front, 1), (AUTHENTICATOR, 1), first, second, third];
        let packet = joined(rt.alloc(), &packet)?;
        let class = joined(rt.alloc(), &[class])?;
        let octets = hex::decode(rt.alloc(), packet.as_slice())?;
        let class = hex::decode(rt.alloc(), class.as_slice())?;
        match grant_of(octets.as_slice()) {
            Some(grant) => assert_same(&rt, &grant.class.as_slice(), &class.as_slice()),
            None => assert!(rt; false, "{} octets give nothing", octets.len()),
        }
    }
    Ok(())
}

// Packets of three pieces, each with whether it gives anything.
const PACKETS: &[(&[(&str, usize)], bool)] = &[
    // 64 attributes, and 65
    (&[("02000094", 1), (AUTHENTICATOR, 1), ("0102", 64)], true),
    (&[("02000096", 1), (AUTHENTICATOR, 1), ("0102", 65)], false),
    // an octet is missing, and all are
    (&[("02000017", 1), (AUTHENTICATOR, 1), ("1903", 1)], false),
    (&[("", 0), ("", 0), ("", 0)], false),
];

// Whether the octets of these pieces give anything.
fn gives(alloc: Global, pieces: &[(&str, usize)]) -> Result<bool, Fail> {
    let packet = joined(alloc, pieces)?;
    let octets = hex::decode(alloc, packet.as_slice())?;
    Ok(grant_of(octets.as_slice()).is_some())
}

#[test]
fn what_is_no_packet_gives_nothing(rt: HostRuntime) -> Result<(), Fail> {
    for (packet, wanted) in PACKETS {
        assert_same(&rt, &gives(rt.alloc(), packet)?, wanted);
    }
    Ok(())
}
