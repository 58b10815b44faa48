use super::refusals::profile;
use crate::asserts::{assert_holds, assert_same};
use bng_base::{Circuit, Ip4, Mac, Peer, Profile, SessionNo, TermId, TunnelNo};
use bng_coa::{Identity, Lead, Wanted, lead_of, names, wanted_by};
use bng_radius_wire::read;
use std::alloc::Global;
use std::process::Abort;
use std::test::Fail;

// The first term of session 1025 of a run that opened at 1,700,000,000, on a PPPoE circuit.
fn term(circuit: Circuit) -> Identity<'static> {
    Identity {
        wall: 1_700_000_000,
        term: TermId {
            session: SessionNo(1025),
            serial: 1,
        },
        circuit,
        address: Ip4(0x0a00_0002),
        user: b"fixed1",
    }
}

const PPPOE: Circuit = Circuit::Pppoe {
    port: 1,
    mac: Mac([2, 0, 0, 0, 0, 1]),
    session: SessionNo(1025),
};

const CALL: Circuit = Circuit::L2tp {
    peer: Peer {
        ip: Ip4(0x7f00_0001),
        port: 1705,
    },
    tunnel: TunnelNo(1025),
    session: SessionNo(1025),
};

// Disconnect-Requests, each with where it leads, and whether it names the term.
const REQUESTS: &[(&str, Lead, bool)] = &[
    // by Acct-Session-Id
    (
        "2801002e000000000000000000000000000000002c1a363535336631303030343031303030303030303030303031",
        Lead::Session(1025),
        true,
    ),
    // in capitals it leads to the session, and is not the term's
    (
        "2801002e000000000000000000000000000000002c1a363535334631303030343031303030303030303030303031",
        Lead::Session(1025),
        false,
    ),
    // eight digits
    (
        "2801001e000000000000000000000000000000002c0a3030303030303031",
        Lead::Session(0),
        false,
    ),
    // the next term of the session
    (
        "2801002e000000000000000000000000000000002c1a363535336631303030343031303030303030303030303032",
        Lead::Session(1025),
        false,
    ),
    // by Framed-IP-Address
    (
        "2801001a0000000000000000000000000000000008060a000002",
        Lead::Address(Ip4(0x0a00_0002)),
        true,
    ),
    (
        "2801001a0000000000000000000000000000000008060a000003",
        Lead::Address(Ip4(0x0a00_0003)),
        false,
    ),
    // by both, the address first
    (
        "280100340000000000000000000000000000000008060a0000022c1a363535336631303030343031303030303030303030303031",
        Lead::Session(1025),
        true,
    ),
    // an address of two octets, and neither
    (
        "280100180000000000000000000000000000000008040a00",
        Lead::Nowhere,
        false,
    ),
    (
        "2801001c000000000000000000000000000000000108666978656431",
        Lead::Nowhere,
        true,
    ),
    // User-Name
    (
        "28010036000000000000000000000000000000002c1a3635353366313030303430313030303030303030303030310108666978656431",
        Lead::Session(1025),
        true,
    ),
    (
        "28010036000000000000000000000000000000002c1a3635353366313030303430313030303030303030303030310108666978656432",
        Lead::Session(1025),
        false,
    ),
    // NAS-Port
    (
        "28010034000000000000000000000000000000002c1a363535336631303030343031303030303030303030303031050600000401",
        Lead::Session(1025),
        true,
    ),
    (
        "28010034000000000000000000000000000000002c1a363535336631303030343031303030303030303030303031050600000402",
        Lead::Session(1025),
        false,
    ),
    // NAS-Port-Id
    (
        "28010044000000000000000000000000000000002c1a363535336631303030343031303030303030303030303031571670312f3032303030303030303030312f31303235",
        Lead::Session(1025),
        true,
    ),
    (
        "28010044000000000000000000000000000000002c1a363535336631303030343031303030303030303030303031571670322f3032303030303030303030312f31303235",
        Lead::Session(1025),
        false,
    ),
    // two Acct-Session-Ids: the first leads, and the term has both only where they are its own
    (
        "28010048000000000000000000000000000000002c1a3635353366313030303430313030303030303030303030312c1a363535336631303030343031303030303030303030303032",
        Lead::Session(1025),
        false,
    ),
];

// Asserts where a request leads, in hexadecimal digits, and whether it names the term.
fn assert_leads(
    rt: &impl Abort,
    alloc: Global,
    packet: &str,
    leads: Lead,
    named: bool,
) -> Result<(), Fail> {
    let octets = hex::decode(alloc, packet)?;
    match read(octets.as_slice()) {
        Ok(packet) => {
            assert_same(rt, &lead_of(&packet), &leads);
            assert_same(rt, &names(&packet, &term(PPPOE)), &named);
        }
        Err(_) => assert!(rt; false, "it is no packet"),
    }
    Ok(())
}

#[test]
fn finds_the_term_that_a_request_names(rt: HostRuntime) -> Result<(), Fail> {
    for (packet, leads, named) in REQUESTS {
        assert_leads(&rt, rt.alloc(), packet, *leads, *named)?;
    }
    Ok(())
}

// Disconnect-Requests with a Calling-Station-Id, each with whether it names the term on the PPPoE circuit.
const STATIONS: &[(&str, bool)] = &[
    (
        "28010041000000000000000000000000000000002c1a3635353366313030303430313030303030303030303030311f1330323a30303a30303a30303a30303a3031",
        true,
    ),
    (
        "28010041000000000000000000000000000000002c1a3635353366313030303430313030303030303030303030311f1330322d30302d30302d30302d30302d3031",
        false,
    ),
];

// Asserts whether a request names the term on the PPPoE circuit; it names no call.
fn assert_station(rt: &impl Abort, alloc: Global, packet: &str, named: bool) -> Result<(), Fail> {
    let octets = hex::decode(alloc, packet)?;
    match read(octets.as_slice()) {
        Ok(packet) => {
            assert_same(rt, &names(&packet, &term(PPPOE)), &named);
            assert_holds(rt, !names(&packet, &term(CALL)));
        }
        Err(_) => assert!(rt; false, "it is no packet"),
    }
    Ok(())
}

// A Calling-Station-Id is the MAC of a PPPoE circuit with colons; a call has none.
#[test]
fn names_a_call_by_no_station(rt: HostRuntime) -> Result<(), Fail> {
    for (packet, named) in STATIONS {
        assert_station(&rt, rt.alloc(), packet, *named)?;
    }
    Ok(())
}

// Filter-Id gold before another, Session-Timeout 3600, Idle-Timeout 0, and Acct-Interim-Interval 30, which is taken as 60.
const CHANGES: &[(&str, Wanted)] = &[
    (
        "2b01004e000000000000000000000000000000002c1a3635353366313030303430313030303030303030303030310b06676f6c641b0600000e101c060000000055060000001e0b0862726f6e7a65",
        Wanted {
            profile: Some(1),
            session_timeout: Some(3600),
            idle_timeout: Some(0),
            interim: Some(60),
        },
    ),
    // a profile that is not there, and nothing else
    (
        "2b010036000000000000000000000000000000002c1a3635353366313030303430313030303030303030303030310b0873696c766572",
        Wanted {
            profile: None,
            session_timeout: None,
            idle_timeout: None,
            interim: None,
        },
    ),
];

// Asserts what a request changes, in hexadecimal digits.
fn assert_changes(
    rt: &impl Abort,
    alloc: Global,
    profiles: &[Profile; 2],
    packet: &str,
    changes: &Wanted,
) -> Result<(), Fail> {
    let octets = hex::decode(alloc, packet)?;
    match read(octets.as_slice()) {
        Ok(packet) => assert_same(rt, &wanted_by(&packet, profiles), changes),
        Err(_) => assert!(rt; false, "it is no packet"),
    }
    Ok(())
}

#[test]
fn tells_what_a_request_changes(rt: HostRuntime) -> Result<(), Fail> {
    let profiles = [profile(b"bronze"), profile(b"gold")];
    for (packet, changes) in CHANGES {
        assert_changes(&rt, rt.alloc(), &profiles, packet, changes)?;
    }
    Ok(())
}
