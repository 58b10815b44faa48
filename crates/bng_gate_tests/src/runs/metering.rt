//! Packets that are metered by the profile of their term (RFC 2697). Their colours were worked out by hand: of a bucket token n has come t
//! milliseconds after the start of the meter exactly where CIR * t is at least 1000 * n, and the term of a circuit starts when the gateway
//! opens, one step of the clock before the first turn. The records and the replies of the server were made from the tables of RFC 2865 and
//! RFC 2866 by a script over Python's hashlib.
use super::authentication::{OWN_ADDRESS, PAP, PASSED, TERMINATE, begun, reply, sends_after, stop};
use super::forwarding::{DOWN, FROM_CORE, PADDED, UP};
use super::host::{from_host, then_hears};
use super::logins::{
    ANY, ASKS, FROM_HOST, GETS, TAKES, TO_BE, UP as UP_OF_HOST, records, response, run_in,
};
use super::reports::{Counted, assert_report};
use super::running::{SERVE, run_over};
use super::sent::{OVER, STOPPING, Sent};
use super::{CONFIGURATION, Ended, assert_status, loopback, script_of, sends};
use bng_base::Role;
use bng_plant::Arrival;
use std::alloc::{AllocError, Global};
use std::sync::Wait;
use std::test::Fail;
use std::thread::Threads;

/// What follows the circuit's user: of two profiles it has the second, whose rates come behind this.
const OF_GOLD: &str =
    "fixed1\"\nprofile = \"gold\"\n[[profile]]\nname = \"bronze\"\n[[profile]]\nname = \"gold\"\n";

/// 60 octets a second from the subscriber, and 20 at once: the octets of one packet come in a third of a second.
const THIRDS: &str = "up_cir = 60\nup_cbs = 20\nup_ebs = 0\n";

/// The same with 20 octets more at once from the subscriber, and without them towards it.
const WITH_EXCESS: &str =
    "up_cir = 60\nup_cbs = 20\nup_ebs = 20\ndown_cir = 60\ndown_cbs = 20\ndown_ebs = 0\n";

/// One octet a second from the subscriber, with 20 and 20 more at once, and the highest rate towards it.
const SLOW_AND_FAST: &str =
    "up_cir = 1\nup_cbs = 20\nup_ebs = 20\ndown_cir = 1000000000000\ndown_cbs = 4294967295\ndown_ebs = 4294967295\n";

/// The Start of the circuit's term, formed at the second 1,700,000,000, its Stop, formed a second later with four packets of 20 octets in,
/// and the Accounting-Responses to them.
const START: &str =
    "0400009581924e767205c66103a26f2ebbecef7d01086669786564310406c0a8011005060000040106060000000207060000000108060a0000021f1330323a30303a30303a30303a30303a30312006626e67312806000000012c1a36353533663130303034303130303030303030303030303137066553f1003d0600000005571670312f3032303030303030303030312f31303235";

const STARTED: &str = "05000014b1330a5b080dbca80dfe343e56135636";

const STOP: &str =
    "040100c5530560122791882e19bbffc901cd75a801086669786564310406c0a8011005060000040106060000000207060000000108060a0000021f1330323a30303a30303a30303a30303a30312006626e67312806000000022a06000000502b06000000002c1a3635353366313030303430313030303030303030303030312e06000000012f060000000430060000000031060000000a34060000000035060000000037066553f1013d0600000005571670312f3032303030303030303030312f31303235";

const STOPPED: &str = "05010014e87490156cd0eae6c539ee1fe2a0d8fc";

/// Access-Accepts of a host: with the Framed-IP-Address 10.0.0.50 and the Filter-Id gold (RFC 2865 section 5.11), and with the Filter-Id
/// gol, which names no profile.
const ACCEPT_GOLD: &str = "02000020c409a9bf86399a167739b79a60c857be08060a0000320b06676f6c64";

const ACCEPT_GOL: &str = "020000194d9439c5ab34c46ec21c40f778534c920b05676f6c";

/// The Authenticate-Nak of the latter.
const NO_PROFILE: &[u8] = b"\xc0\x23\x03\x07\x00\x0f\x0ano profile";

/// Two profiles for hosts that authenticate themselves by PAP, before the pool. The second lets the 40 octets of one packet come at once,
/// and again in a second.
const HOSTS: &str =
    "[[profile]]\nname = \"bronze\"\n[[profile]]\nname = \"gold\"\nup_cir = 40\nup_cbs = 40\nup_ebs = 0\n[[pool]]";

/// The circuit has a profile with these rates.
fn metered(alloc: Global, rates: &str) -> Result<String, AllocError> {
    let mut text = CONFIGURATION.replace(alloc, "fixed1\"\n", OF_GOLD)?;
    text.push_str(rates)?;
    Ok(text)
}

/// A packet of the circuit of 20 octets.
fn packet() -> Arrival {
    Arrival::new(Role::Access(1), loopback(9011), &PADDED)
}

/// One of 20 octets towards it.
fn answer() -> Arrival {
    Arrival::new(Role::Core, loopback(9001), &FROM_CORE)
}

/// An unknown word at Control, which is read before all else of a turn: so what comes next comes in the next turn.
fn next_turn() -> Arrival {
    Arrival::new(Role::Control, loopback(5), b"next")
}

/// A packet comes after so many waits, and one in the next turn.
fn two_packets(script: &mut Vec<Arrival>, waits: u32) -> Result<(), AllocError> {
    script.push(packet().after(waits))?;
    script.push(next_turn())?;
    script.push(packet())?;
    Ok(())
}

/// In turns that are 1 ms apart a packet comes at 1, 333, 334, 666, 667 and 1,000 ms. The reply to the Start comes in the second turn, and
/// that to the Stop in the second one of the grace. A turn in which nothing comes waits once.
fn by_the_millisecond(alloc: Global) -> Result<Vec<Arrival>, Fail> {
    let mut script = Vec::new(alloc);
    script.push(packet())?;
    script.push(response(alloc, STARTED)?)?;
    two_packets(&mut script, 330)?;
    two_packets(&mut script, 331)?;
    script.push(packet().after(332))?;
    script.push(stop(0))?;
    script.push(response(alloc, STOPPED)?.after(1))?;
    Ok(script)
}

/// A packet to the core, one to the circuit, and the answer to the unknown word.
const TO_CORE: (Role, u16, &[u8]) = (Role::Core, 9001, &UP);

const TO_CIRCUIT: (Role, u16, &[u8]) = (Role::Access(1), 9011, &DOWN);

const UNKNOWN: (Role, u16, &[u8]) = (Role::Control, 5, b"unknown\n");

/// What is sent then.
const BY_THE_MILLISECOND: &[(Role, u16, &[u8])] = &[
    TO_CORE,
    UNKNOWN,
    TO_CORE,
    UNKNOWN,
    TO_CORE,
    TO_CORE,
    (Role::Control, 5, b"stopping\n"),
];

#[test]
fn a_packet_passes_from_the_millisecond_of_its_last_token_on(rt: HostRuntime) -> Result<(), Fail> {
    let alloc = rt.alloc();
    let configuration = metered(alloc, THIRDS)?;
    let script = by_the_millisecond(alloc)?;
    let ended = run_in(&rt, alloc, configuration.as_str(), script, 1)?;
    assert_status(&rt, &ended, 0);
    // Token 20 has come by 334 ms, token 40 by 667 ms and token 60 by 1,000 ms, and none of them a millisecond sooner. So the packets at
    // 333 and 666 ms are red. They take no tokens: else those a millisecond later were red too.
    assert_report(
        &rt,
        alloc,
        &ended,
        &Counted {
            octets: "in=80 out=0",
            lines: &[
                "profile bronze in=0 out=0",
                "profile gold in=80 out=0",
                "static 10.0.0.2 in=80 out=0",
            ],
            drops: &[("Exceeded", 2)],
        },
    )?;
    sends(&rt, &ended, BY_THE_MILLISECOND);
    records(&rt, alloc, &ended, &[START, STOP])
}

/// So many packets come each way.
fn each_way(script: &mut Vec<Arrival>, count: usize) -> Result<(), AllocError> {
    for _ in 0..count {
        script.push(packet())?;
    }
    for _ in 0..count {
        script.push(answer())?;
    }
    Ok(())
}

/// At 334 ms three packets each way, from full buckets: from the subscriber one is green, one yellow and one red, and towards it one is
/// green and two red. At 668 ms two each way: 20 tokens have come since, all into the first bucket, so one is green and one red.
fn three_and_two(alloc: Global) -> Result<Vec<Arrival>, AllocError> {
    let mut script = Vec::new(alloc);
    each_way(&mut script, 3)?;
    script.push(next_turn())?;
    each_way(&mut script, 2)?;
    script.push(stop(0))?;
    Ok(script)
}

/// What is sent then.
const GREEN_AND_YELLOW: &[(Role, u16, &[u8])] = &[
    TO_CORE,
    TO_CORE,
    TO_CIRCUIT,
    UNKNOWN,
    TO_CORE,
    TO_CIRCUIT,
    (Role::Control, 5, b"stopping\n"),
];

#[test]
fn green_and_yellow_packets_pass_and_red_ones_do_not(rt: HostRuntime) -> Result<(), Fail> {
    let alloc = rt.alloc();
    let configuration = metered(alloc, WITH_EXCESS)?;
    let script = three_and_two(alloc)?;
    let ended = run_in(&rt, alloc, configuration.as_str(), script, 334)?;
    assert_status(&rt, &ended, 6);
    assert_report(
        &rt,
        alloc,
        &ended,
        &Counted {
            octets: "in=60 out=40",
            lines: &[
                "profile bronze in=0 out=0",
                "profile gold in=60 out=40",
                "static 10.0.0.2 in=60 out=40",
            ],
            drops: &[("Exceeded", 5)],
        },
    )?;
    sends(&rt, &ended, GREEN_AND_YELLOW);
    Ok(())
}

/// Two packets of the circuit, and one to it.
const TWO_AND_ONE: &[(Role, u16, &[u8])] = &[
    (Role::Access(1), 9011, &PADDED),
    (Role::Access(1), 9011, &PADDED),
    (Role::Core, 9001, &FROM_CORE),
];

/// A run over them with the profile of thirds. The calls of the plant with these numbers fail.
fn run_thirds<R: Threads + Wait + Sync>(
    rt: &R,
    alloc: Global,
    fails: &[u64],
) -> Result<Ended, AllocError> {
    let configuration = metered(alloc, THIRDS)?;
    let script = script_of(alloc, TWO_AND_ONE)?;
    run_over(
        rt,
        alloc,
        &SERVE,
        configuration.as_str(),
        script,
        fails,
        &[],
    )
}

#[test]
fn a_packet_whose_send_fails_is_in_no_book(rt: HostRuntime) -> Result<(), Fail> {
    // Five binds, the receives of Control, of Acct, of Auth, three times of the access port and twice of the core, and then the first send.
    // Its packet was green and has taken its tokens, so the second one is red.
    let alloc = rt.alloc();
    let ended = run_thirds(&rt, alloc, &[14])?;
    assert_status(&rt, &ended, 6);
    assert_report(
        &rt,
        alloc,
        &ended,
        &Counted {
            octets: "in=0 out=20",
            lines: &[
                "profile bronze in=0 out=0",
                "profile gold in=0 out=20",
                "static 10.0.0.2 in=0 out=20",
            ],
            drops: &[("Exceeded", 1), ("LinkFailed", 1)],
        },
    )?;
    sends(
        &rt,
        &ended,
        &[TO_CIRCUIT, (Role::Control, 5, b"stopping\n")],
    );
    Ok(())
}

/// A day after the opening, and two days later three packets come each way: each time one packet is green, one yellow and one red, and
/// each answer is green.
fn days(alloc: Global) -> Result<Vec<Arrival>, AllocError> {
    let mut script = Vec::new(alloc);
    for waits in [0, 1] {
        script.push(packet().after(waits))?;
        for _ in 0..2 {
            script.push(packet())?;
        }
        for _ in 0..3 {
            script.push(answer())?;
        }
    }
    script.push(stop(0))?;
    Ok(script)
}

#[test]
fn days_of_silence_fill_the_buckets_and_no_more(rt: HostRuntime) -> Result<(), Fail> {
    let alloc = rt.alloc();
    let configuration = metered(alloc, SLOW_AND_FAST)?;
    let ended = run_in(&rt, alloc, configuration.as_str(), days(alloc)?, 86_400_000)?;
    assert_report(
        &rt,
        alloc,
        &ended,
        &Counted {
            octets: "in=80 out=120",
            lines: &[
                "profile bronze in=0 out=0",
                "profile gold in=80 out=120",
                "static 10.0.0.2 in=80 out=120",
            ],
            drops: &[("Exceeded", 2)],
        },
    )?;
    Ok(())
}

/// By these the host comes to its address. Then it sends two packets of 40 octets at one moment, of which the second is red.
const COMES: &[&[u8]] = &[ASKS, TAKES, FROM_HOST, FROM_HOST];

/// A host logs in by this Access-Accept and sends them.
fn metered_host(alloc: Global) -> Result<Vec<Arrival>, Fail> {
    let mut script = begun(alloc)?;
    script.push(reply(alloc, 1812, ACCEPT_GOLD)?)?;
    script.push(from_host(alloc, ANY)?.after(1))?;
    then_hears(alloc, &mut script, COMES)?;
    script.push(stop(0))?;
    Ok(script)
}

/// What is sent then. The server says nothing to the records.
const ONE_PASSES: &[Sent] = &[
    Sent::ToHost(PASSED),
    Sent::ToHost(OWN_ADDRESS),
    Sent::ToHost(TO_BE),
    Sent::ToHost(GETS),
    Sent::Octets(Role::Core, 9001, UP_OF_HOST),
    STOPPING,
    OVER,
];

#[test]
fn a_host_is_metered_by_the_profile_that_its_accept_names(rt: HostRuntime) -> Result<(), Fail> {
    let alloc = rt.alloc();
    let configuration = PAP.replace(alloc, "[[pool]]", HOSTS)?;
    let script = metered_host(alloc)?;
    let ended = run_in(&rt, alloc, configuration.as_str(), script, 10)?;
    assert_report(
        &rt,
        alloc,
        &ended,
        &Counted {
            octets: "in=40 out=0",
            lines: &["profile bronze in=0 out=0", "profile gold in=40 out=0"],
            drops: &[("Exceeded", 1)],
        },
    )?;
    sends_after(&rt, alloc, &ended, 6, ONE_PASSES)
}

/// A host gets the Access-Accept that names no profile.
fn unmetered_host(alloc: Global) -> Result<Vec<Arrival>, Fail> {
    let mut script = begun(alloc)?;
    script.push(reply(alloc, 1812, ACCEPT_GOL)?)?;
    script.push(stop(0))?;
    Ok(script)
}

/// What is sent then.
const NONE_LOGS_IN: &[Sent] = &[
    Sent::ToHost(NO_PROFILE),
    Sent::ToHost(TERMINATE),
    STOPPING,
    OVER,
];

#[test]
fn an_accept_that_names_no_profile_is_no_login(rt: HostRuntime) -> Result<(), Fail> {
    let alloc = rt.alloc();
    let configuration = PAP.replace(alloc, "[[pool]]", HOSTS)?;
    let script = unmetered_host(alloc)?;
    let ended = run_in(&rt, alloc, configuration.as_str(), script, 10)?;
    sends_after(&rt, alloc, &ended, 0, NONE_LOGS_IN)?;
    records(&rt, alloc, &ended, &[])
}
