//! CoA-Requests about the circuit (RFC 5176 section 2.2). The requests and the replies were made from the tables of RFC 2865, RFC 2869 and RFC
//! 5176 by a script over Python's hashlib and hmac, which makes of radclient's requests what radclient made.
use super::authentication::stop;
use super::logins::run_in;
use super::running::{SERVE, run_over};
use super::{
    CONFIGURATION, Ended, a_turn_later, assert_err, assert_status, goes_to, has, loopback,
};
use crate::asserts::assert_holds;
use bng_base::Role;
use bng_plant::Arrival;
use std::alloc::{AllocError, Global};
use std::process::Abort;
use std::sync::Wait;
use std::test::Fail;
use std::thread::Threads;

/// Two profiles without rates, and an end for requests of 127.0.0.1.
const CHANGES: &str =
    "[[profile]]\nname = \"bronze\"\n[[profile]]\nname = \"gold\"\n[coa]\nlocal = \"127.0.0.1:3799\"\npeers = [\"127.0.0.1\"]\n";

/// The circuit's term comes to the profile gold; its Acct-Session-Id begins with the second at which the run opens.
pub(super) const TO_GOLD: &str =
    "2b010034dcefa9776ac7489797717e0eb072d84f2c1a3635353366313030303430313030303030303030303030310b06676f6c64";

const GOLD: &str = "2c0100147ac172dbcc0777a3342d4fdebf31988f";

/// What `err` has at the end of a run whose server of accounting says nothing.
const NOT_STOPPED: &[u8] =
    b"stop 6553f1000401000000000001 p1/020000000001/1025 10.0.0.2 in=300 out=0\n";

/// A frame of the circuit with a packet of 100 octets.
const OF_100: &[u8] =
    b"\x02\x00\x00\x00\x00\xfe\x02\x00\x00\x00\x00\x01\x88\x64\x11\x00\x04\x01\x00\x66\x00\x21\x45\x00\x00\x64\x00\x01\x00\x00\x40\x01\xae\x95\x0a\x00\x00\x02\xc0\x00\x02\x0177777777777777777777777777777777777777777777777777777777777777777777777777777777";

/// One with a packet of 200 octets.
const OF_200: &[u8] =
    b"\x02\x00\x00\x00\x00\xfe\x02\x00\x00\x00\x00\x01\x88\x64\x11\x00\x04\x01\x00\xca\x00\x21\x45\x00\x00\xc8\x00\x01\x00\x00\x40\x01\xae\x31\x0a\x00\x00\x02\xc0\x00\x02\x01777777777777777777777777777777777777777777777777777777777777777777777777777777777777777777777777777777777777777777777777777777777777777777777777777777777777777777777777777777777777";

/// This configuration with two profiles and an end for requests.
pub(super) fn with_changes(alloc: Global, configuration: &str) -> Result<String, AllocError> {
    let mut text = String::from_str(alloc, configuration)?;
    text.push_str(CHANGES)?;
    Ok(text)
}

/// A request comes from port 3798 of 127.0.0.1.
pub(super) fn asks(alloc: Global, octets: &str) -> Result<Arrival, Fail> {
    let octets = hex::decode(alloc, octets)?;
    Ok(Arrival::new(Role::Coa, loopback(3798), octets.as_slice()))
}

/// These requests come in one turn, and then `stop`.
pub(super) fn all_ask(alloc: Global, requests: &[&str]) -> Result<Vec<Arrival>, Fail> {
    let mut script = Vec::new(alloc);
    for octets in requests {
        script.push(asks(alloc, *octets)?)?;
    }
    script.push(stop(0))?;
    Ok(script)
}

/// A packet of the circuit comes, of 100 octets.
pub(super) fn packet_100() -> Arrival {
    Arrival::new(Role::Access(1), loopback(9011), OF_100)
}

/// One of 200 octets.
fn packet_200() -> Arrival {
    Arrival::new(Role::Access(1), loopback(9011), OF_200)
}

/// A run over the circuit with two profiles and an end for requests, at moments that are so many milliseconds apart.
pub(super) fn run_changes<R: Threads + Wait + Sync>(
    rt: &R,
    alloc: Global,
    script: Vec<Arrival>,
    step: u64,
) -> Result<Ended, AllocError> {
    let configuration = with_changes(alloc, CONFIGURATION)?;
    run_in(rt, alloc, configuration.as_str(), script, step)
}

/// The replies that a run sent to where the requests came from are these.
pub(super) fn replies(
    rt: &impl Abort,
    alloc: Global,
    ended: &Ended,
    wanted: &[&str],
) -> Result<(), Fail> {
    let sent = ended.plant.sent().iter();
    let mut replies = sent.filter(|datagram| datagram.role == Role::Coa);
    for octets in wanted {
        let reply = replies.next().expect(rt, "a reply");
        goes_to(rt, alloc, reply, loopback(3798), *octets)?;
    }
    assert_holds(rt, replies.next().is_none());
    Ok(())
}

/// A request is handled before the packets of its round.
fn together(alloc: Global) -> Result<Vec<Arrival>, Fail> {
    let mut script = Vec::new(alloc);
    script.push(asks(alloc, TO_GOLD)?)?;
    script.push(packet_100())?;
    script.push(packet_200())?;
    script.push(stop(0))?;
    Ok(script)
}

/// The first packet comes a round before the request.
fn apart(alloc: Global) -> Result<Vec<Arrival>, Fail> {
    let mut script = Vec::new(alloc);
    script.push(packet_100())?;
    script.push(a_turn_later())?;
    script.push(asks(alloc, TO_GOLD)?)?;
    script.push(packet_200())?;
    script.push(stop(0))?;
    Ok(script)
}

/// A run whose one request is acknowledged counts 300 octets, and has this in its books.
fn counts<R: Threads + Wait + Sync + Abort>(
    rt: &R,
    alloc: Global,
    script: Vec<Arrival>,
    book: &[u8],
) -> Result<(), Fail> {
    let ended = run_changes(rt, alloc, script, 10)?;
    assert_status(rt, &ended, 6);
    assert_err(rt, &ended, NOT_STOPPED);
    assert_holds(rt, has(ended.out.text(), b"worker 0 in=300 out=0\n"));
    assert_holds(rt, has(ended.out.text(), book));
    replies(rt, alloc, &ended, &[GOLD])
}

#[test]
fn a_packet_is_in_the_book_of_the_profile_that_is_in_force(rt: HostRuntime) -> Result<(), Fail> {
    let alloc = rt.alloc();
    counts(
        &rt,
        alloc,
        together(alloc)?,
        b"profile bronze in=0 out=0\nprofile gold in=300 out=0\n",
    )?;
    counts(
        &rt,
        alloc,
        apart(alloc)?,
        b"profile bronze in=100 out=0\nprofile gold in=200 out=0\n",
    )
}

/// The first request with one octet of its authenticator changed; one with the Acct-Session-Id of no session; and one with a Framed-Route,
/// which no request may have.
const CHANGED: &str =
    "2b010034dcefa9776ac7489797717e0eb072d84e2c1a3635353366313030303430313030303030303030303030310b06676f6c64";

const UNKNOWN: &str =
    "2b0300344ffd35066354201942c2132fab0f59c62c1a3635353366313030303430323030303030303030303030310b06676f6c64";

const NO_SESSION: &str = "2d03001a13d360ec09093fc5db98c7240ec061386506000001f7";

const WITH_ROUTE: &str =
    "2b040041b41d8cc7af1344647540d54a9ce992e72c1a363535336631303030343031303030303030303030303031160b302e302e302e302f300b0862726f6e7a65";

const NOT_SUPPORTED: &str = "2d04001aff4ddb48a325a253d9e355062ac13808650600000191";

/// The first request once more, and the others.
const AGAIN: &[&str] = &[TO_GOLD, CHANGED, UNKNOWN, WITH_ROUTE];

/// The first request comes twice in one turn: while it is in hand it has no second reply. A turn later these come, and a
/// packet.
fn once_and_again(alloc: Global) -> Result<Vec<Arrival>, Fail> {
    let mut script = Vec::new(alloc);
    script.push(asks(alloc, TO_GOLD)?)?;
    script.push(asks(alloc, TO_GOLD)?)?;
    script.push(a_turn_later())?;
    for octets in AGAIN {
        script.push(asks(alloc, *octets)?)?;
    }
    script.push(packet_100())?;
    script.push(stop(0))?;
    Ok(script)
}

#[test]
fn a_request_is_answered_once_and_its_reply_comes_again(rt: HostRuntime) -> Result<(), Fail> {
    let alloc = rt.alloc();
    let ended = run_changes(&rt, alloc, once_and_again(alloc)?, 10)?;
    replies(&rt, alloc, &ended, &[GOLD, GOLD, NO_SESSION, NOT_SUPPORTED])?;
    // What was refused changed nothing.
    assert_holds(
        &rt,
        has(
            ended.out.text(),
            b"profile bronze in=0 out=0\nprofile gold in=100 out=0\n",
        ),
    );
    Ok(())
}

/// Requests about the circuit by its address, to both profiles.
const GOLD_BY_ADDRESS: &str = "2b01002076e7cb11c2c27a73eb854f8bd792732008060a0000020b06676f6c64";

const BRONZE_BY_ADDRESS: &str =
    "2b020022742b02eb6052b032b3287d479503eb7408060a0000020b0862726f6e7a65";

/// The first request comes again when another one has changed the term back.
fn comes_again(alloc: Global) -> Result<Vec<Arrival>, Fail> {
    let mut script = Vec::new(alloc);
    script.push(asks(alloc, GOLD_BY_ADDRESS)?)?;
    script.push(asks(alloc, BRONZE_BY_ADDRESS)?)?;
    script.push(a_turn_later())?;
    script.push(asks(alloc, GOLD_BY_ADDRESS)?)?;
    script.push(packet_100())?;
    script.push(stop(0))?;
    Ok(script)
}

/// The replies to the three.
const THREE_REPLIES: &[&str] = &[
    "2c0100145c467510e2651b7703733cfee348d138",
    "2c020014d01d93049d6135bdfea91973cccc2c0a",
    "2c0100145c467510e2651b7703733cfee348d138",
];

/// How many milliseconds later it comes, and the books then. Where its reply is kept, it changes nothing.
const STEPS: &[(u64, &[u8])] = &[
    (
        29_000,
        b"profile bronze in=100 out=0\nprofile gold in=0 out=0\n",
    ),
    (
        29_999,
        b"profile bronze in=100 out=0\nprofile gold in=0 out=0\n",
    ),
    (
        30_000,
        b"profile bronze in=0 out=0\nprofile gold in=100 out=0\n",
    ),
    (
        31_000,
        b"profile bronze in=0 out=0\nprofile gold in=100 out=0\n",
    ),
];

/// Where it comes so many milliseconds later, all three have their replies, and this is in the books.
fn has_books<R: Threads + Wait + Sync + Abort>(
    rt: &R,
    alloc: Global,
    step: u64,
    book: &[u8],
) -> Result<(), Fail> {
    let ended = run_changes(rt, alloc, comes_again(alloc)?, step)?;
    replies(rt, alloc, &ended, THREE_REPLIES)?;
    assert_holds(rt, has(ended.out.text(), book));
    Ok(())
}

#[test]
fn a_reply_is_kept_for_30_seconds(rt: HostRuntime) -> Result<(), Fail> {
    let alloc = rt.alloc();
    for (step, book) in STEPS {
        has_books(&rt, alloc, *step, book)?;
    }
    Ok(())
}

/// Requests with Proxy-States and a Message-Authenticator, one that is acknowledged and one that is refused, and one with two States, of
/// which the first is repeated; and the replies to them.
const REPEATED: &[&str] = &[
    "2b05004e0bd205613d9ea79214c15423cc0ef218210470312c1a363535336631303030343031303030303030303030303031210470320b06676f6c6450129c6efa5db2ffaa27db45d63a29b26d86",
    "2b06004e5b1bf12651fe2456184db07fe05fe155210470312c1a3635353366313030303430323030303030303030303030310b06676f6c642104703250127eb9edaecd54dbc0c9d0b30fc961686e",
    "2b070040d7442f75370bcbd6246558282d9d57c42c1a3635353366313030303430313030303030303030303030311804737418047576210470310b06676f6c64",
];

const REPEATS: &[&str] = &[
    "2c05002eee56e8b08e89fcae29e02adc6816d230210470312104703250120e53bd83d41f5a3166fe769b1215179f",
    "2d060034a077e1df5073d917b0f491d949b0914b21047031210470326506000001f7501217a29f859258df6b1c215fcdccc6552b",
    "2d0700221dc3b1174bd532015918c337847edd422104703118047374650600000191",
];

#[test]
fn a_reply_repeats_what_the_request_has_for_it(rt: HostRuntime) -> Result<(), Fail> {
    let alloc = rt.alloc();
    let ended = run_changes(&rt, alloc, all_ask(alloc, REPEATED)?, 10)?;
    replies(&rt, alloc, &ended, REPEATS)
}

/// Requests for shard 3, for shard 1, for nobody's address, the first one again, and for a shard that is none; and the replies.
const REQUESTS: &[&str] = &[
    "2b02003496c594e8312c654e252706f3a642d7f02c1a3635353366313030306330313030303030303030303030310b06676f6c64",
    "2b0300367373c28cfb57f6880ba6c3d8af26ec652c1a3635353366313030303430313030303030303030303030310b0862726f6e7a65",
    "2b040020f63c1a6fccd076fe318b25b3427903ae08060a0000090b06676f6c64",
    TO_GOLD,
    "2b0500348b5b72f9c6b92910e1b75cc7e2d0ef702c1a3635353366313030313030313030303030303030303030310b06676f6c64",
];

const REPLIES: &[&str] = &[
    GOLD,
    GOLD,
    "2d04001a0a2fe67291b22f15049913b279bf8e3f6506000001f7",
    "2d05001aba5cde827155bddbcb297ab8cab7efc96506000001f7",
    "2c030014dd53c9d6b4bf174d1771c44be786e541",
    "2d02001aa3cad7b34dce56fe2bd648fa733335556506000001f7",
];

/// The first one, and a turn later the others.
fn repeats(alloc: Global) -> Result<Vec<Arrival>, Fail> {
    let mut script = Vec::new(alloc);
    script.push(asks(alloc, TO_GOLD)?)?;
    script.push(a_turn_later())?;
    for octets in REQUESTS {
        script.push(asks(alloc, *octets)?)?;
    }
    script.push(stop(0))?;
    Ok(script)
}

#[test]
fn repeats_come_first_and_then_requests_that_lead_nowhere(rt: HostRuntime) -> Result<(), Fail> {
    let alloc = rt.alloc();
    let ended = run_changes(&rt, alloc, repeats(alloc)?, 10)?;
    replies(&rt, alloc, &ended, REPLIES)
}

/// A run over this configuration in which the bind of this number fails ends with status 3 and tells that the end for requests cannot be
/// opened.
fn is_unbound<R: Threads + Wait + Sync + Abort>(
    rt: &R,
    alloc: Global,
    configuration: &str,
    bind: u64,
) -> Result<(), Fail> {
    let script = Vec::new(alloc);
    let ended = run_over(rt, alloc, &SERVE, configuration, script, &[bind], &[])?;
    assert_status(rt, &ended, 3);
    assert_err(rt, &ended, b"bng: cannot open coa\n");
    Ok(())
}

#[test]
fn an_end_for_requests_that_cannot_be_bound_is_told(rt: HostRuntime) -> Result<(), Fail> {
    let alloc = rt.alloc();
    let mut configuration = with_changes(alloc, CONFIGURATION)?;
    is_unbound(&rt, alloc, configuration.as_str(), 6)?;
    // It is bound behind the end for tunnels.
    configuration.push_str("[tunnel]\nlocal = \"127.0.0.1:1701\"\n")?;
    is_unbound(&rt, alloc, configuration.as_str(), 7)
}
