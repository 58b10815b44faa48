ghost use Rattle.std.specs.Prelude.{◌≡◌, ◌<◌, ◌∷◌, []};

use crate::asserts::assert_holds;
use arrayvec::ArrayVec;
use bng_base::{Frame, Ip4, Peer, SessionNo};
use bng_failover::{DueSend, FailAsked, Failover, FailoverRules, ServerPeers};
use bng_rad_client::{ClientError, IgnoredReply, Lane, Owner, RecordNo, Replied};
use bng_radius_wire::{Radius, Written, codes, write};
use std::alloc::Global;
use std::process::Abort;
use std::test::Fail;

const FIRST: Peer = Peer {
    ip: Ip4(0x0a00_0001),
    port: 1812,
};

const SECOND: Peer = Peer {
    ip: Ip4(0x0a00_0002),
    port: 1812,
};

const STRANGER: Peer = Peer {
    ip: Ip4(0x0a00_0002),
    port: 1813,
};

// The Request Authenticator of RFC 2865 section 7.1.
const AUTHENTICATOR: [u8; 16] = [
    0x0f, 0x40, 0x3f, 0x94, 0x73, 0x97, 0x80, 0x57, 0xbd, 0x83, 0xd5, 0xcb, 0x98, 0xf4, 0x22, 0x7a,
];

// An Access-Accept without attributes with Identifier 0, for a request with that authenticator, under the secret xyzzy5461, by
// Python's hashlib.
const ACCEPT: &str = "020000149ef2e97b4e94755c8f16b6394f6e0595";

// Accounting-Requests without attributes under that secret, with the Identifiers 0 and 1, by Python's hashlib.
const RECORD_0: &str = "04000014fcd975d9d84e32aa413fc071f40d551f";

const RECORD_1: &str = "040100147c3d083a8910888e24d10268712609af";

const ASK: Owner = Owner::Ask {
    session: SessionNo(1025),
    ask: 1,
};

// The first server, and then the second.
fn both() -> ServerPeers
    ensures { result ≡ FIRST ∷ SECOND ∷ [] }
{
    let mut peers = ServerPeers::new();
    peers.push(FIRST);
    peers.push(SECOND);
    peers
}

// Two servers in each lane.
fn opened(alloc: Global, tries: u8) -> Result<Failover, ClientError>
    requires { 0 < tries }
{
    let mut secret = ArrayVec::new();
    for octet in b"xyzzy5461" {
        if !secret.is_full() {
            secret.push(*octet);
        }
    }
    let rules = FailoverRules {
        auth: both(),
        acct: both(),
        secret,
        tries,
    };
    Failover::open(alloc, &rules)
}

// Asks a bare packet with this code: the server that it is to be sent to, and its octets.
fn ask_bare(
    failover: &mut Failover,
    lane: Lane,
    owner: Owner,
    code: u8,
    now: u64,
) -> Option<(Peer, Frame)> {
    let packet = Radius {
        code,
        id: 99,
        authenticator: AUTHENTICATOR,
        attributes: ArrayVec::new(),
    };
    let mut request = Frame::new();
    let mut into = Frame::new();
    match write(&packet, &mut request) {
        Written::Done => match failover.ask(lane, owner, &request, now, &mut into) {
            FailAsked::Send(peer) => Some((peer, into)),
            FailAsked::Waiting => None,
        },
        Written::Full => None,
    }
}

// Asks a bare Access-Request at 0, which is to be sent to the first server: its octets.
fn ask_first(rt: &impl Abort, failover: &mut Failover) -> Result<Frame, Fail> {
    let (peer, frame) = ask_bare(failover, Lane::Auth, ASK, codes::ACCESS_REQUEST, 0).ok_or(
        "not sent",
    )?;
    assert_holds(rt, peer == FIRST);
    Ok(frame)
}

// Whether these octets are due at this moment, to this server.
fn is_sent(failover: &mut Failover, lane: Lane, now: u64, to: Peer, octets: &[u8]) -> bool {
    let mut into = Frame::new();
    match failover.due(now, false, &mut into) {
        Some(DueSend::Send(of, peer)) => of == lane && peer == to && into.payload() == octets,
        _ => false,
    }
}

// Nothing of this kind is due at this moment.
fn none_due(failover: &mut Failover, now: u64, timeouts: bool) -> bool {
    let mut into = Frame::new();
    failover.due(now, timeouts, &mut into).is_none()
}

// Whose request times out at this moment.
fn timed_out(failover: &mut Failover, now: u64) -> Option<Owner> {
    let mut into = Frame::new();
    match failover.due(now, true, &mut into) {
        Some(DueSend::TimedOut(owner)) => Some(owner),
        _ => None,
    }
}

// The first server is sent the request at 0 and 3,000 ms, and the second at 6,000 ms. Its octets are the same, since it is the
// first request of either server.
fn go_to_second(rt: &impl Abort, failover: &mut Failover) -> Result<Frame, Fail> {
    let frame = ask_first(rt, failover)?;
    assert_holds(rt, failover.deadline(Lane::Auth) == Some(3000));
    assert_holds(rt, none_due(failover, 2999, false));
    assert_holds(
        rt,
        is_sent(failover, Lane::Auth, 3000, FIRST, frame.payload()),
    );
    assert_holds(rt, none_due(failover, 5999, false));
    assert_holds(rt, failover.owner(Lane::Auth, 0, 0) == Some(ASK));
    assert_holds(rt, none_due(failover, 6000, true));
    assert_holds(
        rt,
        is_sent(failover, Lane::Auth, 6000, SECOND, frame.payload()),
    );
    assert_holds(rt, failover.owner(Lane::Auth, 0, 0) == None);
    assert_holds(rt, failover.owner(Lane::Auth, 1, 0) == Some(ASK));
    Ok(frame)
}

// What a datagram, in hexadecimal digits, is on the lane Auth.
fn hear(
    rt: &impl Abort,
    alloc: Global,
    failover: &mut Failover,
    from: Peer,
    answer: Replied,
) -> Result<(), Fail> {
    let octets = hex::decode(alloc, ACCEPT)?;
    assert_holds(
        rt,
        failover.reply(Lane::Auth, from, octets.as_slice()) == answer,
    );
    Ok(())
}

#[test]
fn the_second_server_answers_where_the_first_is_silent(rt: HostRuntime) -> Result<(), Fail> {
    let mut failover = opened(rt.alloc(), 2)?;
    go_to_second(&rt, &mut failover)?;
    let late = Replied::Ignored(IgnoredReply::NotPending);
    let stranger = Replied::Ignored(IgnoredReply::Stranger);
    hear(&rt, rt.alloc(), &mut failover, FIRST, late)?;
    hear(&rt, rt.alloc(), &mut failover, STRANGER, stranger)?;
    hear(
        &rt,
        rt.alloc(),
        &mut failover,
        SECOND,
        Replied::Matched(ASK),
    )?;
    hear(&rt, rt.alloc(), &mut failover, SECOND, late)?;
    assert_holds(&rt, failover.deadline(Lane::Auth) == None);
    Ok(())
}

#[test]
fn a_request_times_out_after_all_tries_of_each_server(rt: HostRuntime) -> Result<(), Fail> {
    let mut failover = opened(rt.alloc(), 2)?;
    let frame = ask_first(&rt, &mut failover)?;
    for (before, now, to) in [
        (2999, 3000, FIRST),
        (5999, 6000, SECOND),
        (8999, 9000, SECOND),
    ] {
        assert_holds(&rt, none_due(&mut failover, before, false));
        assert_holds(&rt, none_due(&mut failover, now, true));
        assert_holds(
            &rt,
            is_sent(&mut failover, Lane::Auth, now, to, frame.payload()),
        );
    }
    assert_holds(&rt, timed_out(&mut failover, 11_999) == None);
    assert_holds(&rt, none_due(&mut failover, 12_000, false));
    assert_holds(&rt, timed_out(&mut failover, 12_000) == Some(ASK));
    assert_holds(&rt, timed_out(&mut failover, 12_000) == None);
    Ok(())
}

// Whether an Access-Request with this Identifier is due at this moment, to this server.
fn is_sent_as(failover: &mut Failover, now: u64, to: Peer, wanted: u8) -> bool {
    let mut into = Frame::new();
    match failover.due(now, false, &mut into) {
        Some(DueSend::Send(Lane::Auth, peer)) => match into.payload() {
            [_, id, ..] => peer == to && *id == wanted,
            _ => false,
        },
        _ => false,
    }
}

#[test]
fn two_requests_of_one_owner_go_each_its_way(rt: HostRuntime) -> Result<(), Fail> {
    let mut failover = opened(rt.alloc(), 2)?;
    ask_first(&rt, &mut failover)?;
    let asked = ask_bare(&mut failover, Lane::Auth, ASK, codes::ACCESS_REQUEST, 100);
    assert_holds(&rt, asked.is_some());
    for (now, to, id) in [
        (3000, FIRST, 0),
        (3100, FIRST, 1),
        (6000, SECOND, 0),
        (6100, SECOND, 1),
        (9000, SECOND, 0),
        (9100, SECOND, 1),
    ] {
        assert_holds(&rt, is_sent_as(&mut failover, now, to, id));
    }
    for now in [12_000, 12_100] {
        assert_holds(&rt, timed_out(&mut failover, now) == Some(ASK));
        assert_holds(&rt, timed_out(&mut failover, now) == None);
    }
    Ok(())
}

// Whether an Accounting-Request, in hexadecimal digits, is due at this moment, to this server.
fn is_record_sent(
    alloc: Global,
    failover: &mut Failover,
    now: u64,
    to: Peer,
    text: &str,
) -> Result<bool, Fail> {
    let octets = hex::decode(alloc, text)?;
    Ok(is_sent(failover, Lane::Acct, now, to, octets.as_slice()))
}

#[test]
fn an_accounting_request_begins_again_with_the_first_server(rt: HostRuntime) -> Result<(), Fail> {
    let mut failover = opened(rt.alloc(), 1)?;
    let owner = Owner::Record(RecordNo(7));
    let asked = ask_bare(
        &mut failover,
        Lane::Acct,
        owner,
        codes::ACCOUNTING_REQUEST,
        0,
    );
    assert_holds(&rt, asked.is_some());
    for (now, to, text) in [
        (3000, SECOND, RECORD_0),
        (6000, FIRST, RECORD_1),
        (9000, SECOND, RECORD_1),
    ] {
        assert_holds(
            &rt,
            is_record_sent(rt.alloc(), &mut failover, now, to, text)?,
        );
        assert_holds(&rt, none_due(&mut failover, now, true));
    }
    assert_holds(&rt, failover.owner(Lane::Acct, 1, 1) == Some(owner));
    Ok(())
}

// Asks for a record where there is room.
fn ask_one(rt: &impl Abort, failover: &mut Failover, record: u32) {
    assert_holds(rt, failover.room(Lane::Acct));
    let owner = Owner::Record(RecordNo(record));
    let asked = ask_bare(failover, Lane::Acct, owner, codes::ACCOUNTING_REQUEST, 0);
    assert_holds(rt, asked.is_some());
}

#[test]
fn the_257th_request_of_a_lane_waits(rt: HostRuntime) -> Result<(), Fail> {
    let mut failover = opened(rt.alloc(), 1)?;
    for record in 0..256u32 {
        ask_one(&rt, &mut failover, record);
    }
    assert_holds(&rt, !failover.room(Lane::Acct));
    assert_holds(&rt, failover.room(Lane::Auth));
    let owner = Owner::Record(RecordNo(5));
    let asked = ask_bare(
        &mut failover,
        Lane::Acct,
        owner,
        codes::ACCOUNTING_REQUEST,
        0,
    );
    assert_holds(&rt, asked.is_none());
    assert_holds(&rt, failover.withdraw(Lane::Acct, 1, 5) == None);
    assert_holds(&rt, failover.withdraw(Lane::Acct, 0, 5) == Some(owner));
    assert_holds(&rt, failover.withdraw(Lane::Acct, 0, 5) == None);
    assert_holds(&rt, failover.room(Lane::Acct));
    Ok(())
}
