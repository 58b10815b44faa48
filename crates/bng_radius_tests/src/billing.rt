ghost use Rattle.std.specs.Prelude.{◌≡◌, ◌≤◌, [], None, List, IfOk};
ghost use Rattle.bng_base.specs.declared.circuit.TermId.{TermId};
ghost use Rattle.bng_radius_wire.specs.Attributes.{Field};
ghost use Rattle.bng_acct.specs.Request.{AreClasses};
ghost use Rattle.bng_acct.specs.Spool.{open_of};
ghost use Rattle.bng_acct.specs.declared.facts.StatusType.{StatusType};

use crate::acct::{PPPOE, classes};
use crate::asserts::{assert_holds, assert_same};
use arrayvec::ArrayVec;
use bng_acct::{AcctRules, Moment, RecordNo, StatusType, TermFacts};
use bng_base::{Book, Frame, Ip4, Peer, SessionNo, TermId};
use bng_billing::{Billing, BillingError, BillingRules};
use std::alloc::Global;
use std::process::Abort;
use std::test::Fail;

const SERVER: Peer = Peer {
    ip: Ip4(0x0a00_0001),
    port: 1813,
};

const STRANGER: Peer = Peer {
    ip: Ip4(0x0a00_0001),
    port: 1812,
};

// The requests of the records, and the replies to them, were made from the tables of RFC 2865, RFC 2866 and RFC 2869 by a script
// with Python's hashlib.
const START: &str =
    "0400009a782cc98f1ee19d3add32fcea44f9184001066e656d6f0406c0a8011005060000040106060000000207060000000108060a000002190361190462631f1330323a30303a30303a30303a30303a30312006626e67312806000000012c1a36353533663130303034303130303030303030303030303137066553f13e3d0600000005571670312f3032303030303030303030312f31303235";

const STOP: &str =
    "040100ca649e0d040edd9e4262e03bc7be6de7b701066e656d6f0406c0a8011005060000040106060000000207060000000108060a000002190361190462631f1330323a30303a30303a30303a30303a30312006626e67312806000000022a06000000132b06000000072c1a3635353366313030303430313030303030303030303030312e060000003e2f060000000530060000000631060000000134060000000135060000000337066553f13e3d0600000005571670312f3032303030303030303030312f31303235";

const REPLY_TO_START: &str = "05000014e3b90359f9cd7259db302c60b6facf95";

const REPLY_TO_STOP: &str = "0501001405e2d0a0574a8277da44a41d67446adf";

// The reply to the Start with another Identifier, and with one octet changed.
const WITH_IDENTIFIER_1: &str = "050100148b0609e0a4cf0ea9e18f534504957f84";

const WITH_ONE_OCTET_CHANGED: &str = "05000014e3b90359f9cd7259db302c60b6facf94";

// The replies to the Interim that goes out with Identifier 1, and to the Stop with Identifier 2.
const REPLY_TO_INTERIM: &str = "05010014202876fb20ea9c957776854a3989ce9b";

const REPLY_TO_STOP_2: &str = "0502001464af99b8fc195190418837d05c10ea3c";

// A list of these octets, as many of them as there is room for.
fn listed<const N: usize>(octets: &[u8]) -> ArrayVec<u8, N> {
    let mut list = ArrayVec::new();
    let _ = list.try_extend_from_slice(octets);
    list
}

// The term with this number of session 1025, which began after a second.
fn facts(serial: u64) -> TermFacts
    ensures classes { (classes : List Field) × AreClasses classes result.class.items }
    ensures term { result.term.serial ≡ serial }
{
    TermFacts {
        term: TermId {
            session: SessionNo(1025),
            serial,
        },
        circuit: PPPOE,
        address: Ip4(0x0a00_0002),
        user: listed(b"nemo"),
        class: classes(),
        began: 1_000,
        carried: Book {
            input: 0x1_0000_0013,
            output: 0x3_0000_0007,
            input_packets: 5,
            output_packets: 6,
        },
    }
}

fn opened(alloc: Global) -> Result<Billing, BillingError>
    ensures { IfOk result (λ b. b.spool.held ≡ []) }
{
    let acct = AcctRules {
        terms: 300,
        wall: 1_700_000_000,
        name: listed(b"bng1"),
        nas_ip: Ip4(0xc0a8_0110),
    };
    Billing::open(
        alloc,
        BillingRules {
            acct,
            server: SERVER,
            secret: listed(b"xyzzy5461"),
        },
    )
}

// Forms a record, if there is room for its term. None of its kind is open of the term.
fn form(
    rt: &impl Abort,
    billing: &mut Billing,
    status: StatusType,
    facts: &TermFacts,
    now: u64,
) -> RecordNo
    requires classes { (classes : List Field) × AreClasses classes facts.now.class.items }
    requires once { open_of facts.now.term status billing.old.spool.held ≡ None }
    ensures { (t : TermId) (s : StatusType) → (t ≡ facts.now.term → s ≡ status → ⊥) → open_of t s billing.new.spool.held ≡ open_of t s billing.old.spool.held }
{
    assert_holds(rt, facts.began <= now);
    assert_holds(rt, billing.free() > 0);
    let at = Moment {
        now,
        wall: 1_700_000_062,
        cause: 1,
    };
    match status {
        StatusType::Start => billing.start(facts, at),
        StatusType::Interim => billing.interim(facts, at),
        StatusType::Stop => billing.stop(facts, at),
    }
}

// Forms the Starts of the terms 1 to 257.
fn form_starts(rt: &impl Abort, billing: &mut Billing)
    requires { billing.old.spool.held ≡ [] }
{
    for n in 1..258u64 {
        form(rt, billing, StatusType::Start, &facts(n), 1_000);
    }
}

// Sends the record that waited longest, which has to be this one, with this identifier.
fn send(rt: &impl Abort, billing: &mut Billing, number: RecordNo, id: u8, now: u64) -> Frame {
    match billing.send(now) {
        Some((record, given, frame)) => {
            assert_holds(rt, record == number && given == id);
            frame
        }
        None => {
            assert!(rt; false, "no record is handed out");
            Frame::new()
        }
    }
}

// Sends the request again that is due first, which has to be this one.
fn resend(rt: &impl Abort, billing: &mut Billing, id: u8, frame: &Frame, now: u64) {
    match billing.resend(now) {
        Some((again, octets)) => {
            assert_holds(rt, again == id);
            assert_holds(rt, octets.payload() == frame.payload());
        }
        None => assert!(rt; false, "no request is sent again"),
    }
}

// Hears a datagram, in hexadecimal digits, which has to acknowledge this record.
fn hear(
    rt: &impl Abort,
    alloc: Global,
    billing: &mut Billing,
    from: Peer,
    datagram: &str,
    record: Option<RecordNo>,
) -> Result<(), Fail> {
    let octets = hex::decode(alloc, datagram)?;
    assert_holds(rt, billing.take(from, octets.as_slice()) == record);
    Ok(())
}

// Sends the record that waited longest, as `send`, with these octets, in hexadecimal digits.
fn send_octets(
    rt: &impl Abort,
    alloc: Global,
    billing: &mut Billing,
    number: RecordNo,
    id: u8,
    octets: &str,
) -> Result<(), Fail> {
    let frame = send(rt, billing, number, id, 63_000);
    let text = hex::encode(alloc, frame.payload())?;
    assert_holds(rt, text.as_str() == octets);
    Ok(())
}

// Notes what became of a send. Nothing is said of it, so that no proof looks into the list of what was sent.
fn note(billing: &mut Billing, id: u8, sent: bool) {
    billing.note(id, sent);
}

// Hears the reply to the Start before it was sent, and where the send failed; and then sends both.
fn hear_too_soon(rt: &impl Abort, alloc: Global, billing: &mut Billing) -> Result<(), Fail> {
    hear(rt, alloc, billing, SERVER, REPLY_TO_START, None)?;
    note(billing, 0, false);
    hear(rt, alloc, billing, SERVER, REPLY_TO_START, None)?;
    note(billing, 0, true);
    note(billing, 1, true);
    Ok(())
}

// Hears what is no reply: from another port, with another Identifier, with one octet changed, and one octet alone.
fn hear_others(rt: &impl Abort, alloc: Global, billing: &mut Billing) -> Result<(), Fail> {
    hear(rt, alloc, billing, STRANGER, REPLY_TO_START, None)?;
    hear(rt, alloc, billing, SERVER, WITH_IDENTIFIER_1, None)?;
    hear(rt, alloc, billing, SERVER, WITH_ONE_OCTET_CHANGED, None)?;
    hear(rt, alloc, billing, SERVER, "05", None)
}

// Sends a Start and a Stop, and hears what acknowledges them, and what does not.
fn send_and_hear(
    rt: &impl Abort,
    alloc: Global,
    billing: &mut Billing,
    start: RecordNo,
    stop: RecordNo,
) -> Result<(), Fail> {
    send_octets(rt, alloc, billing, start, 0, START)?;
    send_octets(rt, alloc, billing, stop, 1, STOP)?;
    hear_too_soon(rt, alloc, billing)?;
    hear_others(rt, alloc, billing)?;
    hear(rt, alloc, billing, SERVER, REPLY_TO_START, Some(start))?;
    hear(rt, alloc, billing, SERVER, REPLY_TO_START, None)?;
    hear(rt, alloc, billing, SERVER, REPLY_TO_STOP, Some(stop))
}

// Forms the Start of the term 1, and its Stop.
fn form_two(rt: &impl Abort, billing: &mut Billing) -> [RecordNo; 2]
    requires { billing.old.spool.held ≡ [] }
{
    let term = facts(1);
    let start = form(rt, billing, StatusType::Start, &term, 1_000);
    let stop = form(rt, billing, StatusType::Stop, &term, 63_000);
    [start, stop]
}

#[test]
fn records_go_out_and_are_acknowledged_once(rt: HostRuntime) -> Result<(), Fail> {
    let mut billing = opened(rt.alloc())?;
    assert_holds(&rt, billing.server() == SERVER);
    let [start, stop] = form_two(&rt, &mut billing);
    send_and_hear(&rt, rt.alloc(), &mut billing, start, stop)?;
    assert_same(&rt, &billing.unacked_stops(), &0);
    assert_same(&rt, &billing.free(), &300);
    assert_holds(&rt, billing.deadline() == None);
    Ok(())
}

// No request is sent again at this moment.
fn none_resent(billing: &mut Billing, now: u64) -> bool {
    billing.resend(now).is_none()
}

// Sends a Start, and sends it again after 3 s and after 6 s.
fn send_thrice(rt: &impl Abort, billing: &mut Billing, start: RecordNo) {
    let frame = send(rt, billing, start, 0, 0);
    assert_holds(rt, billing.deadline() == Some(3_000));
    assert_holds(rt, none_resent(billing, 2_999));
    for now in [3_000, 6_000] {
        resend(rt, billing, 0, &frame, now);
        assert_holds(rt, none_resent(billing, now));
    }
}

#[test]
fn a_request_is_sent_again_every_3_s_with_the_same_octets(rt: HostRuntime) -> Result<(), Fail> {
    let mut billing = opened(rt.alloc())?;
    let start = form(&rt, &mut billing, StatusType::Start, &facts(1), 1_000);
    send_thrice(&rt, &mut billing, start);
    assert_holds(&rt, billing.deadline() == Some(9_000));
    Ok(())
}

// Sends the record that waited longest with this identifier.
fn send_with(rt: &impl Abort, billing: &mut Billing, id: u8) -> Option<RecordNo> {
    match billing.send(0) {
        Some((number, given, _)) => {
            assert_same(rt, &given, &id);
            Some(number)
        }
        None => {
            assert!(rt; false, "no record is handed out");
            None
        }
    }
}

// No record is handed out.
fn none_sent(billing: &mut Billing) -> bool {
    billing.send(0).is_none()
}

// Sends 256 records with the identifiers from 0 on, and no more: the first of them.
fn send_all(rt: &impl Abort, billing: &mut Billing) -> Option<RecordNo> {
    let mut first = None;
    for id in 0..=255u8 {
        let number = send_with(rt, billing, id);
        first = first.or(number);
    }
    assert_holds(rt, none_sent(billing));
    first
}

// Hears the reply to the first record, whose identifier the last one has then; the same reply is none to that one.
fn send_the_last(
    rt: &impl Abort,
    alloc: Global,
    billing: &mut Billing,
    first: Option<RecordNo>,
) -> Result<(), Fail> {
    note(billing, 0, true);
    hear(rt, alloc, billing, SERVER, REPLY_TO_START, first)?;
    assert_same(rt, &billing.free(), &43);
    assert_holds(rt, send_with(rt, billing, 0) != first);
    assert_holds(rt, none_sent(billing));
    hear(rt, alloc, billing, SERVER, REPLY_TO_START, None)
}

#[test]
fn at_most_256_requests_are_out_and_no_record_is_lost(rt: HostRuntime) -> Result<(), Fail> {
    let mut billing = opened(rt.alloc())?;
    form_starts(&rt, &mut billing);
    assert_same(&rt, &billing.free(), &43);
    let first = send_all(&rt, &mut billing);
    send_the_last(&rt, rt.alloc(), &mut billing, first)
}

// Forms the Start of the term 1, an Interim and its Stop.
fn form_three(rt: &impl Abort, billing: &mut Billing) -> [RecordNo; 3]
    requires { billing.old.spool.held ≡ [] }
{
    let term = facts(1);
    let start = form(rt, billing, StatusType::Start, &term, 1_000);
    let interim = form(rt, billing, StatusType::Interim, &term, 63_000);
    assert_holds(rt, !billing.interim_free(&term.term));
    let stop = form(rt, billing, StatusType::Stop, &term, 63_000);
    [start, interim, stop]
}

// Sends a Start, an Interim and a Stop, and answers the request of the last one.
fn send_three(rt: &impl Abort, billing: &mut Billing, numbers: [RecordNo; 3]) -> Frame {
    let [start, interim, stop] = numbers;
    send(rt, billing, start, 0, 0);
    send(rt, billing, interim, 1, 0);
    let last = send(rt, billing, stop, 2, 0);
    for id in 0..3 {
        note(billing, id, true);
    }
    last
}

// The term whose Stop is listed first.
fn first_stop(billing: &Billing) -> Option<TermId> {
    match billing.unacked(0) {
        Some(facts) => Some(facts.term),
        None => None,
    }
}

// Hears at the stop that a Stop alone is out, with this request, and is acknowledged.
fn hear_the_stop(
    rt: &impl Abort,
    alloc: Global,
    billing: &mut Billing,
    stop: RecordNo,
    request: &Frame,
) -> Result<(), Fail> {
    billing.stops_only();
    hear(rt, alloc, billing, SERVER, REPLY_TO_START, None)?;
    hear(rt, alloc, billing, SERVER, REPLY_TO_INTERIM, None)?;
    resend(rt, billing, 2, request, 3_000);
    assert_holds(rt, none_resent(billing, 3_000));
    hear(rt, alloc, billing, SERVER, REPLY_TO_STOP_2, Some(stop))
}

// Sends three records, of which the Stop is listed, and hears at the stop that it alone is out.
fn stop_with_three(
    rt: &impl Abort,
    alloc: Global,
    billing: &mut Billing,
    numbers: [RecordNo; 3],
) -> Result<(), Fail> {
    let request = send_three(rt, billing, numbers);
    assert_holds(rt, first_stop(billing) == Some(facts(1).term));
    hear_the_stop(rt, alloc, billing, numbers[2], &request)
}

#[test]
fn at_the_stop_a_stop_alone_stays_out(rt: HostRuntime) -> Result<(), Fail> {
    let mut billing = opened(rt.alloc())?;
    let numbers = form_three(&rt, &mut billing);
    stop_with_three(&rt, rt.alloc(), &mut billing, numbers)?;
    assert_holds(&rt, billing.unacked(0).is_none());
    assert_same(&rt, &billing.free(), &300);
    Ok(())
}
