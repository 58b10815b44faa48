ghost use Rattle.std.specs.Prelude.{◌<◌, ◌^◌, length};

use crate::asserts::{assert_holds, assert_octets};
use crate::link_fixtures::{
    CHALLENGE, CHAP_ACK, PAP_ACK, PAP_REQUEST, TERMINATE, assert_answer, assert_asks,
    assert_sent_at, hear, opened, rules, sent, served, tell, verdict,
};
use bng_base::AuthKind;
use bng_ppp::{LinkRules, Input, Link};
use std::process::Abort;

// A packet of IPCP with the code 9, and its Code-Reject.
const UNKNOWN: &[u8] = b"\x80\x21\x09\x05\x00\x08\x00\x00\x00\x00";

const CODE_REJECT: &[u8] = b"\x80\x21\x07\x02\x00\x0c\x09\x05\x00\x08\x00\x00\x00\x00";

// The peer's request of a smaller Maximum-Receive-Unit.
const SMALLER: &[u8] = b"\xc0\x21\x01\x03\x00\x0e\x01\x04\x05\x78\x05\x06\x11\x22\x33\x44";

// The gateway's second request, its ack of the peer's, and the peer's ack of its own.
const SECOND: &[u8] =
    b"\xc0\x21\x01\x02\x00\x13\x01\x04\x05\xd4\x03\x05\xc2\x23\x05\x05\x06\xa1\xb2\xc3\xd4";

const SMALLER_ACK: &[u8] = b"\xc0\x21\x02\x03\x00\x0e\x01\x04\x05\x78\x05\x06\x11\x22\x33\x44";

const SECOND_ACK: &[u8] =
    b"\xc0\x21\x02\x02\x00\x13\x01\x04\x05\xd4\x03\x05\xc2\x23\x05\x05\x06\xa1\xb2\xc3\xd4";

const SECOND_CHALLENGE: &[u8] =
    b"\xc2\x23\x01\x02\x00\x19\x10\xa1\xb2\xc3\xd4\x04\x05\x06\x07\x08\x09\x0a\x0b\x0c\x0d\x0e\x0fbng1";

// The peer's request with a magic number alone.
const NO_UNIT: &[u8] = b"\xc0\x21\x01\x04\x00\x0a\x05\x06\x11\x22\x33\x44";

// A request ends the term, and is acked after the gateway's own.
fn end_term(rt: &impl Abort, link: &mut Link, rules: &LinkRules)
    requires { 0 < length rules.now.auth.items }
{
    let anew = hear(link, rules, SMALLER);
    assert_octets(rt, sent(&anew, 0), SECOND);
    assert_octets(rt, sent(&anew, 1), SMALLER_ACK);
    assert_holds(
        rt,
        anew.term_ended == Some(1) && !link.passes() && link.mru() == 1400,
    );
}

// The next request names no Maximum-Receive-Unit: it is the limit again.
fn take_limit(rt: &impl Abort, link: &mut Link, rules: &LinkRules)
    requires { 0 < length rules.now.auth.items }
{
    let none = hear(link, rules, NO_UNIT);
    assert_holds(rt, none.term_ended.is_none() && link.mru() == 1492);
}

#[test]
fn a_request_in_opened_ends_the_term_and_begins_anew(rt: HostRuntime) {
    let rules = rules(AuthKind::Chap, 0);
    let mut link = served(&rules);
    assert_answer(&rt, &mut link, &rules, UNKNOWN, CODE_REJECT);
    end_term(&rt, &mut link, &rules);
    assert_answer(&rt, &mut link, &rules, SECOND_ACK, SECOND_CHALLENGE);
    take_limit(&rt, &mut link, &rules);
}

// Texts, and the naks with them.
const NAKS: &[(&[u8], &[u8])] = &[
    (b"no profile", b"\xc0\x23\x03\x07\x00\x0f\x0ano profile"),
    (b"no pool", b"\xc0\x23\x03\x07\x00\x0c\x07no pool"),
    (b"no record", b"\xc0\x23\x03\x07\x00\x0e\x09no record"),
    (b"no address", b"\xc0\x23\x03\x07\x00\x0f\x0ano address"),
    (b"timeout", b"\xc0\x23\x03\x07\x00\x0c\x07timeout"),
];

// The peer's ack of the gateway's Terminate-Request.
const TERMINATE_ACK: &[u8] = b"\xc0\x21\x06\x02\x00\x04";

// The peer is refused with this text: it gets this nak, and the link closes.
fn refuse(rt: &impl Abort, link: &mut Link, rules: &LinkRules, text: &[u8], nak: &[u8])
    requires { 0 < length rules.now.auth.items }
{
    let no = tell(link, rules, verdict(false, text), 0);
    assert_octets(rt, sent(&no, 0), nak);
    assert_octets(rt, sent(&no, 1), TERMINATE);
}

// A peer is asked about and refused with this text, and its link finishes.
fn refuse_peer(rt: &impl Abort, rules: &LinkRules, text: &[u8], nak: &[u8])
    requires { 0 < length rules.now.auth.items }
{
    let mut link = opened(rules, PAP_ACK);
    assert_asks(rt, &mut link, rules, PAP_REQUEST);
    refuse(rt, &mut link, rules, text, nak);
    assert_holds(rt, hear(&mut link, rules, TERMINATE_ACK).finished);
}

// An Authenticate-Request without a name, and its nak.
const NAMELESS: &[u8] = b"\xc0\x23\x01\x08\x00\x06\x00\x00";

const NAMELESS_NAK: &[u8] = b"\xc0\x23\x03\x08\x00\x0c\x07no name";

// A peer without a name is refused, and nothing is asked.
fn refuse_nameless(rt: &impl Abort, rules: &LinkRules)
    requires { 0 < length rules.now.auth.items }
{
    let mut nameless = opened(rules, PAP_ACK);
    let no = hear(&mut nameless, rules, NAMELESS);
    assert_octets(rt, sent(&no, 0), NAMELESS_NAK);
    assert_octets(rt, sent(&no, 1), TERMINATE);
    assert_holds(rt, no.asked.is_none());
}

#[test]
fn a_refused_peer_gets_each_text_and_the_link_closes(rt: HostRuntime) {
    let rules = rules(AuthKind::Pap, 0);
    for (text, nak) in NAKS {
        refuse_peer(&rt, &rules, text, nak);
    }
    refuse_nameless(&rt, &rules);
}

// A peer that does not answer its challenge is challenged nine times more, and then the link closes.
fn give_up_by_chap(rt: &impl Abort) {
    let chap = rules(AuthKind::Chap, 0);
    let mut link = opened(&chap, CHAP_ACK);
    for count in 1..10 {
        assert_sent_at(rt, &mut link, &chap, 3000 * count, CHALLENGE);
    }
    assert_sent_at(rt, &mut link, &chap, 30_000, TERMINATE);
}

// A peer that sends no Authenticate-Request is waited for, and then the link closes.
fn give_up_by_pap(rt: &impl Abort) {
    let pap = rules(AuthKind::Pap, 0);
    let mut waited = opened(&pap, PAP_ACK);
    let waiting = tell(&mut waited, &pap, Input::Timer, 29_999);
    assert_holds(rt, waiting.outs().is_empty());
    assert_sent_at(rt, &mut waited, &pap, 30_000, TERMINATE);
}

#[test]
fn a_silent_peer_is_given_up(rt: HostRuntime) {
    give_up_by_chap(&rt);
    give_up_by_pap(&rt);
}

// The peer's Terminate-Request, and its ack.
const END: &[u8] = b"\xc0\x21\x05\x09\x00\x04";

const END_ACK: &[u8] = b"\xc0\x21\x06\x09\x00\x04";

// The peer's Terminate-Request of IPCP, and its ack.
const IPCP_END: &[u8] = b"\x80\x21\x05\x04\x00\x04";

const IPCP_END_ACK: &[u8] = b"\x80\x21\x06\x04\x00\x04";

// The peer's Protocol-Reject of IPCP, and the gateway's Terminate-Request of IPCP.
const IPCP_REJECT: &[u8] = b"\xc0\x21\x08\x05\x00\x0a\x80\x21\x01\x01\x00\x04";

const IPCP_TERMINATE: &[u8] = b"\x80\x21\x05\x02\x00\x04";

// The peer ends the link: its term ends by User Request, and the link has not finished.
fn end_by_request(rt: &impl Abort, rules: &LinkRules)
    requires { 0 < length rules.now.auth.items }
{
    let mut asked = served(rules);
    let ack = hear(&mut asked, rules, END);
    assert_holds(rt, ack.term_ended == Some(1) && !ack.finished);
    assert_octets(rt, sent(&ack, 0), END_ACK);
}

// The peer ends IPCP: no data may pass, and no term ends yet.
fn end_ipcp(rt: &impl Abort, layer: &mut Link, rules: &LinkRules)
    requires { 0 < length rules.now.auth.items }
{
    let down = hear(layer, rules, IPCP_END);
    assert_octets(rt, sent(&down, 0), IPCP_END_ACK);
    assert_holds(rt, down.term_ended.is_none() && !layer.passes());
}

// The peer ends IPCP, and 3 s later the term ends by User Request.
fn end_by_layer(rt: &impl Abort, rules: &LinkRules)
    requires { 0 < length rules.now.auth.items }
{
    let mut layer = served(rules);
    end_ipcp(rt, &mut layer, rules);
    let end = tell(&mut layer, rules, Input::Timer, 3000);
    assert_holds(rt, end.term_ended == Some(1));
}

// The peer rejects IPCP, which the gateway ends then.
fn end_by_reject(rt: &impl Abort, rules: &LinkRules)
    requires { 0 < length rules.now.auth.items }
{
    let mut rejected = served(rules);
    assert_answer(rt, &mut rejected, rules, IPCP_REJECT, IPCP_TERMINATE);
}

// Time passes, and no term ends.
fn wait(rt: &impl Abort, link: &mut Link, rules: &LinkRules, now: u64)
    requires moment { now < 2 ^ 60 }
    requires some { 0 < length rules.now.auth.items }
{
    let steps = tell(link, rules, Input::Timer, now);
    assert_holds(rt, steps.term_ended.is_none());
}

// The peer answers no echo: after 120 s its term ends by Lost Carrier, and the link finishes.
fn end_by_silence(rt: &impl Abort, rules: &LinkRules)
    requires { 0 < length rules.now.auth.items }
{
    let mut silent = served(rules);
    for count in 1..4 {
        wait(rt, &mut silent, rules, 30_000 * count);
    }
    let lost = tell(&mut silent, rules, Input::Timer, 120_000);
    assert_holds(rt, lost.term_ended == Some(2) && lost.finished);
}

// The lower layer is lost: the link finishes, and tells no cause.
fn end_by_loss(rt: &impl Abort, rules: &LinkRules)
    requires { 0 < length rules.now.auth.items }
{
    let mut gone = served(rules);
    let end = tell(&mut gone, rules, Input::Lost, 0);
    assert_holds(
        rt,
        end.finished && end.term_ended.is_none() && !gone.passes(),
    );
}

// The link is closed: no data may pass, and it tells no cause.
fn end_by_close(rt: &impl Abort, rules: &LinkRules)
    requires { 0 < length rules.now.auth.items }
{
    let mut closed = served(rules);
    let close = tell(&mut closed, rules, Input::Close, 0);
    assert_octets(rt, sent(&close, 0), TERMINATE);
    assert_holds(rt, close.term_ended.is_none() && !closed.passes());
}

#[test]
fn each_end_of_a_term_has_its_cause(rt: HostRuntime) {
    let rules = rules(AuthKind::Chap, 30);
    end_by_request(&rt, &rules);
    end_by_layer(&rt, &rules);
    end_by_reject(&rt, &rules);
    end_by_silence(&rt, &rules);
    end_by_loss(&rt, &rules);
    end_by_close(&rt, &rules);
}
