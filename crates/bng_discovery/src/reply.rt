ghost use Rattle.std.specs.Prelude.{◌≡◌, ◌+◌, ◌-◌, ◌≤◌, ◌<◌, ◌↔◌, List, length, All, IsTrue, MatchBool};
ghost use Rattle.bng_base.specs.PppoeGrammar.{PppoeTag, AreTags, TagFits, tags_text, pppoe_text};
ghost use Rattle.bng_pppoe_wire.specs.View.{tag_of, tags_of};
ghost use Rattle.bng_discovery.specs.Request.{has_cookie};
ghost use Rattle.bng_discovery.specs.Reply.{discovery_frame, pado_of, pads_of, refusal_of, padt_of};

use crate::answers::ErrorTag;
use crate::cookie::cookie_for;
use crate::listing::{confirm_list, offer_list, refuse_list};
use crate::port::PortRules;
use crate::request::request_of;
use bng_base::{Frame, HEADROOM, LONGEST, Mac, SessionNo, Written};
use bng_pppoe_wire::code::{PADO, PADS, PADT};
use bng_pppoe_wire::{Pppoe, Tag, write_tags};

// The octets of a frame before its tags.
const HEADER: usize = 20;

/// Whether a frame with these tags from one address to another has at most 4,096 octets.
pub(crate) fn is_short(from: Mac, to: Mac, list: &[Tag<'_>]) -> bool
    requires { All (λ t. TagFits (tag_of t)) list.now }
    ensures cases { MatchBool result (HEADER + length (tags_text (tags_of list.now)) ≤ LONGEST) (LONGEST < HEADER + length (tags_text (tags_of list.now))) }
    ensures from { length from.0 ≡ 6 }
    ensures to { length to.0 ≡ 6 }
{
    let mut size = to.0.len() + from.0.len() + 8;
    for tag in list {
        size += 4 + tag.value.len();
        if size > LONGEST {
            return false;
        }
    }
    true
}

fn put_frame(
    port: &PortRules,
    host: Mac,
    code: u8,
    session: u16,
    list: &[Tag<'_>],
    into: &mut Frame,
) -> Written
    requires { All (λ t. TagFits (tag_of t)) list.now }
    ensures done { result ≡ Written.Done → into.new ≡ record { payload = pppoe_text (discovery_frame port.now host code session (tags_of list.now)); headroom = HEADROOM - HEADER } }
    ensures full { (result ≡ Written.Full) ↔ (LONGEST < length (pppoe_text (discovery_frame port.now host code session (tags_of list.now)))) }
    ensures kept { result ≡ Written.Full → into.new ≡ into.old }
    ensures short { HEADER + length (tags_text (tags_of list.now)) ≤ LONGEST → result ≡ Written.Done }
{
    if !is_short(port.mac, host, list) {
        return Written::Full;
    }
    match write_tags(list, into) {
        Written::Full => return Written::Full,
        Written::Done => {}
    }
    let header = Pppoe {
        dst: host,
        src: port.mac,
        discovery: true,
        code,
        session,
        payload: into.payload(),
    }
    .header();
    into.put_front(&header);
    Written::Done
}

/// Writes the PADO that a PADI is answered (RFC 2516 section 5.2): the AC-Name, the Service-Name that was asked for, each
/// other one that the port offers, the Host-Uniq, the AC-Cookie and the Relay-Session-Id, where the PADI has the first and
/// the last of these three. Full comes exactly where it has more than 4,096 octets; then `into` is as before.
pub fn offer(frame: &Pppoe<'_>, port: &PortRules, into: &mut Frame) -> Written
    requires { (ts : List PppoeTag) × AreTags ts frame.now.payload.now × (length ts ≤ 64) }
    ensures done { result ≡ Written.Done → (ts : List PppoeTag) → AreTags ts frame.now.payload.now → into.new ≡ record { payload = pppoe_text (pado_of port.now frame.now.src ts); headroom = HEADROOM - HEADER } }
    ensures full { (ts : List PppoeTag) → AreTags ts frame.now.payload.now → ((result ≡ Written.Full) ↔ (LONGEST < length (pppoe_text (pado_of port.now frame.now.src ts)))) }
    ensures kept { result ≡ Written.Full → into.new ≡ into.old }
{
    let cookie = cookie_for(port, frame.src);
    let list = offer_list(&request_of(frame), port, &cookie);
    put_frame(port, frame.src, PADO, 0, list.as_slice(), into)
}

/// Writes the PADS that gives a PADR its session (RFC 2516 section 5.4): the Service-Name that was asked for, and the
/// Host-Uniq and the Relay-Session-Id where the PADR has them. Full comes exactly where it has more than 4,096 octets, and
/// never where a PADR with the right AC-Cookie has at most as many; then `into` is as before.
pub fn confirm(frame: &Pppoe<'_>, port: &PortRules, session: SessionNo, into: &mut Frame) -> Written
    requires { (ts : List PppoeTag) × AreTags ts frame.now.payload.now × (length ts ≤ 64) }
    ensures done { result ≡ Written.Done → (ts : List PppoeTag) → AreTags ts frame.now.payload.now → into.new ≡ record { payload = pppoe_text (pads_of port.now frame.now.src session.0 ts); headroom = HEADROOM - HEADER } }
    ensures full { (ts : List PppoeTag) → AreTags ts frame.now.payload.now → ((result ≡ Written.Full) ↔ (LONGEST < length (pppoe_text (pads_of port.now frame.now.src session.0 ts)))) }
    ensures kept { result ≡ Written.Full → into.new ≡ into.old }
    ensures sent { (ts : List PppoeTag) → AreTags ts frame.now.payload.now → IsTrue (has_cookie port.now frame.now.src ts) → HEADER + length frame.now.payload.now ≤ LONGEST → result ≡ Written.Done }
{
    let list = confirm_list(&request_of(frame));
    put_frame(port, frame.src, PADS, session.0, list.as_slice(), into)
}

/// Writes the PADS that refuses a PADR a session (RFC 2516 section 5.4), with SESSION_ID 0: the Service-Name that was asked
/// for, the error, and the Host-Uniq and the Relay-Session-Id where the PADR has them. Full comes exactly where it has
/// more than 4,096 octets, and never where a PADR with the right AC-Cookie has at most as many; then `into` is as before.
pub fn refuse(frame: &Pppoe<'_>, port: &PortRules, error: ErrorTag, into: &mut Frame) -> Written
    requires { (ts : List PppoeTag) × AreTags ts frame.now.payload.now × (length ts ≤ 64) }
    ensures done { result ≡ Written.Done → (ts : List PppoeTag) → AreTags ts frame.now.payload.now → into.new ≡ record { payload = pppoe_text (refusal_of port.now frame.now.src error ts); headroom = HEADROOM - HEADER } }
    ensures full { (ts : List PppoeTag) → AreTags ts frame.now.payload.now → ((result ≡ Written.Full) ↔ (LONGEST < length (pppoe_text (refusal_of port.now frame.now.src error ts)))) }
    ensures kept { result ≡ Written.Full → into.new ≡ into.old }
    ensures sent { (ts : List PppoeTag) → AreTags ts frame.now.payload.now → IsTrue (has_cookie port.now frame.now.src ts) → HEADER + length frame.now.payload.now ≤ LONGEST → result ≡ Written.Done }
{
    let list = refuse_list(&request_of(frame), error);
    put_frame(port, frame.src, PADS, 0, list.as_slice(), into)
}

/// Writes the PADT that tells a host that its session has ended (RFC 2516 section 5.5). It has no tags.
pub fn terminate(host: Mac, port: &PortRules, session: SessionNo, into: &mut Frame)
    ensures { into.new ≡ record { payload = pppoe_text (padt_of port.now host session.0); headroom = HEADROOM } }
{
    let header = Pppoe {
        dst: host,
        src: port.mac,
        discovery: true,
        code: PADT,
        session: session.0,
        payload: &[],
    }
    .header();
    into.set(&header);
}
