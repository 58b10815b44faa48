ghost use Rattle.std.specs.Prelude.{◌≡◌, ◌≢◌, ◌≤◌, ◌↔◌, List, length, IsTrue, IsFalse, false, Some};
ghost use Rattle.std.specs.List.{list_any};
ghost use Rattle.std.specs.Option.{option_map};
ghost use Rattle.std.specs.Str.{bytes_eq};
ghost use Rattle.bng_base.specs.PppoeGrammar.{PppoeTag, AreTags};
ghost use Rattle.bng_pppoe_wire.specs.View.{tag_of, frame_of};
ghost use Rattle.bng_discovery.specs.Request.{asked_service, is_served as is_offered, cookie_of, has_value, has_cookie};
ghost use Rattle.bng_discovery.specs.Reply.{pado_of, has_pads};
ghost use Rattle.bng_discovery.specs.Table.{table, first_row, AsksAnew, fits as is_sent};
ghost use Rattle.bng_discovery.specs.Cases.{padi_answer, padr_answer};

use crate::answers::{Answer, ErrorTag};
use crate::cookie::cookie_for;
use crate::listing::offer_list;
use crate::port::PortRules;
use crate::reply::is_short;
use crate::request::{DiscoveryRequest, request_of};
use arrayvec::ArrayVec;
use bng_base::Mac;
use bng_pppoe_wire::code::{PADI, PADR, PADT};
use bng_pppoe_wire::{Pppoe, Tag};

fn is_listed(names: &[ArrayVec<u8, 64>], service: &[u8]) -> bool
    ensures { result ≡ list_any (λ s. bytes_eq s.items service.now) names.now }
{
    names.iter().any(|name| name.as_slice() == service)
}

fn is_served(port: &PortRules, service: &[u8]) -> bool
    ensures { result ≡ is_offered port.now service.now }
{
    service.is_empty() || is_listed(port.services.as_slice(), service)
}

fn has(tag: Option<Tag<'_>>, value: &[u8]) -> bool
    ensures { result ≡ has_value value.now (option_map tag_of tag.entry) }
{
    match tag {
        Some(tag) => tag.value == value,
        None => false,
    }
}

// whether the PADO of a PADI has at most 4,096 octets
fn fits(frame: &Pppoe<'_>, port: &PortRules) -> bool
    requires { (ts : List PppoeTag) × AreTags ts frame.now.payload.now × (length ts ≤ 64) }
    ensures { (ts : List PppoeTag) → AreTags ts frame.now.payload.now → result ≡ is_sent (pado_of port.now frame.now.src ts) }
{
    let cookie = cookie_for(port, frame.src);
    let list = offer_list(&request_of(frame), port, &cookie);
    is_short(port.mac, frame.src, list.as_slice())
}

/// What a discovery frame is answered: the answer of the first case of the table that holds. Of a PADR `known` says that
/// the same host made a session with the same Host-Uniq and AC-Cookie, whose LCP was never Opened, and of a PADT that its
/// session is there. `room` says that there may be one session more.
pub fn answer(frame: &Pppoe<'_>, port: &PortRules, known: bool, room: bool) -> Answer
    requires { (ts : List PppoeTag) × AreTags ts frame.now.payload.now × (length ts ≤ 64) }
    ensures row { (ts : List PppoeTag) → AreTags ts frame.now.payload.now → Some result ≡ first_row (table port.now (frame_of frame.now) ts known room) }
    ensures no_service { (ts : List PppoeTag) → AreTags ts frame.now.payload.now → ((result ≡ Answer.Refuse ErrorTag.ServiceNameError) ↔ (AsksAnew port.now (frame_of frame.now) ts known × IsFalse (is_offered port.now (asked_service ts)))) }
    ensures no_room { (ts : List PppoeTag) → AreTags ts frame.now.payload.now → ((result ≡ Answer.Refuse ErrorTag.AcSystemError) ↔ (AsksAnew port.now (frame_of frame.now) ts known × IsTrue (is_offered port.now (asked_service ts)) × IsFalse room)) }
    ensures no_session { (result ≡ Answer.NoSession) ↔ ((frame.now.code ≡ PADT) × IsFalse known) }
    ensures offered { (ts : List PppoeTag) → AreTags ts frame.now.payload.now → result ≡ Answer.Offer → IsTrue (is_sent (pado_of port.now frame.now.src ts)) }
    ensures offered_before { (ts : List PppoeTag) → AreTags ts frame.now.payload.now → IsTrue (has_pads result) → IsTrue (has_cookie port.now frame.now.src ts) }
{
    match frame.code {
        PADI => answer_padi(frame, port),
        PADR => answer_padr(&request_of(frame), frame.src, port, known, room),
        PADT if known => Answer::Ended,
        PADT => Answer::NoSession,
        _ => Answer::Ignore,
    }
}

fn answer_padi(frame: &Pppoe<'_>, port: &PortRules) -> Answer
    requires { (ts : List PppoeTag) × AreTags ts frame.now.payload.now × (length ts ≤ 64) }
    ensures no_pads { has_pads result ≡ false }
    ensures no_padt { result ≢ Answer.NoSession }
    ensures value { (ts : List PppoeTag) → AreTags ts frame.now.payload.now → result ≡ padi_answer (is_offered port.now (asked_service ts)) (is_sent (pado_of port.now frame.now.src ts)) }
{
    if !is_served(port, request_of(frame).service) {
        return Answer::Ignore;
    }
    if !fits(frame, port) {
        return Answer::Ignore;
    }
    Answer::Offer
}

fn answer_padr(
    request: &DiscoveryRequest<'_>,
    host: Mac,
    port: &PortRules,
    known: bool,
    room: bool,
) -> Answer
    ensures no_pado { result ≢ Answer.Offer }
    ensures value { result ≡ padr_answer (has_value (cookie_of port.now host) (option_map tag_of request.now.cookie)) known (is_offered port.now request.now.service.now) room }
{
    if !has(request.cookie, &cookie_for(port, host)) {
        return Answer::Ignore;
    }
    if known {
        return Answer::Again;
    }
    if !is_served(port, request.service) {
        return Answer::Refuse(ErrorTag::ServiceNameError);
    }
    if !room {
        return Answer::Refuse(ErrorTag::AcSystemError);
    }
    Answer::Make
}
