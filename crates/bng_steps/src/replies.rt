//! The frames that the gateway sends in discovery (RFC 2516 section 5).
ghost use Rattle.std.specs.Prelude.{◌≡◌, ◌<◌, ◌≤◌, ◌+◌, ◌++◌, List, length};
ghost use Rattle.bng_base.specs.PppoeGrammar.{PppoeTag, AreTags};
ghost use Rattle.bng_discovery.specs.Reply.{pado_of, pads_of, refusal_of};
ghost use Rattle.bng_steps.specs.Deed.{frame_outs};

use crate::drive::between;
use crate::sending::push_out;
use bng_base::{AccessPort, At, Batch, Frame, OutRecord, Role, SessionNo, Written};
use bng_discovery::{ErrorTag, PortRules, confirm, offer, refuse};
use bng_pppoe_wire::Pppoe;

/// Appends the PADO of a PADI, where a datagram holds it.
pub fn send_offer(
    outs: &mut Batch<OutRecord>,
    at: At,
    number: u8,
    port: &AccessPort,
    offers: &PortRules,
    frame: &Pppoe<'_>,
)
    requires room { length outs.old.items < outs.old.room }
    requires tags { (ts : List PppoeTag) × AreTags ts frame.now.payload.now × (length ts ≤ 64) }
    ensures items { (ts : List PppoeTag) → AreTags ts frame.now.payload.now → outs.new.items ≡ outs.old.items ++ frame_outs at number port.now (pado_of offers.now frame.now.src ts) }
    ensures capacity { outs.new.room ≡ outs.old.room }
    ensures few { length outs.new.items ≤ length outs.old.items + 1 }
{
    between(frame.src, offers.mac);
    let mut pado = Frame::new();
    match offer(frame, offers, &mut pado) {
        Written::Done => push_out(outs, at, Role::Access(number), port.peer, &pado, None),
        Written::Full => {}
    }
}

/// Appends the PADS of a session, where a datagram holds it.
pub fn send_session(
    outs: &mut Batch<OutRecord>,
    at: At,
    number: u8,
    port: &AccessPort,
    offers: &PortRules,
    frame: &Pppoe<'_>,
    session: SessionNo,
)
    requires room { length outs.old.items < outs.old.room }
    requires tags { (ts : List PppoeTag) × AreTags ts frame.now.payload.now × (length ts ≤ 64) }
    ensures items { (ts : List PppoeTag) → AreTags ts frame.now.payload.now → outs.new.items ≡ outs.old.items ++ frame_outs at number port.now (pads_of offers.now frame.now.src session.0 ts) }
    ensures capacity { outs.new.room ≡ outs.old.room }
    ensures few { length outs.new.items ≤ length outs.old.items + 1 }
{
    between(frame.src, offers.mac);
    let mut pads = Frame::new();
    match confirm(frame, offers, session, &mut pads) {
        Written::Done => push_out(outs, at, Role::Access(number), port.peer, &pads, None),
        Written::Full => {}
    }
}

/// Appends the PADS that refuses a session, where a datagram holds it.
pub fn send_refusal(
    outs: &mut Batch<OutRecord>,
    at: At,
    number: u8,
    port: &AccessPort,
    offers: &PortRules,
    frame: &Pppoe<'_>,
    error: ErrorTag,
)
    requires room { length outs.old.items < outs.old.room }
    requires tags { (ts : List PppoeTag) × AreTags ts frame.now.payload.now × (length ts ≤ 64) }
    ensures items { (ts : List PppoeTag) → AreTags ts frame.now.payload.now → outs.new.items ≡ outs.old.items ++ frame_outs at number port.now (refusal_of offers.now frame.now.src error ts) }
    ensures capacity { outs.new.room ≡ outs.old.room }
    ensures few { length outs.new.items ≤ length outs.old.items + 1 }
{
    between(frame.src, offers.mac);
    let mut pads = Frame::new();
    match refuse(frame, offers, error, &mut pads) {
        Written::Done => push_out(outs, at, Role::Access(number), port.peer, &pads, None),
        Written::Full => {}
    }
}
