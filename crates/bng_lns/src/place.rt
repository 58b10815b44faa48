ghost use Rattle.std.specs.Prelude.{◌≡◌, ◌≤◌, ℕ, true, length};
ghost use Rattle.std.specs.List.{AllByRecursion};
ghost use Rattle.bng_l2tp_wire.specs.View.{control_of, payloads};
ghost use Rattle.bng_l2tp_tunnel.specs.Sound.{IsTunnel, IsSpelled};
ghost use Rattle.bng_l2tp_tunnel.specs.Steps.{stands, message_step, due_step, stop_step};
ghost use Rattle.bng_lns.specs.Places.{is_free as is_free_at, is_numbered as has_number, same_peer as is_same_peer, is_named as is_named_by, is_number as is_same_number, is_again as comes_again, place_of, deadline_in as deadline_of_place, is_due as is_due_at, IsPlace};
ghost use Rattle.bng_lns.specs.Tunnels.{Steps, answer_of, outs_of, hands_over};
ghost use Rattle.bng_lns.specs.Timed.{telling_of};

use crate::outcome::{Came, MessageOutcome, TunnelOutcome};
use bng_base::{Peer, TunnelNo};
use bng_l2tp_tunnel::Tunnel;
use bng_l2tp_wire::Control;

/// How long a number stays unused after its tunnel was cleared, in milliseconds (RFC 2661 section 5.7).
const REST: u64 = 31_000;

/// A place for the tunnel of one number: the tunnel that has it, or had it last, and the moment of its last step in milliseconds.
#[derive(Drop)]
pub struct TunnelPlace {
    pub(crate) tunnel: Tunnel,
    pub(crate) since: u64,
}

/// The number may be given: its tunnel was cleared 31 seconds ago.
pub(crate) fn is_free(place: &TunnelPlace, now: u64) -> bool
    ensures { result ≡ is_free_at now place.now }
{
    !place.tunnel.is_standing() && REST <= now.saturating_sub(place.since)
}

/// The place has the tunnel with this number.
pub(crate) fn is_numbered(place: &TunnelPlace, number: u16) -> bool
    ensures { result ≡ has_number number place.now }
{
    place.tunnel.is_standing() && place.tunnel.number().0 == number
}

fn same_peer(a: Peer, b: Peer) -> bool
    ensures { result ≡ is_same_peer a b }
{
    a.ip.0 == b.ip.0 && a.port == b.port
}

/// The place has the tunnel with this number, and it is this peer's.
pub(crate) fn is_named(place: &TunnelPlace, from: Peer, number: u16) -> bool
    ensures { result ≡ is_named_by from number place.now }
{
    is_numbered(place, number) && same_peer(place.tunnel.peer(), from)
}

fn is_number(found: Option<u16>, number: u16) -> bool
    ensures { result ≡ is_same_number found number }
{
    match found {
        Some(found) => found == number,
        None => false,
    }
}

/// The place has the tunnel of this peer with this Assigned Tunnel ID.
pub(crate) fn is_again(place: &TunnelPlace, from: Peer, id: Option<u16>) -> bool
    ensures { result ≡ comes_again from id place.now }
{
    match id {
        Some(id) => {
            place.tunnel.is_standing()
                && same_peer(place.tunnel.peer(), from)
                && is_number(place.tunnel.peer_number(), id)
        }
        None => false,
    }
}

/// The first moment, in milliseconds, at which the timers of the tunnel ask for something; 2^64 - 1 where none stands.
pub(crate) fn deadline_in(place: &TunnelPlace) -> u64
    ensures { result ≡ deadline_of_place place.now }
{
    if place.tunnel.is_standing() {
        place.tunnel.deadline()
    } else {
        u64::MAX
    }
}

/// The timers of the tunnel ask for something at that moment.
pub(crate) fn is_due(place: &TunnelPlace, now: u64) -> bool
    ensures { result ≡ is_due_at now place.now }
{
    place.tunnel.is_standing() && place.tunnel.deadline() <= now
}

/// The tunnel takes a message.
#[inline(never)]
pub(crate) fn hear_in(place: &mut TunnelPlace, came: &Came, message: &Control<'_>) -> MessageOutcome
    ensures answer { answer_of result ≡ Steps place.old.tunnel.number (message_step place.old.tunnel (control_of message.now) came.now.random came.now.moment).said }
    ensures after { place.new ≡ place_of came.now.moment (message_step place.old.tunnel (control_of message.now) came.now.random came.now.moment).after }
    ensures kept { (number : ℕ) → IsPlace number place.old → IsPlace number place.new }
    ensures spelled { IsTunnel place.old.tunnel → AllByRecursion IsSpelled (outs_of (answer_of result)) }
    ensures few { length (outs_of (answer_of result)) ≤ 9 }
    ensures room { hands_over (answer_of result) ≡ true → length (outs_of (answer_of result)) ≤ 8 }
    ensures stands { hands_over (answer_of result) ≡ true → stands place.new.tunnel.phase ≡ true }
{
    let number = place.tunnel.number();
    let step = place.tunnel.on_message(message, &came.random, came.moment);
    place.since = came.moment;
    MessageOutcome::Step { number, step }
}

/// The tunnel does what its timers ask for.
#[inline(never)]
pub(crate) fn remind_in(place: &mut TunnelPlace, now: u64) -> TunnelOutcome
    ensures told { telling_of result ≡ record { number = place.old.tunnel.number; peer = place.old.tunnel.peer; said = (due_step place.old.tunnel now).said } }
    ensures after { place.new ≡ place_of now (due_step place.old.tunnel now).after }
    ensures kept { (number : ℕ) → IsPlace number place.old → IsPlace number place.new }
    ensures spelled { IsTunnel place.old.tunnel → AllByRecursion IsSpelled (payloads result.step.outs.items) }
    ensures few { length (payloads result.step.outs.items) ≤ 8 }
{
    let number = place.tunnel.number();
    let peer = place.tunnel.peer();
    let step = place.tunnel.due(now);
    place.since = now;
    TunnelOutcome { number, peer, step }
}

/// The tunnel tells its peer that the gateway shuts down.
#[inline(never)]
pub(crate) fn stop_in(place: &mut TunnelPlace, now: u64) -> TunnelOutcome
    ensures told { telling_of result ≡ record { number = place.old.tunnel.number; peer = place.old.tunnel.peer; said = (stop_step place.old.tunnel now).said } }
    ensures after { place.new ≡ place_of now (stop_step place.old.tunnel now).after }
    ensures kept { (number : ℕ) → IsPlace number place.old → IsPlace number place.new }
    ensures spelled { IsTunnel place.old.tunnel → AllByRecursion IsSpelled (payloads result.step.outs.items) }
    ensures one { IsTunnel place.old.tunnel → length (payloads result.step.outs.items) ≤ 1 }
{
    let number = place.tunnel.number();
    let peer = place.tunnel.peer();
    let step = place.tunnel.stop(now);
    place.since = now;
    TunnelOutcome { number, peer, step }
}
