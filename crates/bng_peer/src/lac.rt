//! An access concentrator: one tunnel to the gateway, and the calls in it (RFC 2661).
use crate::script::LAC_SECRET;
use crate::tunnel_message::{
    iccn, icrq, number_of, scccn, scccn_unchallenged, sccrq, value_of, zlb,
};
use bng_base::Frame;
use bng_digest::md5_of;
use bng_l2tp_reliable::{Channel, Heard, IN_FLIGHT_MOST, MESSAGE_MOST, Outgoing, Queued};
use bng_l2tp_wire::Control;
use bng_l2tp_wire::kind::{ASSIGNED_SESSION_ID, ASSIGNED_TUNNEL_ID, CHALLENGE, MESSAGE_TYPE};
use bng_l2tp_wire::message::{CDN, ICRP, SCCCN, SCCRP, STOP_CCN};

/// How many calls it asks for before the first of them is answered.
const CALLS_AT_ONCE: u8 = 4;

/// One subscriber in eight is called by the same access concentrator.
const EVERY: u32 = 8;

/// The octets of a control message's header, and where Tunnel ID and Ns stand in it (RFC 2661 section 3.1).
const HEADER: usize = 12;

const TUNNEL_AT: usize = 4;

const NS_AT: usize = 8;

/// The Receive Window Size of a gateway that does not say another one (RFC 2661 section 4.4.3).
const WINDOW: u16 = 4;

/// What a message says of a call.
#[derive(Clone, Copy)]
pub(crate) enum News {
    Nothing,
    /// The gateway gave the call of a subscriber this session.
    Connected { number: u16, session: u16 },
    /// The call of a subscriber has ended.
    Ended { number: u16 },
}

/// An access concentrator.
#[derive(Drop)]
pub(crate) struct PeerLac {
    /// The number that it gives its tunnel.
    pub(crate) number: u16,
    /// The number that the gateway gave it, 0 where none is known.
    pub(crate) tunnel: u16,
    channel: Channel,
    /// It is to acknowledge a message.
    owes: bool,
    stands: bool,
    /// The next subscriber that it calls for.
    next_call: u32,
    /// How many subscribers there are.
    subscribers: u32,
    /// How many calls were asked for and not answered.
    unanswered: u8,
    /// The place in flight of the next message that is sent again.
    again: u8,
}

/// A call's number, which is never 0, by its subscriber's.
pub(crate) fn call_of(subscriber: u16) -> u16 {
    subscriber.saturating_add(1)
}

/// A message of the channel as it goes out.
fn datagram(tunnel: u16, out: &Outgoing) -> Frame {
    let mut frame = Frame::new();
    frame.set(out.message.as_slice());
    if out.message.len() < HEADER {
        return frame;
    }
    let [ns1, ns0] = out.ns.to_be_bytes();
    let [nr1, nr0] = out.nr.to_be_bytes();
    frame.overwrite(TUNNEL_AT, &tunnel.to_be_bytes());
    frame.overwrite(NS_AT, &[ns1, ns0, nr1, nr0]);
    frame
}

/// The answer to a Challenge, in an SCCCN (RFC 2661 section 4.2).
fn response(challenge: &[u8]) -> [u8; 16] {
    md5_of(&[&[SCCCN as u8], LAC_SECRET, challenge])
}

impl PeerLac {
    /// The access concentrator at this place, from 0. It asks for a tunnel.
    #[inline(never)]
    pub(crate) fn new(place: u16, subscribers: u32) -> PeerLac {
        let number = if place == 0 { 1 } else { 2 };
        let mut lac = PeerLac {
            number,
            tunnel: 0,
            channel: Channel::new(WINDOW, 0),
            owes: false,
            stands: false,
            next_call: if place == 0 { 3 } else { 7 },
            subscribers,
            unanswered: 0,
            again: IN_FLIGHT_MOST as u8,
        };
        lac.queue(&sccrq(number), 0);
        lac
    }

    // Hands a message to the channel. Fewer wait there than it has room for.
    fn queue(&mut self, message: &Frame, now: u64) {
        let text = message.payload();
        if text.len() > MESSAGE_MOST {
            return;
        }
        match self.channel.send(text, now) {
            Queued::Ok | Queued::WindowQueueFull => {}
        }
    }

    /// Whether a message is in flight.
    pub(crate) fn waits(&self) -> bool {
        self.channel.flight(0).is_some()
    }

    /// Its messages in flight are to go out again.
    pub(crate) fn repeat(&mut self) {
        self.again = 0;
    }

    /// The next datagram that it sends.
    pub(crate) fn say(&mut self, now: u64) -> Option<Frame> {
        if let Some(out) = self.next(now) {
            self.owes = false;
            return Some(datagram(self.tunnel, &out));
        }
        if !self.owes {
            return None;
        }
        self.owes = false;
        let (ns, nr) = self.channel.numbers();
        Some(zlb(self.tunnel, ns, nr))
    }

    // A message that goes out again, the next one that waits, or the next call.
    fn next(&mut self, now: u64) -> Option<Outgoing> {
        if let Some(out) = self.channel.flight(self.again) {
            self.again = self.again.saturating_add(1);
            return Some(out);
        }
        self.again = IN_FLIGHT_MOST as u8;
        if let Some(out) = self.channel.next() {
            return Some(out);
        }
        if !self.may_call() {
            return None;
        }
        self.call(now);
        self.channel.next()
    }

    fn may_call(&self) -> bool {
        self.stands && self.unanswered < CALLS_AT_ONCE && self.next_call < self.subscribers
    }

    fn call(&mut self, now: u64) {
        let subscriber = (self.next_call % 65_536) as u16;
        self.next_call = self.next_call.saturating_add(EVERY);
        self.unanswered = self.unanswered.saturating_add(1);
        self.queue(&icrq(call_of(subscriber)), now);
    }

    /// Takes a control message.
    pub(crate) fn hear(&mut self, message: &Control<'_>, now: u64) -> News {
        let zlb = message.avps.is_empty();
        let heard = self.channel.receive(message.ns, message.nr, zlb, now);
        self.again = IN_FLIGHT_MOST as u8;
        if zlb {
            return News::Nothing;
        }
        self.owes = true;
        if heard != Heard::Deliver {
            return News::Nothing;
        }
        match number_of(message, MESSAGE_TYPE) {
            Some(SCCRP) => self.connect(message, now),
            Some(ICRP) => self.complete(message, now),
            Some(CDN) => end(message),
            Some(STOP_CCN) => {
                self.stands = false;
                News::Nothing
            }
            _ => News::Nothing,
        }
    }

    // The gateway gave the tunnel a number: it is completed, and stands from then on.
    fn connect(&mut self, message: &Control<'_>, now: u64) -> News {
        let Some(tunnel) = number_of(message, ASSIGNED_TUNNEL_ID) else {
            return News::Nothing;
        };
        self.tunnel = tunnel;
        let completion = match value_of(message, CHALLENGE) {
            Some(challenge) => scccn(&response(challenge)),
            None => scccn_unchallenged(),
        };
        self.queue(&completion, now);
        self.stands = true;
        News::Nothing
    }

    // The gateway gave a call a session: it is completed.
    fn complete(&mut self, message: &Control<'_>, now: u64) -> News {
        let Some(session) = number_of(message, ASSIGNED_SESSION_ID) else {
            return News::Nothing;
        };
        self.unanswered = self.unanswered.saturating_sub(1);
        self.queue(&iccn(session), now);
        News::Connected {
            number: message.session.saturating_sub(1),
            session,
        }
    }
}

fn end(message: &Control<'_>) -> News {
    News::Ended {
        number: message.session.saturating_sub(1),
    }
}
