//! The peers, and who of them is ready to say something.
ghost use Rattle.std.specs.Prelude.{◌≤◌};

use crate::asking::Asking;
use crate::lac::{PeerLac, News};
use crate::operator::Operator;
use crate::queue::Queue;
use crate::script::{LACS, ends, is_called, lac_of, subscriber_at};
use crate::server::{Acknowledged, PeerServer, Status};
use crate::subscriber::{SubscriberStage, Subscriber};
use crate::timers::Timers;
use bng_base::{Frame, Ip4, Peer};
use bng_l2tp_wire::{Control, Data};
use bng_ppp_wire::Ppp;
use bng_pppoe_wire::Pppoe;
use std::alloc::{AllocError, Global};

/// How many addresses there are whose last two octets differ.
const ADDRESSES: u32 = 65_536;

/// How many of those that stand in a queue may have nothing to say: the two access concentrators.
const TRIES: usize = 3;

/// The peers of a run. Subscribers stand in the queues by their numbers, the core behind them once more for each subscriber,
/// and the access concentrators last.
#[derive(Drop)]
pub(crate) struct Peers {
    subscribers: Vec<Subscriber>,
    count: u32,
    lacs: Vec<PeerLac>,
    auth: PeerServer,
    acct: PeerServer,
    operator: Operator,
    access: Queue,
    core: Queue,
    tunnel: Queue,
    timers: Timers,
    /// The subscriber with an address, one more than its number, by the address's last two octets.
    addressed: Vec<u16>,
}

/// A subscriber before it says anything: one over PPPoE is ready at once.
fn newcomer(number: u16) -> Subscriber {
    if is_called(number) {
        Subscriber::new(number, SubscriberStage::Calling, Asking::Nothing)
    } else {
        Subscriber::new(number, SubscriberStage::Initiating, Asking::ToSend)
    }
}

fn newcomers(alloc: Global, count: u32) -> Result<Vec<Subscriber>, AllocError> {
    let mut subscribers = Vec::new(alloc);
    for number in 0..count {
        subscribers.push(newcomer((number % 65_536) as u16))?;
    }
    Ok(subscribers)
}

// The two access concentrators, each with its channel's queue of some 37 KB.
#[inline(never)]
fn both_lacs(alloc: Global, count: u32) -> Result<Vec<PeerLac>, AllocError> {
    let mut lacs = Vec::new(alloc);
    for place in 0..2 {
        lacs.push(PeerLac::new(place, count))?;
    }
    Ok(lacs)
}

fn no_addresses(alloc: Global) -> Result<Vec<u16>, AllocError> {
    let mut addressed = Vec::new(alloc);
    for _ in 0..ADDRESSES {
        addressed.push(0)?;
    }
    Ok(addressed)
}

impl Peers {
    /// So many subscribers, none of which has said anything.
    #[inline(never)]
    pub(crate) fn new(alloc: Global, count: u32) -> Result<Peers, AllocError>
        requires { count ≤ 4000 }
    {
        let bound = 2 * count + 2;
        let mut peers = Peers {
            subscribers: newcomers(alloc, count)?,
            count,
            lacs: both_lacs(alloc, count)?,
            auth: PeerServer::new(alloc)?,
            acct: PeerServer::new(alloc)?,
            operator: Operator::new(count),
            access: Queue::new(alloc, bound)?,
            core: Queue::new(alloc, bound)?,
            tunnel: Queue::new(alloc, bound)?,
            timers: Timers::new(alloc, bound)?,
            addressed: no_addresses(alloc)?,
        };
        peers.begin();
        Ok(peers)
    }

    // The subscribers over PPPoE and the access concentrators are ready.
    fn begin(&mut self) {
        for number in 0..self.count {
            self.settle(number);
        }
        for place in 0..2u32 {
            let number = self.lac_number(place);
            self.tunnel.push(number);
        }
    }

    fn core_number(&self, number: u32) -> u32 {
        self.count.saturating_add(number)
    }

    fn lac_number(&self, place: u32) -> u32 {
        self.count.saturating_mul(2).saturating_add(place)
    }

    // Puts a subscriber, and the core for it, into the queues in which they belong after something was said or heard.
    fn settle(&mut self, number: u32) {
        let core = self.core_number(number);
        let Some(subscriber) = self.subscribers.get(number as usize) else {
            return;
        };
        if is_called(subscriber.number) {
            self.tunnel.set(number, subscriber.is_ready());
        } else {
            self.access.set(number, subscriber.is_ready());
        }
        let to_send = subscriber.core_asking == Asking::ToSend;
        self.core.set(core, to_send);
        if subscriber.asking != Asking::Sent {
            self.timers.stop(number);
        }
        if subscriber.core_asking != Asking::Sent {
            self.timers.stop(core);
        }
    }

    /// What was not answered in time is to be sent again.
    pub(crate) fn pass(&mut self, now: u64) {
        for _ in 0..self.lac_number(2) {
            let Some(number) = self.timers.take_due(now) else {
                return;
            };
            self.repeat(number);
        }
    }

    fn repeat(&mut self, number: u32) {
        let count = self.count;
        if number < count {
            if let Some(subscriber) = self.subscribers.get_mut(number as usize) {
                subscriber.asking = Asking::ToSend;
            }
            self.settle(number);
        } else if number < count.saturating_mul(2) {
            let number = number.saturating_sub(count);
            if let Some(subscriber) = self.subscribers.get_mut(number as usize) {
                subscriber.core_asking = Asking::ToSend;
            }
            self.settle(number);
        } else {
            self.repeat_lac(number);
        }
    }

    fn repeat_lac(&mut self, number: u32) {
        let place = number.saturating_sub(self.lac_number(0));
        if let Some(lac) = self.lacs.get_mut(place as usize) {
            lac.repeat();
            self.tunnel.push(number);
        }
    }

    // Those of odd number begin to end their links, one after the other, until one of them is ready at this queue.
    fn end_links(&mut self) {
        for _ in 0..2 {
            let Some(number) = self.operator.take_ending() else {
                return;
            };
            if let Some(subscriber) = self.subscribers.get_mut(number as usize) {
                subscriber.end_link();
            }
            self.settle(number);
        }
    }

    /// The next frame on the access port.
    pub(crate) fn say_access(&mut self, now: u64) -> Option<Frame> {
        self.end_links();
        let number = self.access.pop()?;
        let subscriber = self.subscribers.get_mut(number as usize)?;
        let frame = subscriber.frame();
        if subscriber.asking == Asking::Sent {
            self.timers.start_once(number, now);
        }
        self.settle(number);
        frame
    }

    /// The next packet of the core.
    pub(crate) fn say_core(&mut self, now: u64) -> Option<Frame> {
        let number = self.core.pop()?;
        let subscriber = self
            .subscribers
            .get_mut(number.saturating_sub(self.count) as usize)?;
        let frame = subscriber.core_packet();
        self.timers.start(number, now);
        Some(frame)
    }

    /// The next datagram of a tunnel, and who sends it.
    pub(crate) fn say_tunnel(&mut self, now: u64) -> Option<(Peer, Frame)> {
        self.end_links();
        for _ in 0..TRIES {
            let number = self.tunnel.pop()?;
            let said = if number < self.count {
                self.say_call(number, now)
            } else {
                self.say_lac(number, now)
            };
            if said.is_some() {
                return said;
            }
        }
        None
    }

    fn say_call(&mut self, number: u32, now: u64) -> Option<(Peer, Frame)> {
        let subscriber = self.subscribers.get_mut(number as usize)?;
        let place = usize::from(lac_of(subscriber.number));
        let lac = self.lacs.get(place)?;
        let frame = subscriber.data_message(lac.tunnel);
        if subscriber.asking == Asking::Sent {
            self.timers.start_once(number, now);
        }
        self.settle(number);
        Some((*LACS.get(place)?, frame?))
    }

    fn say_lac(&mut self, number: u32, now: u64) -> Option<(Peer, Frame)> {
        let place = number.saturating_sub(self.lac_number(0)) as usize;
        let lac = self.lacs.get_mut(place)?;
        let frame = lac.say(now)?;
        if lac.waits() {
            self.timers.start_once(number, now);
        }
        self.tunnel.push(number);
        Some((*LACS.get(place)?, frame))
    }

    /// The next Access-Accept.
    pub(crate) fn say_auth(&mut self) -> Option<Frame> {
        self.auth.say_accept()
    }

    /// The next Accounting-Response.
    pub(crate) fn say_acct(&mut self) -> Option<Frame> {
        let (frame, what) = self.acct.say_acknowledgement()?;
        self.note(what);
        Some(frame)
    }

    fn note(&mut self, what: Acknowledged) {
        let Some(number) = what.subscriber else {
            return;
        };
        let Some(subscriber) = self.subscribers.get_mut(usize::from(number)) else {
            return;
        };
        match what.status {
            Status::Interim if !subscriber.was_reported => {
                subscriber.was_reported = true;
                self.operator.note_report();
            }
            Status::Stop if ends(number) && !subscriber.was_stopped => {
                subscriber.was_stopped = true;
                self.operator.note_stop();
            }
            _ => {}
        }
    }

    /// Whether the operator says `stop` now.
    pub(crate) fn says_stop(&mut self) -> bool {
        self.operator.says_stop()
    }

    // A subscriber heard something, or a packet of it reached the core.
    fn follow(&mut self, number: u32, was: SubscriberStage) {
        let Some(subscriber) = self.subscribers.get(number as usize) else {
            return;
        };
        let place = (subscriber.address.0 % ADDRESSES) as usize;
        if was == SubscriberStage::Exchanging && subscriber.stage == SubscriberStage::Resting {
            self.operator.note_rest();
        }
        if was == SubscriberStage::Addressing && subscriber.stage == SubscriberStage::Exchanging {
            if let Some(addressed) = self.addressed.get_mut(place) {
                *addressed = subscriber.number.saturating_add(1);
            }
        }
        self.settle(number);
    }

    /// A frame came to the other end of the access port.
    pub(crate) fn hear_access(&mut self, bytes: &[u8]) {
        let Ok(frame) = Pppoe::read(bytes) else {
            return;
        };
        let Some(number) = subscriber_at(frame.dst) else {
            return;
        };
        let Some(subscriber) = self.subscribers.get_mut(usize::from(number)) else {
            return;
        };
        let was = subscriber.stage;
        subscriber.hear_frame(&frame);
        self.follow(u32::from(number), was);
    }

    /// A packet came to the other end of the core.
    pub(crate) fn hear_core(&mut self, bytes: &[u8]) {
        let Ok(header) = bng_ipv4::read(bytes) else {
            return;
        };
        let Some(number) = self.subscriber_with(header.src) else {
            return;
        };
        let Some(subscriber) = self.subscribers.get_mut(number as usize) else {
            return;
        };
        let was = subscriber.stage;
        subscriber.reach_core(bytes);
        self.follow(number, was);
    }

    fn subscriber_with(&self, address: Ip4) -> Option<u32> {
        let number = *self.addressed.get((address.0 % ADDRESSES) as usize)?;
        u32::from(number).checked_sub(1)
    }

    /// A control message came to an access concentrator.
    pub(crate) fn hear_control(&mut self, place: usize, message: &Control<'_>, now: u64) {
        let number = self.lac_number((place % 2) as u32);
        let Some(lac) = self.lacs.get_mut(place) else {
            return;
        };
        let news = lac.hear(message, now);
        self.timers.stop(number);
        if lac.waits() {
            self.timers.start(number, now);
        }
        self.tunnel.push(number);
        match news {
            News::Nothing => {}
            News::Connected { number, session } => {
                if let Some(subscriber) = self.subscribers.get_mut(usize::from(number)) {
                    subscriber.session = session;
                }
            }
            News::Ended { number } => self.end_call(number),
        }
    }

    fn end_call(&mut self, number: u16) {
        if let Some(subscriber) = self.subscribers.get_mut(usize::from(number)) {
            subscriber.end();
        }
        self.settle(u32::from(number));
    }

    /// A data message came to an access concentrator.
    pub(crate) fn hear_data(&mut self, message: &Data<'_>) {
        let Some(number) = message.session.checked_sub(1) else {
            return;
        };
        let Some(subscriber) = self.subscribers.get_mut(usize::from(number)) else {
            return;
        };
        let Ok(ppp) = Ppp::read(message.ppp) else {
            return;
        };
        let was = subscriber.stage;
        subscriber.hear(&ppp);
        self.follow(u32::from(number), was);
    }

    /// A request came to the server's end for Access-Requests.
    pub(crate) fn hear_auth(&mut self, bytes: &[u8]) {
        self.auth.hear(bytes);
    }

    /// A request came to the server's end for Accounting-Requests.
    pub(crate) fn hear_acct(&mut self, bytes: &[u8]) {
        self.acct.hear(bytes);
    }
}
