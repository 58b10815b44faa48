//! One end of a channel.
ghost use Rattle.std.specs.Prelude.{◌≡◌, ◌≢◌, ◌⊎◌, ◌+◌, ◌-◌, ◌^◌, ◌<◌, ◌≤◌, ◌↔◌, ℕ, length, IsTrue, IsSome, IsNone, IsSomeAnd, true, false, [], slice_get};
ghost use Rattle.bng_l2tp_reliable.specs.Calls.{oldest_ns, acknowledged, heard_of, next_out, flight_at};
ghost use Rattle.bng_l2tp_reliable.specs.Timers.{never, silence_due};
ghost use Rattle.bng_l2tp_reliable.specs.Flight.{IsUnanswered, flight_due, wait};
ghost use Rattle.bng_l2tp_reliable.specs.Numbers.{steps_to, steps_back};
ghost use Rattle.std.specs.List.{Any};

use crate::answers::{Due, Heard, Queued, or_else};
use crate::message::{copied, message_of};
use crate::number::{heard, nr_after, steps_back, steps_on, steps_to};
use crate::outgoing::Outgoing;
use crate::ring::{IN_FLIGHT_MOST, Ring, WAITING_MOST};
use crate::sent::{Sends, first, flight_deadline, flight_due, forget, send_again};
use std::marker::Model;

/// After how long a silence a HELLO is asked for, in milliseconds (RFC 2661 section 5.5).
pub const HELLO_AFTER: u64 = 60_000;

/// One end of the reliable control channel of a tunnel (RFC 2661 section 5.8).
///
/// A contract sees the messages that are not acknowledged, how often and when those in flight went out, its two numbers,
/// and the moments of its timers.
#[derive(Drop)]
pub struct Channel {
    window: usize,
    messages: Ring,
    sends: Sends,
    ns: u16,
    nr: u16,
    heard: u64,
    greeted: bool,
    moment: u64,
}

impl Model for Channel {
    ghost use Rattle.bng_l2tp_reliable.specs.ChannelState.{ChannelState};

    ghost Value = { ChannelState };

    ghost use Rattle.bng_l2tp_reliable.specs.Shown.{shown, IsKept};

    ghost view = { shown };

    ghost invariant = { IsKept };
}

impl Channel {
    ghost use Rattle.bng_l2tp_reliable.specs.ChannelState.{IsChannel, begun, in_flight, waiting, with_window};
    ghost use Rattle.bng_l2tp_reliable.specs.Calls.{queued_of, queued, received, after_next, is_full};
    ghost use Rattle.bng_l2tp_reliable.specs.Timers.{due_of, after_due, deadline_of};

    /// A channel that nothing was sent over, to a peer with that Receive Window Size (RFC 2661 section 4.4.3), at that
    /// moment in milliseconds. The window is the peer's, and 8 at most.
    pub fn new(window: u16, now: u64) -> Channel
        ensures begun { result ≡ begun window now }
        ensures sound { IsChannel result }
    {
        Channel {
            window: (window as usize).min(IN_FLIGHT_MOST),
            messages: Ring::new(),
            sends: Sends::new(),
            ns: 0,
            nr: 0,
            heard: now,
            greeted: false,
            moment: now,
        }
    }

    /// Makes that the peer's Receive Window Size (RFC 2661 section 4.4.3), and changes nothing else. The window is the peer's,
    /// and 8 at most. Messages in flight beyond it stay in flight, and none goes out for the first time while they do.
    pub fn set_window(&mut self, window: u16)
        ensures after { self.new ≡ with_window self.old window }
        ensures sound { IsChannel self.new }
    {
        self.window = (window as usize).min(IN_FLIGHT_MOST);
    }

    /// Whether 64 messages wait, so that [`Channel::send`] would leave one more out.
    pub fn is_full(&self) -> bool
        ensures full { IsTrue result ↔ (length (waiting self.now) ≡ 64) }
        ensures answer { result ≡ is_full self.now }
        ensures sound { IsChannel self.now }
    {
        self.messages.len() - self.sends.len() >= WAITING_MOST
    }

    /// Hands a message of at most 512 octets to the channel. It waits until [`Channel::next`] lets it out. Where 64
    /// messages wait it is left out.
    pub fn send(&mut self, message: &[u8], now: u64) -> Queued
        requires { length message.now ≤ 512 }
        ensures answer { result ≡ queued_of self.old }
        ensures full { (result ≡ Queued.WindowQueueFull) ↔ (length (waiting self.old) ≡ 64) }
        ensures after { self.new ≡ queued self.old (record { items = message.now }) now }
        ensures sound { IsChannel self.new }
    {
        self.moment = now;
        if self.messages.len() - self.sends.len() >= WAITING_MOST {
            return Queued::WindowQueueFull;
        }
        self.messages.push(message_of(message));
        Queued::Ok
    }

    /// Takes the numbers of a message, or of a ZLB, that came. Its Nr acknowledges the messages in flight before it, and
    /// its Ns says what it is.
    pub fn receive(&mut self, ns: u16, nr: u16, zlb: bool, now: u64) -> Heard
        ensures answer { result ≡ heard_of self.old.nr ns zlb }
        ensures acked { (result ≡ Heard.Acked) ↔ IsTrue zlb }
        ensures deliver { (result ≡ Heard.Deliver) ↔ ((zlb ≡ false) × (ns ≡ self.old.nr)) }
        // The last number received is the one before that of the next message.
        ensures repeated { (result ≡ Heard.Repeat) ↔ ((zlb ≡ false) × (steps_to ns (steps_back self.old.nr 1) ≤ 32767)) }
        ensures after { self.new ≡ received self.old ns nr zlb now }
        ensures sound { IsChannel self.new }
    {
        let count = self.acknowledged(nr);
        self.messages.forget(count);
        forget(&mut self.sends, count);
        self.heard = now;
        self.greeted = false;
        self.moment = now;
        let heard = heard(self.nr, ns, zlb);
        self.nr = nr_after(self.nr, ns, zlb);
        heard
    }

    /// What the timers ask for at that moment, in milliseconds. The wait of the oldest message in flight comes before a
    /// silence. A message goes out again 1, 3, 7, 15 and 23 seconds after it went out first, and is given up after 31.
    pub fn due(&mut self, now: u64) -> Due
        ensures answer { result ≡ due_of self.old now }
        ensures resend { (result ≡ Due.Resend) ↔ IsSomeAnd (slice_get self.old.sends 0)
            (λ oldest. (oldest.resends < 5) × (oldest.moment + wait oldest.resends ≤ now)) }
        ensures give_up { (result ≡ Due.GiveUp) ↔ Any (IsUnanswered now) self.old.sends }
        ensures hello { (result ≡ Due.Hello) ↔ ((flight_due self.old.sends now ≡ Due.Nothing)
            × (self.old.greeted ≡ false) × (self.old.heard + HELLO_AFTER ≤ now)) }
        ensures after { self.new ≡ after_due self.old now result }
        ensures sound { IsChannel self.new }
    {
        let due = self.due_at(now);
        self.moment = now;
        match due {
            Due::Nothing | Due::GiveUp => {}
            Due::Resend => send_again(&mut self.sends, now),
            Due::Hello => self.greeted = true,
        }
        due
    }

    /// The next message that the window lets out, which counts as sent at the last moment that the channel was given.
    pub fn next(&mut self) -> Option<Outgoing>
        ensures answer { result ≡ next_out self.old }
        ensures none { IsNone result ↔ ((self.old.window ≤ length self.old.sends) ⊎ (waiting self.old ≡ [])) }
        ensures after { self.new ≡ after_next self.old result }
        ensures sound { IsChannel self.new }
    {
        let out = self.next_out()?;
        self.sends.push(first(self.moment));
        self.ns = steps_on(self.ns, 1);
        Some(out)
    }

    /// The Ns and Nr of a ZLB that is sent now (RFC 2661 section 5.8): that of the next message, and that of the message
    /// that is expected next.
    pub fn numbers(&self) -> (u16, u16)
        ensures numbers { result ≡ (self.now.ns, self.now.nr) }
        ensures sound { IsChannel self.now }
    {
        (self.ns, self.nr)
    }

    /// The message in flight at that place, from 0, the oldest first.
    pub fn flight(&self, at: u8) -> Option<Outgoing>
        ensures answer { result ≡ flight_at self.now at }
        ensures none { IsNone result ↔ (length (in_flight self.now) ≤ at) }
        ensures sound { IsChannel self.now }
    {
        let place = at as usize;
        if self.sends.len() <= place {
            return None;
        }
        Some(Outgoing {
            ns: steps_on(self.oldest_ns(), at as u16),
            nr: self.nr,
            message: copied(self.messages.at(place)),
        })
    }

    /// The first moment, in milliseconds, at which [`Channel::due`] answers something else than Nothing, if no other call
    /// comes before; 2^64 - 1 where there is no such moment.
    pub fn deadline(&self) -> u64
        ensures answer { result ≡ deadline_of self.now }
        ensures sound { IsChannel self.now }
        ensures first { (moment : ℕ) → moment < never → (result ≤ moment) ↔ (due_of self.now moment ≢ Due.Nothing) }
    {
        let flight = flight_deadline(&self.sends);
        if self.greeted {
            flight
        } else {
            flight.min(self.heard.saturating_add(HELLO_AFTER))
        }
    }

    // What is due.
    fn due_at(&self, now: u64) -> Due
        ensures answer { result ≡ due_of self.now now }
        ensures give_up { (result ≡ Due.GiveUp) ↔ Any (IsUnanswered now) self.now.sends }
    {
        or_else(flight_due(&self.sends, now), self.silence_due(now))
    }

    // What a silence asks for.
    fn silence_due(&self, now: u64) -> Due
        ensures { result ≡ silence_due self.now now }
    {
        if !self.greeted && HELLO_AFTER <= now.saturating_sub(self.heard) {
            Due::Hello
        } else {
            Due::Nothing
        }
    }

    // The next message that the window lets out.
    fn next_out(&self) -> Option<Outgoing>
        ensures answer { result ≡ next_out self.now }
        ensures none { IsNone result ↔ ((self.now.window ≤ length self.now.sends) ⊎ (waiting self.now ≡ [])) }
        ensures room { IsSome result
            → (length self.now.sends < self.now.window) × (length self.now.sends < length self.now.messages) }
    {
        let place = self.sends.len();
        if self.window <= place || self.messages.len() <= place {
            return None;
        }
        Some(Outgoing {
            ns: self.ns,
            nr: self.nr,
            message: copied(self.messages.at(place)),
        })
    }

    // The Ns of the oldest message in flight.
    fn oldest_ns(&self) -> u16
        ensures { result ≡ oldest_ns self.now }
    {
        steps_back(self.ns, self.sends.len() as u16)
    }

    // How many messages in flight an Nr acknowledges.
    fn acknowledged(&self, nr: u16) -> usize
        ensures { result ≡ acknowledged self.now nr }
    {
        let before = steps_to(self.oldest_ns(), nr) as usize;
        if before <= self.sends.len() {
            before
        } else {
            0
        }
    }
}
