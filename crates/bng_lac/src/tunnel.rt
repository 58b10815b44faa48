ghost use Rattle.std.specs.Prelude.{◌≡◌, ◌≢◌, ◌⊎◌, ◌<◌, ◌≤◌, ◌↔◌, ℕ, length, true, false, IsTrue, IsNone, IfOk, None, Some, is_some};
ghost use Rattle.std.specs.Option.{option_and_then};
ghost use Rattle.bng_l2tp_reliable.specs.ChannelState.{waiting};
ghost use Rattle.bng_l2tp_reliable.specs.Timers.{never, due_of, after_due, deadline_of};
ghost use Rattle.bng_l2tp_wire.specs.View.{control_of, octets_of, payloads, said};
ghost use Rattle.bng_l2tp_tunnel.specs.Spelling.{stop_ccn as stop_ccn_of, hello as hello_of, shut_down as code_of_shut_down};
ghost use Rattle.bng_lac.specs.LacState.{unused, is_used as is_in_use, is_waiting as is_wait_reply, is_established as is_up_tunnel, AreRising};
ghost use Rattle.bng_lac.specs.Calls.{call_of, without_call};
ghost use Rattle.bng_lac.specs.Steps.{opened, answered, clears, lac_step, waiting_most, has_no_room, called_of, called, asked_for, with_new_call, up_of, parting, parted, ended_by, reminded, due_step, stop_step};

use crate::call::LacCall;
use crate::called::Called;
use crate::calls::Calls;
use crate::error::LacError;
use crate::phase::LacPhase;
use crate::rules::LacRules;
use crate::spelling::{icrq, sccrq};
use bng_base::{NOBODY, Peer, SessionNo, TunnelNo, TunnelStep};
use bng_l2tp_call::{administrative, cdn};
use bng_l2tp_reliable::{Channel, Due, Queued};
use bng_l2tp_tunnel::{Acknowledging, hello, outs_of, resent, shut_down, stop_ccn};
use bng_l2tp_wire::Control;
use bng_l2tp_wire::secret::{copied, copied_secret};
use bng_l2tp_wire::step::{cleared, nothing, sends};
use bng_l2tp_wire::values::DEFAULT_WINDOW;
use std::alloc::Global;
use std::marker::Model;

/// How many calls wait for a tunnel at most.
pub const WAITING_FOR_TUNNEL_MOST: usize = 63;

/// A tunnel to a network server, as its access concentrator sees it (RFC 2661 sections 7.2 and 7.4.1).
///
/// A contract sees the rules that it was made with, both tunnel numbers, the server, how far it has come, the Challenge that
/// was sent, its channel, its calls by rising session number, and the Call Serial Number of the next one. It holds its channel's
/// queue, some 33 KB, in itself.
///
/// It is in use from [`LacTunnel::open`] until a step says that it was cleared, which ends its calls. In the steps that it gives,
/// the outs are whole datagrams for the server, `opened` says that the message's call came to be up, and `ended` that it ended;
/// `call` is false.
#[derive(Drop)]
pub struct LacTunnel {
    pub(crate) rules: LacRules,
    pub(crate) number: TunnelNo,
    pub(crate) lns: Peer,
    pub(crate) phase: LacPhase,
    pub(crate) peer_number: Option<u16>,
    pub(crate) challenge: [u8; 16],
    pub(crate) channel: Channel,
    pub(crate) calls: Calls,
    pub(crate) serial: u32,
}

impl Model for LacTunnel {
    ghost use Rattle.bng_lac.specs.LacState.{LacState};
    ghost use Rattle.bng_l2tp_wire.specs.View.{octets_of};

    ghost Value = { LacState };

    ghost view = { λ t. record {
      name = t.rules.name.items;
      secret = octets_of t.rules.secret;
      number = t.number.0;
      lns = t.lns;
      phase = t.phase;
      peer_number = t.peer_number;
      challenge = t.challenge;
      channel = t.channel;
      calls = t.calls;
      serial = t.serial;
    } };
}

impl LacTunnel {
    /// A tunnel that is not in use, with room for 1,022 calls.
    ///
    /// # Errors
    ///
    /// [`LacError::OutOfMemory`]: there is no memory for the calls.
    pub fn new(alloc: Global, rules: &LacRules) -> Result<LacTunnel, LacError>
        ensures { IfOk result (λ t. t ≡ unused rules.now) }
    {
        let calls = Calls::open(alloc)?;
        Ok(LacTunnel {
            rules: LacRules {
                name: copied(&rules.name),
                secret: copied_secret(&rules.secret),
            },
            number: TunnelNo(0),
            lns: NOBODY,
            phase: LacPhase::Idle,
            peer_number: None,
            challenge: [0; 16],
            channel: Channel::new(DEFAULT_WINDOW, 0),
            calls,
            serial: 1,
        })
    }

    /// Asks a network server for a tunnel, which gets this number, at that moment in milliseconds (RFC 2661 section 6.1).
    /// `random` is the Challenge of the SCCRQ, where there is a secret. The SCCRQ waits until [`LacTunnel::due`] lets it out.
    pub fn open(&mut self, lns: Peer, number: TunnelNo, random: &[u8; 16], now: u64)
        requires { is_in_use self.old.phase ≡ false }
        ensures { self.new ≡ opened self.old lns number.0 random.now now }
    {
        let request = sccrq(
            self.rules.name.as_slice(),
            number.0,
            &self.rules.secret,
            random,
        );
        self.number = number;
        self.lns = lns;
        self.phase = LacPhase::WaitReply;
        self.peer_number = None;
        self.challenge = *random;
        self.channel = Channel::new(DEFAULT_WINDOW, now);
        let _ = self.channel.send(request.payload(), now);
        self.calls.clear();
        self.serial = 1;
    }

    /// Asks the server for a call of this session (RFC 2661 section 6.6): at once where the tunnel is established, and else as
    /// it comes to be so. The ICRQ waits until [`LacTunnel::due`] lets it out. Full comes exactly where 63 calls wait for the
    /// tunnel or 64 messages wait in its channel, and changes nothing.
    pub fn call(&mut self, session: SessionNo, now: u64) -> Called
        requires used { is_in_use self.old.phase ≡ true }
        requires fresh { call_of session.0 self.old.calls ≡ None }
        requires room { length self.old.calls < 1022 }
        ensures answer { result ≡ called_of self.old }
        ensures full { (result ≡ Called.Full) ↔ (((is_wait_reply self.old.phase ≡ true) × (63 ≤ length self.old.calls)) ⊎ (length (waiting self.old.channel) ≡ 64)) }
        ensures after { self.new ≡ called self.old session now }
    {
        if self.has_no_room() {
            return Called::Full;
        }
        self.add(session, now);
        Called::Asked
    }

    /// Takes a control message of the server, at that moment in milliseconds (RFC 2661 sections 5 to 7). The random octets do
    /// not count.
    ///
    /// An SCCRP establishes the tunnel: an SCCCN goes out, and an ICRQ for each call that waits, by rising session number. An
    /// ICRP brings its call up, and is answered by an ICCN. A CDN ends its call, and a StopCCN clears the tunnel. A message that
    /// the tunnel refuses is answered by a StopCCN, which clears it; one that its call refuses by a CDN, which ends the call. A
    /// call's message in an established tunnel whose call is not known or does not take it is acknowledged and changes nothing.
    #[tactic(auto, unfolding(crate::specs::Steps::lac_step))]
    pub fn on_message(&mut self, message: &Control<'_>, random: &[u8; 16], now: u64) -> TunnelStep
        requires { is_in_use self.old.phase ≡ true }
        ensures said { said result ≡ (lac_step self.old (control_of message.now) random.now now).said }
        ensures after { self.new ≡ (lac_step self.old (control_of message.now) random.now now).after }
    {
        let _ = random;
        self.hear(message, now)
    }

    /// The server's tunnel and session of a session's call. None comes exactly where the session has no call that is up.
    pub fn up(&self, session: SessionNo) -> Option<(u16, u16)>
        ensures answer { result ≡ up_of self.now session.0 }
        ensures none { IsNone result ↔ (option_and_then (λ (c : LacCall). c.peer) (call_of session.0 self.now.calls) ≡ None) }
    {
        let call = self.calls.find(session.0)?;
        let peer = call.peer?;
        Some((self.to_peer(), peer))
    }

    /// Ends the call of this session by a CDN with Result Code 3, where the server was asked for it and fewer than 64 messages
    /// wait (RFC 2661 section 6.12). A session without a call changes nothing.
    pub fn end(&mut self, session: SessionNo, now: u64)
        ensures { self.new ≡ ended_by self.old session.0 now }
    {
        let Some(call) = self.calls.find(session.0) else {
            return;
        };
        self.part(call, now);
        self.calls.remove(call.session.0);
    }

    /// Sends what the window lets out, and does what the channel's timers ask for at that moment, in milliseconds (RFC 2661
    /// sections 5.5 and 5.8): the messages in flight go out again, a HELLO is sent, or the tunnel is cleared, since the server
    /// does not answer.
    #[tactic(auto, unfolding(crate::specs::Steps::due_step))]
    pub fn due(&mut self, now: u64) -> TunnelStep
        requires { is_in_use self.old.phase ≡ true }
        ensures said { said result ≡ (due_step self.old now).said }
        ensures after { self.new ≡ (due_step self.old now).after }
    {
        match self.channel.due(now) {
            Due::Nothing => self.flush(Acknowledging::Never),
            Due::Resend => self.resend(),
            Due::Hello => {
                let message = hello();
                self.queue(message.payload(), now, Acknowledging::Never)
            }
            Due::GiveUp => {
                self.forget();
                cleared(nothing())
            }
        }
    }

    /// The first moment, in milliseconds, at which the channel's timers ask for something, if no other call comes before;
    /// 2^64 - 1 where there is no such moment.
    pub fn deadline(&self) -> u64
        requires { is_in_use self.now.phase ≡ true }
        ensures answer { result ≡ deadline_of self.now.channel }
        ensures first { (moment : ℕ) → moment < never → (result ≤ moment) ↔ (due_of self.now.channel moment ≢ Due.Nothing) }
    {
        self.channel.deadline()
    }

    /// Tells the server by a StopCCN with Result Code 6 that the gateway shuts down, at that moment in milliseconds (RFC 2661
    /// section 6.4), which clears the tunnel.
    #[tactic(auto, unfolding(crate::specs::Steps::stop_step))]
    pub fn stop(&mut self, now: u64) -> TunnelStep
        requires { is_in_use self.old.phase ≡ true }
        ensures said { said result ≡ (stop_step self.old now).said }
        ensures after { self.new ≡ (stop_step self.old now).after }
    {
        let stop = stop_ccn(0, 0, self.number.0, shut_down());
        let step = self.queue(stop.payload(), now, Acknowledging::Never);
        self.forget();
        cleared(step)
    }

    /// Whether the tunnel was opened and was not cleared.
    pub fn used(&self) -> bool
        ensures { result ≡ is_in_use self.now.phase }
    {
        match self.phase {
            LacPhase::WaitReply | LacPhase::Established => true,
            LacPhase::Idle => false,
        }
    }

    /// Whether a session has a call, which may not be up.
    pub fn has_call(&self, session: SessionNo) -> bool
        ensures { result ≡ is_some (call_of session.0 self.now.calls) }
    {
        self.calls.find(session.0).is_some()
    }

    /// The calls, by rising session number.
    pub fn calls(&self) -> &[LacCall]
        ensures calls { result.now ≡ self.now.calls }
        ensures rising { AreRising self.now.calls }
    {
        self.calls.as_slice()
    }

    /// The server whose tunnel it is, or was last.
    pub fn peer(&self) -> Peer
        ensures { result ≡ self.now.lns }
    {
        self.lns
    }

    /// The gateway's number of the tunnel, or of the last one; 0 where none was opened.
    pub fn number(&self) -> TunnelNo
        ensures { result.0 ≡ self.now.number }
    {
        self.number
    }

    // No call of a session can be asked for.
    fn has_no_room(&self) -> bool
        ensures answer { result ≡ has_no_room self.now }
        ensures full { IsTrue result ↔ (((is_wait_reply self.now.phase ≡ true) × (63 ≤ length self.now.calls)) ⊎ (length (waiting self.now.channel) ≡ 64)) }
    {
        let many = match self.phase {
            LacPhase::WaitReply => self.calls.as_slice().len() >= WAITING_FOR_TUNNEL_MOST,
            LacPhase::Idle | LacPhase::Established => false,
        };
        many || self.channel.is_full()
    }

    // A call of a session is added.
    fn add(&mut self, session: SessionNo, now: u64)
        requires { length self.old.calls < 1022 }
        ensures { self.new ≡ with_new_call self.old session now }
    {
        match self.phase {
            LacPhase::Established => self.ask(session.0, now),
            LacPhase::Idle | LacPhase::WaitReply => {}
        }
        self.calls.put(LacCall {
            session,
            peer: None,
        });
    }

    // An ICRQ waits.
    fn ask(&mut self, session: u16, now: u64)
        ensures { self.new ≡ asked_for self.old session now }
    {
        let request = icrq(session, self.serial);
        let _ = self.channel.send(request.payload(), now);
        self.serial = self.serial.wrapping_add(1);
    }

    // The CDN of a call that the server was asked for waits.
    fn part(&mut self, call: LacCall, now: u64)
        ensures { self.new ≡ record self.old { channel = parting self.old call now } }
    {
        match self.phase {
            LacPhase::Established => {
                let message = cdn(call.peer.unwrap_or(0), call.session.0, administrative());
                let _ = self.channel.send(message.payload(), now);
            }
            LacPhase::Idle | LacPhase::WaitReply => {}
        }
    }

    // All messages in flight go out again, with those that the window lets out first.
    fn resend(&mut self) -> TunnelStep
        ensures said { said result ≡ (reminded self.old 0 Due.Resend).said }
        ensures after { self.new ≡ (reminded self.old 0 Due.Resend).after }
    {
        let tunnel = self.to_peer();
        let _ = outs_of(&mut self.channel, tunnel, Acknowledging::Never);
        sends(resent(&self.channel, tunnel))
    }
}
