//! IPCP of a link (RFC 1332).
ghost use Rattle.std.specs.Prelude.{◌≡◌, ◌+◌, option_map};
ghost use Rattle.bng_ppp.specs.IpcpState.{ipcp_unused, first_ask};
ghost use Rattle.bng_ppp.specs.LcpState.{is_opened as opened_in};

use crate::counters::NAKS_MOST;
use crate::identifiers::first;
use crate::ipcp_counters::IpcpKept;
use crate::lcp_link::{MAX_CONFIGURE, MAX_TERMINATE};
use bng_automaton::{Automaton, State};
use bng_base::Ip4;
use bng_ipcp::IpcpAsk;
use std::marker::Model;

/// IPCP of one link (RFC 1332). A contract sees its automaton, the gateway's own side, and what is kept beside them.
#[derive(Drop)]
pub(crate) struct Ipcp {
    pub(crate) machine: Automaton,
    pub(crate) ask: IpcpAsk,
    pub(crate) kept: IpcpKept,
}

impl Model for Ipcp {
    ghost use Rattle.bng_ppp.specs.IpcpState.{IpcpState};

    ghost Value = { IpcpState };

    ghost view = { λ i. record { machine = i.machine; ask = i.ask; kept = i.kept } };
}

impl Ipcp {
    /// IPCP of a link that was told nothing.
    pub(crate) fn new() -> Ipcp
        ensures { result ≡ ipcp_unused (record { 0 = 0 }) }
    {
        Ipcp {
            machine: Automaton::new(MAX_CONFIGURE, MAX_TERMINATE, NAKS_MOST),
            ask: IpcpAsk::new(Ip4(0)),
            kept: IpcpKept {
                ids: first(),
                naks: 0,
                lease: Ip4(0),
            },
        }
    }

    /// Whether IPCP is Opened.
    pub(crate) fn is_opened(&self) -> bool
        ensures { result ≡ opened_in self.now.machine.state }
    {
        match self.machine.state() {
            State::Opened => true,
            _ => false,
        }
    }

    /// The first moment, in milliseconds, at which its restart timer runs out; none where it does not run.
    pub(crate) fn deadline(&self) -> Option<u64>
        ensures { result ≡ option_map (λ t. t + 3000) self.now.machine.started }
    {
        self.machine.deadline()
    }

    /// The gateway's own side begins anew, for a peer that is to have this address.
    pub(crate) fn begin(&mut self, address: Ip4, lease: Ip4)
        ensures { self.new ≡ record self.old { ask = first_ask address; kept = record self.old.kept { lease = lease } } }
    {
        self.ask = IpcpAsk::new(address);
        self.kept.lease = lease;
    }
}
