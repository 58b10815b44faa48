//! The keys of the indexes, each kind in an order of its own.
ghost use Rattle.std.specs.Prelude.{◌≡◌};
ghost use Rattle.std.specs.declared.cmp.Ordering.{Ordering as Answer};
ghost use Rattle.std.specs.Cmp.{IsTotalOrder};
ghost use Rattle.std.specs.FinMap.{IsAntisymmetric};
ghost use Rattle.bng_slots.specs.Orders.{circuit_order, address_order, term_order, due_order};
ghost use Rattle.bng_slots.specs.OrderLaws.{circuit_order-total, address_order-total, term_order-total, due_order-total, circuit_order-IsAntisymmetric, address_order-IsAntisymmetric, term_order-IsAntisymmetric, due_order-IsAntisymmetric};

use bng_base::{Circuit, Ip4, SessionNo, TermId};
use std::cmp::Ordering;

/// What an index finds a session by. Keys have a total order in which only equal keys tie.
pub(crate) trait IndexKey: Copy {
    ghost order: { Self → Self → Answer };

    fn compare(&self, other: &Self) -> Ordering
        ensures { result ≡ order self.now other.now };

    ghost total: { IsTotalOrder order };

    ghost identical: { IsAntisymmetric order };
}

/// A deadline in milliseconds, and the session that has it: the earlier deadline first, then the lower session number.
#[derive(Clone, Copy)]
pub(crate) struct Deadline {
    pub(crate) deadline: u64,
    pub(crate) session: SessionNo,
}

impl IndexKey for Circuit {
    ghost order = { circuit_order };

    ghost total = { circuit_order-total };

    ghost identical = { circuit_order-IsAntisymmetric };

    fn compare(&self, other: &Circuit) -> Ordering {
        match (*self, *other) {
            (
                Circuit::Pppoe { port, mac, session },
                Circuit::Pppoe {
                    port: port_2,
                    mac: mac_2,
                    session: session_2,
                },
            ) => session
                .0
                .cmp(&session_2.0)
                .then(port.cmp(&port_2))
                .then(mac.0.as_slice().cmp(mac_2.0.as_slice())),
            (Circuit::Pppoe { .. }, Circuit::L2tp { .. }) => Ordering::Less,
            (Circuit::L2tp { .. }, Circuit::Pppoe { .. }) => Ordering::Greater,
            (
                Circuit::L2tp {
                    peer,
                    tunnel,
                    session,
                },
                Circuit::L2tp {
                    peer: peer_2,
                    tunnel: tunnel_2,
                    session: session_2,
                },
            ) => session
                .0
                .cmp(&session_2.0)
                .then(tunnel.0.cmp(&tunnel_2.0))
                .then(peer.ip.0.cmp(&peer_2.ip.0))
                .then(peer.port.cmp(&peer_2.port)),
        }
    }
}

impl IndexKey for Ip4 {
    ghost order = { address_order };

    ghost total = { address_order-total };

    ghost identical = { address_order-IsAntisymmetric };

    fn compare(&self, other: &Ip4) -> Ordering {
        self.0.cmp(&other.0)
    }
}

impl IndexKey for TermId {
    ghost order = { term_order };

    ghost total = { term_order-total };

    ghost identical = { term_order-IsAntisymmetric };

    fn compare(&self, other: &TermId) -> Ordering {
        self.session
            .0
            .cmp(&other.session.0)
            .then(self.serial.cmp(&other.serial))
    }
}

impl IndexKey for Deadline {
    ghost order = { due_order };

    ghost total = { due_order-total };

    ghost identical = { due_order-IsAntisymmetric };

    fn compare(&self, other: &Deadline) -> Ordering {
        self.deadline
            .cmp(&other.deadline)
            .then(self.session.0.cmp(&other.session.0))
    }
}
