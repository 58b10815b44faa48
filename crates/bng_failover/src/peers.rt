ghost use Rattle.std.specs.Prelude.{◌≡◌, ◌<◌, ◌≤◌, ◌++◌, ◌∷◌, [], IsTrue, ◌↔◌, length};

use bng_base::{NOBODY, Peer};
use std::marker::Model;

/// The most servers of a lane.
pub const MOST: usize = 4;

/// The servers of a lane in their order, four at most. A contract sees their list.
#[derive(Drop)]
pub struct ServerPeers {
    places: [Peer; 4],
    used: usize,
}

impl Model for ServerPeers {
    ghost use Rattle.std.specs.Prelude.{◌≤◌, List, take};
    ghost use Rattle.bng_base.specs.declared.address.Peer.{Peer};

    ghost Value = { List Peer };

    ghost view = { λ p. take p.used p.places };

    ghost invariant = { λ p. p.used ≤ 4 };
}

impl ServerPeers {
    /// No server.
    pub fn new() -> ServerPeers
        ensures { result ≡ [] }
    {
        ServerPeers {
            places: [NOBODY; 4],
            used: 0,
        }
    }

    /// The servers, four at most.
    pub fn as_slice(&self) -> &[Peer]
        ensures peers { result.now ≡ self.now }
        ensures most { length self.now ≤ 4 }
    {
        &self.places[..self.used]
    }

    /// Whether there is no room for one more.
    pub fn is_full(&self) -> bool
        ensures { IsTrue result ↔ (4 ≤ length self.now) }
    {
        MOST <= self.as_slice().len()
    }

    /// One server more, behind the others.
    pub fn push(&mut self, peer: Peer)
        requires { length self.old < 4 }
        ensures { self.new ≡ self.old ++ peer ∷ [] }
    {
        self.places[self.used] = peer;
        self.used += 1;
    }
}
