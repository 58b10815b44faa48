//! Socket addresses and peers.
ghost use Rattle.std.specs.Prelude.{◌≡◌, Some};
ghost use Rattle.bng_real.specs.Ends.{peer_at};

use bng_base::{Ip4, Peer};
use std::net::{Ipv4Addr, SocketAddr, SocketAddrV4};

/// The socket address of a peer.
pub(crate) fn address_of(peer: Peer) -> SocketAddr
    ensures { peer_at result ≡ Some peer }
{
    SocketAddr::V4(SocketAddrV4::new(Ipv4Addr::from_bits(peer.ip.0), peer.port))
}

/// The peer at a socket address. There is none at one of IPv6.
pub(crate) fn peer_of(address: SocketAddr) -> Option<Peer>
    ensures { result ≡ peer_at address }
{
    match address {
        SocketAddr::V4(address) => Some(Peer {
            ip: Ip4(address.ip().to_bits()),
            port: address.port(),
        }),
        SocketAddr::V6(_) => None,
    }
}
