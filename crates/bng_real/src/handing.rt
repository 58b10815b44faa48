//! One send of a socket.
ghost use Rattle.bng_real.specs.Handing.{IsSent};

use crate::sockets::Datagrams;
use crate::taking::TRIES;
use std::io::ErrorKind;
use std::net::SocketAddr;

/// Hands a datagram to the system, and says whether it took all of it.
pub(crate) fn hand_over<S: Datagrams>(socket: &mut S, to: SocketAddr, octets: &[u8]) -> bool
    ensures { IsSent result to octets.now (S.sent socket.old) (S.sent socket.new) }
{
    for _ in 0..TRIES {
        match socket.hand(octets, to) {
            Ok(count) if count == octets.len() => return true,
            Ok(_) => return false,
            Err(error) if error.kind() == ErrorKind::Interrupted => {}
            Err(_) => return false,
        }
    }
    false
}
