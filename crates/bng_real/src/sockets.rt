//! What the plant knows of a socket.
ghost use Rattle.std.specs.Prelude.{◌≡◌, List, Option, None, take, IfOk, OnErr};
ghost use Rattle.std.specs.Counts.{IsPrefixLen};
ghost use Rattle.std.specs.Io.{WritesAtMost};
ghost use Rattle.bng_base.specs.Told.{Grows};
ghost use Rattle.bng_real.specs.Sockets.{Parcel, one};

use mio::net::UdpSocket;
use std::io;
use std::net::SocketAddr;

/// A socket of datagrams that never waits. It may tell which it gave and which it took; the system's tells neither.
pub(crate) trait Datagrams {
    ghost given: { Self → Option (List Parcel) };

    ghost sent: { Self → Option (List Parcel) };

    /// Gives the next datagram, as far as there is room: how many octets of it, and its sender.
    fn receive(&mut self, room: &mut [u8]) -> io::Result<(usize, SocketAddr)>
        ensures within { IfOk result (λ got. IsPrefixLen got.0 room.new) }
        ensures gives { IfOk result (λ got. Grows (given self.old) (given self.new) (one got.1 (take got.0 room.new))) }
        ensures gives_none { OnErr result (given self.new ≡ given self.old) };

    /// Takes a datagram to send, or a front of it, and answers how many octets it took.
    fn hand(&mut self, octets: &[u8], to: SocketAddr) -> io::Result<usize>
        ensures within { WritesAtMost result octets.now }
        ensures sends { IfOk result (λ count. Grows (sent self.old) (sent self.new) (one to (take count octets.now))) }
        ensures sends_none { OnErr result (sent self.new ≡ sent self.old) };
}

impl Datagrams for UdpSocket {
    ghost given = { λ _. None };

    ghost sent = { λ _. None };

    fn receive(&mut self, room: &mut [u8]) -> io::Result<(usize, SocketAddr)> {
        self.recv_from(room)
    }

    fn hand(&mut self, octets: &[u8], to: SocketAddr) -> io::Result<usize> {
        self.send_to(octets, to)
    }
}
