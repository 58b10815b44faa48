//! One receive of a socket, and what it comes to.
ghost use Rattle.std.specs.Prelude.{◌≡◌};
ghost use Rattle.bng_base.specs.Causes.{HasCause};
ghost use Rattle.bng_plant.specs.Calls.{IsFilled};
ghost use Rattle.bng_real.specs.Taking.{IsNext, IsTaken, is_earlier};

use crate::ends::peer_of;
use crate::sockets::Datagrams;
use bng_base::{Frame, HEADROOM, LONGEST, Peer, Received};
use std::io::ErrorKind;

/// The most tries of one call of the system: a signal may interrupt it, and it may answer the error of an earlier
/// datagram in place of its own.
pub(crate) const TRIES: usize = 16;

/// What a receive of the system gave.
#[derive(Clone, Copy)]
enum SystemReceive {
    Datagram { count: usize, from: Peer },
    Nothing,
    Fault,
}

/// Takes the next datagram of a socket into a frame, where one is there: it is received where the frame stands.
pub(crate) fn take_into<S: Datagrams>(
    socket: &mut S,
    into: &mut Frame,
    faults: &mut u64,
) -> Received
    ensures filled { IsFilled result into.new }
    ensures taken { IsTaken result into.new.payload (S.given socket.old) (S.given socket.new) }
    ensures cause { HasCause faults.old faults.new (result ≡ Received.Failed) }
{
    let room = into.lend();
    match take_one(socket, &mut room[HEADROOM..], faults) {
        SystemReceive::Datagram { count, from } => {
            into.cut_back(LONGEST - count.min(LONGEST));
            let cut = count > LONGEST;
            Received::Got { from, cut }
        }
        SystemReceive::Nothing => Received::Empty,
        SystemReceive::Fault => Received::Failed,
    }
}

/// Takes the next datagram of a socket, where one is there. The system tells an error of an earlier send, as by an ICMP
/// message, in place of a datagram: it is counted, and the receive tried again.
fn take_one<S: Datagrams>(socket: &mut S, room: &mut [u8], faults: &mut u64) -> SystemReceive
    ensures next { IsNext result room.new (S.given socket.old) (S.given socket.new) }
    ensures cause { HasCause faults.old faults.new (result ≡ SystemReceive.Fault) }
{
    for _ in 0..TRIES {
        match socket.receive(room) {
            Ok((count, address)) => match peer_of(address) {
                Some(from) => return SystemReceive::Datagram { count, from },
                None => return fault(faults),
            },
            Err(error) => match error.kind() {
                ErrorKind::WouldBlock => return SystemReceive::Nothing,
                ErrorKind::Interrupted => {}
                kind if is_of_earlier(kind) => *faults = faults.saturating_add(1),
                _ => return fault(faults),
            },
        }
    }
    fault(faults)
}

/// Whether an error may be that of a datagram that was sent before.
fn is_of_earlier(kind: ErrorKind) -> bool
    ensures { result ≡ is_earlier kind }
{
    matches!(
        kind,
        ErrorKind::ConnectionRefused | ErrorKind::HostUnreachable | ErrorKind::NetworkUnreachable
    )
}

fn fault(faults: &mut u64) -> SystemReceive
    ensures taken { result ≡ SystemReceive.Fault }
    ensures counted { HasCause faults.old faults.new (Unit {0}) }
{
    *faults = faults.saturating_add(1);
    SystemReceive::Fault
}
