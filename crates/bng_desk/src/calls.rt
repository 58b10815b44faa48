ghost use Rattle.std.specs.Prelude.{◌≡◌, ◌≤◌, length, not};
ghost use Rattle.bng_base.specs.Stretch.{ExtendsPlant};
ghost use Rattle.bng_plant.specs.Calls.{send_most, IsFilled};
ghost use Rattle.bng_desk.specs.Reading.{receiving, sending};

use bng_base::{Frame, Peer, Received, Role};
use bng_plant::{Plant, Sending};

/// Takes the next datagram of a role.
pub(crate) fn receive<P: Plant>(plant: &mut P, role: Role, into: &mut Frame) -> Received
    ensures told { ExtendsPlant (P.told plant.old) (P.told plant.new) (receiving role result into.new.payload) }
    ensures filled { IsFilled result into.new }
{
    plant.recv(role, into)
}

/// Hands a datagram to the system, and says whether it took it.
pub(crate) fn send<P: Plant>(plant: &mut P, role: Role, to: Peer, bytes: &[u8]) -> bool
    requires { length bytes.now ≤ send_most role }
    ensures { ExtendsPlant (P.told plant.old) (P.told plant.new) (sending role to bytes.now result) }
{
    match plant.send(role, to, bytes) {
        Sending::Sent => true,
        Sending::Failed => false,
    }
}
