ghost use Rattle.std.specs.Prelude.{◌≡◌, ◌≤◌, ◌<◌, length};
ghost use Rattle.bng_radius_wire.specs.Grammar.{Packet, IsRadius, length_in};
ghost use Rattle.bng_radius_wire.specs.Digests.{CanBeSigned, signed_request};
ghost use Rattle.bng_rad_client.specs.Table.{taken};
ghost use Rattle.bng_failover.specs.Asking.{Asks};

use bng_base::{Frame, Octets};
use bng_rad_client::{Owner, Pending, Requests};
use bng_radius_wire::sign_request;

// Writes the packet at the front of the octets with this identifier, and no padding.
fn number(into: &mut Frame, request: &[u8], id: u8)
    requires { (p : Packet) × IsRadius p request.now }
    ensures reads { (p : Packet) → IsRadius p request.now → IsRadius (record p { id = id }) into.new.payload }
    ensures size { length into.new.payload ≡ length_in request.now }
{
    let length = usize::from(u16::from_be_bytes([request[2], request[3]]));
    into.set(&request[..length]);
    into.overwrite(1, &[id]);
}

// Writes the request with this identifier, signed.
fn sign(into: &mut Frame, request: &[u8], id: u8, secret: &[u8])
    requires grammar { (p : Packet) × IsRadius p request.now × CanBeSigned p }
    requires key { length secret.now ≤ 64 }
    ensures signed { (p : Packet) → IsRadius p request.now → IsRadius (signed_request (record p { id = id }) secret.now) into.new.payload }
    ensures size { length into.new.payload ≡ length_in request.now }
{
    number(into, request, id);
    sign_request(into, secret);
}

/// Gives the request the first free identifier of the server after the one that was given last, modulo 256, from 0 on, and
/// writes it with that identifier, signed.
pub(crate) fn ask(
    requests: &mut Requests,
    secret: &[u8],
    owner: Owner,
    request: &[u8],
    now: u64,
    into: &mut Frame,
)
    requires grammar { (p : Packet) × IsRadius p request.now × CanBeSigned p }
    requires key { length secret.now ≤ 64 }
    requires room { taken requests.old.places < 256 }
    ensures { Asks requests.old requests.new owner request.now secret.now now into.new }
{
    let Some(id) = requests.next_free() else {
        unreachable!();
    };
    sign(into, request, id, secret);
    let octets = Octets::copied(into.payload());
    requests.give(id, Pending::new(owner, octets, now));
}
