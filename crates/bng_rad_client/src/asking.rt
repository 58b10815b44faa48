ghost use Rattle.std.specs.Prelude.{◌≡◌, ◌≤◌, ◌↔◌, length};
ghost use Rattle.bng_radius_wire.specs.Grammar.{Packet, IsRadius, length_in};
ghost use Rattle.bng_radius_wire.specs.Digests.{CanBeSigned, signed_request};
ghost use Rattle.bng_rad_client.specs.Table.{taken};
ghost use Rattle.bng_rad_client.specs.Asking.{IsAsked, WhenSent, WhenWaiting};

use crate::pending::Pending;
use crate::requests::Requests;
use crate::rules::{Asked, Owner};
use bng_base::{Frame, Octets};
use bng_radius_wire::sign_request;

// The packet at the front of the octets with this identifier, and no padding.
fn numbered(bytes: &[u8], id: u8) -> Frame
    requires { (p : Packet) × IsRadius p bytes.now }
    ensures reads { (p : Packet) → IsRadius p bytes.now → IsRadius (record p { id = id }) result.payload }
    ensures size { length result.payload ≡ length_in bytes.now }
{
    let length = usize::from(u16::from_be_bytes([bytes[2], bytes[3]]));
    let mut frame = Frame::new();
    frame.set(&bytes[..length]);
    frame.overwrite(1, &[id]);
    frame
}

// The request with this identifier, signed.
fn signed(request: &Frame, id: u8, secret: &[u8]) -> Frame
    requires grammar { (p : Packet) × IsRadius p request.now.payload × CanBeSigned p }
    requires key { length secret.now ≤ 64 }
    ensures signed { (p : Packet) → IsRadius p request.now.payload → IsRadius (signed_request (record p { id = id }) secret.now) result.payload }
    ensures size { length result.payload ≡ length_in request.now.payload }
{
    let mut frame = numbered(request.payload(), id);
    sign_request(&mut frame, secret);
    frame
}

// Gives the request the first free identifier after the one that was given last.
pub(crate) fn ask(
    requests: &mut Requests,
    secret: &[u8],
    owner: Owner,
    request: &Frame,
    now: u64,
) -> Asked
    requires grammar { (p : Packet) × IsRadius p request.now.payload × CanBeSigned p }
    requires key { length secret.now ≤ 64 }
    ensures sent { (p : Packet) → IsRadius p request.now.payload → WhenSent result (IsAsked requests.old requests.new owner p secret.now now) }
    ensures size { WhenSent result (λ id frame. length frame.payload ≡ length_in request.now.payload) }
    ensures waiting { (result ≡ Asked.Waiting) ↔ (taken requests.old.places ≡ 256) }
    ensures kept { WhenWaiting result (requests.new ≡ requests.old) }
{
    let Some(id) = requests.next_free() else {
        return Asked::Waiting;
    };
    let frame = signed(request, id, secret);
    let octets = Octets::copied(frame.payload());
    let pending = Pending::new(owner, octets, now);
    requests.give(id, pending);
    Asked::Sent { id, frame }
}
