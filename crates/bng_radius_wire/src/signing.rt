ghost use Rattle.std.specs.Prelude.{◌≡◌, ◌≤◌, length, drop};
ghost use Rattle.bng_radius_wire.specs.Grammar.{Packet, IsRadius, length_in};
ghost use Rattle.bng_radius_wire.specs.Signing.{IsRewritten};
ghost use Rattle.bng_radius_wire.specs.Digests.{CanBeSigned, has_digest, filled, response_authenticator, signed_reply, signed_request, IsSigned};

use crate::codes::{ACCOUNTING_REQUEST, COA_REQUEST, DISCONNECT_REQUEST};
use crate::places::{
    message_authenticator_from, message_digest, packet_in, response_digest, sixteen_at,
};
use bng_base::Frame;

// Whether the Request Authenticator of this code is a digest.
fn has_digest(code: u8) -> bool
    ensures { result ≡ has_digest code }
{
    code == ACCOUNTING_REQUEST || code == DISCONNECT_REQUEST || code == COA_REQUEST
}

// Fills the Message-Authenticator, where one stands, over this authenticator.
fn fill(frame: &mut Frame, authenticator: &[u8; 16], secret: &[u8])
    requires grammar { (p : Packet) × IsRadius p frame.old.payload × CanBeSigned p }
    requires key { length secret.now ≤ 64 }
    ensures filled { (p : Packet) → IsRadius p frame.old.payload → IsRewritten (filled p authenticator.now secret.now) frame.old.payload frame.new.payload }
    ensures headroom { frame.new.headroom ≡ frame.old.headroom }
{
    let packet = packet_in(frame.payload());
    if let Some(at) = message_authenticator_from(packet, 20) {
        let digest = message_digest(packet, at, authenticator, secret);
        frame.overwrite(at + 2, &digest);
    }
}

// Writes the Response Authenticator of a reply to the request that has this authenticator.
fn close(frame: &mut Frame, request: &[u8; 16], secret: &[u8])
    requires { (p : Packet) × IsRadius p frame.old.payload }
    ensures closed { (p : Packet) → IsRadius p frame.old.payload → IsRewritten (record p { authenticator = response_authenticator p request.now secret.now }) frame.old.payload frame.new.payload }
    ensures headroom { frame.new.headroom ≡ frame.old.headroom }
{
    let digest = response_digest(packet_in(frame.payload()), request, secret);
    frame.overwrite(4, &digest);
}

/// Signs a reply to the request that has this Authenticator: fills the Message-Authenticator where one stands (RFC 2869
/// section 5.14), and then the Response Authenticator (RFC 2865 section 3). The frame holds a packet with at most one
/// Message-Authenticator, whose value has 16 octets, and the secret has 64 octets at most.
pub fn sign_reply(frame: &mut Frame, request: &[u8; 16], secret: &[u8])
    requires grammar { (p : Packet) × IsRadius p frame.old.payload × CanBeSigned p }
    requires key { length secret.now ≤ 64 }
    ensures signed { (p : Packet) → IsRadius p frame.old.payload → IsRadius (signed_reply p request.now secret.now) frame.new.payload }
    ensures checks { (p : Packet) → IsRadius p frame.old.payload → IsSigned (signed_reply p request.now secret.now) request.now secret.now }
    ensures size { length frame.new.payload ≡ length frame.old.payload }
    ensures padding { drop (length_in frame.old.payload) frame.new.payload ≡ drop (length_in frame.old.payload) frame.old.payload }
    ensures headroom { frame.new.headroom ≡ frame.old.headroom }
{
    fill(frame, request, secret);
    close(frame, request, secret);
}

/// Signs a request: fills the Message-Authenticator where one stands, and for an Accounting-Request (RFC 2866 section 3), a
/// Disconnect-Request and a CoA-Request (RFC 5176) the Request Authenticator, a digest over zeros in its place. Any other
/// request keeps the authenticator that it has. The frame holds a packet with at most one Message-Authenticator, whose
/// value has 16 octets, and the secret has 64 octets at most.
pub fn sign_request(frame: &mut Frame, secret: &[u8])
    requires grammar { (p : Packet) × IsRadius p frame.old.payload × CanBeSigned p }
    requires key { length secret.now ≤ 64 }
    ensures signed { (p : Packet) → IsRadius p frame.old.payload → IsRadius (signed_request p secret.now) frame.new.payload }
    ensures size { length frame.new.payload ≡ length frame.old.payload }
    ensures padding { drop (length_in frame.old.payload) frame.new.payload ≡ drop (length_in frame.old.payload) frame.old.payload }
    ensures headroom { frame.new.headroom ≡ frame.old.headroom }
{
    if has_digest(frame.payload()[0]) {
        sign_reply(frame, &[0; 16], secret);
    } else {
        let authenticator = sixteen_at(frame.payload(), 4);
        fill(frame, &authenticator, secret);
    }
}
