//! A question as a request.
ghost use Rattle.std.specs.Prelude.{◌≡◌, ◌+◌, ◌≤◌, ◌++◌, length};
ghost use Rattle.bng_radius_wire.specs.Attributes.{text};
ghost use Rattle.bng_radius_wire.specs.Grammar.{IsRadius, length_in};
ghost use Rattle.bng_radius_wire.specs.Digests.{CanBeSigned, zeros};
ghost use Rattle.bng_acct.specs.Attributes.{octets, GoesOn};
ghost use Rattle.bng_access.specs.Request.{claim, place, request_of};

use crate::password::{put_challenge, put_password};
use crate::rules::NasRules;
use bng_acct::attributes::{FRAMED, PPP, VIRTUAL, put, put_length, put_number, put_station};
use bng_acct::texts::port_id;
use bng_base::Frame;
use bng_radius_wire::{codes, kinds};
use bng_verdict::AuthAsk;

// Who the peer says it is, by which proof, and what it wants.
fn put_claim(
    rules: &NasRules,
    secret: &[u8],
    ask: &AuthAsk,
    authenticator: &[u8; 16],
    into: &mut Frame,
)
    requires headroom { into.old.headroom ≡ 64 }
    requires room { length into.old.payload ≤ 20 }
    ensures goes_on { GoesOn into.old.payload into.new.payload (claim rules.now secret.now authenticator.now ask.now) }
    ensures size { length into.new.payload ≤ length into.old.payload + 284 }
    ensures headroom { into.new.headroom ≡ 64 }
{
    put(into, kinds::USER_NAME, ask.credentials.name.as_slice());
    put_password(secret, authenticator, &ask.credentials.proof, into);
    put_number(into, kinds::NAS_IP_ADDRESS, rules.nas_ip.0);
    put_number(into, kinds::NAS_PORT, u32::from(ask.number.session.0));
    put_number(into, kinds::SERVICE_TYPE, FRAMED);
    put_number(into, kinds::FRAMED_PROTOCOL, PPP);
}

// Where the peer is, and what it was challenged with.
fn put_place(rules: &NasRules, ask: &AuthAsk, into: &mut Frame)
    requires headroom { into.old.headroom ≡ 64 }
    requires room { length into.old.payload ≤ 304 }
    ensures goes_on { GoesOn into.old.payload into.new.payload (place rules.now ask.now) }
    ensures size { length into.new.payload ≤ length into.old.payload + 109 }
    ensures headroom { into.new.headroom ≡ 64 }
{
    put_station(ask.circuit, into);
    put(into, kinds::NAS_IDENTIFIER, rules.name.as_slice());
    put_challenge(&ask.credentials.proof, into);
    put_number(into, kinds::NAS_PORT_TYPE, VIRTUAL);
}

// Writes a Message-Authenticator (RFC 2869 section 5.14) that is still to be filled.
fn put_unsigned(into: &mut Frame)
    requires headroom { into.old.headroom ≡ 64 }
    requires room { length into.old.payload ≤ 413 }
    ensures payload { into.new.payload ≡ into.old.payload ++ text (octets 80 zeros) }
    ensures size { length into.new.payload ≡ length into.old.payload + 18 }
    ensures headroom { into.new.headroom ≡ 64 }
{
    into.put_back(&[kinds::MESSAGE_AUTHENTICATOR, 18]);
    into.put_back(&[0; 16]);
}

/// Writes the Access-Request of a question, with identifier 0, this Request Authenticator and a Message-Authenticator of
/// zeros, still to be numbered and signed. The secret, of 64 octets at most, hides the password.
pub fn write(
    rules: &NasRules,
    secret: &[u8],
    ask: &AuthAsk,
    authenticator: &[u8; 16],
    into: &mut Frame,
)
    requires secret { length secret.now ≤ 64 }
    ensures request { IsRadius (request_of rules.now secret.now ask.now authenticator.now) into.new.payload }
    ensures unpadded { length_in into.new.payload ≡ length into.new.payload }
    ensures signable { CanBeSigned (request_of rules.now secret.now ask.now authenticator.now) }
    ensures few { length (request_of rules.now secret.now ask.now authenticator.now).attributes ≤ 64 }
    ensures small { length into.new.payload ≤ 1024 }
    ensures headroom { into.new.headroom ≡ 64 }
{
    into.set(&[codes::ACCESS_REQUEST, 0, 0, 0]);
    into.put_back(authenticator);
    put_claim(rules, secret, ask, authenticator, into);
    put_place(rules, ask, into);
    put_unsigned(into);
    put(into, kinds::NAS_PORT_ID, port_id(ask.circuit).as_slice());
    put_length(into);
}
