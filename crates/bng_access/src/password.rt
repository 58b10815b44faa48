//! How a peer proves that it has its name, as attributes.
ghost use Rattle.std.specs.Prelude.{◌≡◌, ◌+◌, ◌-◌, ◌≤◌, ◌∷◌, ◌++◌, [], length, drop, replicate};
ghost use Rattle.bng_digest.specs.Hiding.{hidden_password};
ghost use Rattle.bng_acct.specs.Attributes.{octets, GoesOn};
ghost use Rattle.bng_access.specs.Request.{blocks_size, padded, password, challenge};

use bng_acct::attributes::put;
use bng_auth::Proof;
use bng_base::Frame;
use bng_digest::hide_password;
use bng_radius_wire::kinds;

// The octets of a block of a User-Password.
const BLOCK: usize = 16;

// The octets of the blocks that a password fills, of which there is one at least.
fn blocks_size(password: usize) -> usize
    requires { password ≤ 128 }
    ensures size { result ≡ blocks_size password }
    ensures most { result ≤ 128 }
{
    BLOCK * password.div_ceil(BLOCK).max(1)
}

// Writes octets over the first of a block.
fn copy_to_front(block: &mut [u8], octets: &[u8])
    requires { length octets.now ≤ length block.old }
    ensures { block.new ≡ octets.now ++ drop (length octets.now) block.old }
{
    block[..octets.len()].copy_from_slice(octets);
}

// A password, and zeros behind it.
fn zero_padded(password: &[u8]) -> [u8; 128]
    requires { length password.now ≤ 128 }
    ensures { result ≡ password.now ++ replicate (128 - length password.now) 0 }
{
    let mut block = [0; 128];
    copy_to_front(&mut block, password);
    block
}

// Writes a password, hidden.
fn put_hidden(secret: &[u8], authenticator: &[u8; 16], password: &[u8], into: &mut Frame)
    requires most { length password.now ≤ 128 }
    requires headroom { into.old.headroom ≡ 64 }
    requires room { length into.old.payload ≤ 200 }
    ensures goes_on { GoesOn into.old.payload into.new.payload (octets 2 (hidden_password secret.now authenticator.now (padded password.now)) ∷ []) }
    ensures size { length into.new.payload ≤ length into.old.payload + 130 }
    ensures headroom { into.new.headroom ≡ 64 }
{
    let mut block = zero_padded(password);
    let hidden = &mut block[..blocks_size(password.len())];
    hide_password(secret, authenticator, hidden);
    put(into, kinds::USER_PASSWORD, hidden);
}

/// Writes the User-Password (RFC 2865 section 5.2) or the CHAP-Password (section 5.3).
pub(crate) fn put_password(secret: &[u8], authenticator: &[u8; 16], proof: &Proof, into: &mut Frame)
    requires headroom { into.old.headroom ≡ 64 }
    requires room { length into.old.payload ≤ 200 }
    ensures goes_on { GoesOn into.old.payload into.new.payload (password secret.now authenticator.now proof.now) }
    ensures size { length into.new.payload ≤ length into.old.payload + 130 }
    ensures headroom { into.new.headroom ≡ 64 }
{
    match proof {
        Proof::Pap(password) => put_hidden(secret, authenticator, password.as_slice(), into),
        Proof::Chap { id, value, .. } => {
            let mut octets = [*id; 17];
            octets[1..].copy_from_slice(value);
            put(into, kinds::CHAP_PASSWORD, &octets);
        }
    }
}

/// Writes the CHAP-Challenge (RFC 2865 section 5.40), where the peer was challenged.
pub(crate) fn put_challenge(proof: &Proof, into: &mut Frame)
    requires headroom { into.old.headroom ≡ 64 }
    requires room { length into.old.payload ≤ 800 }
    ensures goes_on { GoesOn into.old.payload into.new.payload (challenge proof.now) }
    ensures size { length into.new.payload ≤ length into.old.payload + 18 }
    ensures headroom { into.new.headroom ≡ 64 }
{
    match proof {
        Proof::Pap(_) => {}
        Proof::Chap { challenge, .. } => put(into, kinds::CHAP_CHALLENGE, challenge),
    }
}
