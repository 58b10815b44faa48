//! What a peer claims.
ghost use Rattle.std.specs.Prelude.{◌≡◌, ◌≤◌, length};

use arrayvec::ArrayVec;

/// The longest name that is asked about, in octets.
pub const NAME_MOST: usize = 128;

/// The longest password that is asked about, in octets.
pub const PASSWORD_MOST: usize = 128;

/// How a peer proves that it has the name.
#[derive(Drop)]
pub enum Proof {
    /// The password itself (RFC 1334 section 2.2.1).
    Pap(ArrayVec<u8, 128>),
    /// The Response's Identifier and Value, and the Challenge's Value (RFC 1994 section 4.1).
    Chap {
        id: u8,
        challenge: [u8; 16],
        value: [u8; 16],
    },
}

/// A name and its proof.
#[derive(Drop)]
pub struct Credentials {
    pub name: ArrayVec<u8, 128>,
    pub proof: Proof,
}

/// A list of these octets.
pub(crate) fn listed(octets: &[u8]) -> ArrayVec<u8, 128>
    requires { length octets.now ≤ 128 }
    ensures { result.items ≡ octets.now }
{
    let Ok(list) = ArrayVec::try_from(octets) else {
        unreachable!();
    };
    list
}
