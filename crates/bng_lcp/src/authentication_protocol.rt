//! The way to authenticate that a Configure-Nak suggests.
ghost use Rattle.std.specs.Prelude.{◌≡◌, ◌&&◌};
ghost use Rattle.std.specs.List.{list_any};
ghost use Rattle.bng_lcp.specs.ConfigureReply.{auth_after as authentication_after, is_auth as auth_is, same_auth};

use crate::option::CHAP_WITH_MD5;
use bng_base::AuthKind;
use bng_ppp_wire::protocol;

/// The way to authenticate after an Authentication-Protocol with these data.
pub fn auth_after(allowed: &[AuthKind], value: &[u8], auth: AuthKind) -> AuthKind
    ensures { result ≡ authentication_after allowed.now value.now auth }
{
    if is_auth(AuthKind::Chap, value) && allows(allowed, AuthKind::Chap) {
        AuthKind::Chap
    } else if is_auth(AuthKind::Pap, value) && allows(allowed, AuthKind::Pap) {
        AuthKind::Pap
    } else {
        auth
    }
}

fn allows(allowed: &[AuthKind], auth: AuthKind) -> bool
    ensures { result ≡ list_any (same_auth auth) allowed.now }
{
    allowed.iter().any(|other| *other == auth)
}

fn is_auth(auth: AuthKind, value: &[u8]) -> bool
    ensures { result ≡ auth_is auth value.now }
{
    match (auth, value) {
        (AuthKind::Chap, [high, low, algorithm]) => {
            u16::from_be_bytes([*high, *low]) == protocol::CHAP && *algorithm == CHAP_WITH_MD5
        }
        (AuthKind::Pap, [high, low]) => u16::from_be_bytes([*high, *low]) == protocol::PAP,
        _ => false,
    }
}
