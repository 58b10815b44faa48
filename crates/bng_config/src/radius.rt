//! The keys of authentication and accounting.
ghost use Rattle.toml.specs.View.{view};
ghost use Rattle.bng_schema.specs.Checks.{IsSound};
ghost use Rattle.bng_config.specs.Radius.{IsRadius};

use crate::values::{number_or, peer_of, secret_of};
use arrayvec::ArrayVec;
use bng_base::Peer;
use bng_schema::{Field, Key};
use toml::Value;

/// What stands at the keys of authentication and accounting, and the default of the tries where nothing stands there.
#[derive(Drop)]
pub(crate) struct RadiusKeys {
    pub auth_local: Peer,
    pub auth_server: Peer,
    pub acct_local: Peer,
    pub acct_server: Peer,
    pub secret: ArrayVec<u8, 64>,
    pub tries: u8,
}

/// What a document that breaks no rule says of authentication and accounting.
pub(crate) fn radius_of(document: &Value) -> RadiusKeys
    requires { IsSound (view document.now) }
    ensures { IsRadius (view document.now) result }
{
    let auth_local = peer_of(document, Key::Of(Field::RadiusAuthLocal, 0));
    let auth_server = peer_of(document, Key::Of(Field::RadiusAuthServer, 0));
    let acct_local = peer_of(document, Key::Of(Field::RadiusAcctLocal, 0));
    let acct_server = peer_of(document, Key::Of(Field::RadiusAcctServer, 0));
    let secret = secret_of(document, Key::Of(Field::RadiusSecret, 0));
    let tries = number_or(document, Key::Of(Field::RadiusTries, 0), 1, 10, 4);
    RadiusKeys {
        auth_local,
        auth_server,
        acct_local,
        acct_server,
        secret,
        tries: tries as u8,
    }
}
