//! Who may ask for changes of sessions (RFC 5176).
ghost use Rattle.std.specs.Prelude.{◌≡◌};
ghost use Rattle.toml.specs.View.{view};
ghost use Rattle.bng_schema.specs.declared.keys.Form.TheVariants.{OctetText};
ghost use Rattle.bng_schema.specs.Forms.{StandsAt, StandsOr, IsOctets};
ghost use Rattle.bng_schema.specs.Checks.{IsSound};
ghost use Rattle.bng_config.specs.Sound.{IsSoundAs};
ghost use Rattle.bng_config.specs.Configuration.{IsCoa};

use crate::values::{peer_of, peers_of, secret_of, secret_or_none};
use arrayvec::ArrayVec;
use bng_base::CoaPart;
use bng_schema::{Field, Key, Table, entries_of};
use toml::Value;

/// Who may ask for changes, by a document that breaks no rule: nobody where it does not say.
pub(crate) fn coa_of(document: &Value) -> Option<CoaPart>
    requires { IsSound (view document.now) }
    ensures { IsCoa (view document.now) result }
{
    if entries_of(document, Table::Coa) == 0 {
        return None;
    }
    let local = peer_of(document, Key::Of(Field::CoaLocal, 0));
    let peers = peers_of(document, Key::Of(Field::CoaPeers, 0));
    let secret = coa_secret_of(document);
    Some(CoaPart {
        local,
        peers,
        secret,
    })
}

// The secret that is shared with them: that of RADIUS where the document does not say.
fn coa_secret_of(document: &Value) -> ArrayVec<u8, 64>
    requires sound { IsSound (view document.now) }
    requires there { IsSoundAs (view document.now) (Key.Of Field.CoaSecret 0) (OctetText 64) }
    ensures { StandsOr (view document.now) (Key.Of Field.CoaSecret 0) (λ d. IsOctets 64 d result)
        (StandsAt (view document.now) (Key.Of Field.RadiusSecret 0) (λ d. IsOctets 64 d result)) }
{
    match secret_or_none(document, Key::Of(Field::CoaSecret, 0)) {
        Some(secret) => secret,
        None => secret_of(document, Key::Of(Field::RadiusSecret, 0)),
    }
}
