//! L2TP: the gateway's end, and the access concentrators.
ghost use Rattle.std.specs.Prelude.{◌≡◌, ◌<◌, IfOk, IfErr};
ghost use Rattle.toml.specs.View.{view};
ghost use Rattle.bng_schema.specs.Keys.{entries};
ghost use Rattle.bng_schema.specs.Checks.{IsSound};
ghost use Rattle.bng_config.specs.Configuration.{AreEntries, IsLacAt, IsTunnel};

use crate::fault::ConfigError;
use crate::values::{address_of, peer_of, secret_or_none};
use bng_base::{Lac, Peer};
use bng_schema::{Field, Key, Table, entries_of};
use std::alloc::Global;
use toml::Value;

/// The gateway's end of L2TP, of a document that breaks no rule: none where there is no tunnel.
pub(crate) fn tunnel_of(document: &Value) -> Option<Peer>
    requires { IsSound (view document.now) }
    ensures { IsTunnel (view document.now) result }
{
    if entries_of(document, Table::Tunnel) == 0 {
        return None;
    }
    let local = peer_of(document, Key::Of(Field::TunnelLocal, 0));
    Some(local)
}

/// The L2TP access concentrators of a document that breaks no rule.
pub(crate) fn lacs_of(alloc: Global, document: &Value) -> Result<Vec<Lac>, ConfigError>
    requires { IsSound (view document.now) }
    ensures found { IfOk result (λ lacs. AreEntries (view document.now) Table.Lac (IsLacAt (view document.now)) lacs.items) }
    ensures memory { IfErr result (λ e. e ≡ ConfigError.OutOfMemory) }
{
    let count = entries_of(document, Table::Lac);
    let mut lacs = Vec::new(alloc);
    for place in 0..count {
        let lac = lac_at(document, place);
        lacs.push(lac)?;
    }
    Ok(lacs)
}

fn lac_at(document: &Value, place: usize) -> Lac
    requires sound { IsSound (view document.now) }
    requires there { place < entries (view document.now) Table.Lac }
    ensures { IsLacAt (view document.now) place result }
{
    let ip = address_of(document, Key::Of(Field::LacIp, place));
    let secret = secret_or_none(document, Key::Of(Field::LacSecret, place));
    Lac { ip, secret }
}
