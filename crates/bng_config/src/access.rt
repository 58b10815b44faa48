//! The access ports.
ghost use Rattle.std.specs.Prelude.{◌≡◌, ◌<◌, IfOk, IfErr};
ghost use Rattle.toml.specs.View.{view};
ghost use Rattle.bng_schema.specs.Keys.{entries};
ghost use Rattle.bng_schema.specs.Checks.{IsSound};
ghost use Rattle.bng_config.specs.Configuration.{AreEntries, IsPort};

use crate::fault::ConfigError;
use crate::values::{mac_of, peer_of};
use bng_base::AccessPort;
use bng_schema::{Field, Key, Table, entries_of};
use std::alloc::Global;
use toml::Value;

/// The access ports of a document that breaks no rule.
pub(crate) fn ports_of(alloc: Global, document: &Value) -> Result<Vec<AccessPort>, ConfigError>
    requires { IsSound (view document.now) }
    ensures found { IfOk result (λ ports. AreEntries (view document.now) Table.Access (IsPort (view document.now)) ports.items) }
    ensures memory { IfErr result (λ e. e ≡ ConfigError.OutOfMemory) }
{
    let count = entries_of(document, Table::Access);
    let mut ports = Vec::new(alloc);
    for place in 0..count {
        let port = port_at(document, place);
        ports.push(port)?;
    }
    Ok(ports)
}

fn port_at(document: &Value, place: usize) -> AccessPort
    requires sound { IsSound (view document.now) }
    requires there { place < entries (view document.now) Table.Access }
    ensures { IsPort (view document.now) place result }
{
    let local = peer_of(document, Key::Of(Field::AccessLocal, place));
    let peer = peer_of(document, Key::Of(Field::AccessPeer, place));
    let mac = mac_of(document, Key::Of(Field::AccessMac, place));
    AccessPort { local, peer, mac }
}
