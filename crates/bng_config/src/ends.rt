//! The ends of the sockets to the core and to Control.
ghost use Rattle.toml.specs.View.{view};
ghost use Rattle.bng_schema.specs.Checks.{IsSound};
ghost use Rattle.bng_config.specs.Ends.{AreEnds};

use crate::values::peer_of;
use bng_base::Peer;
use bng_schema::{Field, Key};
use toml::Value;

/// The ends of the sockets that there are once.
#[derive(Clone, Copy)]
pub(crate) struct Ends {
    pub core_local: Peer,
    pub core_peer: Peer,
    pub control_local: Peer,
}

/// The ends of a document that breaks no rule.
pub(crate) fn ends_of(document: &Value) -> Ends
    requires { IsSound (view document.now) }
    ensures { AreEnds (view document.now) result }
{
    let core_local = peer_of(document, Key::Of(Field::CoreLocal, 0));
    let core_peer = peer_of(document, Key::Of(Field::CorePeer, 0));
    let control_local = peer_of(document, Key::Of(Field::ControlLocal, 0));
    Ends {
        core_local,
        core_peer,
        control_local,
    }
}
